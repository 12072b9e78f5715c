//! Inverts the Vandermonde matrix of all 255 points, to be timed from outside, and multiplies a row
//! of bytes. With a word on the command line it also tells how fast the kernel is.
#![tactic(auto)]

mod times;

use elim::{ElimError, invert, vandermonde};
use gf256::{Gf, add_scaled, point};
use std::io;
use times::print_times;

fn main(rt: HostRuntime) -> io::Result<()> {
    let alloc = rt.alloc();
    let mut points = [Gf(0); 255];
    for esi in 0..255u8 {
        points[usize::from(esi)] = point(esi);
    }
    let matrix = vandermonde(alloc, &points, 255)?;
    match invert(alloc, &matrix) {
        Ok(inverse) => println!(rt; "inverted {} rows", inverse.rows())?,
        Err(ElimError::Singular) => println!(rt; "singular")?,
        Err(ElimError::NoMemory) => println!(rt; "no memory")?,
    }
    println!(rt; "{} points times alpha are the next point", next_points())?;
    if has_words(&rt)? {
        print_times(&rt)?;
    }
    Ok(())
}

/// Whether the command line has a word behind the program's name.
fn has_words(rt: &HostRuntime) -> io::Result<bool> {
    let words: Vec<String> = std::env::args(rt)?.collect(rt.alloc())?;
    Ok(words.len() > 1)
}

/// How many points but the last, in one row times alpha, are the next point.
fn next_points() -> usize {
    let mut row = [0u8; 255];
    for esi in 0..255u8 {
        row[usize::from(esi)] = point(esi).0;
    }
    let mut scaled = [0u8; 255];
    add_scaled(&mut scaled, Gf::alpha(), &row);
    (0..254).filter(|&i| scaled[i] == row[i + 1]).count()
}
