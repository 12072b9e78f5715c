//! How fast sums of products are, and values at all points.
ghost use Rattle.std.specs.Prelude.{◌≡◌, ◌≤◌, ◌*◌, length};

use evaluation::evaluate;
use gf256::add_products;
use std::io;
use std::time::Instant;

/// The bytes of a row.
const WIDTH: usize = 1024;

/// The sources of each product.
const COUNT: usize = 128;

/// How often a thing is done, of which the fastest counts.
const ROUNDS: usize = 40;

/// Prints how many millions of bytes a second are multiplied and added, for several numbers of
/// outputs; and how many millions of bytes of coefficients a second are evaluated at the points.
pub(crate) fn print_times(rt: &HostRuntime) -> io::Result<()> {
    print_products(rt, 1)?;
    print_products(rt, 2)?;
    print_products(rt, 8)?;
    print_products(rt, 32)?;
    print_products(rt, 128)?;
    print_values(rt, 32, 40)?;
    print_values(rt, 64, 96)?;
    print_values(rt, 128, 160)?;
    print_values(rt, 223, 255)
}

fn print_products(rt: &HostRuntime, rows: usize) -> io::Result<()>
    requires { rows ≤ 255 }
{
    let mut outputs = Vec::from_elem(rt.alloc(), 0u8, rows * WIDTH)?;
    let sources = Vec::from_elem(rt.alloc(), 0x53u8, COUNT * WIDTH)?;
    let coefficients = Vec::from_elem(rt.alloc(), 0xCAu8, rows * COUNT)?;
    let least = fastest_products(rt, &mut outputs, rows, &coefficients, &sources)?;
    let rate = rate((rows * COUNT * WIDTH) as u64, least);
    println!(rt; "{rows} outputs of {COUNT} sources: {rate} MB/s")
}

fn fastest_products(
    rt: &HostRuntime,
    outputs: &mut [u8],
    rows: usize,
    coefficients: &[u8],
    sources: &[u8],
) -> io::Result<u128>
    requires outputs { length outputs.old ≡ rows * WIDTH }
    requires coefficients { length coefficients.now ≡ rows * COUNT }
{
    let mut least = u128::MAX;
    for _ in 0..ROUNDS {
        let start = Instant::now(rt)?;
        add_products(outputs, rows, coefficients, sources, COUNT, WIDTH, WIDTH);
        least = least.min(start.elapsed(rt)?.as_nanos());
    }
    Ok(least)
}

fn print_values(rt: &HostRuntime, k: usize, n: usize) -> io::Result<()>
    requires few { k ≤ 255 }
    requires points { n ≤ 255 }
{
    let mut values = Vec::from_elem(rt.alloc(), 0u8, n * WIDTH)?;
    let coefficients = Vec::from_elem(rt.alloc(), 0x53u8, k * WIDTH)?;
    let least = fastest_values(rt, &mut values, n, &coefficients, k)?;
    let rate = rate((k * WIDTH) as u64, least);
    println!(rt; "{k} coefficients at {n} points: {rate} MB/s")
}

fn fastest_values(
    rt: &HostRuntime,
    values: &mut [u8],
    n: usize,
    coefficients: &[u8],
    k: usize,
) -> io::Result<u128>
    requires few { k ≤ 255 }
    requires points { n ≤ 255 }
    requires values { length values.old ≡ n * WIDTH }
    requires coefficients { length coefficients.now ≡ k * WIDTH }
{
    let mut least = u128::MAX;
    for _ in 0..ROUNDS {
        let start = Instant::now(rt)?;
        evaluate(values, 0, n, coefficients, k, WIDTH);
        least = least.min(start.elapsed(rt)?.as_nanos());
    }
    Ok(least)
}

// Millions of bytes a second.
fn rate(bytes: u64, nanoseconds: u128) -> u128 {
    u128::from(bytes) * 1000 / nanoseconds.max(1)
}
