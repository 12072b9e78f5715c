//! Runs the commands of transcripts over files in memory, and tells those that answer otherwise
//! than written there.
//!
//! A transcript gives files and has commands run, each in a new folder of the files that are given
//! before it. Behind a command stand all lines that it prints, its exit status and each file that
//! it creates. `line` tells the lines by how they begin; `comparing` takes them one by one from
//! what came, and nothing may be left.
#![tactic(auto)]

mod bytes;
mod comparing;
mod fault;
mod given;
mod line;
mod outcome;
mod telling;

use comparing::compare;
use fault::Fault;
use given::give;
use host::MemoryHost;
use line::{Line, read_line};
use outcome::run;
use session::Sink;
use std::process::ExitCode;
use std::{env, fs, io};
use telling::{Place, tell, tell_counts, tell_outcome};

// Whether the file of this place can be given, which is then done.
fn try_file(
    rt: &HostRuntime,
    given: &mut MemoryHost,
    file: &str,
    at: &Place<'_>,
) -> io::Result<bool> {
    match give(rt.alloc(), given, file, at.lines) {
        Ok(()) => Ok(true),
        Err(wrong) => {
            tell(rt, at, wrong)?;
            Ok(false)
        }
    }
}

// Whether the command of this place answers as wanted.
fn try_command(
    rt: &HostRuntime,
    given: &MemoryHost,
    words: &str,
    at: &Place<'_>,
) -> io::Result<bool> {
    let outcome = run(rt.alloc(), words, given)?;
    match compare(rt.alloc(), &outcome, given, at.lines) {
        Ok(()) => Ok(true),
        Err(wrong) => {
            tell(rt, at, wrong)?;
            tell_outcome(rt, &outcome)?;
            Ok(false)
        }
    }
}

// Whether all commands of a transcript answer as wanted, which is told. Each of its lines belongs
// to the file or to the command that is named before it.
fn try_lines(rt: &HostRuntime, name: &str, lines: &[&str]) -> io::Result<bool> {
    let mut given = MemoryHost::new(rt.alloc(), 7, Sink::new(rt.alloc()));
    let mut commands = 0usize;
    let mut wrong = 0usize;
    for (place, line) in lines.iter().enumerate() {
        let lines = lines.get(place..).unwrap_or(&[]);
        let at = Place { name, place, lines };
        let right = match read_line(line) {
            Some(Line::Given(file)) => try_file(rt, &mut given, file, &at)?,
            Some(Line::Command(words)) => {
                commands = commands.saturating_add(1);
                try_command(rt, &given, words, &at)?
            }
            Some(Line::Comment) => true,
            _ if commands > 0 || !given.files().is_empty() => true,
            _ => {
                tell(rt, &at, Fault::Misplaced.here())?;
                false
            }
        };
        if !right {
            wrong = wrong.saturating_add(1);
        }
    }
    tell_counts(rt, name, commands, wrong)?;
    Ok(wrong == 0 && commands > 0)
}

// Whether all commands of the transcripts that are named on the command line answer as wanted.
fn try_all(rt: &HostRuntime) -> io::Result<bool> {
    let mut all = true;
    for name in env::args(rt)?.skip(1) {
        let text = fs::read_to_string(rt, name.as_str())?;
        let lines: Vec<&str> = text.lines().collect(rt.alloc())?;
        if !try_lines(rt, name.as_str(), lines.as_slice())? {
            all = false;
        }
    }
    Ok(all)
}

fn main(rt: HostRuntime) -> io::Result<ExitCode> {
    if try_all(&rt)? {
        Ok(ExitCode::SUCCESS)
    } else {
        Ok(ExitCode::FAILURE)
    }
}
