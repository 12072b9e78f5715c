//! What is printed where something is wrong.
use crate::fault::Wrong;
use crate::outcome::Outcome;
use std::io;

/// Where the lines that are looked at stand: from `place` on, counted from 0, in the transcript of
/// this name.
#[derive(Clone, Copy)]
pub(crate) struct Place<'a> {
    pub(crate) name: &'a str,
    pub(crate) place: usize,
    pub(crate) lines: &'a [&'a str],
}

/// Tells a wrong line: its transcript, its number, counted from 1, what is wrong and the line
/// itself.
pub(crate) fn tell(rt: &HostRuntime, at: &Place<'_>, wrong: Wrong) -> io::Result<()> {
    let name = at.name;
    let number = at.place.saturating_add(wrong.place).saturating_add(1);
    let fault = wrong.fault.text();
    println!(rt; "{name}, line {number}: {fault}:")?;
    match at.lines.get(wrong.place) {
        Some(line) => println!(rt; "{line}"),
        None => Ok(()),
    }
}

/// Tells the whole answer to a command.
pub(crate) fn tell_outcome(rt: &HostRuntime, outcome: &Outcome) -> io::Result<()> {
    let status = outcome.status;
    println!(rt; "The command ended with {status}, and printed:")?;
    print!(rt; "{}", outcome.output().unwrap_or("(no text)\n"))?;
    print!(rt; "{}", outcome.refusal().unwrap_or("(no text)\n"))?;
    for (name, bytes) in outcome.created() {
        print!(rt; "It created {name}:")?;
        tell_bytes(rt, bytes.as_slice())?;
    }
    Ok(())
}

fn tell_bytes(rt: &HostRuntime, bytes: &[u8]) -> io::Result<()> {
    for byte in bytes {
        print!(rt; " {byte:02X}")?;
    }
    println!(rt;)
}

/// Tells how many commands a transcript has, and how many of them and of its other lines are wrong.
pub(crate) fn tell_counts(
    rt: &HostRuntime,
    name: &str,
    commands: usize,
    wrong: usize,
) -> io::Result<()> {
    if commands == 0 {
        println!(rt; "{name}: no command")
    } else if wrong == 0 {
        println!(rt; "{name}: {commands} commands as they should be")
    } else {
        println!(rt; "{name}: {commands} commands, {wrong} wrong")
    }
}
