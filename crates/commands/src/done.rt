//! What a command has done.
ghost use Rattle.std.specs.Prelude.{◌≡◌, ◌≤◌};
ghost use Rattle.commands.specs.declared.done.Told.TheVariants.{Count};

use crate::print::Text;
use block_recovery::DecodeFault;
use cert::{Reason, Verdict};
use session::FrameFault;

/// What is to be printed.
#[derive(Drop)]
pub enum Told {
    /// Lines, with their line feeds.
    Lines(Text),
    /// A line that counts something: a name, the number behind a space, and of what.
    Count(&'static str, u64, &'static str),
}

/// Why a command ended as it did, for a sentence beside its lines. Nothing is promised of it.
#[derive(Clone, Copy)]
pub enum Why {
    /// Its lines and its status say all.
    Plain,
    /// Yes: so many datagrams are repeats of others, any so many may be missed, and so many
    /// neighbours.
    Yes {
        repeats: usize,
        margin: usize,
        burst: usize,
    },
    No(Reason),
    /// A session was written that has no repair symbol of some block.
    Unprotected,
    /// Some datagrams that were shown are no packets.
    Strays,
    /// The session was kept up to a frame with this fault.
    Cut(FrameFault),
    /// Nothing is known of the object that was to be received.
    Empty,
    /// The first block of it that is short.
    Missing {
        block: u32,
        have: usize,
        need: usize,
    },
    /// The datagrams are of no object.
    NoObject(DecodeFault),
    /// The object is there, and so many datagrams contradicted those that came before.
    Contradicted(u64),
}

/// Why a check ends with a verdict.
impl From<&Verdict> for Why {
    fn from(verdict: &Verdict) -> Self {
        match verdict {
            Verdict::Yes(report) => Why::Yes {
                repeats: report.repeats,
                margin: report.margin,
                burst: report.burst,
            },
            Verdict::No(reason) => Why::No(*reason),
        }
    }
}

/// How a command ended.
#[derive(Clone, Copy)]
pub struct Ended {
    pub status: u8,
    pub why: Why,
    ghost small: { status ≤ 3 },
}

/// What was done: its lines, its status, and why it has that.
#[derive(Drop)]
pub struct Done {
    pub told: Told,
    pub status: u8,
    pub why: Why,
    ghost small: { status ≤ 3 },
}

impl Done {
    /// A file was made of so many things.
    pub fn counted(name: &'static str, count: u64, of: &'static str) -> Done
        ensures told { result.told ≡ Count name.entry count of.entry }
        ensures status { result.status ≡ 0 }
    {
        Done {
            told: Told::Count(name, count, of),
            status: 0,
            why: Why::Plain,
        }
    }
}
