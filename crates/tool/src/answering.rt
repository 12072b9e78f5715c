//! The answer to a command line.
ghost use Rattle.std.specs.Prelude.{◌≡◌, ◌<◌, ◌⊎◌, true, codes, length, OnOk, OnErr};
ghost use Rattle.std.specs.Io.KnownBytes.{Appends};
ghost use Rattle.host.specs.World.{KeepsFiles};
ghost use Rattle.tool.specs.Answering.{IsAnswer, IsOutcomeOf, Explains, IsToldRefused, errors_of};

use crate::running::{MEMORY_LINE, Settled, run, tell_memory};
use commands::Why;
use host::Host;
use request::{CommandLine, Usage, command_line};
use session::{Failed, Write, write_all};
use std::alloc::{AllocError, Global};

// The status where a command line is refused.
const REFUSED: u8 = 2;

/// Does what the words of a command line ask for, the first of which is the program's name, and
/// answers the status: that of `run` where they make a request; 0 after help or the version, which
/// are printed; 2 where the line is refused, with the reason to `err`, whether that can be written
/// or not; 1 after `fault memory`, or where nothing can be printed.
pub fn answer<'a, H: Host, E: Write>(
    alloc: Global,
    words: &'a [&'a str],
    host: &mut H,
    err: &mut E,
) -> u8
    ensures { IsAnswer words.now (H.world host.old) (H.world host.new)
        (errors_of (E.contents err.old) (E.contents err.new) (E.failed err.new)) result }
{
    let line = command_line(alloc, words);
    carry_out(alloc, &line, host, err).status
}

/// Does what a command line asks for that was read, as `answer` does, and also answers why the
/// status is what it is. Of a line that is refused the why is plain.
pub fn carry_out<'a, H: Host, E: Write>(
    alloc: Global,
    line: &Result<CommandLine<'a>, Usage<'a>>,
    host: &mut H,
    err: &mut E,
) -> Settled<'a>
    ensures { IsOutcomeOf line.now (H.world host.old) (H.world host.new)
        (errors_of (E.contents err.old) (E.contents err.new) (E.failed err.new)) result.status }
{
    match line {
        Ok(line) => run(alloc, host, &line.request),
        Err(usage) => Settled {
            status: explain(alloc, usage, host, err),
            why: Ok(Why::Plain),
        },
    }
}

// Tells why a command line makes no request, and answers the status.
fn explain<H: Host, E: Write>(alloc: Global, usage: &Usage<'_>, host: &mut H, err: &mut E) -> u8
    ensures { Explains usage.now (H.world host.old) (H.world host.new)
        (errors_of (E.contents err.old) (E.contents err.new) (E.failed err.new)) result }
{
    match usage {
        Usage::Help(error) => match error.to_string(alloc) {
            Ok(text) => match host.print(some_text(text.as_str()).as_bytes()) {
                Ok(()) => 0,
                Err(Failed) => 1,
            },
            Err(_) => refuse(host),
        },
        Usage::Line(error) => tell_refusal(error.to_string(alloc), host, err),
        Usage::Places(refusal) => tell_refusal(refusal.to_string(alloc), host, err),
        Usage::NoMemory => refuse(host),
    }
}

// This text, or another in place of none, as nothing is promised of texts of clap.
fn some_text<'t>(text: &'t str) -> &'t str
    ensures { 0 < length result.now }
{
    if text.is_empty() {
        "error: the command line is none that alcrs takes\n"
    } else {
        text
    }
}

// Tells this text of a refused line, if there was memory for it, and answers the status.
fn tell_refusal<H: Host, E: Write>(
    text: Result<String, AllocError>,
    host: &mut H,
    err: &mut E,
) -> u8
    ensures told { IsToldRefused (H.world host.old) (H.world host.new)
        (errors_of (E.contents err.old) (E.contents err.new) (E.failed err.new)) result }
    ensures files { KeepsFiles (H.world host.old) (H.world host.new) }
{
    match text {
        Ok(text) => {
            let _ = write_all(err, some_text(text.as_str()).as_bytes());
            REFUSED
        }
        Err(_) => refuse(host),
    }
}

/// Prints `fault memory`, for which it takes none, and answers the status, which is 1.
pub fn refuse<H: Host>(host: &mut H) -> u8
    ensures told { ((H.world host.new).failed ≡ true) ⊎ Appends (H.world host.old).printed
        (H.world host.new).printed (codes "fault memory\n") }
    ensures files { KeepsFiles (H.world host.old) (H.world host.new) }
    ensures status { result ≡ 1 }
{
    tell_memory(host);
    1
}

/// Prints `fault memory` to an output, where there is no host yet, and answers the status, which
/// is 1.
pub fn refuse_memory<W: Write>(out: &mut W) -> u8
    ensures told { (W.failed out.new ≡ true)
        ⊎ Appends (W.contents out.old) (W.contents out.new) (codes "fault memory\n") }
    ensures status { result ≡ 1 }
{
    let _ = write_all(out, MEMORY_LINE);
    1
}

/// The status of the program once its output was flushed: 1 where that has failed, for all that was
/// done.
pub fn status_after(status: u8, flushed: Result<(), Failed>) -> u8
    ensures ok { OnOk flushed (result ≡ status) }
    ensures err { OnErr flushed (result ≡ 1) }
{
    match flushed {
        Ok(()) => status,
        Err(Failed) => 1,
    }
}
