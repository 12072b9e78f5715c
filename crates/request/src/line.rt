//! Command lines.
ghost use Rattle.std.specs.Prelude.{map};
ghost use Rattle.request.specs.Grammar.{IsOrders};
ghost use Rattle.request.specs.Requests.{Answers};
ghost use Rattle.request.specs.UsageOf.{IsUsageOf};

use crate::grammar::grammar;
use crate::matched::matched_line;
use crate::requests::CommandLine;
use crate::usage::Usage;
use clap::Error;
use clap::error::ErrorKind;
use std::alloc::Global;

fn usage_of<'a>(error: Error) -> Usage<'a>
    ensures { IsUsageOf error result }
{
    match error.kind() {
        ErrorKind::DisplayHelp | ErrorKind::DisplayVersion => Usage::Help(error),
        ErrorKind::OutOfMemory => Usage::NoMemory,
        _ => Usage::Line(error),
    }
}

/// What the words of a command line ask for, the first of which is the program's name. It borrows
/// its texts from them. Any words may be given.
///
/// An error is `Help` where the words ask for help or the version, `Line` where the grammar refuses
/// them, `Places` where they tell `drop` no places or a word in a place's stead tells none, and
/// `NoMemory` where there is no memory.
pub fn command_line<'a>(alloc: Global, words: &'a [&'a str]) -> Result<CommandLine<'a>, Usage<'a>>
    // The command that the grammar reads from the words where they have no fault, else why they are
    // none; or no memory.
    ensures { (orders : _)
        × IsOrders orders
        × Answers orders (map (λ word. word.now) words.now) result }
{
    let Ok(grammar) = grammar(alloc) else {
        return Err(Usage::NoMemory);
    };
    match grammar.try_get_matches_from(words) {
        Ok(matches) => matched_line(alloc, &matches),
        Err(error) => Err(usage_of(error)),
    }
}
