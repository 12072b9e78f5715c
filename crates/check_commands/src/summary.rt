//! The few lines of a yes that are printed where a summary is asked for.
ghost use Rattle.std.specs.Prelude.{◌≡◌, ◌-◌, ◌<◌, ◌++◌, length, codes, IfOk, OnOk};
ghost use Rattle.commands.specs.Summary.{IsWeakest, IsSummary, burst_text, short_words};
ghost use Rattle.check_commands.specs.Summing.{CanBeSummed};

use crate::check::{block_line, number_line};
use cert::Report;
use commands::Text;
use std::alloc::{AllocError, Global};

// How many symbols a block has beyond those that it needs.
fn spare(counts: (usize, usize)) -> usize
    ensures { result ≡ counts.1 - counts.0 }
{
    let (need, have) = counts;
    have.saturating_sub(need)
}

// The block with the fewest symbols to spare, the first of such blocks.
fn weakest(blocks: &[(usize, usize)]) -> usize
    requires { 0 < length blocks.now }
    ensures { IsWeakest blocks.now result }
{
    let mut weakest = 0;
    let mut least = spare(blocks[0]);
    for block in 1..blocks.len() {
        let here = spare(blocks[block]);
        if here < least {
            weakest = block;
            least = here;
        }
    }
    weakest
}

// Puts last what is short.
fn put_short(line: &mut Text, block: Option<usize>) -> Result<(), AllocError>
    ensures { OnOk result (line.new ≡ line.old ++ short_words block) }
{
    match block {
        Some(block) => line.named(" block", block),
        None => line.text(" carriers"),
    }
}

// The line of the block that the kill leaves short.
fn kill_line(alloc: Global, block: Option<usize>) -> Result<Text, AllocError>
    ensures { IfOk result (λ line. line ≡ codes "kill" ++ short_words block) }
{
    let mut line = Text::new(alloc);
    line.text("kill")?;
    put_short(&mut line, block)?;
    Ok(line)
}

// The line of the burst: from which place on one neighbour more leaves what short.
fn burst_line(alloc: Global, report: &Report) -> Result<Text, AllocError>
    ensures { IfOk result (λ line. line ≡ burst_text report.now) }
{
    let mut line = Text::new(alloc);
    line.named("burst", report.burst)?;
    line.named(" place", report.burst_place)?;
    put_short(&mut line, report.burst_block)?;
    Ok(line)
}

/// The lines of a summary.
pub(crate) fn summary_lines(alloc: Global, report: &Report) -> Result<Text, AllocError>
    requires { CanBeSummed report.now }
    ensures { IfOk result (IsSummary report.now) }
{
    let block = weakest(&report.blocks);
    let mut lines = Text::new(alloc);
    lines.text("yes\n")?;
    lines.put_line(&block_line(alloc, "weakest block", block, report.blocks[block])?)?;
    lines.put_line(&number_line(alloc, "carriers", report.carriers)?)?;
    lines.put_line(&number_line(alloc, "repeats", report.repeats)?)?;
    lines.put_line(&number_line(alloc, "margin", report.margin)?)?;
    lines.put_line(&kill_line(alloc, report.kill_block)?)?;
    lines.put_line(&burst_line(alloc, report)?)?;
    Ok(lines)
}
