//! The sheet.
ghost use Rattle.std.specs.Prelude.{IfOk, length, string_bytes};
ghost use Rattle.chart.specs.Texts.{Puts};
ghost use Rattle.picture.specs.Sheets.{IsPicture, sheet_text};

use crate::bursts::{lengths_of, put_bursts, put_shortest, shortest_of};
use crate::heading::{put_head, put_heading, put_numbers, put_verdict};
use crate::spares::{put_block, put_spares, spares_of, weakest_of};
use crate::ticks::{put_carriers, put_kill};
use chart::Canvas;
use losses::Run;
use std::alloc::{AllocError, Global};

/// What is drawn.
#[derive(Clone, Copy)]
pub struct Sheet<'a> {
    /// The name of the session.
    pub session: &'a str,
    /// The name of the object.
    pub object: &'a str,
    /// The session's identifier.
    pub tsi: u64,
    /// The object's identifier.
    pub toi: u128,
    /// How many bytes the object has.
    pub object_length: u64,
    /// How many datagrams the session has.
    pub datagrams: usize,
    /// How many symbols each block needs, and how many it has.
    pub blocks: &'a [(usize, usize)],
    /// The places of the carriers, rising.
    pub carriers: &'a [usize],
    /// How many datagrams may be missed, whichever they are.
    pub margin: usize,
    /// The places of one datagram more, rising, that must not be missed together.
    pub kill: &'a [usize],
    /// The block that they leave short; none where they leave no carrier.
    pub kill_block: Option<usize>,
    /// How many neighbours may be missed, wherever they stand.
    pub burst: usize,
    /// The longest run from each place that may be missed; none where all to the end may be.
    pub runs: &'a [Option<Run>],
}

/// The text of an SVG that shows the sheet, to its end. Its title and its description say the
/// margin, the burst and the kill. Want of memory is the only error.
pub fn draw(alloc: Global, sheet: &Sheet<'_>) -> Result<String, AllocError>
    ensures { IfOk result (λ text. IsPicture sheet.now.margin sheet.now.burst
        (length sheet.now.kill.now) sheet.now.kill_block (string_bytes text)) }
{
    let spares = spares_of(alloc, sheet.blocks)?;
    let lengths = lengths_of(alloc, sheet.runs)?;
    let numbers = numbers_of(alloc, sheet, spares.as_slice(), lengths.as_slice())?;
    let panels = panels_of(alloc, sheet, spares.as_slice(), lengths.as_slice())?;
    let mut canvas = Canvas::new(alloc);
    put_sheet(&mut canvas, sheet, numbers.as_str(), panels.as_str());
    canvas.finish()
}

// Puts the whole document, round the numbers of its description and the panels.
fn put_sheet(canvas: &mut Canvas, sheet: &Sheet<'_>, numbers: &str, panels: &str)
    ensures { Puts canvas.old canvas.new
        (sheet_text sheet.now.margin sheet.now.burst (length sheet.now.kill.now)
        sheet.now.kill_block numbers.now panels.now) }
{
    put_head(canvas);
    canvas.put("<title id=\"title\">yes: ");
    put_verdict(canvas, sheet);
    canvas.put("</title>\n<desc id=\"desc\">");
    canvas.put(numbers);
    canvas.put("; ");
    put_kill(canvas, sheet);
    canvas.put(panels);
    canvas.put("</svg>\n");
}

// The numbers of the description: the session's, and those of the weakest block and the shortest
// run.
fn numbers_of(
    alloc: Global,
    sheet: &Sheet<'_>,
    spares: &[usize],
    lengths: &[usize],
) -> Result<String, AllocError> {
    let mut canvas = Canvas::new(alloc);
    put_numbers(&mut canvas, sheet);
    if let Some(block) = weakest_of(spares) {
        canvas.put("; ");
        put_block(&mut canvas, sheet.blocks, block);
    }
    if let Some(shortest) = shortest_of(sheet.runs, lengths) {
        canvas.put("; ");
        put_shortest(&mut canvas, shortest);
    }
    canvas.finish()
}

// The rest of the description, the words above the panels, and the panels.
fn panels_of(
    alloc: Global,
    sheet: &Sheet<'_>,
    spares: &[usize],
    lengths: &[usize],
) -> Result<String, AllocError> {
    let mut canvas = Canvas::new(alloc);
    canvas.put("; ");
    put_carriers(&mut canvas, sheet);
    canvas.put(".</desc>\n");
    put_heading(&mut canvas, sheet);
    put_spares(&mut canvas, sheet.blocks, spares);
    put_bursts(&mut canvas, sheet, lengths);
    canvas.finish()
}
