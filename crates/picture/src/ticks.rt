//! Places beneath the panel of the runs: those whose loss does harm, and those that carry the FTI.
ghost use Rattle.std.specs.Prelude.{length};
ghost use Rattle.chart.specs.Texts.{Puts};
ghost use Rattle.picture.specs.Sheets.{kill_text};

use crate::bursts::{PANEL, put_harm};
use crate::sheet::Sheet;
use chart::{Canvas, MARKED, SMALL, SMALL_END};

/// Puts the rows of ticks, and what is said of them.
pub(crate) fn put_places(canvas: &mut Canvas, sheet: &Sheet<'_>) {
    let count = sheet.runs.len();
    put_row(canvas, sheet.kill, count, Row::KILL);
    canvas.begin_words(PANEL.left(), 1292, MARKED);
    put_kill(canvas, sheet);
    canvas.end_words();
    if sheet.carriers.len() != sheet.datagrams {
        put_row(canvas, sheet.carriers, count, Row::CARRIERS);
    }
    canvas.begin_words(PANEL.left(), 1328, SMALL);
    put_carriers(canvas, sheet);
    canvas.end_words();
}

/// Puts what is said of the kill.
pub(crate) fn put_kill(canvas: &mut Canvas, sheet: &Sheet<'_>)
    ensures { Puts canvas.old canvas.new
        (kill_text (length sheet.now.kill.now) sheet.now.kill_block) }
{
    if sheet.kill.len() == 1 {
        canvas.put("kill: to miss this datagram ");
    } else {
        canvas.put("kill: to miss these ");
        canvas.thousands(sheet.kill.len());
        canvas.put(" datagrams ");
    }
    put_harm(canvas, sheet.kill_block);
}

/// Puts what is said of the carriers.
pub(crate) fn put_carriers(canvas: &mut Canvas, sheet: &Sheet<'_>) {
    if sheet.carriers.len() == sheet.datagrams {
        canvas.put("carriers: every datagram carries the FTI");
        return;
    }
    canvas.put("carriers: ");
    canvas.thousands(sheet.carriers.len());
    canvas.put(" of ");
    canvas.count(sheet.datagrams, "datagram", "datagrams");
    canvas.put(" carry the FTI");
}

/// A row of ticks.
#[derive(Clone, Copy)]
struct Row {
    name: &'static str,
    look: &'static str,
    top: usize,
}

impl Row {
    const KILL: Row = Row {
        name: "kill",
        look: "stroke=\"#a0001c\" stroke-width=\"3\"",
        top: 1160,
    };

    const CARRIERS: Row = Row {
        name: "carriers",
        look: "stroke=\"#444\" stroke-width=\"1\"",
        top: 1194,
    };
}

// Puts a row's name and its ticks, of which at most one is in each pixel.
fn put_row(canvas: &mut Canvas, places: &[usize], count: usize, row: Row) {
    let name_end = PANEL.left().saturating_sub(14);
    canvas.words(name_end, row.top.saturating_add(20), SMALL_END, row.name);
    canvas.put("<path ");
    canvas.put(row.look);
    canvas.put(" d=\"");
    let scale = PANEL.scale(count);
    let mut free = 0usize;
    for place in places {
        let x = scale.at(*place);
        if x >= free {
            put_tick(canvas, x, row.top);
            free = x.saturating_add(2);
        }
    }
    canvas.put("\"/>\n");
}

fn put_tick(canvas: &mut Canvas, x: usize, top: usize) {
    canvas.put("M");
    canvas.number(x);
    canvas.put(" ");
    canvas.number(top);
    canvas.put("v24");
}
