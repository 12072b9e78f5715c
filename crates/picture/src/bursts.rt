//! The panel of the longest runs of neighbours that may be missed.
ghost use Rattle.std.specs.Prelude.{◌<◌, length};
ghost use Rattle.chart.specs.Texts.{Puts};
ghost use Rattle.picture.specs.Sheets.{harm_text};

use crate::sheet::Sheet;
use crate::ticks::put_places;
use chart::{
    Axis, Bar, Canvas, MARKED, Panel, SMALL, SMALL_END, Scale, TITLE, column_of, place_of,
};
use losses::Run;
use std::alloc::{AllocError, Global};

/// Where the panel stands.
pub(crate) const PANEL: Panel = Panel {
    left: 160,
    top: 814,
    width: 1740,
    height: 300,
};

/// The most columns, one for each pixel of the panel's width.
const COLUMNS: usize = 870;

/// The first of the shortest runs, and the place where it begins.
#[derive(Clone, Copy)]
pub(crate) struct Shortest {
    pub(crate) place: usize,
    pub(crate) run: Run,
}

/// How long the runs are, up to the first place from which all may be missed.
pub(crate) fn lengths_of(alloc: Global, runs: &[Option<Run>]) -> Result<Vec<usize>, AllocError> {
    let mut lengths = Vec::with_capacity(alloc, runs.len())?;
    for run in runs {
        match run {
            Some(run) => lengths.push(run.length)?,
            None => break,
        }
    }
    Ok(lengths)
}

/// The first of the shortest runs.
pub(crate) fn shortest_of(runs: &[Option<Run>], lengths: &[usize]) -> Option<Shortest> {
    if lengths.is_empty() {
        return None;
    }
    let place = place_of(lengths, column_of(lengths, 1, 0).least)?;
    match runs.get(place) {
        Some(Some(run)) => Some(Shortest { place, run: *run }),
        _ => None,
    }
}

/// Puts the panel.
pub(crate) fn put_bursts(canvas: &mut Canvas, sheet: &Sheet<'_>, lengths: &[usize]) {
    let scale = PANEL.scale(sheet.runs.len());
    put_title(canvas, lengths.len());
    put_free(canvas, scale, lengths.len());
    put_runs(canvas, sheet, scale, lengths);
    put_ends(canvas, sheet.runs.len());
    put_places(canvas, sheet);
}

fn put_title(canvas: &mut Canvas, count: usize) {
    canvas.words(
        PANEL.left(),
        786,
        TITLE,
        if count <= COLUMNS {
            "Longest run of neighbours that may be missed, by the place where it begins"
        } else {
            concat!(
                "Longest run of neighbours that may be missed, by the place where it begins ",
                "(the least of each pixel)",
            )
        },
    );
}

// Shades the places from which all may be missed, and says so beneath the panel.
fn put_free(canvas: &mut Canvas, scale: Scale, first: usize) {
    if first >= scale.count {
        return;
    }
    let x = scale.at(first);
    let shade = Bar {
        x,
        y: usize::from(PANEL.top),
        width: PANEL.right().saturating_sub(x),
        height: usize::from(PANEL.height),
    };
    canvas.lone_bar("fill=\"#ececec\"", shade);
    canvas.begin_words(PANEL.left(), 1364, SMALL);
    canvas.put("grey: from place ");
    canvas.thousands(first);
    canvas.put(" on all that follow may be missed");
    canvas.end_words();
}

// Puts the lines, the curve and the mark of the shortest.
fn put_runs(canvas: &mut Canvas, sheet: &Sheet<'_>, scale: Scale, lengths: &[usize]) {
    if lengths.is_empty() {
        return;
    }
    let axis = Axis::up_to(column_of(lengths, 1, 0).greatest);
    let shortest = shortest_of(sheet.runs, lengths);
    if let Some(shortest) = shortest {
        put_shade(canvas, scale, shortest);
    }
    PANEL.put_values(canvas, axis);
    PANEL.put_lines(canvas, axis);
    put_curve(canvas, scale, lengths, axis);
    if let Some(shortest) = shortest {
        put_mark(canvas, scale, shortest, axis);
    }
}

// Puts the least length of each column, as steps.
fn put_curve(canvas: &mut Canvas, scale: Scale, lengths: &[usize], axis: Axis) {
    let columns = lengths.len().min(COLUMNS);
    canvas.put("<path fill=\"none\" stroke=\"#2f6ca8\" stroke-width=\"3\" d=\"");
    for number in 0..columns {
        let column = column_of(lengths, columns, number);
        canvas.put(if number == 0 { "M" } else { "L" });
        canvas.number(scale.at(column.first));
        canvas.put(" ");
        canvas.number(PANEL.y(axis, column.least));
        canvas.put("H");
        canvas.number(scale.at(column.end));
    }
    canvas.put("\"/>\n");
}

// Shades the shortest run, with the place more that does harm.
fn put_shade(canvas: &mut Canvas, scale: Scale, shortest: Shortest) {
    let end = shortest
        .place
        .saturating_add(shortest.run.length)
        .saturating_add(1);
    let x = scale.at(shortest.place);
    let shade = Bar {
        x,
        y: usize::from(PANEL.top),
        width: scale.at(end).saturating_sub(x).max(3),
        height: usize::from(PANEL.height),
    };
    canvas.lone_bar("fill=\"#a0001c\" fill-opacity=\"0.14\"", shade);
}

// Puts a ring round the shortest run's length, and says beneath the panel what it is.
fn put_mark(canvas: &mut Canvas, scale: Scale, shortest: Shortest, axis: Axis) {
    let x = scale.at(shortest.place);
    canvas.ring(x, PANEL.y(axis, shortest.run.length));
    canvas.ring(PANEL.left().saturating_add(9), 1248);
    canvas.begin_words(PANEL.left().saturating_add(32), 1256, MARKED);
    put_shortest(canvas, shortest);
    canvas.end_words();
}

/// Puts what is said of the shortest run.
pub(crate) fn put_shortest(canvas: &mut Canvas, shortest: Shortest) {
    canvas.put("shortest: ");
    canvas.count(shortest.run.length, "neighbour", "neighbours");
    canvas.put(" may be missed from place ");
    canvas.thousands(shortest.place);
    canvas.put(" on, and one more ");
    put_harm(canvas, shortest.run.block);
}

/// Puts what a loss does: the block that it leaves short, or else that no carrier is left.
pub(crate) fn put_harm(canvas: &mut Canvas, block: Option<usize>)
    ensures { Puts canvas.old canvas.new (harm_text block) }
{
    match block {
        Some(block) => {
            canvas.put("leaves block ");
            canvas.thousands(block);
            canvas.put(" short");
        }
        None => canvas.put("leaves no carrier"),
    }
}

// Puts the names of the first and the last place.
fn put_ends(canvas: &mut Canvas, count: usize) {
    canvas.words(PANEL.left(), 1148, SMALL, "place 0");
    if count > 1 {
        canvas.begin_words(PANEL.right(), 1148, SMALL_END);
        canvas.put("place ");
        canvas.thousands(count.saturating_sub(1));
        canvas.end_words();
    }
}
