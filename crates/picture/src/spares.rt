//! The panel of the symbols that each block has to spare.
ghost use Rattle.std.specs.Prelude.{◌<◌};

use crate::histogram::put_histogram;
use chart::{
    Axis, Bar, Canvas, Column, MARKED, Panel, SMALL, SMALL_END, Scale, TITLE, column_of, place_of,
};
use std::alloc::{AllocError, Global};

/// Where the panel stands.
const PANEL: Panel = Panel {
    left: 160,
    top: 268,
    width: 1280,
    height: 340,
};

/// The most columns, one for each pixel of the panel's width.
const COLUMNS: usize = 640;

/// The width of the widest bar.
const WIDEST: usize = 160;

/// The most symbols that are drawn: no block has more to spare.
pub(crate) const MOST_SPARE: usize = 255;

/// How many symbols of each block are left when it has what it needs, none if it lacks some, and
/// 255 at most.
pub(crate) fn spares_of(
    alloc: Global,
    blocks: &[(usize, usize)],
) -> Result<Vec<usize>, AllocError> {
    let mut spares = Vec::with_capacity(alloc, blocks.len())?;
    for (need, have) in blocks {
        spares.push(have.saturating_sub(*need).min(MOST_SPARE))?;
    }
    Ok(spares)
}

/// Puts the panel, of what the blocks need and have, and of what they have to spare.
pub(crate) fn put_spares(canvas: &mut Canvas, blocks: &[(usize, usize)], spares: &[usize]) {
    if spares.is_empty() {
        return;
    }
    let whole = column_of(spares, 1, 0);
    let axis = Axis::up_to(whole.greatest);
    put_title(canvas, spares.len());
    PANEL.put_values(canvas, axis);
    PANEL.put_lines(canvas, axis);
    put_columns(canvas, spares, axis);
    put_ends(canvas, spares.len());
    put_weakest(canvas, blocks, spares, axis);
    put_histogram(canvas, spares, axis);
}

fn put_title(canvas: &mut Canvas, count: usize) {
    canvas.words(
        PANEL.left(),
        240,
        TITLE,
        if count <= COLUMNS {
            "Symbols to spare, by block"
        } else {
            "Symbols to spare, by block (dark: the fewest of neighbours, light: the most)"
        },
    );
}

// Puts the bars: behind, as high as the greatest value of each column, and before them as high as
// the least.
fn put_columns(canvas: &mut Canvas, spares: &[usize], axis: Axis) {
    let columns = spares.len().min(COLUMNS);
    let scale = PANEL.scale(spares.len());
    canvas.begin_bars("fill=\"#bcd4ec\"");
    for column in 0..columns {
        let column = column_of(spares, columns, column);
        canvas.bar(bar_of(scale, axis, column, column.greatest));
    }
    canvas.end_bars();
    canvas.begin_bars("fill=\"#2f6ca8\"");
    for column in 0..columns {
        let column = column_of(spares, columns, column);
        canvas.bar(bar_of(scale, axis, column, column.least));
    }
    canvas.end_bars();
}

// The bar of a column. A wide column leaves gaps.
fn bar_of(scale: Scale, axis: Axis, column: Column, value: usize) -> Bar {
    let x = scale.at(column.first);
    let width = scale.at(column.end).saturating_sub(x);
    let shown = width.saturating_sub(width / 10).min(WIDEST);
    Bar {
        x: x.saturating_add(width.saturating_sub(shown) / 2),
        y: PANEL.y(axis, value),
        width: shown,
        height: PANEL.height_of(axis, value),
    }
}

// Puts the names of the first and the last block.
fn put_ends(canvas: &mut Canvas, count: usize) {
    canvas.words(PANEL.left(), 642, SMALL, "block 0");
    if count > 1 {
        canvas.begin_words(PANEL.right(), 642, SMALL_END);
        canvas.put("block ");
        canvas.thousands(count.saturating_sub(1));
        canvas.end_words();
    }
}

// Puts a ring round the least value, and says beneath the panel what it is.
fn put_weakest(canvas: &mut Canvas, blocks: &[(usize, usize)], spares: &[usize], axis: Axis) {
    let Some(block) = weakest_of(spares) else {
        return;
    };
    let scale = PANEL.scale(spares.len());
    let right = scale.at(block.saturating_add(1));
    let middle = scale.at(block).saturating_add(right) / 2;
    canvas.ring(middle, PANEL.y(axis, spare_at(spares, block)));
    canvas.ring(PANEL.left().saturating_add(9), 676);
    canvas.begin_words(PANEL.left().saturating_add(32), 684, MARKED);
    put_block(canvas, blocks, block);
    canvas.end_words();
}

fn spare_at(spares: &[usize], block: usize) -> usize {
    match spares.get(block) {
        Some(spare) => *spare,
        None => 0,
    }
}

/// The first block that has the fewest symbols to spare.
pub(crate) fn weakest_of(spares: &[usize]) -> Option<usize> {
    if spares.is_empty() {
        return None;
    }
    place_of(spares, column_of(spares, 1, 0).least)
}

/// Puts what is said of the weakest block.
pub(crate) fn put_block(canvas: &mut Canvas, blocks: &[(usize, usize)], block: usize) {
    let Some((need, have)) = blocks.get(block) else {
        return;
    };
    canvas.put("weakest: block ");
    canvas.thousands(block);
    canvas.put(" has ");
    canvas.count(*have, "symbol", "symbols");
    canvas.put(" and needs ");
    canvas.thousands(*need);
    canvas.put(", ");
    canvas.thousands(have.saturating_sub(*need));
    canvas.put(" to spare");
}
