//! How many blocks have how many symbols to spare.
use crate::spares::MOST_SPARE;
use chart::{Axis, Bar, Canvas, Panel, SMALL, SMALL_END, Scale, TITLE};

/// Where the panel stands, beside that of the blocks.
const PANEL: Panel = Panel {
    left: 1530,
    top: 268,
    width: 370,
    height: 340,
};

/// How many blocks have so many symbols to spare, from none to 255.
type Counts = [usize; 256];

/// Puts the panel, of what the blocks have to spare.
pub(crate) fn put_histogram(canvas: &mut Canvas, spares: &[usize], axis: Axis) {
    let counts = counts_of(spares);
    let most = most_of(&counts);
    canvas.words(PANEL.left(), 240, TITLE, "Blocks by spare symbols");
    PANEL.put_lines(canvas, axis);
    put_rows(canvas, &counts, most, axis);
    canvas.words(PANEL.left(), 642, SMALL, "0");
    canvas.begin_words(PANEL.right(), 642, SMALL_END);
    canvas.count(most, "block", "blocks");
    canvas.end_words();
    put_ranks(canvas, &counts, spares.len());
}

fn counts_of(spares: &[usize]) -> Counts {
    let mut counts = [0usize; 256];
    for spare in spares {
        let spare = (*spare).min(MOST_SPARE);
        counts[spare] = counts[spare].saturating_add(1);
    }
    counts
}

fn most_of(counts: &Counts) -> usize {
    let mut most = 0;
    for count in counts {
        if *count > most {
            most = *count;
        }
    }
    most
}

// Puts a bar for each number of symbols: as long as so many blocks are of the most.
fn put_rows(canvas: &mut Canvas, counts: &Counts, most: usize, axis: Axis) {
    let scale = Scale {
        start: 0,
        length: PANEL.width,
        count: most,
    };
    let thickness = PANEL.height_of(axis, 1).clamp(2, 20);
    canvas.begin_bars("fill=\"#2f6ca8\"");
    for (spare, count) in counts.iter().enumerate() {
        if *count > 0 {
            canvas.bar(Bar {
                x: PANEL.left(),
                y: PANEL.y(axis, spare).saturating_sub(thickness / 2),
                width: scale.at(*count).max(2),
                height: thickness,
            });
        }
    }
    canvas.end_bars();
}

// Puts the least spare, and up to which one in a hundred blocks and half of them go.
fn put_ranks(canvas: &mut Canvas, counts: &Counts, blocks: usize) {
    canvas.begin_words(PANEL.left(), 684, SMALL);
    canvas.put("fewest ");
    canvas.number(spare_of(counts, 0));
    if blocks >= 100 {
        canvas.put(", one in 100 up to ");
        canvas.number(spare_of(counts, blocks / 100));
    }
    canvas.end_words();
    canvas.begin_words(PANEL.left(), 716, SMALL);
    canvas.put("half up to ");
    canvas.number(spare_of(counts, blocks / 2));
    canvas.end_words();
}

// The spare symbols of a block, counted from the weakest.
fn spare_of(counts: &Counts, rank: usize) -> usize {
    let mut before = 0usize;
    for (spare, count) in counts.iter().enumerate() {
        before = before.saturating_add(*count);
        if before > rank {
            return spare;
        }
    }
    MOST_SPARE
}
