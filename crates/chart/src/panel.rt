//! Where a panel stands, its bars and its horizontal lines.
ghost use Rattle.std.specs.Prelude.{◌≡◌, ℕ, ◌<◌, ◌≤◌, ◌+◌, ◌-◌, ◌*◌, ◌++◌, SomeIff, codes};
ghost use Rattle.chart.specs.Scaled.{scaled, units, unit_of};
ghost use Rattle.chart.specs.Texts.{Puts, bar_text, path_tag, line_text, lines_text};
ghost use Rattle.chart.specs.Texts.{value_text, values_text};

use crate::canvas::{Canvas, SMALL_END};
use crate::scale::Scale;

/// The steps from one horizontal line to the next.
const UNITS: [usize; 22] = [
    1, 2, 5, 10, 20, 50, 100, 200, 500, 1_000, 2_000, 5_000, 10_000, 20_000, 50_000, 100_000,
    200_000, 500_000, 1_000_000, 2_000_000, 5_000_000, 10_000_000,
];

/// How far a panel's values go.
#[derive(Clone, Copy)]
pub struct Axis {
    /// The step from one horizontal line to the next.
    pub unit: usize,
    /// The value of the topmost line, the last of at most five above 0.
    pub top: usize,
}

impl Axis {
    /// An axis that goes up to a value, with steps of 1, 2 or 5 times a power of ten, the shortest
    /// of which five reach it. It ends at the first step that does; that of 0 has one step.
    pub fn up_to(greatest: usize) -> Axis
        ensures unit { result.unit ≡ unit_of units greatest }
        ensures steps { (steps : ℕ) × (result.top ≡ result.unit * steps) }
        ensures reaches { greatest ≤ result.top }
        ensures near { 0 < greatest → result.top < greatest + result.unit }
        ensures least { greatest ≡ 0 → result.top ≡ 1 }
    {
        for unit in UNITS {
            for lines in 1..=5usize {
                let top = unit.saturating_mul(lines);
                if top >= greatest {
                    return Axis { unit, top };
                }
            }
        }
        Axis {
            unit: greatest,
            top: greatest,
        }
    }

    // The value of a horizontal line, counted from 0, where it isn't above the top.
    fn value_of(self, line: usize) -> Option<usize>
        ensures { SomeIff result (self.unit * line ≤ self.top) (self.unit * line) }
    {
        self.unit
            .checked_mul(line)
            .filter(|value| *value <= self.top)
    }
}

/// A bar, by its upper left corner.
#[derive(Clone, Copy)]
pub struct Bar {
    pub x: usize,
    pub y: usize,
    pub width: usize,
    pub height: usize,
}

impl Canvas {
    /// Begins bars of one look: they follow, and then `end_bars`.
    pub fn begin_bars(&mut self, look: &str)
        ensures { Puts self.old self.new (path_tag look.now) }
    {
        self.put("<path ");
        self.put(look);
        self.put(" d=\"");
    }

    /// Puts a bar.
    pub fn bar(&mut self, bar: Bar)
        ensures { Puts self.old self.new (bar_text bar) }
    {
        self.put("M");
        self.number(bar.x);
        self.put(" ");
        self.number(bar.y);
        self.put("h");
        self.number(bar.width);
        self.put("v");
        self.number(bar.height);
        self.put("h-");
        self.number(bar.width);
        self.put("z");
    }

    /// Ends the bars.
    pub fn end_bars(&mut self)
        ensures { Puts self.old self.new (codes "\"/>\n") }
    {
        self.put("\"/>\n");
    }

    /// Puts one bar.
    pub fn lone_bar(&mut self, look: &str, bar: Bar)
        ensures { Puts self.old self.new
            (path_tag look.now ++ bar_text bar ++ codes "\"/>\n") }
    {
        self.begin_bars(look);
        self.bar(bar);
        self.end_bars();
    }
}

/// Where a panel stands.
#[derive(Clone, Copy)]
pub struct Panel {
    pub left: u16,
    pub top: u16,
    pub width: u16,
    pub height: u16,
}

impl Panel {
    /// The line on which so many places are laid out.
    pub fn scale(self, count: usize) -> Scale
        ensures start { result.start ≡ self.left }
        ensures length { result.length ≡ self.width }
        ensures count { result.count ≡ count }
    {
        Scale {
            start: self.left,
            length: self.width,
            count,
        }
    }

    /// The left edge.
    pub fn left(self) -> usize
        ensures { result ≡ self.left }
    {
        usize::from(self.left)
    }

    /// The right edge.
    pub fn right(self) -> usize
        ensures { result ≡ self.left + self.width }
    {
        usize::from(self.left) + usize::from(self.width)
    }

    /// The lower edge.
    pub fn bottom(self) -> usize
        ensures { result ≡ self.top + self.height }
    {
        usize::from(self.top) + usize::from(self.height)
    }

    /// How high a value stands above the lower edge.
    pub fn height_of(self, axis: Axis, value: usize) -> usize
        ensures { result ≡ scaled 0 self.height axis.top value }
    {
        let upwards = Scale {
            start: 0,
            length: self.height,
            count: axis.top,
        };
        upwards.at(value)
    }

    /// Where a value stands.
    pub fn y(self, axis: Axis, value: usize) -> usize
        ensures { result
            ≡ self.top + self.height - scaled 0 self.height axis.top value }
    {
        self.bottom().saturating_sub(self.height_of(axis, value))
    }

    /// Puts the horizontal lines.
    pub fn put_lines(self, canvas: &mut Canvas, axis: Axis)
        ensures { Puts canvas.old canvas.new (lines_text self axis) }
    {
        canvas.put("<path stroke=\"#ccc\" stroke-width=\"2\" d=\"");
        for line in 0..6usize {
            if let Some(value) = axis.value_of(line) {
                self.put_line(canvas, axis, value);
            }
        }
        canvas.put("\"/>\n");
    }

    fn put_line(self, canvas: &mut Canvas, axis: Axis, value: usize)
        ensures { Puts canvas.old canvas.new (line_text self axis value) }
    {
        canvas.put("M");
        canvas.number(self.left);
        canvas.put(" ");
        canvas.number(self.y(axis, value));
        canvas.put("h");
        canvas.number(self.width);
    }

    /// Puts the values of the horizontal lines beside them.
    pub fn put_values(self, canvas: &mut Canvas, axis: Axis)
        ensures { Puts canvas.old canvas.new (values_text self axis) }
    {
        for line in 0..6usize {
            if let Some(value) = axis.value_of(line) {
                self.put_value(canvas, axis, value);
            }
        }
    }

    fn put_value(self, canvas: &mut Canvas, axis: Axis, value: usize)
        ensures { Puts canvas.old canvas.new (value_text self axis value) }
    {
        let x = self.left().saturating_sub(14);
        let y = self.y(axis, value) + 8;
        canvas.begin_words(x, y, SMALL_END);
        canvas.thousands(value);
        canvas.end_words();
    }
}
