//! What a chart is made of, as the text of an SVG: words, bars, panels with horizontal lines, and
//! lists that are laid out on a line or shared out to columns.
//!
//! All is counted in units of half a pixel. Nothing here knows what a chart shows. What is put into
//! a panel beyond its edges is drawn there all the same.
//!
//! - `canvas`: the text that is being made.
//! - `panel`: where a panel stands, its bars and its horizontal lines.
//! - `columns`: a list in columns, and the least and the greatest value of each.
//! - `scale`: where a place stands on a line.
#![tactic(auto)]

mod canvas;
mod columns;
mod panel;
mod scale;

pub use canvas::{Canvas, MARKED, SMALL, SMALL_END, TITLE};
pub use columns::{Column, column_of, place_of};
pub use panel::{Axis, Bar, Panel};
pub use scale::Scale;
