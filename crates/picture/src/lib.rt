//! One sheet that shows what a session may lose, as the text of an SVG.
//!
//! ```
//! let text = draw(rt.alloc(), &sheet)?;
//! assert!(rt; text.as_str().contains("session a&lt;b&gt;&amp;c<"));
//! assert!(rt; text.as_str().contains("object of 1,234 bytes"));
//! assert!(rt; text.as_str().ends_with("</svg>\n"));
//! ```
//!
//! The sheet has a heading in words and two panels: the symbols that each block has to spare,
//! beside how many blocks have how many of them, and the longest run of neighbours that may be
//! missed, by the place where it begins. Nothing here knows of packets or files: numbers and names
//! come in, a text goes out. What doesn't fit together, as a block that has fewer symbols than it
//! needs, is drawn as well as it can be.
//!
//! However many datagrams and blocks there are, a list is drawn in at most so many columns as its
//! panel has pixels, so the text has less than 100,000 bytes, and the time goes with the lists'
//! lengths.
//!
//! - `sheet`: what is drawn, and `draw`.
//! - `heading`: the words above the panels, and the title and description of the document.
//! - `spares`: the panel of the symbols to spare.
//! - `histogram`: how many blocks have how many of them.
//! - `bursts`: the panel of the runs.
//! - `ticks`: the places beneath it.
#![tactic(auto)]

mod bursts;
mod heading;
mod histogram;
mod sheet;
mod spares;
#[cfg(test)]
mod tests;
mod ticks;

pub use losses::Run;
pub use sheet::{Sheet, draw};
