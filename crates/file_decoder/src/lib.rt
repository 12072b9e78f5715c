//! The decoder of a session file, of which only places are held (RFC 5510, section 8).
//!
//! ```
//! match index_file(alloc, &session, IDENTITY)? {
//!     Ok(symbols) => println!(rt; "of {} bytes", symbols.transfer_length())?,
//!     Err(_) => println!(rt; "no object yet")?,
//! }
//! ```
//!
//! - `indexing` finds the symbols' places in the file, and reads again where an earlier symbol has
//!   the same block and ESI. `rereading` has these reads, and those of a block's symbols for
//!   `file_source`.
//! - `file_source` has the symbols of a file as a source for `decoder`.
//! - `indexed_file`: the public calls. They give the places of symbols, and write the object
//!   block by block.
#![tactic(auto)]

mod file_source;
mod indexed_file;
mod indexing;
mod rereading;

pub use indexed_file::{FileFault, FileSymbols, index_file};
