//! Readers and writers.
//!
//! ```
//! let mut file = Sink::new(alloc);
//! write_all(&mut file, b"what is written")?;
//! let mut reader = Pieces::new(file.bytes(), 2);
//! Ok(read_to_end(alloc, &mut reader)?)
//! ```
//!
//! - `io`: what a reader and a writer promise;
//! - `device`: the standard library's as ours;
//! - `memory`: those over bytes in memory;
//! - `filling` and `whole`: the loops over them: a buffer filled, all bytes written, a reader read
//!   to its end;
//! - `offsets`: what is read and written at any offset, and the loops over that; `cursor`: a reader
//!   of what is read at offsets; `ahead`: readers of a file's datagrams at their offsets.
#![tactic(auto)]

mod ahead;
mod cursor;
mod device;
mod filling;
mod io;
mod memory;
mod offsets;
mod whole;

pub use ahead::Lanes;
pub use cursor::Cursor;
pub use device::Device;
pub use filling::{fill, write_all};
pub use io::{Failed, Read, Write};
pub use memory::{MemoryFile, Pieces, Sink, copy_at};
pub use offsets::{ReadAt, WriteAt, fill_at, has_length, read_all_back, write_all_at};
pub use whole::{ReadFault, read_to_end};
