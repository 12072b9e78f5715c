//! Packets of Asynchronous Layered Coding (ALC, RFC 5775) with FEC Encoding ID 5 (RFC 5510, section
//! 5): the header of Layered Coding Transport (LCT, RFC 5651) with its extensions, among them
//! EXT_FTI, then the FEC payload ID and one encoding symbol.
//!
//! ```
//! match read(datagram) {
//!     Ok(packet) => println!(rt; "block {} symbol {}", packet.sbn, packet.esi)?,
//!     Err(fault) => println!(rt; "no packet: {fault}")?,
//! }
//! ```
//!
//! Numbers of more than one byte are big-endian. No call takes memory: a packet borrows its symbol
//! from its datagram.
//!
//! - `fault`: why a datagram is no packet.
//! - `header`: the fixed part of the header, and where its fields begin.
//! - `extensions`: the header extensions, and the FTI in EXT_FTI.
//! - `reading`: a datagram as a packet or its first fault.
//! - `writing`: a packet as a datagram.
#![tactic(auto)]

mod extensions;
mod fault;
mod header;
mod reading;
mod writing;

pub use fault::PacketFault;
pub use reading::{Packet, one_reading, read, read_with};
pub use writing::{HEADER_SIZE, HEADER_SIZE_WITHOUT_FTI, write};
