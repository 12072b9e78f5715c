//! A session looked at again.
ghost use Rattle.std.specs.Prelude.{◌≡◌, None, codes};

use crate::files::open_again;
use alc::read;
use partition::Fti;
use reception::Identity;
use session::{Device, FrameFault, read_next};
use std::alloc::Global;
use std::fs::File;
use std::io::BufReader;
use std::rt::Files;

/// How many bytes stand between the file and its reader.
const BUFFER_SIZE: usize = 65536;

/// Where a session's frames stop.
#[derive(Clone, Copy)]
pub struct Break {
    /// The place of the datagram that isn't whole.
    pub place: u64,
    /// The byte of the file at which its frame begins.
    pub byte: u64,
    pub fault: FrameFault,
}

/// A carrier of an object, and what it says.
#[derive(Clone, Copy)]
pub struct Carrier {
    pub place: usize,
    pub fti: Fti,
}

/// How many blocks are short, of how many, and how many symbols most lacks of them.
#[derive(Clone, Copy)]
pub struct Shortage {
    pub short: u32,
    pub blocks: u32,
    pub most: usize,
}

// A session from its first frame on, where a file that can be read again has its name.
fn open_session<R: Files<File = File>>(
    rt: &R,
    alloc: Global,
    name: &str,
) -> Option<Device<BufReader<File>>>
    ensures { name.now ≡ codes "-" → result ≡ None }
{
    let file = open_again(rt, name)?;
    let buffered = BufReader::with_capacity(alloc, BUFFER_SIZE, file).ok()?;
    Some(Device::new(buffered))
}

/// How many datagrams a session has, and where its frames stop, if they aren't whole. `None` where
/// it can't be read again.
pub fn walk<R: Files<File = File>>(
    rt: &R,
    alloc: Global,
    name: &str,
) -> Option<(u64, Option<Break>)>
    ensures { name.now ≡ codes "-" → result ≡ None }
{
    let mut reader = open_session(rt, alloc, name)?;
    let mut byte = 0u64;
    for place in 0..u64::MAX {
        match read_next(alloc, &mut reader) {
            Ok(Some(datagram)) => byte = byte.saturating_add(2 + datagram.len() as u64),
            Ok(None) => return Some((place, None)),
            Err(fault) => return Some((place, Some(Break { place, byte, fault }))),
        }
    }
    None
}

/// The datagram at a place.
pub fn datagram_at<R: Files<File = File>>(
    rt: &R,
    alloc: Global,
    name: &str,
    place: usize,
) -> Option<Vec<u8>>
    ensures { name.now ≡ codes "-" → result ≡ None }
{
    let mut reader = open_session(rt, alloc, name)?;
    for _ in 0..place {
        read_next(alloc, &mut reader).ok()?;
    }
    read_next(alloc, &mut reader).ok()?
}

/// The first carrier of the identity from a place on.
pub fn carrier_from<R: Files<File = File>>(
    rt: &R,
    alloc: Global,
    name: &str,
    identity: Identity,
    first: usize,
) -> Option<Carrier>
    ensures { name.now ≡ codes "-" → result ≡ None }
{
    let mut reader = open_session(rt, alloc, name)?;
    for place in 0..usize::MAX {
        let Ok(Some(datagram)) = read_next(alloc, &mut reader) else {
            return None;
        };
        if place < first {
            continue;
        }
        let Ok(packet) = read(datagram.as_slice()) else {
            continue;
        };
        if (packet.tsi, packet.toi) != (identity.tsi, identity.toi) {
            continue;
        }
        if let Some(fti) = packet.fti {
            return Some(Carrier { place, fti });
        }
    }
    None
}

// The block and the ESI of the symbol of each of the identity's packets, in ascending order.
fn symbols_of<R: Files<File = File>>(
    rt: &R,
    alloc: Global,
    name: &str,
    identity: Identity,
) -> Option<Vec<(u32, u8)>>
    ensures { name.now ≡ codes "-" → result ≡ None }
{
    let mut reader = open_session(rt, alloc, name)?;
    let mut symbols: Vec<(u32, u8)> = Vec::new(alloc);
    for _ in 0..usize::MAX {
        let Ok(Some(datagram)) = read_next(alloc, &mut reader) else {
            break;
        };
        let Ok(packet) = read(datagram.as_slice()) else {
            continue;
        };
        if (packet.tsi, packet.toi) == (identity.tsi, identity.toi) {
            symbols.push((packet.sbn, packet.esi)).ok()?;
        }
    }
    symbols.sort_unstable();
    Some(symbols)
}

// How many different symbols of a block stand in front, and those behind them.
fn split_block(symbols: &[(u32, u8)], block: u32) -> (usize, &[(u32, u8)]) {
    let mut different = 0usize;
    let mut last = None;
    for place in 0..symbols.len() {
        let (sbn, esi) = symbols[place];
        if sbn > block {
            return (different, &symbols[place..]);
        }
        if last != Some(esi) {
            different = different.saturating_add(1);
        }
        last = Some(esi);
    }
    (different, &[])
}

/// How short the identity's packets leave an object with this FTI.
pub fn count_short<R: Files<File = File>>(
    rt: &R,
    alloc: Global,
    name: &str,
    identity: Identity,
    fti: &Fti,
) -> Option<Shortage>
    ensures { name.now ≡ codes "-" → result ≡ None }
{
    let symbols = symbols_of(rt, alloc, name, identity)?;
    let mut rest = symbols.as_slice();
    let blocks = fti.block_count();
    let mut short = 0u32;
    let mut most = 0;
    for block in 0..blocks {
        let (have, behind) = split_block(rest, block);
        rest = behind;
        let lack = fti.k(block).saturating_sub(have);
        if lack > 0 {
            short = short.saturating_add(1);
            most = most.max(lack);
        }
    }
    Some(Shortage {
        short,
        blocks,
        most,
    })
}
