//! What a file is by its first bytes.
ghost use Rattle.std.specs.Prelude.{◌≡◌, None, codes};

use crate::names::STANDARD_STREAM;
use partition::Fti;
use reception::Identity;
use session::{Device, Read, fill};
use std::fs::{self, File};
use std::rt::Files;

/// What a file begins as. No session begins so: its first datagram would be no packet.
#[derive(Clone, Copy, PartialEq, Eq)]
pub enum Kind {
    Pcap,
    Pcapng,
    Gzip,
    Zstd,
    Certificate,
    Svg,
    Text,
}

/// Where the system has standard input.
const INPUT_DEVICE: &str = "/dev/stdin";

/// A regular file, from its first byte on. Nothing else can be read again; nor can standard input,
/// wherever it comes from.
pub(crate) fn open_again<R: Files<File = File>>(rt: &R, name: &str) -> Option<File>
    ensures { name.now ≡ codes "-" → result ≡ None }
{
    if name == STANDARD_STREAM || name == INPUT_DEVICE {
        return None;
    }
    match fs::metadata(rt, name) {
        Ok(there) if there.is_file() => fs::open(rt, name).ok(),
        _ => None,
    }
}

fn is_text(front: &[u8]) -> bool {
    !front.is_empty()
        && front
            .iter()
            .all(|byte| matches!(*byte, 32..=126 | 9 | 10 | 13))
}

// Of pcap the magic number stands in either order of bytes, with micro- or nanoseconds.
fn kind_of_front(front: &[u8]) -> Option<Kind> {
    match front {
        [0xd4 | 0x4d, 0xc3 | 0x3c, 0xb2, 0xa1, ..] | [0xa1, 0xb2, 0xc3 | 0x3c, 0xd4 | 0x4d, ..] => {
            Some(Kind::Pcap)
        }
        [0x0a, 0x0d, 0x0d, 0x0a, ..] => Some(Kind::Pcapng),
        [0x1f, 0x8b, 8, ..] => Some(Kind::Gzip),
        [0x28, 0xb5, 0x2f, 0xfd, ..] => Some(Kind::Zstd),
        [b'R', b'S', b'C', b'1' | b'2', ..] => Some(Kind::Certificate),
        [b'<', b's', b'v', b'g', ..] | [b'<', b'?', b'x', b'm', b'l', ..] => Some(Kind::Svg),
        _ if is_text(front) => Some(Kind::Text),
        _ => None,
    }
}

/// What a regular file is, by its first bytes, where these tell.
pub fn kind_of<R: Files<File = File>>(rt: &R, name: &str) -> Option<Kind>
    ensures { name.now ≡ codes "-" → result ≡ None }
{
    let mut front = [0u8; 16];
    let got = front_of(rt, name, &mut front)?;
    kind_of_front(front.get(..got)?)
}

// Reads the first bytes of a regular file, and answers how many there are.
fn front_of<R: Files<File = File>>(rt: &R, name: &str, front: &mut [u8]) -> Option<usize>
    ensures { name.now ≡ codes "-" → result ≡ None }
{
    let file = open_again(rt, name)?;
    fill(&mut Device::new(file), front).ok()
}

/// Whose packets a certificate is for, where it names them, and its FTI, if its numbers are one.
#[derive(Clone, Copy)]
pub struct Head {
    pub identity: Option<Identity>,
    pub fti: Option<Fti>,
}

fn number(bytes: &[u8]) -> u128 {
    let mut number = 0;
    for byte in bytes {
        number = (number << 8) | u128::from(*byte);
    }
    number
}

// The TSI of RSC2 is in the six bytes behind the text's name, and the TOI in the 14 after them.
fn head_of(front: &[u8; 34]) -> Option<Head> {
    match front {
        [b'R', b'S', b'C', b'2', ..] => Some(Head {
            identity: Some(Identity {
                tsi: u64::try_from(number(&front[4..10])).ok()?,
                toi: number(&front[10..24]),
            }),
            fti: Fti::from_bytes(&front[24..34], None).ok(),
        }),
        [b'R', b'S', b'C', b'1', ..] => Some(Head {
            identity: None,
            fti: Fti::from_bytes(&front[4..14], None).ok(),
        }),
        _ => None,
    }
}

/// What a certificate's file begins with.
pub fn certificate_head<R: Files<File = File>>(rt: &R, name: &str) -> Option<Head>
    ensures { name.now ≡ codes "-" → result ≡ None }
{
    let mut front = [0u8; 34];
    front_of(rt, name, &mut front)?;
    head_of(&front)
}
