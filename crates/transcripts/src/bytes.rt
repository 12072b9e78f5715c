//! Bytes in hex.
ghost use Rattle.std.specs.Prelude.{◌<◌, IfSome};

use crate::fault::Fault;

// The value of a digit.
fn digit(text: u8) -> Option<u8>
    ensures { IfSome result (λ value. value < 16) }
{
    match text {
        b'0'..=b'9' => Some(text - b'0'),
        b'A'..=b'F' => Some(text - b'A' + 10),
        _ => None,
    }
}

fn byte_of(pair: &[u8]) -> Option<u8> {
    match pair {
        [high, low] => Some(digit(*high)? * 16 + digit(*low)?),
        _ => None,
    }
}

fn put_group(bytes: &mut Vec<u8>, group: &str) -> Result<(), Fault> {
    for pair in group.as_bytes().chunks(2) {
        let Some(byte) = byte_of(pair) else {
            return Err(Fault::WrongHex);
        };
        if bytes.push(byte).is_err() {
            return Err(Fault::NoMemory);
        }
    }
    Ok(())
}

/// Adds the bytes of a row, in which they may stand in groups.
pub(crate) fn put_row(bytes: &mut Vec<u8>, row: &str) -> Result<(), Fault> {
    for group in row.split(' ') {
        put_group(bytes, group)?;
    }
    Ok(())
}
