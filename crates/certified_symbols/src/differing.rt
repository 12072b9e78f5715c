//! Where bytes differ, with zeros behind a slice's end, as in an object's padding.
ghost use Rattle.std.specs.Prelude.{◌≡◌, length, slice_index, IsNone, IfSome};
ghost use Rattle.certified_symbols.specs.Differences.{AreSameBelow, IsFirstDifference};

// The byte at a place, and zero past the end.
fn byte_at(bytes: &[u8], place: usize) -> u8
    ensures { result ≡ slice_index bytes.now place }
{
    if place < bytes.len() { bytes[place] } else { 0 }
}

/// The least place of a row at which it isn't these bytes, with zeros behind them.
pub fn first_difference(row: &[u8], bytes: &[u8]) -> Option<usize>
    ensures none { IsNone result → AreSameBelow (length row.now) row.now bytes.now }
    ensures some { IfSome result (IsFirstDifference row.now bytes.now) }
{
    // Mostly they are equal, and one comparison of the whole is faster.
    if *row == *bytes {
        return None;
    }
    for place in 0..row.len() {
        if row[place] != byte_at(bytes, place) {
            return Some(place);
        }
    }
    None
}
