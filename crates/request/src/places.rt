//! Places that words tell.
ghost use Rattle.std.specs.Prelude.{◌≡◌, ◌<◌, ◌↔◌, ◌∷◌, [], ℕ, IfOk, IfErr, IfSome, IfNone, length};
ghost use Rattle.std.specs.Prelude.{option_map, position};
ghost use Rattle.std.specs.List.{slice_split};
ghost use Rattle.request.specs.Places.{IsPlace, IsRange, IsNoRange, AreRanges, is_space as space};
ghost use Rattle.request.specs.Places.{words_of, IsWrongPlace};
ghost use Rattle.request.specs.PlaceSteps.{pieces_left};
ghost use Rattle.session.specs.declared.range.PlaceRange.{PlaceRange as Range};

use session::PlaceRange;
use std::alloc::Global;

/// Why a text tells no places.
#[derive(Clone, Copy, Debug, PartialEq, Eq)]
pub enum PlaceFault {
    /// The first word that is no place and no range, by how many stand before it.
    NoPlace(usize),
    NoMemory,
}

fn place(text: &str) -> Option<usize>
    ensures some { IfSome result (IsPlace text.now) }
    ensures none { IfNone result ((n : ℕ) → ¬ IsPlace text.now n) }
{
    match text.parse::<u32>() {
        Ok(place) => Some(place as usize),
        Err(_) => None,
    }
}

// The texts of the first and the last place, which are one text where a word tells one place.
fn ends(word: &str) -> (&str, &str)
    ensures { (range : Range) → IsRange word.now range
        ↔ (IsPlace result.0.now range.first × IsPlace result.1.now range.last) }
{
    match word.split_once('-') {
        Some(ends) => ends,
        None => (word, word),
    }
}

/// The places that a word tells: `N`, or `N-M` for those from N to M.
pub fn place_range(word: &str) -> Option<PlaceRange>
    ensures some { IfSome result (IsRange word.now) }
    ensures none { IfNone result (IsNoRange word.now) }
{
    let (first, last) = ends(word);
    let first = place(first)?;
    let last = place(last)?;
    if first > last {
        return None;
    }
    Some(PlaceRange { first, last })
}

fn is_space(byte: u8) -> bool
    ensures { result ≡ space byte }
{
    matches!(byte, b' ' | b'\t' | b'\n' | b'\r')
}

fn first_space(text: &[u8]) -> Option<usize>
    ensures { result ≡ position space text.now }
{
    text.iter().position(|byte| is_space(*byte))
}

// What stands in front of the first white space, and what behind it, if there is some.
fn next_piece(text: &[u8]) -> (&[u8], Option<&[u8]>)
    ensures pieces { slice_split space text.now ≡ result.0.now ∷ pieces_left
        (option_map (λ rest. rest.now) result.1) }
    ensures shorter { IfSome result.1 (λ rest. length rest.now < length text.now) }
{
    match first_space(text) {
        Some(at) => (&text[..at], Some(&text[at + 1..])),
        None => (text, None),
    }
}

// The places that bytes tell, which may be no text.
fn bytes_range(word: &[u8]) -> Option<PlaceRange>
    ensures some { IfSome result (IsRange word.now) }
    ensures none { IfNone result (IsNoRange word.now) }
{
    match str::from_utf8(word) {
        Ok(word) => place_range(word),
        Err(_) => None,
    }
}

/// The places that the words of a text tell, in their order.
pub fn place_ranges(alloc: Global, text: &[u8]) -> Result<Vec<PlaceRange>, PlaceFault>
    ensures ok { IfOk result (λ v. AreRanges (words_of text.now) v.items) }
    ensures fault { IfErr result (IsWrongPlace (words_of text.now)) }
{
    let mut ranges = Vec::new(alloc);
    let mut left = Some(text);
    while let Some(text) = left {
        let (word, rest) = next_piece(text);
        if !word.is_empty() {
            let Some(range) = bytes_range(word) else {
                return Err(PlaceFault::NoPlace(ranges.len()));
            };
            let Ok(()) = ranges.push(range) else {
                return Err(PlaceFault::NoMemory);
            };
        }
        left = rest;
    }
    Ok(ranges)
}
