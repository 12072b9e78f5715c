//! A session as the list of its datagrams.
ghost use Rattle.std.specs.Prelude.{◌≡◌, ◌==◌, ◌≤◌, ◌<◌, true, false, ◌∷◌, ◌++◌, [], ℕ, None, Some};
ghost use Rattle.std.specs.Prelude.{length, map, OnOk, OnErr, IfErr, IfOk, IfSome, slice_index};
ghost use Rattle.std.specs.Prelude.{slice_index_or};
ghost use Rattle.std.specs.Io.KnownBytes.{Appends, IsAtEnd};
ghost use Rattle.streams.specs.Pieces.{AppendsSome};
ghost use Rattle.session.specs.Frames.{most_bytes, frames, IsDatagram, AreDatagrams, IsFramed};
ghost use Rattle.session.specs.Frames.{IsSessionFault};
ghost use Rattle.session.specs.Bounds.{begin};
ghost use Rattle.session.specs.Buffer.{AreEnds};

use crate::frame::{FrameFault, read_next, write_one};
use lists::are_bytes;
use std::alloc::{AllocError, Global};
use std::marker::Model;
use streams::{Read, Write};

/// A list of datagrams, each of at most 65,507 bytes.
#[derive(Drop)]
pub struct Session {
    // All datagrams, one behind the other.
    bytes: Vec<u8>,
    // Where each ends.
    ends: Vec<usize>,
}

impl Model for Session {
    ghost use Rattle.std.specs.Prelude.{List, ℕ, length};
    ghost use Rattle.session.specs.Frames.{AreDatagrams};
    ghost use Rattle.session.specs.Buffer.{pieces, AreEnds};

    ghost Value = { List (List ℕ) };

    ghost view = { λ s. pieces 0 s.ends.items s.bytes.items };

    ghost invariant = { λ s. AreEnds 0 s.ends.items (length s.bytes.items)
        × AreDatagrams (pieces 0 s.ends.items s.bytes.items) };
}

// Where the datagram at place `i` begins and ends, of datagrams of so many bytes together.
fn bounds_of(ends: &[usize], size: usize, i: usize) -> (usize, usize)
    requires place { i < length ends.now }
    requires ends { AreEnds 0 ends.now size }
    ensures begin { result.0 ≡ begin 0 ends.now i }
    ensures end { result.1 ≡ slice_index ends.now i }
    ensures order { result.0 ≤ result.1 }
    ensures within { result.1 ≤ size }
{
    let from = if i == 0 { 0 } else { ends[i - 1] };
    (from, ends[i])
}

impl Session {
    /// The session of no datagrams.
    pub fn new(alloc: Global) -> Session
        ensures { result ≡ [] }
    {
        Session {
            bytes: Vec::new(alloc),
            ends: Vec::new(alloc),
        }
    }

    /// How many datagrams there are.
    pub fn len(&self) -> usize
        ensures value { result ≡ length self.now }
        ensures datagrams { AreDatagrams self.now }
    {
        self.ends.len()
    }

    /// Whether there is none.
    pub fn is_empty(&self) -> bool
        ensures { result ≡ (length self.now == 0) }
    {
        self.ends.is_empty()
    }

    /// The datagram at place `i`.
    pub fn get(&self, i: usize) -> &[u8]
        requires { i < length self.now }
        ensures { result.now ≡ slice_index_or self.now i [] }
    {
        let (from, to) = bounds_of(&self.ends, self.bytes.len(), i);
        &self.bytes[from..to]
    }

    /// Puts a datagram last. One for which there is no memory is given back.
    pub fn push(&mut self, datagram: Vec<u8>) -> Result<(), Vec<u8>>
        requires { length datagram.items ≤ most_bytes }
        ensures ok { OnOk result (self.new ≡ self.old ++ datagram.items ∷ []) }
        ensures err { OnErr result (self.new ≡ self.old) }
        ensures back { IfErr result (λ v. v ≡ datagram) }
    {
        are_bytes(datagram.as_slice());
        match self.push_copy(datagram.as_slice()) {
            Ok(()) => Ok(()),
            Err(_) => Err(datagram),
        }
    }

    /// Puts a copy of a datagram last. Want of memory is the only error, and changes nothing.
    pub(crate) fn push_copy(&mut self, datagram: &[u8]) -> Result<(), AllocError>
        requires { IsDatagram datagram.now }
        ensures ok { OnOk result (self.new ≡ self.old ++ datagram.now ∷ []) }
        ensures err { OnErr result (self.new ≡ self.old) }
    {
        self.ends.push(self.bytes.len() + datagram.len())?;
        match self.bytes.extend_from_slice(datagram) {
            Ok(()) => Ok(()),
            Err(fault) => {
                self.ends.pop();
                Err(fault)
            }
        }
    }

    /// All datagrams up to the reader's end. `CutLength`, `CutDatagram` and `TooLong` tell what
    /// follows whole frames, `Io` that the reader has failed, which a sound one never does.
    pub fn read<R: Read>(alloc: Global, reader: &mut R) -> Result<Session, FrameFault>
        // All that was left is the session's frames.
        ensures ok { IfOk result (λ s. IfSome (R.remaining reader.old) (IsFramed s)) }
        ensures end { OnOk result (IsAtEnd (R.remaining reader.new)) }
        ensures fault { IfErr result (λ e.
            IsSessionFault e (R.remaining reader.old) (R.failed reader.new)) }
        ensures unsound { IfErr result
            (λ e. e ≡ FrameFault.Io → R.sound reader.old ≡ false) }
    {
        let mut session = Session::new(alloc);
        loop {
            let Some(datagram) = read_next(alloc, reader)? else {
                return Ok(session);
            };
            let Ok(()) = session.push(datagram) else {
                return Err(FrameFault::NoMemory);
            };
        }
    }

    /// Writes all frames. `Io` comes only where the writer has failed, and never where it has room
    /// for them. It has a beginning of them then.
    pub fn write<W: Write>(&self, writer: &mut W) -> Result<(), FrameFault>
        ensures ok { OnOk result
            (Appends (W.contents writer.old) (W.contents writer.new) (frames self.now)) }
        ensures err { OnErr result
            (AppendsSome (W.contents writer.old) (W.contents writer.new) (frames self.now)) }
        ensures io { IfErr result (λ e. (e ≡ FrameFault.Io) × (W.failed writer.new ≡ true)) }
        ensures full { OnErr result (W.room writer.old < length (frames self.now)) }
        ensures datagrams { AreDatagrams self.now }
    {
        for place in 0..self.len() {
            write_one(writer, self.get(place))?;
        }
        Ok(())
    }

    /// Each datagram as a slice.
    pub fn views(&self, alloc: Global) -> Result<Vec<&[u8]>, AllocError>
        ensures { IfOk result (λ views. map (λ v. v.now) views.items ≡ self.now) }
    {
        let mut views = Vec::with_capacity(alloc, self.len())?;
        for place in 0..self.len() {
            views.push(self.get(place))?;
        }
        Ok(views)
    }
}
