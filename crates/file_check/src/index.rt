//! Where the datagrams of a session file stand, and what came in them but for their symbols' bytes.
ghost use Rattle.std.specs.Prelude.{◌≡◌, ◌<◌, ◌+◌, ◌^◌, ◌++◌, ◌∷◌, [], None, Some, ℕ, List};
ghost use Rattle.std.specs.Prelude.{IfOk, IfSome};
ghost use Rattle.partition.specs.Fti.{Fti as FtiValue};
ghost use Rattle.cert.specs.Tallying.{AreTallied, IsRefusedAt, nothing, tallied_of};
ghost use Rattle.file_check.specs.Indexed.{IsIndexed, end_of, extents_of};

use crate::extents::Extents;
use cert::{Reason, Tally};
use lists::are_bytes;
use partition::Fti;
use reception::Identity;
use session::{Extent, FrameFault, Position, Read, read_next_into};
use std::alloc::{AllocError, Global};
use streams::{Cursor, ReadAt};

/// The datagrams in front of a session file, as far as none has a fault before its symbol is looked
/// at: what came in them, and where each stands.
#[derive(Drop)]
pub(crate) struct Index {
    pub(crate) tally: Tally,
    pub(crate) extents: Extents,
}

/// Why no more datagrams stand in an index.
#[derive(Clone, Copy)]
pub(crate) enum End {
    /// The file ends.
    File,
    /// This is the reason against the next one.
    Reason(Reason),
    /// No frame follows, or it can't be read.
    Frame(FrameFault),
}

impl Index {
    // Takes the next datagram, which stands here, or tells the reason against it.
    fn take(&mut self, datagram: &[u8], extent: Extent) -> Result<Option<Reason>, AllocError>
        requires tallied { (f : FtiValue) × (ds : List (List ℕ))
            × AreTallied nothing f (tallied_of self.old.tally) ds }
        requires begin { extent.offset ≡ end_of self.old.extents + 2 }
        requires fits { extent.offset + extent.length < 2 ^ 64 }
        ensures scope { self.new.tally.scope ≡ self.old.tally.scope }
        ensures taken { (f : FtiValue) (ds : List (List ℕ))
            → AreTallied nothing f (tallied_of self.old.tally) ds
            → IfOk result (λ o. o ≡ None
            → AreTallied nothing f (tallied_of self.new.tally) (ds ++ datagram.now ∷ [])) }
        ensures extents { IfOk result (λ o. o ≡ None
            → extents_of self.new.extents ≡ extents_of self.old.extents ++ extent ∷ []) }
        ensures end { IfOk result (λ o. o ≡ None
            → end_of self.new.extents ≡ extent.offset + extent.length) }
        ensures against { IfOk result (λ o. IfSome o
            (IsRefusedAt datagram.now self.old.tally.scope self.old.tally.count)) }
        ensures stays { IfOk result (λ o. IfSome o (λ _. self.new ≡ self.old)) }
    {
        match self.tally.look(datagram) {
            Ok(Some(packet)) => {
                self.tally.put(&packet)?;
                self.extents.push(extent)?;
                Ok(None)
            }
            Ok(None) => {
                self.tally.pass_over()?;
                self.extents.push(extent)?;
                Ok(None)
            }
            Err(reason) => Ok(Some(reason)),
        }
    }
}

// The index of the datagrams that a reader gives, which are those of a file.
fn index_frames<R: Read>(
    alloc: Global,
    reader: &mut R,
    identity: Identity,
    fti: Fti,
) -> Result<(Index, End), AllocError>
    ensures { IfOk result (λ r. IsIndexed identity fti (R.remaining reader.old)
        (R.sound reader.old) r.0 r.1) }
{
    let mut index = Index {
        tally: Tally::new(alloc, identity, fti)?,
        extents: Extents::new(alloc),
    };
    let mut position = Position::new();
    let mut room = Vec::new(alloc);
    loop {
        let datagram = match read_next_into(reader, room) {
            Ok(Some(datagram)) => datagram,
            Ok(None) => return Ok((index, End::File)),
            Err(FrameFault::NoMemory) => return Err(AllocError),
            Err(fault) => return Ok((index, End::Frame(fault))),
        };
        let bytes = datagram.as_slice();
        are_bytes(bytes);
        let Ok((extent, next)) = position.pass(bytes.len()) else {
            return Err(AllocError);
        };
        match index.take(bytes, extent)? {
            None => {
                position = next;
                room = datagram;
            }
            Some(reason) => return Ok((index, End::Reason(reason))),
        }
    }
}

/// The index of a session file, where the identity's FTI is known.
pub(crate) fn index_session<F: ReadAt>(
    alloc: Global,
    session: &F,
    identity: Identity,
    fti: Fti,
) -> Result<(Index, End), AllocError>
    ensures told { (x : List ℕ) → F.content session.now ≡ Some x → IfOk result (λ r.
        IsIndexed identity fti (Some x) (F.reliable session.now) r.0 r.1) }
    ensures some { IfOk result (λ r. (content : _)
        × IsIndexed identity fti content (F.reliable session.now) r.0 r.1) }
{
    let mut frames = Cursor::new(session);
    index_frames(alloc, &mut frames, identity, fti)
}
