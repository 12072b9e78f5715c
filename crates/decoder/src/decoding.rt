//! Decoding: the object that datagrams give, or why they give none.
ghost use Rattle.std.specs.Prelude.{◌<◌, ℕ, [], length, map, slice_index_or, IfOk};
ghost use Rattle.std.specs.Prelude.{IfErr};
ghost use Rattle.lists.specs.Bytes.{AreBytes};
ghost use Rattle.block_code.specs.Codes.{EachBlockHas};
ghost use Rattle.block_code.specs.CodesOf.{IsCodeOf};
ghost use Rattle.reception.specs.Answer.{IsAnswer};
ghost use Rattle.decoder.specs.Answers.{answer_value};
ghost use Rattle.block_recovery.specs.Decoded.{AreWithin};
ghost use Rattle.decoder.specs.Answered.{Answers, IsShort, NoneIsShort, Stand};
ghost use Rattle.decoder.specs.Objects.{IsNoObject};
ghost use Rattle.block_recovery.specs.Received.{bytes_at};
ghost use Rattle.decoder.specs.Sources.{IsUnreadOf};
ghost use Rattle.decoder.specs.Unsolvable.{HaveBytes};

use crate::answer::{Answer, Short};
use crate::coded_source::CodedSource;
use crate::counting::first_short;
use crate::source::{Source, Unread};
use crate::unsolvable::first_unsolvable;
use block_code::{BlockCodes, Kind};
use block_recovery::{DecodeFault, Received, receive, received_rows};
use lists::are_bytes;
use reception::Identity;
use std::alloc::{AllocError, Global};

// What the type says of each datagram.
fn all_are_bytes(datagrams: &[&[u8]])
    ensures { (i : ℕ) → i < length datagrams.now
        → AreBytes (slice_index_or (map (λ d. d.now) datagrams.now) i []) }
{
    for i in 0..datagrams.len() {
        are_bytes(datagrams[i]);
    }
}

// The object, or the first block that isn't of one, where no block is short.
fn decode_all(
    alloc: Global,
    received: &Received<'_>,
    codes: &BlockCodes,
) -> Result<Answer, AllocError>
    requires codes { EachBlockHas (IsCodeOf received.now.fti) received.now.fti codes.now }
    requires within { AreWithin received.now.fti (bytes_at received.now.symbols) }
    requires enough { NoneIsShort received.now.fti (bytes_at received.now.symbols) }
    ensures { IfOk result (λ a.
        Answers received.now.fti (bytes_at received.now.symbols) (answer_value a)) }
{
    let fti = &received.fti;
    let mut object = Vec::with_capacity(alloc, fti.transfer_length() as usize)?;
    let mut kept = None;
    for b in 0..fti.block_count() {
        let Some(rows) = received_rows(alloc, received, codes, b, &mut kept)? else {
            return Ok(Answer::Fault(DecodeFault::NotCode(b)));
        };
        object.extend_from_slice(&rows.bytes[..fti.block_bytes(b)])?;
    }
    Ok(Answer::Object(object))
}

/// The answer where a block is short: the first such, if no full one is of no object.
pub(crate) fn short_answer<S: Source>(
    alloc: Global,
    coded: &CodedSource<'_, S>,
    short: Short,
) -> Result<Answer, Unread>
    requires { IsShort (S.known coded.now.source.now) (S.at coded.now.source.now) short }
    ensures answers { S.Told coded.now.source.now → IfOk result (λ a.
        Answers (S.known coded.now.source.now) (S.at coded.now.source.now) (answer_value a)) }
    ensures none { IfOk result IsNoObject }
    ensures fault { IfErr result
        (IsUnreadOf (S.Told coded.now.source.now) (S.reliable coded.now.source.now)) }
{
    match first_unsolvable(alloc, coded)? {
        Some(b) => Ok(Answer::Fault(DecodeFault::NotCode(b))),
        None => Ok(Answer::Missing {
            block: short.block,
            have: short.have,
            need: short.need,
        }),
    }
}

// What the symbols give.
fn answer(alloc: Global, received: &Received<'_>) -> Result<Answer, AllocError>
    requires stand { Stand received.now.fti (bytes_at received.now.symbols) }
    requires bytes { HaveBytes (bytes_at received.now.symbols) }
    ensures { IfOk result (λ a.
        Answers received.now.fti (bytes_at received.now.symbols) (answer_value a)) }
{
    received.fti.is_valid();
    let codes = BlockCodes::new(alloc, Kind::Generator, &received.fti)?;
    let coded = CodedSource {
        source: received,
        codes: &codes,
    };
    match first_short(received) {
        Some(short) => match short_answer(alloc, &coded, short) {
            Ok(answer) => Ok(answer),
            Err(_) => Err(AllocError),
        },
        None => decode_all(alloc, received, &codes),
    }
}

/// What the datagrams say of the object that was sent under an identity (RFC 5510, section 8): the
/// object, or why they give none. Packets of other identities are passed over, and the FTI of the
/// first carrier of this one holds, wherever it stands in the list. Without a carrier the only
/// fault is a datagram that is no packet. No datagram and no sender is trusted: the answer is exact
/// for every list of datagrams. Memory for the object is asked for only where no block is short,
/// and for a block only where it has enough symbols.
pub fn decode(alloc: Global, datagrams: &[&[u8]], identity: Identity) -> Result<Answer, AllocError>
    ensures { IfOk result
        (λ a. IsAnswer identity (map (λ d. d.now) datagrams.now) (answer_value a)) }
{
    all_are_bytes(datagrams);
    match receive(alloc, datagrams, identity)? {
        Ok(Some(received)) => answer(alloc, &received),
        Ok(None) => Ok(Answer::Empty),
        Err(fault) => Ok(Answer::Fault(fault)),
    }
}
