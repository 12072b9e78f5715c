//! Decoding.
ghost use Rattle.std.specs.Prelude.{◌≡◌, ◌≢◌, ◌<◌, ◌++◌, ◌∷◌, [], ℕ, List, Some, None, IfOk, IfErr};
ghost use Rattle.std.specs.Prelude.{drop, length};
ghost use Rattle.partition.specs.Fti.{Fti as FtiValue};
ghost use Rattle.session.specs.Frames.{StopsAt};
ghost use Rattle.session.specs.declared.frame.FrameFault.{FrameFault as FrameFaultValue};
ghost use Rattle.reception.specs.Answer.{Empty, Missing, Object};
ghost use Rattle.decoder.specs.Answers.{answer_value};
ghost use Rattle.block_recovery.specs.Faults.{fault_value};
ghost use Rattle.block_recovery.specs.declared.fault.DecodeFault.{DecodeFault as DecodeFaultValue};
ghost use Rattle.alcrs_c.specs.Asked.{identity_of};
ghost use Rattle.alcrs_c.specs.Decoded.{IsDecoded, HasFti};
ghost use Rattle.alcrs_c.specs.Undecoded.{IsUndecoded};
ghost use Rattle.alcrs_c.specs.Statuses.{ok, missing, empty, refused, no_session, no_room};
ghost use Rattle.alcrs_c.specs.Statuses.{no_memory, IsOneOf};
ghost use Rattle.alcrs_c.specs.Told.{told_decode, told_frame, told_missing};

use crate::frames::datagrams_of;
use crate::input::identity;
use crate::status;
use crate::told::{AlcrsFault, decode_fault, frame_fault, missing_fault, put_bytes};
use decoder::{Answer, decode};
use partition::Fti;
use reception::{Identity, Scope};
use session::FrameFault;
use std::alloc::Global;

/// Why there is no answer.
enum Undecoded {
    Session(FrameFault),
    NoMemory,
}

fn answer_of(alloc: Global, session: &[u8], identity: Identity) -> Result<Answer, Undecoded>
    ensures decoded { IfOk result (λ a. IsDecoded identity session.now (answer_value a)) }
    ensures undecoded { IfErr result (IsUndecoded session.now) }
{
    let datagrams = match datagrams_of(alloc, session) {
        Ok(datagrams) => datagrams,
        Err(FrameFault::NoMemory) => return Err(Undecoded::NoMemory),
        Err(fault) => return Err(Undecoded::Session(fault)),
    };
    match decode(alloc, &datagrams, identity) {
        Ok(answer) => Ok(answer),
        Err(_) => Err(Undecoded::NoMemory),
    }
}

fn fti_of(alloc: Global, session: &[u8], identity: Identity) -> Result<Option<Fti>, Undecoded>
    ensures found { IfOk result (HasFti identity session.now) }
    ensures undecoded { IfErr result (IsUndecoded session.now) }
{
    let datagrams = match datagrams_of(alloc, session) {
        Ok(datagrams) => datagrams,
        Err(FrameFault::NoMemory) => return Err(Undecoded::NoMemory),
        Err(fault) => return Err(Undecoded::Session(fault)),
    };
    Ok(Scope::found_in(identity, &datagrams).fti)
}

/// Tells the length in bytes of the object that is sent under an identity in a session, as the
/// first carrier has it. Nothing is decoded. The TOI is `toi_high` * 2^64 + `toi_low`.
///
/// - `OK`: `size` is the length.
/// - `EMPTY`: no carrier came.
/// - `NO_SESSION`: the bytes are no session's. `fault` tells why.
/// - `NO_MEMORY`: memory is wanting.
///
/// What a status doesn't name stays as it was.
#[unsafe(no_mangle)]
pub extern "C" fn alcrs_object_length(
    alloc: Global,
    session: &[u8],
    tsi: u64,
    toi_high: u64,
    toi_low: u64,
    fault: &mut AlcrsFault,
    size: &mut u64,
) -> u32
    ensures found { result ≡ ok → (f : FtiValue)
        × HasFti (identity_of tsi toi_high toi_low) session.now (Some f)
        × (size.new ≡ f.transfer_length) }
    ensures none { result ≡ empty → HasFti (identity_of tsi toi_high toi_low) session.now None }
    ensures session { result ≡ no_session → (e : FrameFaultValue) × StopsAt e session.now
        × (fault.new ≡ told_frame e) }
    ensures stays { result ≢ ok → size.new ≡ size.old }
    ensures silent { result ≢ no_session → fault.new ≡ fault.old }
    ensures statuses { IsOneOf (ok ∷ empty ∷ no_session ∷ no_memory ∷ []) result }
{
    match fti_of(alloc, session, identity(tsi, toi_high, toi_low)) {
        Ok(Some(fti)) => {
            *size = fti.transfer_length();
            status::OK
        }
        Ok(None) => status::EMPTY,
        Err(Undecoded::Session(e)) => {
            *fault = frame_fault(e);
            status::NO_SESSION
        }
        Err(Undecoded::NoMemory) => status::NO_MEMORY,
    }
}

/// Decodes the object that is sent under an identity in a session. The TOI is `toi_high` * 2^64 +
/// `toi_low`.
///
/// - `OK`: the object stands in front of `object`, and `size` is its length in bytes.
/// - `NO_ROOM`: the object is longer than the buffer, and `size` is its length.
/// - `MISSING`: a block is short. `fault` has the block, `have` and `need`.
/// - `EMPTY`: no carrier came.
/// - `REFUSED`: the datagrams are of no object. `fault` tells why.
/// - `NO_SESSION`: the bytes are no session's. `fault` tells why.
/// - `NO_MEMORY`: memory is wanting.
///
/// What a status doesn't name stays as it was.
#[unsafe(no_mangle)]
pub extern "C" fn alcrs_decode(
    alloc: Global,
    session: &[u8],
    tsi: u64,
    toi_high: u64,
    toi_low: u64,
    fault: &mut AlcrsFault,
    object: &mut [u8],
    size: &mut usize,
) -> u32
    ensures object { result ≡ ok → (o : List ℕ)
        × IsDecoded (identity_of tsi toi_high toi_low) session.now (Object o)
        × (size.new ≡ length o) × (object.new ≡ o ++ drop (length o) object.old) }
    ensures room { result ≡ no_room → (o : List ℕ)
        × IsDecoded (identity_of tsi toi_high toi_low) session.now (Object o)
        × (size.new ≡ length o) × (length object.old < length o) }
    ensures missing { result ≡ missing → (b h n : ℕ)
        × IsDecoded (identity_of tsi toi_high toi_low) session.now (Missing b h n)
        × (fault.new ≡ told_missing b h n) }
    ensures empty { result ≡ empty
        → IsDecoded (identity_of tsi toi_high toi_low) session.now Empty }
    ensures refused { result ≡ refused → (e : DecodeFaultValue)
        × IsDecoded (identity_of tsi toi_high toi_low) session.now (fault_value e)
        × (fault.new ≡ told_decode e) }
    ensures session { result ≡ no_session → (e : FrameFaultValue) × StopsAt e session.now
        × (fault.new ≡ told_frame e) }
    ensures stays { result ≢ ok → object.new ≡ object.old }
    ensures sizeless { result ≢ ok → result ≢ no_room → size.new ≡ size.old }
    ensures silent { IsOneOf (ok ∷ no_room ∷ empty ∷ no_memory ∷ []) result
        → fault.new ≡ fault.old }
    ensures statuses { IsOneOf
        (ok ∷ missing ∷ empty ∷ refused ∷ no_session ∷ no_room ∷ no_memory ∷ [])
        result }
{
    match answer_of(alloc, session, identity(tsi, toi_high, toi_low)) {
        Ok(Answer::Object(bytes)) => {
            if put_bytes(&bytes, object, size) {
                status::OK
            } else {
                status::NO_ROOM
            }
        }
        Ok(Answer::Missing { block, have, need }) => {
            *fault = missing_fault(block, have, need);
            status::MISSING
        }
        Ok(Answer::Empty) => status::EMPTY,
        Ok(Answer::Fault(e)) => {
            *fault = decode_fault(e);
            status::REFUSED
        }
        Err(Undecoded::Session(e)) => {
            *fault = frame_fault(e);
            status::NO_SESSION
        }
        Err(Undecoded::NoMemory) => status::NO_MEMORY,
    }
}
