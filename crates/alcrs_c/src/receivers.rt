//! A receiver behind a handle: the calls. A flag tells whether there is one.
ghost use Rattle.std.specs.Prelude.{◌≡◌, ◌≢◌, ◌<◌, ◌↔◌, ◌++◌, ◌∷◌, ℕ, List, [], true, false, drop};
ghost use Rattle.std.specs.Prelude.{length, IsNone, IfSome};
ghost use Rattle.reception.specs.declared.scope.Identity.{Identity as IdentityValue};
ghost use Rattle.reception.specs.Answer.{Empty, Missing, Object, IsAnswer};
ghost use Rattle.block_recovery.specs.Faults.{fault_value};
ghost use Rattle.receiver.specs.Receiving.{with_datagram, LeaveNoneShort, ComesEarly, HasNoFault};
ghost use Rattle.block_recovery.specs.declared.fault.DecodeFault.{DecodeFault as DecodeFaultValue};
ghost use Rattle.alcrs_c.specs.Asked.{identity_of};
ghost use Rattle.alcrs_c.specs.Handles.{IsHandle, IsOpen};
ghost use Rattle.alcrs_c.specs.Statuses.{ok, missing, empty, refused, no_room, no_memory, is_open};
ghost use Rattle.alcrs_c.specs.Statuses.{not_open, more, early, full, IsOneOf};
ghost use Rattle.alcrs_c.specs.Told.{told_decode, told_missing};

use crate::apart::Apart;
use crate::held::HeldReceiver;
use crate::input::identity;
use crate::status;
use crate::told::{AlcrsFault, decode_fault, missing_fault, put_bytes};
use decoder::Answer;
use receiver::{FeedFault, Progress, Receiver};
use std::alloc::Global;

/// A receiver of an object's datagrams, one at a time. C sets it to zero, and passes it to the
/// calls below alone.
#[repr(C)]
#[derive(Drop)]
pub struct AlcrsReceiver {
    pub held: HeldReceiver,
    pub is_open: bool,
}

// Takes the receiver out of its handle, if there is one.
fn take_out(alloc: Global, handle: &mut AlcrsReceiver) -> Option<Box<Receiver>>
    requires { IsHandle handle.old }
    ensures closed { handle.new.is_open ≡ false }
    ensures some { IfSome result (λ b.
        (handle.old.is_open ≡ true) × (b.value ≡ handle.old.held.value)) }
    ensures none { IsNone result → handle.old.is_open ≡ false }
{
    if !handle.is_open {
        return None;
    }
    handle.is_open = false;
    Some(handle.held.take(alloc).into_box())
}

// Puts a receiver into a handle that has none.
fn put_in(handle: &mut AlcrsReceiver, receiver: Box<Receiver>)
    ensures opened { handle.new.is_open ≡ true }
    ensures full { handle.new.held.full ≡ true }
    ensures value { handle.new.held.value ≡ receiver.value }
{
    handle.is_open = true;
    handle.held.put(Apart::from_box(receiver));
}

/// Opens a handle for an identity's packets. The TOI is `toi_high` * 2^64 + `toi_low`.
///
/// - `OK`: the handle is open, and no datagram was accepted.
/// - `IS_OPEN`: the handle is open already.
/// - `NO_MEMORY`: memory is wanting.
///
/// The handle changes at `OK` alone.
#[unsafe(no_mangle)]
pub extern "C" fn alcrs_receiver_open(
    alloc: Global,
    handle: &mut AlcrsReceiver,
    tsi: u64,
    toi_high: u64,
    toi_low: u64,
) -> u32
    requires { IsHandle handle.old }
    ensures handle { IsHandle handle.new }
    ensures opened { result ≡ ok → IsOpen handle.new (identity_of tsi toi_high toi_low) [] }
    ensures stays { result ≢ ok → handle.new ≡ handle.old }
    ensures taken { handle.old.is_open ≡ true → result ≡ is_open }
    ensures free { handle.old.is_open ≡ false → result ≢ is_open }
    ensures statuses { IsOneOf (ok ∷ no_memory ∷ is_open ∷ []) result }
{
    if handle.is_open {
        return status::IS_OPEN;
    }
    match Box::new(alloc, Receiver::new(identity(tsi, toi_high, toi_low))) {
        Ok(receiver) => {
            put_in(handle, receiver);
            status::OK
        }
        Err(_) => status::NO_MEMORY,
    }
}

/// Passes one datagram to an open handle.
///
/// - `OK`: the datagram was accepted, and each block has as many symbols as it needs.
/// - `MORE`: the datagram was accepted, and more are needed.
/// - `REFUSED`: with it the datagrams would be of no object. `fault` tells why.
/// - `EARLY`: the datagram has no FTI, and came before one.
/// - `FULL`: no more datagrams can be counted.
/// - `NO_MEMORY`: memory is wanting.
/// - `NOT_OPEN`: the handle isn't open.
///
/// At all but the first two the datagram is refused, and the receiver is as before. `fault` changes
/// at `REFUSED` alone.
#[unsafe(no_mangle)]
pub extern "C" fn alcrs_receiver_feed(
    alloc: Global,
    handle: &mut AlcrsReceiver,
    datagram: &[u8],
    fault: &mut AlcrsFault,
) -> u32
    requires { IsHandle handle.old }
    ensures handle { IsHandle handle.new }
    ensures complete { (who : IdentityValue) (ds : List (List ℕ)) → IsOpen handle.old who ds
        → result ≡ ok → IsOpen handle.new who (with_datagram ds datagram.now)
        × LeaveNoneShort who (with_datagram ds datagram.now) }
    ensures more { (who : IdentityValue) (ds : List (List ℕ)) → IsOpen handle.old who ds
        → result ≡ more → IsOpen handle.new who (with_datagram ds datagram.now)
        × (¬ LeaveNoneShort who (with_datagram ds datagram.now)) }
    ensures refused { (who : IdentityValue) (ds : List (List ℕ)) → IsOpen handle.old who ds
        → result ≡ refused → (e : DecodeFaultValue)
        × IsAnswer who (with_datagram ds datagram.now) (fault_value e)
        × (fault.new ≡ told_decode e) }
    ensures early { (who : IdentityValue) (ds : List (List ℕ)) → IsOpen handle.old who ds
        → (result ≡ early) ↔ ((length ds ≢ usize.MAX) × ComesEarly who ds datagram.now) }
    ensures full { (who : IdentityValue) (ds : List (List ℕ)) → IsOpen handle.old who ds
        → (result ≡ full) ↔ (length ds ≡ usize.MAX) }
    // No fault is the answer to what was accepted.
    ensures sound { (who : IdentityValue) (ds : List (List ℕ)) → IsOpen handle.old who ds
        → IsOneOf (ok ∷ more ∷ []) result → HasNoFault who (with_datagram ds datagram.now) }
    ensures stays { (who : IdentityValue) (ds : List (List ℕ)) → IsOpen handle.old who ds
        → result ≢ ok → result ≢ more → IsOpen handle.new who ds }
    ensures closed { handle.old.is_open ≡ false → result ≡ not_open }
    ensures open { handle.old.is_open ≡ true → result ≢ not_open }
    ensures silent { result ≢ refused → fault.new ≡ fault.old }
    ensures statuses { IsOneOf
        (ok ∷ more ∷ refused ∷ early ∷ full ∷ no_memory ∷ not_open ∷ []) result }
{
    let Some(mut receiver) = take_out(alloc, handle) else {
        return status::NOT_OPEN;
    };
    let fed = receiver.feed(alloc, datagram);
    put_in(handle, receiver);
    match fed {
        Ok(Progress::Complete) => status::OK,
        Ok(Progress::More) => status::MORE,
        Err(FeedFault::Fault(e)) => {
            *fault = decode_fault(e);
            status::REFUSED
        }
        Err(FeedFault::Early) => status::EARLY,
        Err(FeedFault::Full) => status::FULL,
        Err(FeedFault::NoMemory) => status::NO_MEMORY,
        Err(FeedFault::Failed) => unreachable!(),
    }
}

/// Tells what the datagrams that an open handle has accepted say of the object. The handle may be
/// fed further.
///
/// - `OK`: the object stands in front of `object`, and `size` is its length in bytes.
/// - `NO_ROOM`: the object is longer than the buffer, and `size` is its length.
/// - `MISSING`: a block is short. `fault` has the block, `have` and `need`.
/// - `EMPTY`: no carrier came.
/// - `NO_MEMORY`: memory is wanting.
/// - `NOT_OPEN`: the handle isn't open.
///
/// What a status doesn't name stays as it was.
#[unsafe(no_mangle)]
pub extern "C" fn alcrs_receiver_object(
    alloc: Global,
    handle: &mut AlcrsReceiver,
    fault: &mut AlcrsFault,
    object: &mut [u8],
    size: &mut usize,
) -> u32
    requires { IsHandle handle.old }
    ensures handle { IsHandle handle.new }
    ensures stays { (who : IdentityValue) (ds : List (List ℕ)) → IsOpen handle.old who ds
        → IsOpen handle.new who ds }
    ensures object { (who : IdentityValue) (ds : List (List ℕ)) → IsOpen handle.old who ds
        → result ≡ ok → (o : List ℕ) × IsAnswer who ds (Object o)
        × (size.new ≡ length o) × (object.new ≡ o ++ drop (length o) object.old) }
    ensures room { (who : IdentityValue) (ds : List (List ℕ)) → IsOpen handle.old who ds
        → result ≡ no_room → (o : List ℕ) × IsAnswer who ds (Object o)
        × (size.new ≡ length o) × (length object.old < length o) }
    ensures missing { (who : IdentityValue) (ds : List (List ℕ)) → IsOpen handle.old who ds
        → result ≡ missing → (b h n : ℕ) × IsAnswer who ds (Missing b h n)
        × (fault.new ≡ told_missing b h n) }
    ensures empty { (who : IdentityValue) (ds : List (List ℕ)) → IsOpen handle.old who ds
        → result ≡ empty → IsAnswer who ds Empty }
    ensures closed { handle.old.is_open ≡ false → result ≡ not_open }
    ensures open { handle.old.is_open ≡ true → result ≢ not_open }
    ensures buffer { result ≢ ok → object.new ≡ object.old }
    ensures sizeless { result ≢ ok → result ≢ no_room → size.new ≡ size.old }
    ensures silent { result ≢ missing → fault.new ≡ fault.old }
    ensures statuses { IsOneOf
        (ok ∷ missing ∷ empty ∷ no_room ∷ no_memory ∷ not_open ∷ []) result }
{
    let Some(receiver) = take_out(alloc, handle) else {
        return status::NOT_OPEN;
    };
    let answer = receiver.take(alloc);
    put_in(handle, receiver);
    match answer {
        Ok(Answer::Object(bytes)) => {
            if put_bytes(&bytes, object, size) {
                status::OK
            } else {
                status::NO_ROOM
            }
        }
        Ok(Answer::Missing { block, have, need }) => {
            *fault = missing_fault(block, have, need);
            status::MISSING
        }
        Ok(Answer::Empty) => status::EMPTY,
        Ok(Answer::Fault(_)) => unreachable!(),
        Err(_) => status::NO_MEMORY,
    }
}

/// Closes a handle, and frees what it had. A handle that isn't open stays so.
#[unsafe(no_mangle)]
pub extern "C" fn alcrs_receiver_close(alloc: Global, handle: &mut AlcrsReceiver)
    requires { IsHandle handle.old }
    ensures handle { IsHandle handle.new }
    ensures closed { handle.new.is_open ≡ false }
{
    take_out(alloc, handle);
}
