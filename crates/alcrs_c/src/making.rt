//! Encoding and certifying.
ghost use Rattle.std.specs.Prelude.{◌≡◌, ◌≢◌, ◌<◌, ◌++◌, ◌∷◌, [], ℕ, List, IfOk, IfErr, drop};
ghost use Rattle.std.specs.Prelude.{length};
ghost use Rattle.partition.specs.declared.FtiError.{FtiError as FtiErrorValue};
ghost use Rattle.certificate.specs.Certificate.{IsIdentity};
ghost use Rattle.encoder.specs.Sending.{most_symbol_bytes};
ghost use Rattle.alcrs_c.specs.Asked.{identity_of};
ghost use Rattle.alcrs_c.specs.Making.{IsEncoded, IsCertified, IsNoFti};
ghost use Rattle.alcrs_c.specs.Unmade.{IsUnsent, IsUncertified};
ghost use Rattle.alcrs_c.specs.Statuses.{ok, no_fti, too_long, no_room, no_memory, out_of_range};
ghost use Rattle.alcrs_c.specs.Statuses.{IsOneOf};
ghost use Rattle.alcrs_c.specs.Told.{told_fti};

use crate::input::identity;
use crate::status;
use crate::told::{AlcrsFault, fti_fault, put_bytes};
use encoder::{CertifyFault, SendFault, certify_to, encode};
use partition::{Fti, FtiError, Order};
use reception::Identity;
use session::Sink;
use std::alloc::Global;

/// Why nothing was made.
enum Unmade {
    OutOfRange,
    Fti(FtiError),
    TooLong,
    NoMemory,
}

fn encoded(
    alloc: Global,
    object: &[u8],
    tsi: u32,
    toi: u32,
    numbers: (u16, u8, u8),
    every: u32,
    rounds: bool,
) -> Result<Vec<u8>, Unmade>
    ensures made { IfOk result (λ v. IsEncoded object.now tsi toi numbers every rounds v.items) }
    ensures unmade { IfErr result (IsUnsent object.now numbers every) }
{
    if every == 0 {
        return Err(Unmade::OutOfRange);
    }
    let fti = match Fti::new(object.len() as u64, numbers.0, numbers.1, numbers.2) {
        Ok(fti) => fti,
        Err(fault) => return Err(Unmade::Fti(fault)),
    };
    let order = if rounds { Order::Rounds } else { Order::Blocks };
    let mut file = Sink::new(alloc);
    match encode(alloc, object, tsi, toi, &fti, every, order, &mut file) {
        Ok(_) => Ok(file.into_bytes()),
        Err(SendFault::Length) => unreachable!(),
        Err(SendFault::SymbolTooLong) => Err(Unmade::TooLong),
        Err(SendFault::Io | SendFault::NoMemory) => Err(Unmade::NoMemory),
    }
}

fn certified(
    alloc: Global,
    object: &[u8],
    numbers: (u16, u8, u8),
    identity: Identity,
) -> Result<Vec<u8>, Unmade>
    ensures made { IfOk result (λ v. IsCertified object.now numbers identity v.items) }
    ensures unmade { IfErr result (IsUncertified object.now numbers identity) }
{
    if identity.tsi >= 1 << 48 || identity.toi >= 1 << 112 {
        return Err(Unmade::OutOfRange);
    }
    let fti = match Fti::new(object.len() as u64, numbers.0, numbers.1, numbers.2) {
        Ok(fti) => fti,
        Err(fault) => return Err(Unmade::Fti(fault)),
    };
    let mut file = Sink::new(alloc);
    match certify_to(alloc, object, &fti, identity, &mut file) {
        Ok(()) => Ok(file.into_bytes()),
        Err(CertifyFault::Length) => unreachable!(),
        Err(CertifyFault::Io | CertifyFault::NoMemory) => Err(Unmade::NoMemory),
    }
}

/// Makes the session of an object. An encoding symbol has `symbol_length` bytes. A block has at
/// most `block_length` source symbols and `max_symbols` encoding symbols. Each datagram whose place
/// `fti_every` divides carries the FTI. The datagrams stand block after block, or where `rounds` is
/// set, in rounds of one symbol of each block.
///
/// - `OK`: the session stands in front of `session`, and `size` is its length in bytes.
/// - `NO_ROOM`: the session is longer than the buffer, and `size` is its length.
/// - `NO_FTI`: the numbers are no FTI. `fault` tells why.
/// - `TOO_LONG`: no datagram holds an encoding symbol.
/// - `OUT_OF_RANGE`: `fti_every` is 0.
/// - `NO_MEMORY`: memory is wanting.
///
/// What a status doesn't name stays as it was.
#[unsafe(no_mangle)]
pub extern "C" fn alcrs_encode(
    alloc: Global,
    object: &[u8],
    tsi: u32,
    toi: u32,
    symbol_length: u16,
    block_length: u8,
    max_symbols: u8,
    fti_every: u32,
    rounds: bool,
    fault: &mut AlcrsFault,
    session: &mut [u8],
    size: &mut usize,
) -> u32
    ensures encoded { result ≡ ok → (x : List ℕ)
        × IsEncoded object.now tsi toi (symbol_length, block_length, max_symbols) fti_every
        rounds x
        × (size.new ≡ length x) × (session.new ≡ x ++ drop (length x) session.old) }
    ensures room { result ≡ no_room → (x : List ℕ)
        × IsEncoded object.now tsi toi (symbol_length, block_length, max_symbols) fti_every
        rounds x
        × (size.new ≡ length x) × (length session.old < length x) }
    ensures fti { result ≡ no_fti → (e : FtiErrorValue)
        × IsNoFti object.now (symbol_length, block_length, max_symbols) e
        × (fault.new ≡ told_fti e) }
    ensures long { result ≡ too_long → most_symbol_bytes < symbol_length }
    ensures range { result ≡ out_of_range → fti_every ≡ 0 }
    ensures stays { result ≢ ok → session.new ≡ session.old }
    ensures sizeless { result ≢ ok → result ≢ no_room → size.new ≡ size.old }
    ensures silent { result ≢ no_fti → fault.new ≡ fault.old }
    ensures statuses { IsOneOf
        (ok ∷ no_fti ∷ too_long ∷ no_room ∷ no_memory ∷ out_of_range ∷ []) result }
{
    let numbers = (symbol_length, block_length, max_symbols);
    match encoded(alloc, object, tsi, toi, numbers, fti_every, rounds) {
        Ok(bytes) => {
            if put_bytes(&bytes, session, size) {
                status::OK
            } else {
                status::NO_ROOM
            }
        }
        Err(Unmade::OutOfRange) => status::OUT_OF_RANGE,
        Err(Unmade::Fti(e)) => {
            *fault = fti_fault(e);
            status::NO_FTI
        }
        Err(Unmade::TooLong) => status::TOO_LONG,
        Err(Unmade::NoMemory) => status::NO_MEMORY,
    }
}

/// Makes the certificate of an object, with the name of a TSI and of a TOI, which is `toi_high` *
/// 2^64 + `toi_low`. The other numbers are those of `alcrs_encode`.
///
/// - `OK`: the certificate stands in front of `certificate`, and `size` is its length in bytes.
/// - `NO_ROOM`: the certificate is longer than the buffer, and `size` is its length.
/// - `NO_FTI`: the numbers are no FTI. `fault` tells why.
/// - `OUT_OF_RANGE`: the TSI isn't below 2^48, or the TOI not below 2^112.
/// - `NO_MEMORY`: memory is wanting.
///
/// What a status doesn't name stays as it was.
#[unsafe(no_mangle)]
pub extern "C" fn alcrs_certify(
    alloc: Global,
    object: &[u8],
    tsi: u64,
    toi_high: u64,
    toi_low: u64,
    symbol_length: u16,
    block_length: u8,
    max_symbols: u8,
    fault: &mut AlcrsFault,
    certificate: &mut [u8],
    size: &mut usize,
) -> u32
    ensures certified { result ≡ ok → (x : List ℕ)
        × IsCertified object.now (symbol_length, block_length, max_symbols)
        (identity_of tsi toi_high toi_low) x
        × (size.new ≡ length x) × (certificate.new ≡ x ++ drop (length x) certificate.old) }
    ensures room { result ≡ no_room → (x : List ℕ)
        × IsCertified object.now (symbol_length, block_length, max_symbols)
        (identity_of tsi toi_high toi_low) x
        × (size.new ≡ length x) × (length certificate.old < length x) }
    ensures fti { result ≡ no_fti → (e : FtiErrorValue)
        × IsNoFti object.now (symbol_length, block_length, max_symbols) e
        × (fault.new ≡ told_fti e) }
    ensures range { result ≡ out_of_range
        → ¬ IsIdentity (identity_of tsi toi_high toi_low) }
    ensures stays { result ≢ ok → certificate.new ≡ certificate.old }
    ensures sizeless { result ≢ ok → result ≢ no_room → size.new ≡ size.old }
    ensures silent { result ≢ no_fti → fault.new ≡ fault.old }
    ensures statuses { IsOneOf
        (ok ∷ no_fti ∷ no_room ∷ no_memory ∷ out_of_range ∷ []) result }
{
    let numbers = (symbol_length, block_length, max_symbols);
    match certified(alloc, object, numbers, identity(tsi, toi_high, toi_low)) {
        Ok(bytes) => {
            if put_bytes(&bytes, certificate, size) {
                status::OK
            } else {
                status::NO_ROOM
            }
        }
        Err(Unmade::OutOfRange) => status::OUT_OF_RANGE,
        Err(Unmade::Fti(e)) => {
            *fault = fti_fault(e);
            status::NO_FTI
        }
        Err(Unmade::TooLong) => unreachable!(),
        Err(Unmade::NoMemory) => status::NO_MEMORY,
    }
}

/// The number of this interface.
#[unsafe(no_mangle)]
pub extern "C" fn alcrs_version() -> u32
    ensures { result ≡ 1 }
{
    1
}
