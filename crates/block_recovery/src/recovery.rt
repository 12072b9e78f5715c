//! What makes missing source symbols of repair symbols. It is kept from block to block, as blocks
//! mostly lose the same ones.
ghost use Rattle.std.specs.Prelude.{◌≡◌, ◌≢◌, ◌<◌, ◌≤◌, ℕ, true, IfOk, length, slice_index};
ghost use Rattle.elim.specs.Generator.{Encodes};
ghost use Rattle.elim.specs.Erasures.{AreErasures, AreRising};
ghost use Rattle.elim.specs.Grid.{entry};
ghost use Rattle.elim.specs.Matrices.{identity_entry};
ghost use Rattle.block_recovery.specs.Erasures.{IsApart};
ghost use Rattle.block_recovery.specs.Recoveries.{IsRecovery, MayServe};
ghost use Rattle.block_recovery.specs.Rows.{byte_in, HasSizes, SameSizes};

use crate::rows::Rows;
use block_code::{Code, columns};
use elim::recovery;
use gf256::add_products;
use std::alloc::{AllocError, Global};

/// What makes missing source symbols of those that came and of as many repair symbols, in blocks of
/// `k` source symbols.
#[derive(Drop)]
pub struct Recovery {
    k: usize,
    missing: Vec<u8>,
    repair: Vec<u8>,
    // For each missing symbol a coefficient for each source symbol. A repair symbol takes the place
    // of each missing one.
    pub(crate) coefficients: Vec<u8>,
}

// The coefficients of an encoding symbol: one of each source symbol.
fn write_coefficients(code: &Code, esi: u8, row: &mut [u8])
    requires esi { esi < code.now.matrix.cols }
    requires length { length row.old ≡ code.now.matrix.rows }
    ensures { (i : ℕ) → i < code.now.matrix.rows
        → slice_index row.new i ≡ entry 0 code.now.matrix i esi }
{
    let k = row.len();
    let from = usize::from(esi) * k;
    row.copy_from_slice(&code.columns[from..from + k]);
}

// Makes the `i`-th of these places one and the others of them zero.
fn put_unit(row: &mut [u8], places: &[u8], i: usize)
    requires within { (a : ℕ) → a < length places.now
        → slice_index places.now a < length row.old }
    requires rise { AreRising places.now }
    ensures here { (a : ℕ) → a < length places.now
        → slice_index row.new (slice_index places.now a) ≡ identity_entry 0 1 a i }
    ensures apart { (p : ℕ) → IsApart places.now p
        → slice_index row.new p ≡ slice_index row.old p }
{
    for a in 0..places.len() {
        row[usize::from(places[a])] = u8::from(a == i);
    }
}

// Makes row `q` what is to be taken out of repair symbol `q`, whose ESI is given: the coefficients
// of the source symbols that came, and in the places of the missing ones those of the repair
// symbols, which are one of its own. There is room for a row.
fn put_residual(rows: &mut Rows, q: usize, code: &Code, missing: &[u8], esi: u8, room: &mut [u8])
    requires sizes { HasSizes (length missing.now) code.now.matrix.rows rows.old }
    requires row { q < length missing.now }
    requires esi { esi < code.now.matrix.cols }
    requires room { length room.old ≡ code.now.matrix.rows }
    requires within { (a : ℕ) → a < length missing.now
        → slice_index missing.now a < code.now.matrix.rows }
    requires rise { AreRising missing.now }
    ensures sizes { SameSizes rows.old rows.new }
    ensures apart { (i : ℕ) → i < code.now.matrix.rows → IsApart missing.now i
        → byte_in rows.new q i ≡ entry 0 code.now.matrix i esi }
    ensures own { (p : ℕ) → p < length missing.now
        → byte_in rows.new q (slice_index missing.now p) ≡ identity_entry 0 1 p q }
    ensures elsewhere { (m i : ℕ) → m ≢ q → i < code.now.matrix.rows
        → byte_in rows.new m i ≡ byte_in rows.old m i }
{
    write_coefficients(code, esi, room);
    put_unit(room, missing, q);
    rows.put(q, room);
}

// The rows of all repair symbols.
fn residual_coefficients(
    alloc: Global,
    code: &Code,
    missing: &[u8],
    repair: &[u8],
) -> Result<Rows, AllocError>
    requires erasures { AreErasures code.now.matrix.rows code.now.matrix.cols
        missing.now repair.now }
    requires few { length missing.now ≤ 255 }
    ensures sizes { IfOk result (HasSizes (length missing.now) code.now.matrix.rows) }
    ensures apart { IfOk result (λ rows. (q i : ℕ) → q < length missing.now
        → i < code.now.matrix.rows → IsApart missing.now i
        → byte_in rows q i ≡ entry 0 code.now.matrix i (slice_index repair.now q)) }
    ensures own { IfOk result (λ rows. (q p : ℕ) → q < length missing.now
        → p < length missing.now
        → byte_in rows q (slice_index missing.now p) ≡ identity_entry 0 1 p q) }
{
    let k = code.matrix.rows();
    let mut rows = Rows::zeros(alloc, missing.len(), k)?;
    let mut room = Vec::from_elem(alloc, 0u8, k)?;
    for q in 0..missing.len() {
        put_residual(&mut rows, q, code, missing, repair[q], &mut room);
    }
    Ok(rows)
}

impl Recovery {
    fn is_of(&self, k: usize, missing: &[u8], repair: &[u8]) -> bool
        ensures { result ≡ true → (self.now.k ≡ k) × (self.now.missing.items ≡ missing.now)
            × (self.now.repair.items ≡ repair.now) }
    {
        self.k == k && self.missing.as_slice() == missing && self.repair.as_slice() == repair
    }

    /// The one that was kept, if it is of these symbols, else a new one.
    pub(crate) fn of(
        alloc: Global,
        code: &Code,
        missing: &[u8],
        repair: &[u8],
        kept: Option<Recovery>,
    ) -> Result<Recovery, AllocError>
        requires kept { MayServe code.now.matrix kept }
        requires code { Encodes code.now.matrix.rows code.now.matrix.cols code.now.matrix }
        requires erasures { AreErasures code.now.matrix.rows code.now.matrix.cols
            missing.now repair.now }
        ensures { IfOk result (IsRecovery code.now.matrix missing.now repair.now) }
    {
        let k = code.matrix.rows();
        if let Some(recovery) = kept {
            if recovery.is_of(k, missing, repair) {
                return Ok(recovery);
            }
        }
        let n = missing.len();
        let matrix = recovery(alloc, &code.matrix, missing, repair)?;
        let factors = columns(alloc, &matrix)?;
        let residuals = residual_coefficients(alloc, code, missing, repair)?;
        residuals.are_bytes();
        let mut coefficients = vec![in alloc; 0u8; n * k]?;
        add_products(&mut coefficients, n, &factors, &residuals.bytes, n, k, k);
        Ok(Recovery {
            k,
            missing: missing.to_vec(alloc)?,
            repair: repair.to_vec(alloc)?,
            coefficients,
        })
    }
}
