//! The encoding symbols that came of a source block, in the order in which they came.
ghost use Rattle.std.specs.Prelude.{◌≡◌, ◌<◌, ◌++◌, ◌∷◌, ℕ, List, [], length, is_some};
ghost use Rattle.std.specs.Prelude.{option_map, IfOk, IfSome, OnOk, OnErr};
ghost use Rattle.std.specs.List.{Contains};
ghost use Rattle.block_recovery.specs.Blocks.{bytes_of_esi};
ghost use Rattle.block_recovery.specs.Arrivals.{arrived_at, seen_at};

use std::alloc::{AllocError, Global};

/// A symbol that came, and its ESI.
#[derive(Drop)]
pub struct Arrival<S> {
    pub esi: u8,
    pub symbol: S,
}

/// Puts a symbol behind the others. Where there is no room for one more, makes room for it and for
/// a quarter of what came: twice as much would be more than the datagrams' places take.
pub fn push_arrival<S: Drop>(
    arrivals: &mut Vec<Arrival<S>>,
    arrival: Arrival<S>,
) -> Result<(), AllocError>
    ensures pushed { OnOk result (arrivals.new.items ≡ arrivals.old.items ++ arrival ∷ []) }
    ensures stays { OnErr result (arrivals.new.items ≡ arrivals.old.items) }
{
    if arrivals.len() == arrivals.capacity() {
        arrivals.reserve_exact(arrivals.len() / 4 + 1)?;
    }
    arrivals.push(arrival)?;
    Ok(())
}

/// The last symbol that has this ESI.
pub(crate) fn last_of<S: Copy>(arrivals: &[Arrival<S>], esi: u8) -> Option<S>
    ensures at { (held : S → List ℕ)
        → option_map held result ≡ arrived_at held arrivals.now esi }
    ensures listed { IfSome result (λ s.
        Contains arrivals.now (record { esi = esi; symbol = s })) }
{
    let mut found = None;
    for arrival in arrivals {
        if arrival.esi == esi {
            found = Some(arrival.symbol);
        }
    }
    found
}

/// Whether the symbol at each ESI came.
pub fn seen_of<S: Drop>(arrivals: &[Arrival<S>]) -> [bool; 256]
    ensures { (held : S → List ℕ) (j : ℕ) → j < 256
        → seen_at result j ≡ is_some (arrived_at held arrivals.now j) }
{
    let mut seen = [false; 256];
    for arrival in arrivals {
        seen[usize::from(arrival.esi)] = true;
    }
    seen
}

/// The symbols at the first `n` ESIs, those that came.
pub fn symbols_below<'a>(
    alloc: Global,
    arrivals: &[Arrival<&'a [u8]>],
    n: usize,
) -> Result<Vec<Option<&'a [u8]>>, AllocError>
    ensures len { IfOk result (λ v. length v.items ≡ n) }
    ensures at { IfOk result (λ v. (j : ℕ) → j < n
        → bytes_of_esi v.items j ≡ arrived_at (λ s. s.now) arrivals.now j) }
{
    let mut symbols = vec![in alloc; None; n]?;
    for arrival in arrivals {
        let esi = usize::from(arrival.esi);
        if esi < n {
            symbols[esi] = Some(arrival.symbol);
        }
    }
    Ok(symbols)
}
