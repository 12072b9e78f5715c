//! The cheapest symbols of a block.
ghost use Rattle.std.specs.Prelude.{◌≡◌, ℕ, ◌+◌, ◌-◌, ◌<◌, ◌≤◌, ◌^◌, length, slice_index, IfOk};
ghost use Rattle.std.specs.Prelude.{sum_by};
ghost use Rattle.losses.specs.Windows.{filled};
ghost use Rattle.losses.specs.Costs.{priced, present_esis, cheapest_of, cost_of};

use std::alloc::{AllocError, Global};

/// Up to which copies and ESI the cheapest symbols of a block go, and how many copies these have
/// together.
#[derive(Clone, Copy)]
pub(crate) struct Threshold {
    pub(crate) cost: usize,
    pub(crate) most_copies: usize,
    pub(crate) last_esi: u8,
}

// Each ESI that came, behind its copies.
fn pairs_of(alloc: Global, copies: &[usize; 256]) -> Result<Vec<(usize, u8)>, AllocError>
    ensures { IfOk result (λ v.
        v.items ≡ priced (slice_index copies.now) (present_esis copies.now)) }
{
    let mut pairs = Vec::new(alloc);
    for esi in 0..256usize {
        if copies[esi] > 0 {
            pairs.push((copies[esi], esi as u8))?;
        }
    }
    Ok(pairs)
}

// The copies of these ESIs together.
fn sum_of(pairs: &[(usize, u8)]) -> usize
    requires { sum_by (λ p. p.0) pairs.now < 2 ^ 64 }
    ensures { result ≡ sum_by (λ p. p.0) pairs.now }
{
    let mut sum = 0;
    for pair in pairs {
        sum += pair.0;
    }
    sum
}

/// The first `spare` symbols in the order of copies and ESI.
pub(crate) fn cheapest(
    alloc: Global,
    copies: &[usize; 256],
    spare: usize,
) -> Result<Threshold, AllocError>
    requires some { 0 < spare }
    requires enough { spare ≤ filled copies.now }
    requires fits { cost_of copies.now (present_esis copies.now) < 2 ^ 64 }
    ensures count { IfOk result (λ c.
        length (cheapest_of copies.now c.most_copies c.last_esi) ≡ spare) }
    ensures cost { IfOk result (λ c.
        c.cost ≡ cost_of copies.now (cheapest_of copies.now c.most_copies c.last_esi)) }
{
    let mut pairs = pairs_of(alloc, copies)?;
    pairs.sort()?;
    let cost = sum_of(&pairs[..spare]);
    let last = pairs[spare - 1];
    Ok(Threshold {
        cost,
        most_copies: last.0,
        last_esi: last.1,
    })
}
