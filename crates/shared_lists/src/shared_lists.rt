//! Lists one behind the other in one allocation.
ghost use Rattle.std.specs.Prelude.{◌≡◌, ◌<◌, ◌≤◌, ◌^◌, length};
ghost use Rattle.shared_lists.specs.Totals.{total};

use std::alloc::{AllocError, Global};

/// Lists with the indices 0, 1, 2 and so on. One to which nothing was pushed is empty. No list but
/// the last has more than 65,535 values: for more there is no memory.
#[derive(Drop)]
pub struct SharedLists<T> {
    // The lists' values, one list behind the other.
    values: Vec<T>,
    // The length of each list but the last to which something was pushed. It has the other values.
    lengths: Vec<u16>,
    ghost within: { total lengths.items ≤ length values.items },
}

// How many values lists of these lengths have.
#[tactic(auto, using(crate::proofs::Lists::total_more, crate::proofs::Lists::total_front))]
fn count(lengths: &[u16]) -> usize
    requires { total lengths.now < 2 ^ 64 }
    ensures { result ≡ total lengths.now }
{
    let mut count = 0;
    for length in lengths {
        count += usize::from(*length);
    }
    count
}

impl<T: Drop> SharedLists<T> {
    ghost use Rattle.std.specs.Prelude.{◌≡◌, ◌≢◌, ◌+◌, ◌∷◌, ◌++◌, [], ℕ, length, OnOk, OnErr};
    ghost use Rattle.std.specs.Prelude.{◌≤◌, IsOk, drop, take};
    ghost use Rattle.shared_lists.specs.Totals.{total};
    ghost use Rattle.shared_lists.specs.SharedLists.{HasRoom, list_at};

    /// Lists of which each is empty.
    pub fn new(alloc: Global) -> SharedLists<T>
        ensures { (i : ℕ) → list_at result i ≡ [] }
    {
        SharedLists {
            values: Vec::new(alloc),
            lengths: Vec::new(alloc),
        }
    }

    // How many values the lists in front of an index have.
    #[tactic(auto, using(crate::proofs::Lists::total_front))]
    fn front(&self, index: usize) -> usize
        requires { index ≤ length self.now.lengths.items }
        ensures front { result ≡ total (take index self.now.lengths.items) }
        ensures most { result ≤ length self.now.values.items }
    {
        count(&self.lengths.as_slice()[..index])
    }

    // How many values the list at an index has.
    #[tactic(auto, using(crate::proofs::Lists::one_list, crate::proofs::Lists::rest_list, crate::proofs::Lists::size_within))]
    fn size(&self, index: usize) -> usize
        requires { index ≤ length self.now.lengths.items }
        ensures most { total (take index self.now.lengths.items) + result
            ≤ length self.now.values.items }
        ensures list { list_at self.now index
            ≡ take result (drop (total (take index self.now.lengths.items))
            self.now.values.items) }
    {
        match self.lengths.get(index) {
            Some(length) => usize::from(*length),
            None => self.values.len() - self.front(index),
        }
    }

    /// The list at an index.
    #[tactic(auto, using(crate::proofs::Lists::no_list))]
    pub fn get(&self, index: usize) -> &[T]
        ensures { result.now ≡ list_at self.now index }
    {
        let values = self.values.as_slice();
        if self.lengths.len() < index {
            return &values[values.len()..];
        }
        let from = self.front(index);
        let to = from + self.size(index);
        &values[from..to]
    }

    // Makes the lists that follow begin behind all values.
    #[tactic(auto, using(crate::proofs::Lists::closed_same, crate::proofs::Lists::closed_within))]
    fn close(&mut self) -> Result<(), AllocError>
        ensures closed { OnOk result
            (length self.new.lengths.items ≡ length self.old.lengths.items + 1) }
        ensures same { (i : ℕ) → list_at self.new i ≡ list_at self.old i }
    {
        let rest = self.values.len() - self.front(self.lengths.len());
        let Ok(length) = u16::try_from(rest) else {
            return Err(AllocError);
        };
        self.lengths.push(length)?;
        Ok(())
    }

    /// Makes room for one value more in the list at an index. Want of memory is the only error.
    pub fn reserve(&mut self, index: usize) -> Result<(), AllocError>
        ensures same { (i : ℕ) → list_at self.new i ≡ list_at self.old i }
        ensures room { OnOk result (HasRoom self.new index) }
        ensures succeeds { HasRoom self.old index → IsOk result }
    {
        for _ in self.lengths.len()..index {
            self.close()?;
        }
        match self.lengths.get(index) {
            Some(length) if *length == u16::MAX => return Err(AllocError),
            _ => {}
        }
        // Room for a quarter of the values: for as many again it would be more than many short
        // lists take.
        if self.values.len() == self.values.capacity() {
            self.values.reserve_exact(self.values.len() / 4 + 1)?;
        }
        Ok(())
    }

    /// Puts a value behind those of the list at an index. Want of memory is the only error.
    #[tactic(auto, using(crate::proofs::Lists::put_here, crate::proofs::Lists::put_others, crate::proofs::Lists::last_at, crate::proofs::Lists::last_others, crate::proofs::Lists::total_set, crate::proofs::Lists::size_within))]
    pub fn push(&mut self, index: usize, value: T) -> Result<(), AllocError>
        ensures pushed { OnOk result
            (list_at self.new index ≡ list_at self.old index ++ value ∷ []) }
        ensures others { (i : ℕ) → index ≢ i → list_at self.new i ≡ list_at self.old i }
        ensures stays { OnErr result (list_at self.new index ≡ list_at self.old index) }
        ensures succeeds { HasRoom self.old index → IsOk result }
    {
        self.reserve(index)?;
        let Some(length) = self.lengths.get(index) else {
            self.values.push(value)?;
            return Ok(());
        };
        let Some(more) = length.checked_add(1) else {
            return Err(AllocError);
        };
        let behind = self.front(index) + usize::from(*length);
        self.values.insert(behind, value)?;
        self.lengths[index] = more;
        Ok(())
    }
}
