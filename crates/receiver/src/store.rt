//! What is kept of an object.
use crate::esis::Esis;
use crate::solver::Solver;
use block_code::{BlockCodes, Kind};
use partition::Fti;
use std::alloc::{AllocError, Global};

/// What is kept of an object whose FTI is known, beside the bytes of its blocks.
#[derive(Drop)]
pub(crate) struct Store {
    pub(crate) fti: Fti,
    /// Which symbols came. A block of which as many did as it needs is solved: its bytes are its
    /// source symbols. Those of another are the symbols that came, in the order in which they did.
    pub(crate) esis: Esis,
    /// How many blocks are solved.
    pub(crate) solved: u32,
    pub(crate) solver: Solver,
}

impl Store {
    ghost use Rattle.std.specs.Prelude.{◌≡◌, None, IfOk, ℕ, List, Option};
    ghost use Rattle.receiver.specs.Holds.{Holds, IsSound};

    /// A store of nothing. Want of memory is the only error.
    pub(crate) fn new(alloc: Global, fti: Fti) -> Result<Store, AllocError>
        ensures fti { IfOk result (λ s. s.fti ≡ fti) }
        ensures sound { IfOk result IsSound }
        ensures holds { (bytes : ℕ → List ℕ)
            → IfOk result (λ s. Holds s bytes (λ b j. None)) }
    {
        fti.is_valid();
        let codes = BlockCodes::new(alloc, Kind::Generator, &fti)?;
        Ok(Store {
            fti,
            esis: Esis::new(alloc, fti.n(0)),
            solved: 0,
            solver: Solver::new(codes),
        })
    }
}
