//! What a receiver gives: the answer to the datagrams that it accepted.
ghost use Rattle.std.specs.Prelude.{◌≡◌, ◌<◌, ℕ, List, Option, true, IfOk};
ghost use Rattle.std.specs.Prelude.{IfSome, IsSome, IsNone, OnErr};
ghost use Rattle.partition.specs.Fti.{block_count};
ghost use Rattle.reception.specs.Answer.{IsAnswer};
ghost use Rattle.decoder.specs.Answers.{answer_value, IsNoFault};
ghost use Rattle.decoder.specs.Answered.{IsShort};
ghost use Rattle.receiver.specs.Holds.{Holds, has_solved};
ghost use Rattle.partition.specs.Fti.{Fti as FtiValue};
ghost use Rattle.receiver.specs.Filed.{IsLack};
ghost use Rattle.receiver.specs.Stands.{Stands, StandsWith};
ghost use Rattle.receiver.specs.Receiving.{LeaveNoneShort};
ghost use Rattle.receiver.specs.Taking.{IsShortBlock, AllSolved};

use crate::receiver::Receiver;
use crate::receiving::Receiving;
use crate::store::Store;
use decoder::{Answer, Short};
use std::alloc::{AllocError, Global};

impl Store {
    // How a block is short, if it is.
    fn short(&self, b: u32) -> Option<Short>
        requires { b < block_count self.now.fti }
        ensures short { (bytes : ℕ → List ℕ) (at : ℕ → ℕ → Option (List ℕ))
            → Holds self.now bytes at
            → IfSome result (IsShortBlock self.now.fti b (at b)) }
        ensures none { IsNone result → has_solved self.now b ≡ true }
    {
        let have = self.esis.get(b).len();
        let need = self.fti.k(b);
        if have < need {
            Some(Short {
                block: b,
                have,
                need,
            })
        } else {
            None
        }
    }

    // The first block that is short.
    fn first_short(&self) -> Option<Short>
        ensures short { (bytes : ℕ → List ℕ) (at : ℕ → ℕ → Option (List ℕ))
            → Holds self.now bytes at
            → IfSome result (IsShort self.now.fti at) }
        ensures none { IsNone result → AllSolved self.now }
    {
        for b in 0..self.fti.block_count() {
            let short = self.short(b);
            if short.is_some() {
                return short;
            }
        }
        None
    }
}

impl Receiving {
    /// What the accepted datagrams lack for the object: a carrier, or symbols of a block, the first
    /// that is short. `None` is where nothing does.
    pub(crate) fn lack(&self) -> Option<Answer>
        ensures answer { (told : FtiValue → Option (ℕ → List ℕ)) (ds : List (List ℕ))
            → StandsWith self.now told ds
            → IfSome result (λ a. IsAnswer self.now.identity ds (answer_value a)) }
        ensures lack { IfSome result IsLack }
        ensures none { (told : FtiValue → Option (ℕ → List ℕ)) (ds : List (List ℕ))
            → StandsWith self.now told ds → IsNone result
            → LeaveNoneShort self.now.identity ds }
        ensures store { IsNone result → IsSome self.now.store }
    {
        let Some(store) = &self.store else {
            return Some(Answer::Empty);
        };
        store.fti.is_valid();
        let short = store.first_short()?;
        Some(Answer::Missing {
            block: short.block,
            have: short.have,
            need: short.need,
        })
    }
}

impl Receiver {
    /// What the accepted datagrams say of the object, as `decode` answers to them; never a fault.
    /// Memory for the object is asked for only where no block is short. The receiver may be fed
    /// further, and asked again.
    pub fn take(&self, alloc: Global) -> Result<Answer, AllocError>
        ensures answer { (ds : List (List ℕ)) → Stands self.now ds
            → IfOk result (λ a. IsAnswer self.now.receiving.identity ds (answer_value a)) }
        ensures no_fault { IfOk result IsNoFault }
        ensures memory { (ds : List (List ℕ)) → Stands self.now ds
            → OnErr result (LeaveNoneShort self.now.receiving.identity ds) }
    {
        let Some(store) = &self.receiving.store else {
            return Ok(Answer::Empty);
        };
        store.fti.is_valid();
        match store.first_short() {
            Some(short) => Ok(Answer::Missing {
                block: short.block,
                have: short.have,
                need: short.need,
            }),
            None => Ok(Answer::Object(self.blocks.object(alloc, &store.fti)?)),
        }
    }
}
