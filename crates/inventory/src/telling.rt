//! What is told of a session.
ghost use Rattle.std.specs.Prelude.{List, IfOk};
ghost use Rattle.alc.specs.Reading.{Reading};
ghost use Rattle.inventory.specs.Parts.{AreParts};
ghost use Rattle.inventory.specs.Tells.{Tells};

use crate::collecting::Summary;
use crate::part::Part;
use reception::Identity;
use std::alloc::{AllocError, Global};

impl Summary {
    /// What is told of each identity, by TSI, then by TOI.
    pub fn parts(&self, alloc: Global) -> Result<Vec<Part>, AllocError>
        ensures { (readings : List Reading) → Tells readings self.now
            → IfOk result (λ parts. AreParts readings parts.items) }
    {
        let mut parts = Vec::new(alloc);
        for (key, tally) in &self.tallies {
            let (tsi, toi) = *key;
            parts.push(tally.part(alloc, Identity { tsi, toi })?)?;
        }
        Ok(parts)
    }
}
