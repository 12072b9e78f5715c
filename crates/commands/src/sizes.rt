//! The FTI of an object, by the command line's numbers.
ghost use Rattle.std.specs.Prelude.{◌≡◌, Some, IfOk, IfErr};
ghost use Rattle.partition.specs.FtiFault.{fti_fault};
ghost use Rattle.commands.specs.Commands.{sized};

use partition::{Fti, FtiError};
use request::Sizes;

/// The FTI of an object of so many bytes.
pub fn fti_of(sizes: &Sizes, length: u64) -> Result<Fti, FtiError>
    ensures fti { IfOk result (λ f. f ≡ sized sizes.now length) }
    ensures fault { IfErr result (λ e. fti_fault (sized sizes.now length) ≡ Some e) }
{
    Fti::new(length, sizes.symbol, sizes.block, sizes.max_n)
}
