//! Where a receiver that has an output keeps the bytes of blocks.
ghost use Rattle.std.specs.Prelude.{◌≡◌, [], IfSome};
ghost use Rattle.std.proofs.Props.{props};

use crate::file_blocks::FileBlocks;
use crate::held_blocks::HeldBlocks;
use partition::Fti;
use session::Failed;
use streams::WriteAt;

/// The bytes of blocks in memory, beside an output that has no offsets, to which nothing was
/// written.
#[derive(Drop)]
pub struct Beside<W: WriteAt> {
    pub held: HeldBlocks,
    pub output: W,
    ghost blank: { IfSome (W.contents output) (λ x. x ≡ []) } by { Prim.hlevel props },
}

/// Where the bytes of blocks are.
#[derive(Drop)]
pub enum Blocks<W: WriteAt> {
    /// Nowhere, as there is no output.
    Waiting,
    /// In memory.
    Beside(Beside<W>),
    /// In the output.
    File(FileBlocks<W>),
}

impl<W: WriteAt> Blocks<W> {
    ghost use Rattle.std.specs.Prelude.{Some, true, is_some, OnOk, OnErr};
    ghost use Rattle.block_bytes.specs.Parts.{object_in};
    ghost use Rattle.block_bytes.specs.Places.{has_place, place_failed, told_in};

    /// Gives the output back, if there is one, with whatever was written to it.
    pub fn into_output(self) -> Option<W>
        ensures some { is_some result ≡ has_place self }
        ensures failed { place_failed self ≡ true → IfSome result (λ w. W.failed w ≡ true) }
    {
        match self {
            Blocks::Waiting => None,
            Blocks::Beside(beside) => {
                let Beside { held: _, output } = beside;
                Some(output)
            }
            Blocks::File(file) => Some(file.into_output()),
        }
    }

    /// Gives the output back with the object of what is kept. An error comes only where the output
    /// has failed.
    pub fn finish(self, fti: &Fti) -> (W, Result<(), Failed>)
        requires { has_place self ≡ true }
        ensures object { OnOk result.1 (IfSome (told_in self fti.now)
            (λ bytes. W.contents result.0 ≡ Some (object_in fti.now bytes))) }
        ensures fails { OnErr result.1 (W.failed result.0 ≡ true) }
    {
        match self {
            Blocks::Waiting => unreachable!(),
            Blocks::Beside(beside) => {
                let Beside { held, mut output } = beside;
                let written = held.write_object(fti, &mut output);
                (output, written)
            }
            Blocks::File(file) => file.finish(fti),
        }
    }
}
