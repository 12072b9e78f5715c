//! A receiver that keeps symbols in the output that the object is for.
ghost use Rattle.std.specs.Prelude.{◌≡◌, false, is_some};
ghost use Rattle.block_bytes.specs.Places.{has_place};

use crate::receiver::{FeedFault, Progress};
use crate::receiving::Receiving;
use block_bytes::{Beside, Blocks, FileBlocks, HeldBlocks};
use decoder::Answer;
use reception::Identity;
use session::Failed;
use std::alloc::Global;
use streams::WriteAt;

/// A receiver of an object's datagrams, one at a time, as a `Receiver`, but that it keeps symbols
/// in the output that the object is for. It wants one before the first carrier, and keeps no symbol
/// without one. An output that has no offsets stays empty until the object is there: symbols are
/// kept in memory then.
#[derive(Drop)]
pub struct FileReceiver<W: WriteAt> {
    pub(crate) receiving: Receiving,
    blocks: Blocks<W>,
    ghost waits: { has_place blocks ≡ false → is_some receiving.store ≡ false },
}

impl<W: WriteAt> FileReceiver<W> {
    ghost use Rattle.std.specs.Prelude.{◌≢◌, ◌↔◌, ℕ, List, [], Ok, Err, true, length};
    ghost use Rattle.std.specs.Prelude.{IfOk, IfErr, IfSome, IsSome, IsNone, OnOk, OnErr};
    ghost use Rattle.decoder.specs.Answers.{answer_value};
    ghost use Rattle.reception.specs.Answer.{IsAnswer};
    ghost use Rattle.receiver.specs.Begun.{Begins, IsCarrierOf};
    ghost use Rattle.receiver.specs.Filed.{Stands, IsLack, IsObjectIn, has_output};
    ghost use Rattle.block_bytes.specs.Places.{place_failed};
    ghost use Rattle.receiver.specs.Receiving.{with_datagram, Tells, HasNoFault, LeaveNoneShort};
    ghost use Rattle.receiver.specs.Receiving.{HasNoFaultBefore, ComesEarly, IsFaultOf};
    ghost use Rattle.receiver.specs.Stands.{IsSoundIn};

    /// A receiver of this identity's packets, to which nothing came, without an output.
    pub fn new(identity: Identity) -> FileReceiver<W>
        ensures stands { Stands result [] }
        ensures sound { IsSoundIn result.receiving.store }
        ensures identity { result.receiving.identity ≡ identity }
        ensures output { has_output result ≡ false }
    {
        FileReceiver {
            receiving: Receiving::new(identity),
            blocks: Blocks::Waiting,
        }
    }

    /// Whether an output is wanted before this datagram is fed: there is none yet, and the datagram
    /// is a carrier whose own FTI has its symbol.
    pub fn wants_output(&self, datagram: &[u8]) -> bool
        ensures carrier { result ≡ true
            → IsCarrierOf self.now.receiving.identity datagram.now }
        ensures output { result ≡ true → has_output self.now ≡ false }
        ensures other { result ≡ false → has_output self.now ≡ false
            → ¬ Begins self.now.receiving.identity datagram.now }
    {
        match self.blocks {
            Blocks::Waiting => self.receiving.is_begun_by(datagram),
            Blocks::Beside(_) | Blocks::File(_) => false,
        }
    }

    /// The receiver with an output, to which nothing was written.
    pub fn with_output(self, output: W) -> FileReceiver<W>
        requires none { has_output self ≡ false }
        requires blank { IfSome (W.contents output) (λ x. x ≡ []) }
        ensures stands { (ds : List (List ℕ)) → Stands self ds → IsSome (W.contents output)
            → Stands result ds }
        ensures receiving { result.receiving ≡ self.receiving }
        ensures output { has_output result ≡ true }
    {
        let FileReceiver { receiving, blocks } = self;
        let Blocks::Waiting = blocks else {
            unreachable!()
        };
        let blocks = if output.is_seekable() {
            Blocks::File(FileBlocks::new(output))
        } else {
            Blocks::Beside(Beside {
                held: HeldBlocks::new(),
                output,
            })
        };
        FileReceiver { receiving, blocks }
    }

    /// Takes one datagram, of any bytes, as `Receiver::feed`. A datagram to begin with asks for an
    /// output first. `Failed` says that reading or writing the output has failed.
    pub fn feed(&mut self, alloc: Global, datagram: &[u8]) -> Result<Progress, FeedFault>
        requires sound { IsSoundIn self.old.receiving.store }
        requires output { has_output self.old ≡ false
            → ¬ Begins self.old.receiving.identity datagram.now }
        ensures sound { IsSoundIn self.new.receiving.store }
        ensures identity { self.new.receiving.identity ≡ self.old.receiving.identity }
        ensures output { has_output self.new ≡ has_output self.old }
        ensures accepted { (ds : List (List ℕ)) → Stands self.old ds
            → OnOk result (Stands self.new (with_datagram ds datagram.now)) }
        ensures refused { (ds : List (List ℕ)) → Stands self.old ds
            → IfErr result (λ fault. fault ≢ FeedFault.Failed → Stands self.new ds) }
        ensures progress { (ds : List (List ℕ)) → Stands self.old ds → IfOk result
            (λ p. Tells p self.old.receiving.identity (with_datagram ds datagram.now)) }
        ensures fault { (ds : List (List ℕ)) → Stands self.old ds → IfErr result
            (IsFaultOf self.old.receiving.identity (with_datagram ds datagram.now)) }
        ensures memory { (ds : List (List ℕ)) → Stands self.old ds
            → result ≡ Err FeedFault.NoMemory
            → HasNoFaultBefore self.old.receiving.identity (with_datagram ds datagram.now) }
        ensures sound_answer { (ds : List (List ℕ)) → Stands self.old ds → OnOk result
            (HasNoFault self.old.receiving.identity (with_datagram ds datagram.now)) }
        ensures full { (ds : List (List ℕ)) → Stands self.old ds
            → (result ≡ Err FeedFault.Full) ↔ (length ds ≡ usize.MAX) }
        ensures early { (ds : List (List ℕ)) → Stands self.old ds
            → (result ≡ Err FeedFault.Early) ↔ ((length ds ≢ usize.MAX)
            × ComesEarly self.old.receiving.identity ds datagram.now) }
        ensures complete { result ≡ Ok Progress.Complete → has_output self.new ≡ true }
        ensures failed { result ≡ Err FeedFault.Failed → has_output self.new ≡ true }
        ensures fails { (ds : List (List ℕ)) → Stands self.old ds
            → result ≡ Err FeedFault.Failed → place_failed self.new.blocks ≡ true }
    {
        match &mut self.blocks {
            Blocks::Waiting => {
                let mut none = HeldBlocks::new();
                self.receiving.feed(alloc, &mut none, datagram)
            }
            Blocks::Beside(beside) => self.receiving.feed(alloc, &mut beside.held, datagram),
            Blocks::File(blocks) => self.receiving.feed(alloc, blocks, datagram),
        }
    }

    /// What the accepted datagrams lack for the object: a carrier, or symbols of a block, the first
    /// that is short. `None` is where nothing does.
    pub fn lack(&self) -> Option<Answer>
        ensures answer { (ds : List (List ℕ)) → Stands self.now ds → IfSome result
            (λ a. IsAnswer self.now.receiving.identity ds (answer_value a)) }
        ensures lack { IfSome result IsLack }
        ensures none { (ds : List (List ℕ)) → Stands self.now ds
            → IsNone result → LeaveNoneShort self.now.receiving.identity ds }
        ensures output { IsNone result → has_output self.now ≡ true }
    {
        self.receiving.lack()
    }

    /// Gives the output back, if there is one, with whatever was written to it.
    pub fn into_output(self) -> Option<W>
        ensures some { is_some result ≡ has_output self }
        ensures failed { place_failed self.blocks ≡ true
            → IfSome result (λ output. W.failed output ≡ true) }
    {
        let FileReceiver {
            receiving: _,
            blocks,
        } = self;
        blocks.into_output()
    }

    /// Gives the output back with the object, and the object's length in bytes. Where the output's
    /// bytes are told and no block is short, an error comes only where the output has failed. Where
    /// a block is short, what the output has isn't said.
    pub fn finish(self) -> (W, Result<u64, Failed>)
        requires { has_output self ≡ true }
        ensures object { (ds : List (List ℕ)) → Stands self ds
            → LeaveNoneShort self.receiving.identity ds
            → IfOk result.1 (IsObjectIn self.receiving.identity ds (W.contents result.0)) }
        ensures fails { (ds : List (List ℕ)) → Stands self ds
            → LeaveNoneShort self.receiving.identity ds
            → OnErr result.1 (W.failed result.0 ≡ true) }
    {
        let FileReceiver { receiving, blocks } = self;
        match &receiving.store {
            Some(store) => {
                store.fti.is_valid();
                let length = store.fti.transfer_length();
                match blocks.finish(&store.fti) {
                    (output, Ok(())) => (output, Ok(length)),
                    (output, Err(Failed)) => (output, Err(Failed)),
                }
            }
            // No carrier came, and there is no object.
            None => match blocks.into_output() {
                Some(output) => (output, Err(Failed)),
                None => unreachable!(),
            },
        }
    }
}
