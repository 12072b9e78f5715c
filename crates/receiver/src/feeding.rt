//! Feeding a receiver with one datagram.
ghost use Rattle.std.specs.Prelude.{◌≡◌, ◌≢◌, ◌<◌, ◌+◌, ◌↔◌, ℕ, List, Option, None, Ok, Err, true};
ghost use Rattle.std.specs.Prelude.{false};
ghost use Rattle.std.specs.Prelude.{length, is_some, option_map};
ghost use Rattle.std.specs.Prelude.{IfOk, IfSome, IsSome, IfErr, OnOk, OnErr};
ghost use Rattle.partition.specs.Fti.{Fti as FtiValue, block_count, encoding_count};
ghost use Rattle.reception.specs.Answer.{reception_of};
ghost use Rattle.reception.specs.Walks.{readings_of};
ghost use Rattle.receiver.specs.Begun.{Begins, IsCarrierOf};
ghost use Rattle.receiver.specs.Stands.{Stands, StandsWith, IsFed, IsSoundIn};
ghost use Rattle.receiver.specs.Receiving.{with_datagram, Tells, IsFaultOf, HasNoFault};
ghost use Rattle.receiver.specs.Receiving.{HasNoFaultBefore, ComesEarly};
ghost use Rattle.receiver.specs.Fed.{HoldsFor, FedOutcome};
ghost use Rattle.receiver.specs.Putting.{bytes_now};

use crate::receiver::{FeedFault, Progress, Receiver};
use crate::receiving::Receiving;
use crate::store::Store;
use alc::Packet;
use block_bytes::BlockBytes;
use block_recovery::fault_at;
use lists::are_bytes;
use partition::Fti;
use reception::{Look, Scope};
use std::alloc::Global;

// Puts the symbol of the packet at a place, into a new store where there is none.
fn put<B: BlockBytes>(
    alloc: Global,
    fti: Fti,
    store: &mut Option<Store>,
    place: usize,
    packet: &Packet<'_>,
    bytes: &mut B,
) -> Result<(), FeedFault>
    requires sound { IsSoundIn store.old }
    requires number { packet.now.sbn < block_count fti }
    requires esi { packet.now.esi < encoding_count fti packet.now.sbn }
    requires symbol { length packet.now.symbol.now ≡ fti.symbol_length }
    requires fti { IfSome store.old (λ s. s.fti ≡ fti) }
    ensures sound { IsSoundIn store.new }
    ensures outcome { (at : ℕ → ℕ → Option (List ℕ))
        → HoldsFor fti (B.kept bytes.old) store.old at
        → FedOutcome fti place packet.now at (bytes_now B.BlockBytes bytes.new) result
        store.new }
    ensures some { OnOk result (IsSome store.new) }
    ensures none { OnErr result (is_some store.new ≡ is_some store.old) }
{
    if let Some(store) = store {
        return store.put(alloc, place, packet, bytes);
    }
    let mut new = Store::new(alloc, fti)?;
    new.put(alloc, place, packet, bytes)?;
    *store = Some(new);
    Ok(())
}

impl Receiving {
    // Whose packets it receives and with which FTI, as far as that is known.
    fn scope(&self) -> Scope
        ensures identity { result.identity ≡ self.now.identity }
        ensures fti { result.fti ≡ option_map (λ s. s.fti) self.now.store }
        ensures scope { (told : FtiValue → Option (ℕ → List ℕ)) (ds : List (List ℕ))
            → StandsWith self.now told ds
            → result ≡ (reception_of self.now.identity (readings_of ds)).scope }
    {
        let fti = match &self.store {
            Some(store) => Some(store.fti),
            None => None,
        };
        Scope {
            identity: self.identity,
            fti,
        }
    }

    // Whether every block has as many symbols as it needs. None is looked at.
    fn progress(&self) -> Progress
        ensures tells { (told : FtiValue → Option (ℕ → List ℕ)) (ds : List (List ℕ))
            → StandsWith self.now told ds → Tells result self.now.identity ds }
        ensures sound { (told : FtiValue → Option (ℕ → List ℕ)) (ds : List (List ℕ))
            → StandsWith self.now told ds → HasNoFault self.now.identity ds }
        ensures complete { result ≡ Progress.Complete → IsSome self.now.store }
    {
        let Some(store) = &self.store else {
            return Progress::More;
        };
        if store.solved == store.fti.block_count() {
            Progress::Complete
        } else {
            Progress::More
        }
    }

    // Counts a datagram that is accepted, and tells whether more are needed.
    fn accept(&mut self) -> Progress
        requires { self.old.accepted < usize.MAX }
        ensures accepted { self.new ≡ record {
          identity = self.old.identity;
          store = self.old.store;
          accepted = self.old.accepted + 1;
        } }
        ensures progress { (told : FtiValue → Option (ℕ → List ℕ)) (ds : List (List ℕ))
            → StandsWith self.new told ds → Tells result self.new.identity ds }
        ensures sound { (told : FtiValue → Option (ℕ → List ℕ)) (ds : List (List ℕ))
            → StandsWith self.new told ds → HasNoFault self.new.identity ds }
        ensures complete { result ≡ Progress.Complete → IsSome self.new.store }
    {
        self.accepted += 1;
        self.progress()
    }

    /// Whether this datagram would be the first carrier, and its own FTI has its symbol.
    pub(crate) fn is_begun_by(&self, datagram: &[u8]) -> bool
        ensures carrier { result ≡ true → IsCarrierOf self.now.identity datagram.now }
        ensures other { result ≡ false → ¬ Begins self.now.identity datagram.now }
    {
        are_bytes(datagram);
        let mut scope = Scope::new(self.identity);
        matches!(scope.look(datagram), Ok(Look::InRange(_)))
    }

    /// Takes one datagram, as `Receiver::feed`, and keeps its symbol among these bytes, which are
    /// those of the datagrams before. `Failed` says that reading or writing these has failed.
    pub fn feed<B: BlockBytes>(
        &mut self,
        alloc: Global,
        bytes: &mut B,
        datagram: &[u8],
    ) -> Result<Progress, FeedFault>
        requires sound { IsSoundIn self.old.store }
        ensures identity { self.new.identity ≡ self.old.identity }
        ensures sound { IsSoundIn self.new.store }
        ensures accepted { (ds : List (List ℕ)) → StandsWith self.old (B.kept bytes.old) ds
            → OnOk result (StandsWith self.new (B.kept bytes.new)
            (with_datagram ds datagram.now)) }
        ensures refused { (ds : List (List ℕ)) → StandsWith self.old (B.kept bytes.old) ds
            → IfErr result (λ fault. fault ≢ FeedFault.Failed
            → StandsWith self.new (B.kept bytes.new) ds) }
        ensures progress { (ds : List (List ℕ)) → StandsWith self.old (B.kept bytes.old) ds
            → IfOk result (λ p. Tells p self.old.identity (with_datagram ds datagram.now)) }
        ensures fault { (ds : List (List ℕ)) → StandsWith self.old (B.kept bytes.old) ds
            → IfErr result (IsFaultOf self.old.identity (with_datagram ds datagram.now)) }
        ensures memory { (ds : List (List ℕ)) → StandsWith self.old (B.kept bytes.old) ds
            → result ≡ Err FeedFault.NoMemory
            → HasNoFaultBefore self.old.identity (with_datagram ds datagram.now) }
        ensures sound_answer { (ds : List (List ℕ)) → StandsWith self.old (B.kept bytes.old) ds
            → OnOk result (HasNoFault self.old.identity (with_datagram ds datagram.now)) }
        ensures full { (ds : List (List ℕ)) → StandsWith self.old (B.kept bytes.old) ds
            → (result ≡ Err FeedFault.Full) ↔ (length ds ≡ usize.MAX) }
        ensures early { (ds : List (List ℕ)) → StandsWith self.old (B.kept bytes.old) ds
            → (result ≡ Err FeedFault.Early)
            ↔ ((length ds ≢ usize.MAX) × ComesEarly self.old.identity ds datagram.now) }
        ensures complete { result ≡ Ok Progress.Complete → IsSome self.new.store }
        ensures waits { self.old.store ≡ None → ¬ Begins self.old.identity datagram.now
            → (self.new.store ≡ None) × (result ≢ Err FeedFault.Failed) }
        ensures fails { (ds : List (List ℕ)) → StandsWith self.old (B.kept bytes.old) ds
            → result ≡ Err FeedFault.Failed → B.failed bytes.new ≡ true }
    {
        if self.accepted == usize::MAX {
            return Err(FeedFault::Full);
        }
        are_bytes(datagram);
        let mut scope = self.scope();
        let look = scope.look(datagram);
        if let Some(fault) = fault_at(self.accepted, &look) {
            return Err(FeedFault::Fault(fault));
        }
        let packet = match look {
            Ok(Look::InRange(packet)) => packet,
            Ok(Look::Other) => return Ok(self.accept()),
            Ok(Look::Early) => return Err(FeedFault::Early),
            Ok(Look::OtherFti | Look::SymbolLength | Look::Range) | Err(_) => unreachable!(),
        };
        let fti = scope.fti.unwrap();
        fti.is_valid();
        put(alloc, fti, &mut self.store, self.accepted, &packet, bytes)?;
        Ok(self.accept())
    }
}

impl Receiver {
    /// Takes one datagram, of any bytes. The receiver stands for the datagrams that it accepted: at
    /// `Ok` it stands for one more, and `decode` would answer no fault to them. At an error it
    /// stands for those before. Want of memory is never told in place of a fault that is seen
    /// before the symbol: no packet, another FTI, another length, or out of range. A packet of
    /// another identity is accepted and left aside. One of this identity that carries no FTI is
    /// refused as early where no carrier was accepted, whatever its symbol is.
    pub fn feed(&mut self, alloc: Global, datagram: &[u8]) -> Result<Progress, FeedFault>
        // It is new, or was fed.
        requires { IsFed self.old }
        ensures identity { self.new.receiving.identity ≡ self.old.receiving.identity }
        ensures accepted { (ds : List (List ℕ)) → Stands self.old ds
            → OnOk result (Stands self.new (with_datagram ds datagram.now)) }
        ensures refused { (ds : List (List ℕ)) → Stands self.old ds
            → OnErr result (Stands self.new ds) }
        ensures progress { (ds : List (List ℕ)) → Stands self.old ds
            → IfOk result
            (λ p. Tells p self.old.receiving.identity (with_datagram ds datagram.now)) }
        ensures fault { (ds : List (List ℕ)) → Stands self.old ds
            → IfErr result (IsFaultOf self.old.receiving.identity
            (with_datagram ds datagram.now)) }
        ensures memory { (ds : List (List ℕ)) → Stands self.old ds
            → result ≡ Err FeedFault.NoMemory
            → HasNoFaultBefore self.old.receiving.identity (with_datagram ds datagram.now) }
        ensures sound { (ds : List (List ℕ)) → Stands self.old ds
            → OnOk result (HasNoFault self.old.receiving.identity
            (with_datagram ds datagram.now)) }
        ensures full { (ds : List (List ℕ)) → Stands self.old ds
            → (result ≡ Err FeedFault.Full) ↔ (length ds ≡ usize.MAX) }
        ensures early { (ds : List (List ℕ)) → Stands self.old ds
            → (result ≡ Err FeedFault.Early)
            ↔ ((length ds ≢ usize.MAX)
            × ComesEarly self.old.receiving.identity ds datagram.now) }
        ensures in_memory { result ≢ Err FeedFault.Failed }
    {
        self.receiving.feed(alloc, &mut self.blocks, datagram)
    }
}
