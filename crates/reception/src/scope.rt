//! One look at a datagram.
ghost use Rattle.std.specs.Prelude.{◌≡◌, Ok, map};
ghost use Rattle.alc.specs.Views.{packet_of};
ghost use Rattle.reception.specs.Reception.{asked, with_fti, learned, is_of_identity};
ghost use Rattle.reception.specs.Reception.{has_other_fti};
ghost use Rattle.reception.specs.Found.{IsScopeOf};
ghost use Rattle.reception.specs.Step.{IsLook};
ghost use Rattle.reception.specs.Walks.{IsHeard};

use alc::{Packet, PacketFault, read, read_with};
use partition::Fti;

/// Whose packets they are (RFC 5651): the transport session identifier, below 2^48, and, in it, the
/// transport object identifier, below 2^112.
#[derive(Clone, Copy, PartialEq, Eq, Debug)]
pub struct Identity {
    pub tsi: u64,
    pub toi: u128,
}

/// What a datagram is that is a packet: of what holds the first, in this order.
#[derive(Clone, Copy, Debug)]
pub enum Look<'a> {
    /// A packet of another identity, which doesn't count.
    Other,
    /// A packet of the identity that carries no FTI, where none is known: nothing can be said of
    /// its symbol.
    Early,
    /// It carries an FTI that isn't that of the scope.
    OtherFti,
    /// Its symbol isn't as long as the scope's FTI tells.
    SymbolLength,
    /// The FTI has no such block, or the block no such encoding symbol.
    Range,
    /// A packet of the identity, in range of the scope's FTI and with a symbol as long as that
    /// tells, which is left to the caller to judge. It is a carrier where it has an FTI, which is
    /// then the scope's.
    InRange(Packet<'a>),
}

/// Whose packets are received, and with which FTI, as far as that is known. What isn't is taken
/// from the first carrier: the first of them that has one.
#[derive(Clone, Copy, Debug)]
pub struct Scope {
    pub identity: Identity,
    pub fti: Option<Fti>,
}

impl Scope {
    /// The identity's packets, with an FTI that isn't known before the first carrier: a receiver's.
    pub fn new(identity: Identity) -> Scope
        ensures { result ≡ asked identity }
    {
        Scope {
            identity,
            fti: None,
        }
    }

    /// The FTI is known before: a check's, whose certificate has the FTI.
    pub fn with_fti(identity: Identity, fti: Fti) -> Scope
        ensures { result ≡ with_fti identity fti }
    {
        Scope {
            identity,
            fti: Some(fti),
        }
    }

    /// The scope of datagrams, with the FTI of the first carrier among them, if there is one: a
    /// decoder's, who looks at each of them then. A fault of one may be by the FTI of a carrier
    /// behind it.
    pub fn found_in(identity: Identity, datagrams: &[&[u8]]) -> Scope
        ensures { IsScopeOf identity (map (λ d. d.now) datagrams.now) result }
    {
        let mut scope = Scope::new(identity);
        for datagram in datagrams {
            if scope.fti.is_some() {
                return scope;
            }
            scope.hear(datagram);
        }
        scope
    }

    /// Looks at one datagram, of any bytes: why it is no packet (RFC 5775), else what it is. In any
    /// case the scope takes the FTI from a carrier of the identity where it doesn't know one yet;
    /// what it knows stays.
    pub fn look<'a>(&mut self, datagram: &'a [u8]) -> Result<Look<'a>, PacketFault>
        ensures { IsLook datagram.now self.old self.new result }
    {
        let packet = match read_with(datagram, self.fti.as_ref()) {
            Ok(packet) => packet,
            Err(fault) => return Err(fault),
        };
        if !self.has(&packet) {
            return Ok(Look::Other);
        }
        self.learn(&packet);
        let Some(fti) = self.fti else {
            return Ok(Look::Early);
        };
        if carries_other(&packet, &fti) {
            return Ok(Look::OtherFti);
        }
        if packet.symbol.len() != usize::from(fti.symbol_length()) {
            return Ok(Look::SymbolLength);
        }
        if !fti.has(packet.sbn, packet.esi) {
            return Ok(Look::Range);
        }
        Ok(Look::InRange(packet))
    }

    // Takes from a datagram what isn't known, and asks no more of it.
    fn hear(&mut self, datagram: &[u8])
        ensures { IsHeard datagram.now self.old self.new }
    {
        if let Ok(packet) = read(datagram) {
            if self.has(&packet) {
                self.learn(&packet);
            }
        }
    }

    // Whether a packet is of the identity.
    fn has(&self, packet: &Packet<'_>) -> bool
        ensures { result ≡ is_of_identity self.now.identity (packet_of packet.now) }
    {
        packet.tsi == self.identity.tsi && packet.toi == self.identity.toi
    }

    // Takes from a packet of the identity what isn't known.
    fn learn(&mut self, packet: &Packet<'_>)
        ensures { self.new ≡ learned self.old (Ok (packet_of packet.now)) }
    {
        if self.fti.is_none() {
            self.fti = packet.fti;
        }
    }
}

// Whether a packet carries an FTI that isn't this one.
fn carries_other(packet: &Packet<'_>, fti: &Fti) -> bool
    ensures { result ≡ has_other_fti fti.now packet.now.fti }
{
    match packet.fti {
        Some(own) => own != *fti,
        None => false,
    }
}
