//! What a check answers.
ghost use Rattle.std.specs.Prelude.{◌≡◌};
ghost use Rattle.cert.specs.Verdict.{short_of};

use alc::PacketFault;
use losses::Run;

/// What a check tells of a session that it says yes to. Losses are of datagrams, whosever packets
/// they are.
#[derive(Drop, Debug)]
pub struct Report {
    /// For each block, rising, how many source symbols it has and how many different ESIs of it the
    /// identity's packets hold.
    pub blocks: Vec<(usize, usize)>,
    /// How many places hold a carrier: a packet of the identity that carries an FTI. A datagram
    /// that comes again counts again.
    pub carriers: usize,
    /// How many of the identity's packets have a symbol that a packet before them has, too.
    pub repeats: usize,
    /// The greatest number of datagrams whose loss, whichever of all they are, leaves a carrier and
    /// no block short.
    pub margin: usize,
    /// The places of one datagram more, rising, whose loss is too much: where a loss of so many can
    /// leave a block short, it leaves short the least block that one can, and of those losses is
    /// the one whose lost ESIs, rising, stand first in a dictionary; else it takes all carriers.
    pub kill: Vec<usize>,
    /// The block whose kill it is. With `None` it takes all carriers.
    pub kill_block: Option<usize>,
    /// The greatest number of neighbouring datagrams whose loss, wherever they stand, leaves a
    /// carrier and no block short.
    pub burst: usize,
    /// The first place from which no more neighbours than the burst may be missed.
    pub burst_place: usize,
    /// The first block that one neighbour more from there leaves short. With `None` that leaves no
    /// block short, but takes all carriers.
    pub burst_block: Option<usize>,
}

/// What a picture of a yes shows beside its report. Places are those of all datagrams, whosever
/// packets they are, and count from 0.
#[derive(Drop, Debug)]
pub struct Survey {
    /// How many datagrams were checked.
    pub datagrams: usize,
    /// The places of the carriers, rising.
    pub carriers: Vec<usize>,
    /// For each place the longest run of neighbouring datagrams from there on whose loss leaves a
    /// carrier and no block short, and a block that one more leaves short; `None` where every run
    /// from there up to the end does.
    pub runs: Vec<Option<Run>>,
}

/// Why a certificate isn't one of an identity's packets in a session, and of an object. Places are
/// those of all datagrams, whosever packets they are; they and blocks, columns and symbols count
/// from 0.
///
/// The first of these is told: `OtherCertificate`, `ObjectLength`, `NotObject`, the reason at the
/// least place (`Packet` to `Symbol`, at one place in this order), `Empty`, `Thin`, `NoCarrier`.
#[derive(Clone, Copy, Debug, PartialEq, Eq)]
pub enum Reason {
    /// N12: the certificate has a name, and it isn't the identity.
    OtherCertificate,
    /// N1: the object hasn't the certificate's length.
    ObjectLength,
    /// N2: a polynomial doesn't give the object's byte, or zero where there is padding, at a source
    /// symbol's point; the least block, in it the least column, in that the least symbol.
    NotObject {
        block: u32,
        column: usize,
        symbol: usize,
    },
    /// N3: none of the identity's packets is there.
    Empty,
    /// N4: the datagram at a place is no packet, whatever identity is asked for.
    Packet(usize, PacketFault),
    /// N6: a packet of the identity carries an FTI that isn't the certificate's.
    OtherFti(usize),
    /// N10: its symbol isn't as long as the certificate's FTI tells.
    SymbolLength(usize),
    /// N7: there is no such block, or no such ESI in it.
    Range(usize),
    /// N8: its symbol isn't the polynomials' value at its point; the place and the least column.
    Symbol(usize, usize),
    /// N9: the identity's packets hold fewer different ESIs (`have`) of a block than it has source
    /// symbols (`need`); the least block.
    Thin {
        block: u32,
        have: usize,
        need: usize,
    },
    /// N11: no packet of the identity carries the FTI.
    NoCarrier,
}

impl Reason {
    /// The block that is short, how many different ESIs of it came and how many it needs, where
    /// that is the reason.
    pub fn short_block(self) -> Option<(u32, usize, usize)>
        ensures { result ≡ short_of self }
    {
        match self {
            Reason::Thin { block, have, need } => Some((block, have, need)),
            Reason::OtherCertificate
            | Reason::ObjectLength
            | Reason::NotObject { .. }
            | Reason::Empty
            | Reason::Packet(..)
            | Reason::OtherFti(_)
            | Reason::SymbolLength(_)
            | Reason::Range(_)
            | Reason::Symbol(..)
            | Reason::NoCarrier => None,
        }
    }
}

/// Whether a certificate is one of an identity's packets in a session, and of an object.
#[derive(Drop, Debug)]
pub enum Verdict {
    /// It is one, and this is what the session can lose.
    Yes(Report),
    /// It isn't, for this reason, the first.
    No(Reason),
}
