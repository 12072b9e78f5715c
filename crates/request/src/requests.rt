//! What a command line asks for.
ghost use Rattle.std.specs.Prelude.{◌≤◌};
ghost use Rattle.request.specs.Narrow.{IsNarrow};

use partition::Order;
use reception::Identity;
use session::PlaceRange;

// The most bytes of an encoding symbol: no more go into a datagram.
pub(crate) const MOST_SYMBOL_BYTES: u16 = 65_475;

/// All of an FTI but the transfer length, which is the object's own.
#[derive(Clone, Copy, Debug, PartialEq, Eq)]
pub struct Sizes {
    /// E: the bytes of an encoding symbol, 1 to 65,475.
    pub symbol: u16,
    /// B: the most source symbols of a block, 1 to 255.
    pub block: u8,
    /// The most encoding symbols of a block, 1 to 255.
    pub max_n: u8,
}

/// What is sent, and how.
#[derive(Clone, Copy, Debug, PartialEq, Eq)]
pub struct Sending {
    /// Whose packets are sent.
    pub identity: Identity,
    /// The FTI, but for the object's length.
    pub sizes: Sizes,
    /// The datagrams at the places that this number divides carry the FTI, 1 to 255.
    pub fti_every: u8,
    /// In which order the encoding symbols follow one another.
    pub order: Order,
    ghost some: { 1 ≤ fti_every },
    ghost narrow: { IsNarrow identity },
}

/// The file that a command writes.
#[derive(Clone, Copy, Debug, PartialEq, Eq)]
pub struct Output<'a> {
    pub name: &'a str,
    /// Whether a file that is there under this name stays, and nothing is written.
    pub no_clobber: bool,
}

/// Is the certificate one of the object and of the session's packets with this identity, and may so
/// many datagrams be missed? With a picture, draw what may be missed. With a summary, print few
/// lines at a yes.
#[derive(Drop)]
pub struct CheckRequest<'a> {
    pub session: &'a str,
    pub object: &'a str,
    pub certificate: &'a str,
    pub identity: Identity,
    pub picture: Option<&'a str>,
    /// Whether a yes is told in few lines, without one for each block.
    pub summary: bool,
    /// Any so many datagrams are to be such that they may be missed.
    pub margin: u32,
    /// And any so many neighbours.
    pub burst: u32,
    /// Whether a file that is there under the picture's name stays.
    pub no_clobber: bool,
    ghost narrow: { IsNarrow identity },
}

/// Write another object that agrees with all packets of the session with this identity, if a block
/// of it is short.
#[derive(Drop)]
pub struct TwinRequest<'a> {
    pub session: &'a str,
    pub object: &'a str,
    pub certificate: &'a str,
    pub output: Output<'a>,
    pub identity: Identity,
    ghost narrow: { IsNarrow identity },
}

/// What are the datagrams of the session? With a summary, print a few lines for each TSI and TOI in
/// place of a line for each datagram.
#[derive(Drop)]
pub struct ShowRequest<'a> {
    pub session: &'a str,
    pub summary: bool,
}

/// Send the object into a session file.
#[derive(Drop)]
pub struct EncodeRequest<'a> {
    pub object: &'a str,
    pub output: Output<'a>,
    pub sending: Sending,
}

/// Certify the object, for the packets with this identity.
#[derive(Drop)]
pub struct CertifyRequest<'a> {
    pub object: &'a str,
    pub output: Output<'a>,
    pub identity: Identity,
    pub sizes: Sizes,
    ghost narrow: { IsNarrow identity },
}

/// Write the certificate as one of the packets with this identity.
#[derive(Drop)]
pub struct ConvertRequest<'a> {
    pub certificate: &'a str,
    pub output: Output<'a>,
    pub identity: Identity,
    ghost narrow: { IsNarrow identity },
}

/// Write the object that the session's packets with this identity give.
#[derive(Drop)]
pub struct DecodeRequest<'a> {
    pub session: &'a str,
    pub output: Output<'a>,
    pub identity: Identity,
    ghost narrow: { IsNarrow identity },
}

/// Write the object as soon as the session's packets with this identity, read one by one, give it.
#[derive(Drop)]
pub struct FollowRequest<'a> {
    pub session: &'a str,
    pub output: Output<'a>,
    pub identity: Identity,
    ghost narrow: { IsNarrow identity },
}

/// Leave the datagrams at these places out, counted from 0, and at those that a file tells; one
/// place or more, or a file.
#[derive(Drop)]
pub struct DropRequest<'a> {
    pub session: &'a str,
    pub output: Output<'a>,
    pub places: Vec<PlaceRange>,
    pub places_file: Option<&'a str>,
}

/// Keep the whole frames that the session begins with.
#[derive(Drop)]
pub struct SalvageRequest<'a> {
    pub session: &'a str,
    pub output: Output<'a>,
}

/// Join the sessions: one after the other, or, with `turns`, one datagram of each in turn; one
/// session or more.
#[derive(Drop)]
pub struct JoinRequest<'a> {
    pub output: Output<'a>,
    pub sessions: Vec<&'a str>,
    pub turns: bool,
}

/// A command with its values. Texts are paths as the command line has them. A TSI and a TOI are
/// below 2^32.
#[derive(Drop)]
pub enum Request<'a> {
    Check(CheckRequest<'a>),
    Twin(TwinRequest<'a>),
    Show(ShowRequest<'a>),
    Encode(EncodeRequest<'a>),
    Certify(CertifyRequest<'a>),
    Convert(ConvertRequest<'a>),
    Decode(DecodeRequest<'a>),
    Follow(FollowRequest<'a>),
    Drop(DropRequest<'a>),
    Salvage(SalvageRequest<'a>),
    Join(JoinRequest<'a>),
}

/// What a command line asks for.
#[derive(Drop)]
pub struct CommandLine<'a> {
    pub request: Request<'a>,
    /// Whether the sentences on standard error are left out.
    pub quiet: bool,
}
