//! What a sentence is made of.
ghost use Rattle.std.specs.Prelude.{◌≡◌};

use inspection::{
    Carrier, Failure, Head, Kind, Name, carrier_from, certificate_head, input_name, kind_of,
};
use partition::Fti;
use reception::Identity;
use request::Request;
use std::alloc::{AllocError, Global};
use std::fmt;
use std::fs::File;
use std::rt::Files;

/// A sentence, where there is more to say than the lines do.
pub(crate) type Sentence = Result<Option<String>, AllocError>;

/// What is looked at: the request, the names of its files, as they are told, and the call of the
/// system that has failed, if one has.
#[derive(Clone, Copy)]
pub(crate) struct Case<'a, R> {
    pub(crate) rt: &'a R,
    pub(crate) alloc: Global,
    pub(crate) request: &'a Request<'a>,
    pub(crate) failure: Option<&'a Failure>,
    pub(crate) session: Name<'a>,
    pub(crate) object: Name<'a>,
    pub(crate) certificate: Name<'a>,
    pub(crate) packets: Packets,
}

/// Whose packets are asked for.
#[derive(Clone, Copy)]
pub(crate) struct Packets(pub(crate) Identity);

impl fmt::Display for Packets {
    fn fmt<W: fmt::Write>(&self, f: &mut fmt::Formatter<W>) -> fmt::Result {
        write!(f, "TSI {}", self.0.tsi)?;
        write!(f, " and TOI {}", self.0.toi)
    }
}

/// The numbers of an FTI, as options tell them.
#[derive(Clone, Copy)]
pub(crate) struct Numbers(pub(crate) Fti);

impl fmt::Display for Numbers {
    fn fmt<W: fmt::Write>(&self, f: &mut fmt::Formatter<W>) -> fmt::Result {
        write!(f, "a length of {}", self.0.transfer_length())?;
        write!(f, ", --symbol {}", self.0.symbol_length())?;
        write!(f, ", --block {}", self.0.block_length())?;
        write!(f, ", --max {}", self.0.max_symbols())
    }
}

/// What a file of this kind is, and what makes a session of it.
pub(crate) fn words_of(kind: Kind) -> (&'static str, &'static str) {
    match kind {
        Kind::Pcap => ("is a capture (pcap)", OF_CAPTURE),
        Kind::Pcapng => ("is a capture (pcapng)", OF_CAPTURE),
        Kind::Gzip => ("is compressed by gzip", ": gzip -d unpacks it"),
        Kind::Zstd => ("is compressed by zstd", ": zstd -d unpacks it"),
        Kind::Certificate => ("is a certificate", ""),
        Kind::Svg => ("is a picture (SVG)", ""),
        Kind::Text => ("is text", ""),
    }
}

const OF_CAPTURE: &str = ": session_of_capture makes a session of it (OPERATING, 'From a capture')";

impl<'a, R: Files<File = File>> Case<'a, R> {
    pub(crate) fn new(
        rt: &'a R,
        alloc: Global,
        request: &'a Request<'a>,
        failure: Option<&'a Failure>,
    ) -> Case<'a, R>
        ensures { result.request.now ≡ request.now }
    {
        let nobody = Identity { tsi: 0, toi: 0 };
        Case {
            rt,
            alloc,
            request,
            failure,
            session: input_name(request.session().unwrap_or("the session")),
            object: input_name(request.object().unwrap_or("the object")),
            certificate: input_name(request.certificate().unwrap_or("the certificate")),
            packets: Packets(request.identity().unwrap_or(nobody)),
        }
    }

    /// The first carrier from a place on.
    pub(crate) fn carrier(&self, first: usize) -> Option<Carrier> {
        let name = self.request.session()?;
        carrier_from(self.rt, self.alloc, name, self.packets.0, first)
    }

    /// What the certificate begins with.
    pub(crate) fn head(&self) -> Option<Head> {
        certificate_head(self.rt, self.request.certificate()?)
    }

    /// What there is in place of the session of this name, where that can be seen.
    pub(crate) fn another_kind(&self, name: &str) -> Sentence {
        let Some(kind) = kind_of(self.rt, name) else {
            return Ok(None);
        };
        let (shown, (is, cure)) = (input_name(name), words_of(kind));
        Ok(Some(format!(in self.alloc; "{shown} {is}, and no session{cure}")?))
    }
}
