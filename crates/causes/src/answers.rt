//! Sentences on answers.
ghost use Rattle.std.specs.Prelude.{◌≡◌, IfOk, is_some, nat_lt, true};
ghost use Rattle.causes.specs.Sentences.{TellsYes};

use crate::case::{Case, Numbers, Packets, Sentence};
use alc::PacketFault;
use block_recovery::DecodeFault;
use cert::Reason;
use inspection::{Carrier, Shortage, count_short, datagram_at};
use partition::Fti;
use request::Request;
use std::alloc::AllocError;
use std::fs::File;
use std::rt::Files;

const PROTECT: &str = "take a greater --max and the FTI in each datagram, against bursts --order \
    rounds, or send it twice (alcrs join --turns)";

const JOIN: &str = "join it with what came of the same session at another time (alcrs join)";

// What else a datagram is that is no packet. The header's length is in its third byte, in words of
// four bytes.
fn stray_of(fault: PacketFault, datagram: &[u8]) -> &'static str {
    let words = datagram.get(2).copied().unwrap_or(0);
    match fault {
        PacketFault::PayloadLength if datagram.len() == usize::from(words) * 4 => {
            " but a header alone, as what closes a session is"
        }
        PacketFault::Codepoint if has_toi_0(datagram) => {
            " but one of TOI 0, as FLUTE's delivery table is"
        }
        _ => "",
    }
}

// Whether the TOI is 0 that stands behind the header's first word, the congestion control
// information and the TSI (RFC 5651, section 5.1).
fn has_toi_0(datagram: &[u8]) -> bool {
    let [first, flags, ..] = datagram else {
        return false;
    };
    let half = usize::from((*flags >> 4) & 1) * 2;
    let begin = 8 + usize::from((*first >> 2) & 3) * 4 + usize::from(*flags >> 7) * 4 + half;
    let size = usize::from((*flags >> 5) & 3) * 4 + half;
    match datagram.get(begin..begin + size) {
        Some(toi) => !toi.is_empty() && toi.iter().all(|byte| *byte == 0),
        None => false,
    }
}

impl<'a, R: Files<File = File>> Case<'a, R> {
    /// What to think of a yes by what may be missed, and why there is no twin.
    pub(crate) fn yes(&self, repeats: usize, margin: usize, burst: usize) -> Sentence
        ensures { IfOk result (λ said.
            TellsYes self.now.request.now repeats margin burst (is_some said)) }
    {
        let session = self.session;
        match self.request {
            Request::Twin(_) => Ok(Some(format!(in self.alloc;
                "no block of {session} is short: its datagrams give the object"
            )?)),
            Request::Check(request) => {
                if margin < request.margin as usize {
                    return self.bears_less("margin", margin, request.margin);
                }
                if burst < request.burst as usize {
                    return self.bears_less("burst", burst, request.burst);
                }
                if margin == 0 {
                    return Ok(Some(format!(in self.alloc;
                        "there is a datagram of {session} without which nobody gets the object: \
                        {PROTECT}"
                    )?));
                }
                if repeats > 0 {
                    return Ok(Some(format!(in self.alloc;
                        "{repeats} datagrams of {session} are repeats of others, and margin and \
                        burst count them: what goes on air once may lose less"
                    )?));
                }
                Ok(None)
            }
            _ => Ok(None),
        }
    }

    // The session bears fewer losses than an option asks for.
    fn bears_less(&self, name: &str, bears: usize, asked: u32) -> Sentence
        ensures { IfOk result (λ said. is_some said ≡ true) }
    {
        let session = self.session;
        Ok(Some(format!(in self.alloc;
            "{session} has a {name} of {bears}, and --{name} asks for {asked}: {PROTECT}"
        )?))
    }

    /// Some block of a session that was written has no repair symbol.
    pub(crate) fn unprotected(&self) -> Sentence
        ensures { IfOk result (λ said. is_some said ≡ true) }
    {
        Ok(Some(format!(in self.alloc;
            "a block has no repair symbol, and whoever misses a datagram of it can't get the \
            object: take a smaller --block or a greater --max"
        )?))
    }

    /// What to think of an object that was completed although so many datagrams contradicted it.
    pub(crate) fn doubt(&self, contradictions: u64) -> Sentence
        ensures { IfOk result (λ said. is_some said ≡ nat_lt 0 contradictions) }
    {
        if contradictions == 0 {
            return Ok(None);
        }
        let session = self.session;
        Ok(Some(format!(in self.alloc;
            "{contradictions} datagrams of {session} contradict those that came before them: one \
            that was taken may be damaged, and the object wrong; keep the datagrams, and decode \
            them"
        )?))
    }

    /// Why the answer is no, and that no picture is drawn of it, where one was asked for.
    pub(crate) fn no(&self, reason: Reason) -> Sentence {
        let mut text = self.reason(reason)?;
        match self.request {
            Request::Check(request) if request.picture.is_some() => {
                text.push_str("; no picture is drawn of a no")?;
            }
            _ => {}
        }
        Ok(Some(text))
    }

    fn reason(&self, reason: Reason) -> Result<String, AllocError> {
        let (session, object, certificate) = (self.session, self.object, self.certificate);
        match reason {
            Reason::OtherCertificate => self.other_identity(),
            Reason::ObjectLength => {
                let order = self.order();
                format!(in self.alloc;
                    "{object} hasn't the length that {certificate} is for: one of the two is \
                    another object's, or their order is wrong ({order})"
                )
            }
            Reason::NotObject {
                block,
                column,
                symbol,
            } => format!(in self.alloc;
                "{certificate} isn't of {object}, whose bytes differ in block {block}, column \
                {column}, symbol {symbol}: certify this object"
            ),
            Reason::Packet(place, fault) => self.stray(place, fault),
            Reason::OtherFti(place) => self.other_numbers(place),
            Reason::SymbolLength(place) => format!(in self.alloc;
                "{session}: the symbol of datagram {place} hasn't the length that {certificate}'s \
                FTI tells"
            ),
            Reason::Range(place) => format!(in self.alloc;
                "{session}: datagram {place} names a block or an encoding symbol that \
                {certificate}'s FTI hasn't: the encoder has other numbers, or is wrong"
            ),
            Reason::Symbol(place, column) => format!(in self.alloc;
                "{session}: the symbol of datagram {place} isn't {object}'s: it differs at byte \
                {column}"
            ),
            Reason::Empty | Reason::Thin { .. } | Reason::NoCarrier => self.too_few(reason),
        }
    }

    // Why the answer is no, where nothing is wrong with the datagrams that came.
    fn too_few(&self, reason: Reason) -> Result<String, AllocError> {
        let (session, object, packets) = (self.session, self.object, self.packets);
        match reason {
            Reason::Thin { block, have, need } => {
                let fti = self.head().and_then(|head| head.fti);
                let short = self.short_blocks(fti)?;
                format!(in self.alloc;
                    "{session} has {have} different symbols of block {block}, and {need} are \
                    needed{short}: nobody can decode {object} of it"
                )
            }
            Reason::NoCarrier => format!(in self.alloc;
                "{session}: no datagram of the object carries the FTI, so that no listener learns \
                it: have the encoder send it in some datagrams at least"
            ),
            _ => format!(in self.alloc;
                "{session} has no packet of {packets}: alcrs show --summary tells which it has"
            ),
        }
    }

    /// Whose packets the certificate is for, where that aren't those that are asked for.
    pub(crate) fn other_identity(&self) -> Result<String, AllocError> {
        let (certificate, asked) = (self.certificate, self.packets);
        match self.head().and_then(|head| head.identity) {
            Some(identity) => {
                let named = Packets(identity);
                format!(in self.alloc;
                    "{certificate} is for {named}, and not for {asked}: look at --tsi and --toi; \
                    if they are right, make a certificate for them with alcrs certify"
                )
            }
            None => format!(in self.alloc;
                "{certificate} isn't for {asked}: look at --tsi and --toi; if they are right, make \
                a certificate for them with alcrs certify"
            ),
        }
    }

    // The FTI of a carrier that isn't the certificate's.
    fn other_numbers(&self, place: usize) -> Result<String, AllocError> {
        let (session, certificate) = (self.session, self.certificate);
        let own = self.head().and_then(|head| head.fti);
        match (self.carrier(place), own) {
            (Some(carrier), Some(own)) => {
                let (its, own) = (Numbers(carrier.fti), Numbers(own));
                format!(in self.alloc;
                    "{session}: datagram {place} tells {its}, and {certificate} {own}: certify \
                    with the session's numbers, or encode with the certificate's"
                )
            }
            _ => format!(in self.alloc;
                "{session}: datagram {place} has another FTI than {certificate}"
            ),
        }
    }

    /// Some datagrams are no packets: what the file is instead of a session.
    pub(crate) fn strays(&self) -> Sentence {
        self.another_kind(self.request.session().unwrap_or(""))
    }

    // The datagram that is no packet, or what the file is instead of a session.
    fn stray(&self, place: usize, fault: PacketFault) -> Result<String, AllocError> {
        if place == 0 {
            if let Some(sentence) = self.strays()? {
                return Ok(sentence);
            }
        }
        let name = self.request.session().unwrap_or("");
        let also = match datagram_at(self.rt, self.alloc, name, place) {
            Some(datagram) => stray_of(fault, datagram.as_slice()),
            None => "",
        };
        let session = self.session;
        format!(in self.alloc;
            "{session}: datagram {place} is no packet{also}: take strays out with alcrs drop, or \
            sort them out when you capture"
        )
    }

    // How many blocks of an object with this FTI are short, where more than one is.
    fn short_blocks(&self, fti: Option<Fti>) -> Result<String, AllocError> {
        let shortage = match (self.request.session(), fti) {
            (Some(name), Some(fti)) => count_short(self.rt, self.alloc, name, self.packets.0, &fti),
            _ => None,
        };
        match shortage {
            Some(
                Shortage {
                    short,
                    blocks,
                    most,
                },
            ) if short > 1 => format!(in self.alloc;
                " ({short} of {blocks} blocks are short, by {most} symbols at most)"
            ),
            _ => Ok(String::new(self.alloc)),
        }
    }

    /// What a block lacks. Who follows may have refused symbols of it, which the lines before tell.
    pub(crate) fn missing(&self, block: u32, have: usize, need: usize) -> Sentence
        ensures { IfOk result (λ said. is_some said ≡ true) }
    {
        if let Some(sentence) = self.strays()? {
            return Ok(Some(sentence));
        }
        let session = self.session;
        let short = self.short_blocks(self.carrier(0).map(|carrier| carrier.fti))?;
        let text = match self.request {
            Request::Follow(_) => format!(in self.alloc;
                "{have} different symbols of block {block} were taken of {session}, and {need} are \
                needed{short}: keep what came, and {JOIN}, without what a line calls refused"
            ),
            _ => format!(in self.alloc;
                "{session} has {have} different symbols of block {block}, and {need} are \
                needed{short}: {JOIN}"
            ),
        };
        Ok(Some(text?))
    }

    /// Why nothing is known of the object. A carrier that is there was refused.
    pub(crate) fn empty(&self) -> Sentence
        ensures { IfOk result (λ said. is_some said ≡ true) }
    {
        if let Some(sentence) = self.strays()? {
            return Ok(Some(sentence));
        }
        let (session, packets) = (self.session, self.packets);
        let text = match self.carrier(0) {
            Some(Carrier { place, .. }) => format!(in self.alloc;
                "{session}: datagram {place} carries the FTI, and was refused, as its line says \
                why; no other of {packets} was taken"
            ),
            None => format!(in self.alloc;
                "{session} has no packet of {packets} that carries the FTI: alcrs show --summary \
                tells what it has"
            ),
        };
        Ok(Some(text?))
    }

    /// Why datagrams are of no object.
    pub(crate) fn no_object(&self, fault: DecodeFault) -> Sentence {
        let session = self.session;
        let text = match fault {
            DecodeFault::Packet(place, fault) => self.stray(place, fault),
            DecodeFault::OtherFti(place) => self.two_ftis(place),
            DecodeFault::SymbolLength(place) => format!(in self.alloc;
                "{session}: the symbol of datagram {place} hasn't the length that the FTI of the \
                first carrier tells"
            ),
            DecodeFault::Range(place) => format!(in self.alloc;
                "{session}: datagram {place} names a block or an encoding symbol that the FTI of \
                the first carrier hasn't"
            ),
            DecodeFault::Clash(place) => format!(in self.alloc;
                "{session}: datagram {place} has the block and ESI of an earlier one, and other \
                bytes: one of the two is damaged, or two senders are mixed"
            ),
            DecodeFault::NotCode(block) => format!(in self.alloc;
                "{session}: the symbols of block {block} are of no object: one of them is damaged, \
                or the encoder is none of FEC Encoding ID 5"
            ),
        };
        Ok(Some(text?))
    }

    // The two carriers that contradict each other.
    fn two_ftis(&self, place: usize) -> Result<String, AllocError> {
        let session = self.session;
        match (self.carrier(0), self.carrier(place)) {
            (Some(first), Some(other)) => {
                let (before, one, two) = (first.place, Numbers(first.fti), Numbers(other.fti));
                format!(in self.alloc;
                    "{session}: datagram {before} tells {one}, and datagram {place} tells {two}: \
                    either may be the wrong one; alcrs show --summary tells how many have each"
                )
            }
            _ => format!(in self.alloc;
                "{session}: datagram {place} has another FTI than the first carrier"
            ),
        }
    }
}
