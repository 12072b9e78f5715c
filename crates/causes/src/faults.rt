//! Sentences on faults.
use crate::case::{Case, Sentence, words_of};
use certificate::CertFault;
use commands::Fault;
use inspection::{Carrier, Name, input_name, kind_of, walk, word_behind};
use partition::FtiError;
use request::Request;
use session::FrameFault;
use std::alloc::AllocError;
use std::fs::File;
use std::io::ErrorKind;
use std::rt::Files;

const NO_MEMORY: &str =
    "there is too little memory; an output that is a file is what it was before";

impl<'a, R: Files<File = File>> Case<'a, R> {
    /// Why a command stopped for a fault.
    pub(crate) fn fault(&self, fault: Fault<'_>) -> Sentence {
        match fault {
            Fault::Frame(FrameFault::Io)
            | Fault::Certificate(CertFault::Io)
            | Fault::Open(_)
            | Fault::Send(_) => self.failed(),
            Fault::File(name) => self.file_failed(name),
            Fault::Frame(FrameFault::NoSuchPlace(place)) => self.no_such_place(place),
            Fault::Frame(FrameFault::NoMemory) | Fault::Memory => {
                Ok(Some(NO_MEMORY.to_string(self.alloc)?))
            }
            Fault::Frame(_) => self.broken(),
            Fault::Certificate(fault) => Ok(Some(self.certificate_fault(fault)?)),
            Fault::Fti(error) => Ok(Some(self.no_fti(error)?)),
            Fault::NoPlace(count) => Ok(Some(self.no_place(count)?)),
        }
    }

    /// The call of the system that has failed. How long an object is that is received is only what
    /// the first carrier claims.
    pub(crate) fn failed(&self) -> Sentence {
        let Some(failure) = self.failure else {
            return Ok(None);
        };
        let text = match (failure.kind, self.request, self.carrier(0)) {
            (
                ErrorKind::StorageFull | ErrorKind::FileTooLarge | ErrorKind::QuotaExceeded,
                Request::Decode(_) | Request::Follow(_),
                Some(Carrier { place, fti }),
            ) => {
                let length = fti.transfer_length();
                format!(in self.alloc;
                    "{failure}; by datagram {place} the object has {length} bytes"
                )
            }
            _ => failure.to_string(self.alloc),
        };
        Ok(Some(text?))
    }

    // The file of this name has failed, or has changed where no call of the system has.
    fn file_failed(&self, name: &str) -> Sentence {
        let shown = input_name(name);
        match self.failure {
            Some(failure) if failure.name.as_str() == shown.text => self.failed(),
            _ => Ok(Some(format!(in self.alloc;
                "{shown} was changed while it was read: try once more when nothing writes to it"
            )?)),
        }
    }

    /// The session whose frames stop, and where.
    pub(crate) fn broken(&self) -> Sentence {
        let Request::Join(request) = self.request else {
            return self.broken_in(self.request.session().unwrap_or(""));
        };
        for name in &request.sessions {
            if let Some(text) = self.broken_in(*name)? {
                return Ok(Some(text));
            }
        }
        Ok(None)
    }

    // What a session is instead, or where its frames stop, if they do.
    fn broken_in(&self, name: &str) -> Sentence {
        if let Some(sentence) = self.another_kind(name)? {
            return Ok(Some(sentence));
        }
        let Some((_, Some(at))) = walk(self.rt, self.alloc, name) else {
            return Ok(None);
        };
        let (shown, place, byte) = (input_name(name), at.place, at.byte);
        let text = match at.fault {
            FrameFault::TooLong => format!(in self.alloc;
                "{shown}: the frame of datagram {place}, at byte {byte}, tells a length above \
                65507: the file is no session, or is damaged there"
            ),
            _ => format!(in self.alloc;
                "{shown} is cut off: it ends inside the frame of datagram {place}, which begins at \
                byte {byte}; those before it are whole"
            ),
        };
        Ok(Some(text?))
    }

    fn no_such_place(&self, place: usize) -> Sentence {
        let name = self.request.session().unwrap_or("");
        let Some((count, None)) = walk(self.rt, self.alloc, name) else {
            return Ok(None);
        };
        let session = self.session;
        Ok(Some(format!(in self.alloc;
            "{session} has {count} datagrams, whose places are counted from 0: there is none at \
            place {place}"
        )?))
    }

    // The word of the file of places that is none, behind so many others.
    fn no_place(&self, count: usize) -> Result<String, AllocError> {
        let path = match self.request {
            Request::Drop(request) => request.places_file.unwrap_or(""),
            _ => "",
        };
        let name = input_name(path);
        let word = word_behind(self.rt, self.alloc, path, count).unwrap_or(String::new(self.alloc));
        let word = Name {
            text: word.as_str(),
        };
        format!(in self.alloc;
            "{name}: word {count}{word} is no place: words count from 0, and each is N, or N-M \
            with N at most M, of 0 to 4294967295"
        )
    }

    fn certificate_fault(&self, fault: CertFault) -> Result<String, AllocError> {
        let certificate = self.certificate;
        match fault {
            CertFault::Magic => self.no_certificate(),
            CertFault::OtherIdentity => self.other_identity(),
            CertFault::Fti(_) => format!(in self.alloc;
                "{certificate}: the numbers in it are no FTI: the file is damaged"
            ),
            _ => format!(in self.alloc;
                "{certificate} is shorter or longer than its own numbers tell: it is cut off or \
                damaged; make it again with alcrs certify"
            ),
        }
    }

    fn no_certificate(&self) -> Result<String, AllocError> {
        let (certificate, order) = (self.certificate, self.order());
        let kind = match self.request.certificate() {
            Some(name) => kind_of(self.rt, name),
            None => None,
        };
        match kind {
            Some(kind) => {
                let (is, _) = words_of(kind);
                format!(in self.alloc;
                    "{certificate} {is}, and no certificate: the order is {order}"
                )
            }
            None => format!(in self.alloc;
                "{certificate} is no certificate: one begins with RSC1 or RSC2, and alcrs certify \
                makes it; the order is {order}"
            ),
        }
    }

    /// In which order the command takes its files, of which one is a certificate.
    pub(crate) fn order(&self) -> &'static str {
        match self.request {
            Request::Convert(_) => "IN OUT",
            Request::Twin(_) => "SESSION OBJECT CERT OUT",
            _ => "SESSION OBJECT CERT",
        }
    }

    fn no_fti(&self, error: FtiError) -> Result<String, AllocError> {
        let object = self.object;
        match error {
            FtiError::LengthZero => {
                format!(in self.alloc; "{object} is empty: an object has one byte at least")
            }
            FtiError::MaxBelowBlock => MAX_BELOW_BLOCK.to_string(self.alloc),
            FtiError::TooManyBlocks => format!(in self.alloc;
                "{object} would have more than 16777216 blocks: take a greater --symbol or --block"
            ),
            _ => format!(in self.alloc; "{object} and these numbers don't go together"),
        }
    }
}

const MAX_BELOW_BLOCK: &str =
    "--max is below --block: a block has its source symbols among its encoding symbols";
