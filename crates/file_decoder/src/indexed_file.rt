//! Decoding a session file into a writer: neither the session nor the object is held. The object is
//! written while its symbols are looked at.
ghost use Rattle.std.specs.Prelude.{◌≡◌, ◌<◌, ℕ, List, Some, true, IfOk, IfErr, OnErr};
ghost use Rattle.std.specs.Prelude.{IfSome, IsNone};
ghost use Rattle.session.specs.Frames.{AppendsSome, IsFramed};
ghost use Rattle.reception.specs.Answer.{Object, IsAnswer};
ghost use Rattle.file_decoder.specs.IndexedIn.{IsFileFault};
ghost use Rattle.file_decoder.specs.PlacesOf.{ArePlacedIn, ArePlacedOf};
ghost use Rattle.decoder.specs.Answers.{answer_value};
ghost use Rattle.file_decoder.specs.IndexedIn.{IsFileWriteFault, IsIndexedIn};
ghost use Rattle.file_decoder.specs.PlacesOf.{AreIndexedOf};
ghost use Rattle.decoder.specs.Objects.{IsNoObject, IsWrittenOf};
ghost use Rattle.block_recovery.specs.Received.{came_at};
ghost use Rattle.block_recovery.specs.Decoded.{AreInRange};
ghost use Rattle.file_decoder.specs.declared.rereading.Place.{Place as PlaceValue};

use crate::file_source::{FileSource, Indexed};
use crate::indexing::{find_fti, index};
use block_code::{BlockCodes, Kind};
use decoder::{
    Answer, CodedSource, Unread, WriteFault, first_of_no_object, short_verdict, unsound_answer,
    write_blocks,
};
use reception::Identity;
use session::{FrameFault, Write};
use std::alloc::{AllocError, Global};
use streams::ReadAt;
use thiserror::Error;

/// The places of symbols in a session file, enough of each block.
#[derive(Drop)]
pub struct FileSymbols {
    pub(crate) indexed: Indexed,
    pub(crate) codes: BlockCodes,
}

/// Why a session file gives nothing.
#[derive(Debug, Clone, Copy, PartialEq, Eq, Error)]
pub enum FileFault {
    /// The frames weren't read.
    #[error("{0}")]
    Frame(FrameFault),
    /// The file isn't what it was when it was read first.
    #[error("Changed")]
    Changed,
    /// Memory is wanting.
    #[error("NoMemory")]
    NoMemory,
}

impl From<FrameFault> for FileFault {
    ghost use Rattle.std.specs.Prelude.{◌≡◌};
    ghost use Rattle.file_decoder.specs.declared.indexed_file.FileFault.TheVariants as file_fault;

    ghost from_gives = { λ fault e. e ≡ file_fault.Frame fault };

    fn from(fault: FrameFault) -> Self {
        FileFault::Frame(fault)
    }
}

impl From<Unread> for FileFault {
    ghost use Rattle.std.specs.Prelude.{◌≡◌};
    ghost use Rattle.file_decoder.specs.FileFaults.{fault_of};

    ghost from_gives = { λ unread fault. fault ≡ fault_of unread };

    fn from(unread: Unread) -> Self {
        match unread {
            Unread::Io => FileFault::Frame(FrameFault::Io),
            Unread::Changed => FileFault::Changed,
            Unread::NoMemory => FileFault::NoMemory,
        }
    }
}

impl From<AllocError> for FileFault {
    ghost use Rattle.std.specs.Prelude.{◌≡◌};
    ghost use Rattle.file_decoder.specs.declared.indexed_file.FileFault.TheVariants.{NoMemory};

    ghost from_gives = { λ _ fault. fault ≡ NoMemory };

    fn from(_: AllocError) -> Self {
        FileFault::NoMemory
    }
}

// The answer that the symbols at the places give, where a block is short; else the places.
fn count_places<F: ReadAt>(
    alloc: Global,
    file: &F,
    indexed: Indexed,
) -> Result<Result<FileSymbols, Answer>, FileFault>
    requires range { (held : PlaceValue → List ℕ)
        → AreInRange indexed.fti (came_at held indexed.symbols) }
    requires told { (x : List ℕ) → F.content file.now ≡ Some x → (ds : List (List ℕ))
        × IsFramed ds x × AreIndexedOf indexed.identity ds x indexed }
    ensures indexed { IfOk result (IsIndexedIn indexed.identity (F.content file.now)) }
    ensures fault { IfErr result (IsFileFault (F.content file.now) (F.reliable file.now)) }
{
    indexed.fti.is_valid();
    let codes = BlockCodes::new(alloc, Kind::Generator, &indexed.fti)?;
    let source = FileSource {
        file,
        indexed: &indexed,
    };
    let coded = CodedSource {
        source: &source,
        codes: &codes,
    };
    match short_verdict(alloc, &coded)? {
        Some(answer) => Ok(Err(answer)),
        None => Ok(Ok(FileSymbols { indexed, codes })),
    }
}

/// What the datagrams of a session file say of the object that was sent under an identity. Where no
/// block is short, that is the places of their symbols, of which it isn't known yet whether they
/// are of an object; else the answer, in place of them. 24 bytes are held for each symbol.
///
/// `Frame` tells why the file is no session, before any fault at a place. A file that is not the
/// same each time it is read may give `Changed`.
pub fn index_file<F: ReadAt>(
    alloc: Global,
    file: &F,
    identity: Identity,
) -> Result<Result<FileSymbols, Answer>, FileFault>
    ensures indexed { IfOk result (IsIndexedIn identity (F.content file.now)) }
    ensures fault { IfErr result (IsFileFault (F.content file.now) (F.reliable file.now)) }
{
    let fti = match find_fti(alloc, file, identity)? {
        Ok(Some(fti)) => fti,
        Ok(None) => return Ok(Err(Answer::Empty)),
        Err(fault) => return Ok(Err(Answer::Fault(fault))),
    };
    match index(alloc, file, identity, fti)? {
        Ok(symbols) => {
            let indexed = Indexed {
                identity,
                fti,
                symbols,
            };
            count_places(alloc, file, indexed)
        }
        Err(fault) => Ok(Err(Answer::Fault(fault))),
    }
}

impl FileSymbols {
    /// The object's length in bytes.
    pub fn transfer_length(&self) -> u64
        ensures { result ≡ self.now.indexed.fti.transfer_length }
    {
        self.indexed.fti.transfer_length()
    }

    /// The answer to the file's datagrams, where their symbols, enough of each block, are of no
    /// object; `None` where they are.
    pub fn refutation<F: ReadAt>(
        &self,
        alloc: Global,
        file: &F,
    ) -> Result<Option<Answer>, FileFault>
        requires { ArePlacedIn (F.content file.now) self.now }
        ensures answer { (ds : List (List ℕ)) (x : List ℕ)
            → F.content file.now ≡ Some x
            → ArePlacedOf self.now.indexed.identity ds x self.now
            → IfOk result (λ o. IfSome o (λ a.
            IsAnswer self.now.indexed.identity ds (answer_value a))) }
        ensures object { (ds : List (List ℕ)) (x : List ℕ)
            → F.content file.now ≡ Some x
            → ArePlacedOf self.now.indexed.identity ds x self.now
            → IfOk result (λ o. IsNone o → (object : List ℕ)
            × IsAnswer self.now.indexed.identity ds (Object object)) }
        ensures none { IfOk result (λ o. IfSome o IsNoObject) }
        ensures fault { IfErr result (IsFileFault (F.content file.now) (F.reliable file.now)) }
    {
        let source = FileSource {
            file,
            indexed: &self.indexed,
        };
        let coded = CodedSource {
            source: &source,
            codes: &self.codes,
        };
        Ok(first_of_no_object(alloc, &coded)?)
    }

    /// Writes the object block by block, as long as the symbols of a block, all of which are looked
    /// at, are of one. `None` where all was written; else the answer to the file's datagrams.
    ///
    /// `Io` comes only where the writer has failed, and never where it has room for the object. At
    /// an error the writer has a beginning of the object, if the symbols are of one.
    pub fn write_checked<F: ReadAt, W: Write>(
        &self,
        alloc: Global,
        file: &F,
        writer: &mut W,
    ) -> Result<Option<Answer>, WriteFault>
        requires { ArePlacedIn (F.content file.now) self.now }
        ensures written { (ds : List (List ℕ)) (x : List ℕ)
            → F.content file.now ≡ Some x
            → ArePlacedOf self.now.indexed.identity ds x self.now
            → IfOk result (λ o. IsNone o
            → IsWrittenOf self.now.indexed.identity ds (W.contents writer.old)
            (W.contents writer.new) self.now.indexed.fti.transfer_length) }
        ensures answer { (ds : List (List ℕ)) (x : List ℕ)
            → F.content file.now ≡ Some x
            → ArePlacedOf self.now.indexed.identity ds x self.now
            → IfOk result (λ o. IfSome o (λ a.
            IsAnswer self.now.indexed.identity ds (answer_value a))) }
        ensures none { IfOk result (λ o. IfSome o IsNoObject) }
        ensures front { (ds : List (List ℕ)) (x object : List ℕ)
            → F.content file.now ≡ Some x
            → ArePlacedOf self.now.indexed.identity ds x self.now
            → IsAnswer self.now.indexed.identity ds (Object object)
            → OnErr result (AppendsSome (W.contents writer.old) (W.contents writer.new) object) }
        ensures fault { IfErr result
            (λ e. e ≡ WriteFault.Io → W.failed writer.new ≡ true) }
        ensures full { IfErr result (λ e. e ≡ WriteFault.Io
            → W.room writer.old < self.now.indexed.fti.transfer_length) }
        ensures unread { IfErr result
            (IsFileWriteFault (F.content file.now) (F.reliable file.now)) }
    {
        self.indexed.fti.is_valid();
        let source = FileSource {
            file,
            indexed: &self.indexed,
        };
        let coded = CodedSource {
            source: &source,
            codes: &self.codes,
        };
        match write_blocks(alloc, &coded, writer) {
            Ok(true) => Ok(None),
            Ok(false) => match unsound_answer(alloc, &coded) {
                Ok(answer) => Ok(Some(answer)),
                Err(unread) => Err(WriteFault::Unread(unread)),
            },
            Err(fault) => Err(fault),
        }
    }
}
