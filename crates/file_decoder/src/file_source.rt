//! What came of an object in a session file, of which only the places are held.
ghost use Rattle.std.specs.Prelude.{◌≡◌};
ghost use Rattle.reception.specs.Reception.{with_fti};
ghost use Rattle.file_decoder.specs.InFile.{file_at, AllStandIn};
ghost use Rattle.block_recovery.specs.Recoveries.{IsKeptOf};

use crate::rereading::{BlockReader, Place};
use block_code::BlockCodes;
use block_recovery::{Recovery, Rows, Symbols, block_rows, blocks_of, symbols_below};
use decoder::{Source, Unread, have};
use partition::Fti;
use reception::{Identity, Scope};
use std::alloc::{AllocError, Global};
use streams::ReadAt;

/// The places of an identity's packets, and the FTI of the first carrier.
#[derive(Drop)]
pub(crate) struct Indexed {
    pub(crate) identity: Identity,
    pub(crate) fti: Fti,
    pub(crate) symbols: Symbols<Place>,
}

/// What symbols are read with, and what is kept of a solution.
#[derive(Drop)]
pub(crate) struct FileWorkspace<'a, F: ReadAt> {
    pub(crate) reader: BlockReader<'a, F>,
    pub(crate) kept: Option<Recovery>,
}

/// A file, and the places in it.
#[derive(Drop)]
pub(crate) struct FileSource<'a, F: ReadAt> {
    pub(crate) file: &'a F,
    pub(crate) indexed: &'a Indexed,
}

impl<'a, F: ReadAt> Source for FileSource<'a, F> {
    type Workspace = FileWorkspace<'a, F>;

    ghost known = { λ source. source.indexed.now.fti };

    ghost at = { λ source. file_at (F.content source.file.now) source.indexed.now.symbols };

    ghost Told = { λ source. AllStandIn (F.content source.file.now)
        (with_fti source.indexed.now.identity source.indexed.now.fti) source.indexed.now.symbols };

    ghost reliable = { λ source. F.reliable source.file.now };

    ghost Fits = { λ source codes workspace. (workspace.reader.lanes.file.now ≡ source.file.now)
        × IsKeptOf codes workspace.kept };

    fn fti(&self) -> Fti {
        self.indexed.fti
    }

    fn count(&self, b: u32, n: usize) -> usize {
        have(&self.indexed.symbols, b, n)
    }

    fn blocks(&self, alloc: Global) -> Result<Vec<u32>, AllocError> {
        blocks_of(alloc, &self.indexed.symbols)
    }

    fn workspace(&self, alloc: Global) -> Result<FileWorkspace<'a, F>, AllocError> {
        let fti = &self.indexed.fti;
        fti.is_valid();
        Ok(FileWorkspace {
            reader: BlockReader::new(alloc, self.file, fti.n(0))?,
            kept: None,
        })
    }

    fn rows(
        &self,
        alloc: Global,
        codes: &BlockCodes,
        b: u32,
        workspace: &mut FileWorkspace<'a, F>,
    ) -> Result<Option<Rows>, Unread> {
        let fti = &self.indexed.fti;
        let scope = Scope::with_fti(self.indexed.identity, *fti);
        let came = self.indexed.symbols.of_block(b).unwrap_or(&[]);
        workspace.reader.read(came)?;
        let symbols = workspace.reader.symbols(alloc, &scope, b, came)?;
        let arrivals = symbols_below(alloc, &symbols, fti.n(b))?;
        Ok(block_rows(alloc, fti, codes, b, &arrivals, &mut workspace.kept)?)
    }
}
