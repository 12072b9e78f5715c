//! What a command meets outside.
ghost use Rattle.std.specs.Prelude.{◌≡◌, [], None, true, false, IfOk, IfErr, IfSome, OnOk, OnErr};
ghost use Rattle.std.specs.Io.KnownBytes.{Appends, Keeps};
ghost use Rattle.host.specs.World.{World, GivesFile, LeavesBytes, IsBlank, Replaces, IsRefused};
ghost use Rattle.host.specs.World.{IsMissing, IsFree, IsKeepFault, KeepsFiles, IsSilent};
ghost use Rattle.host.specs.World.{one_more};

use session::{Failed, Read};
use std::alloc::AllocError;
use streams::{ReadAt, WriteAt};

/// Why a host refused a file.
#[derive(Debug, Clone, Copy, PartialEq, Eq)]
pub enum FileFault {
    /// The file can't be opened or written.
    Io,
    NoMemory,
}

/// Why what was written isn't a file.
#[derive(Debug, Clone, Copy, PartialEq, Eq)]
pub enum KeepFault {
    /// The file couldn't be created, so nothing of what was written is anywhere.
    Uncreated,
    /// Writing or keeping has failed.
    Io,
    NoMemory,
}

/// Named files, and an output for lines. What is to be a file stands under its name once it is
/// kept, and not before: it is neither dropped nor forgotten, but kept or given up.
pub trait Host {
    /// What is read from the front on, or at any offset where its length is known.
    type Input: Read + ReadAt + Drop;

    /// What is to be a file.
    type Output: WriteAt;

    /// What is outside, as far as it is told.
    ghost world: { Self → World };

    /// Opens a file for reading. `Io` comes only if the file isn't there, or opening it is refused.
    fn open_file(&self, name: &str) -> Result<Self::Input, FileFault>
        ensures input { IfOk result (λ file. GivesFile (world self.now) name.now
            (Self.Input.remaining file) (Self.Input.sound file)) }
        ensures content { IfOk result (λ file. GivesFile (world self.now) name.now
            (Self.Input.content file) (Self.Input.reliable file)) }
        ensures fault { IfErr result (IsMissing (world self.now) name.now) };

    /// How many bytes an input has left, where that is known before they are read, as it is where
    /// files are told. What has a known length can be read at any offset.
    fn length_of(&self, input: &Self::Input) -> Option<u64>
        ensures length { IfSome result (LeavesBytes (Self.Input.remaining input.now)) }
        ensures none { result ≡ None → (world self.now).files ≡ None };

    /// Whether the file of an input is as it was when it was opened, as far as that can be seen. It
    /// is, unless reading it may fail.
    fn is_unchanged(&self, input: &Self::Input) -> bool
        ensures { result ≡ false → Self.Input.reliable input.now ≡ false };

    /// Begins what is to be the file of this name. With `no_clobber` it may be one only if none is
    /// there. If it can't be created, what is written goes nowhere, and `keep_file` tells. So
    /// whatever else is wrong is found first.
    fn create_file(&mut self, name: &str, no_clobber: bool) -> Result<Self::Output, AllocError>
        ensures blank { IfOk result (λ file.
            IsBlank (world self.old) (Self.Output.contents file)) }
        ensures empty { IfOk result (λ file.
            IfSome (Self.Output.contents file) (λ bytes. bytes ≡ [])) }
        ensures files { (world self.new).files ≡ (world self.old).files }
        ensures silent { IsSilent (world self.old) (world self.new) }
        ensures created { OnOk result
            ((world self.new).created
            ≡ one_more name.now no_clobber (world self.old).created) }
        ensures none { OnErr result ((world self.new).created ≡ (world self.old).created) };

    /// Puts what was written under its name, in the place of the file that was there. `Uncreated`
    /// comes only if a file is there that stays, or creating it is refused, and `Io` only if
    /// writing it is; after a fault the files are as they were.
    fn keep_file(
        &mut self,
        name: &str,
        no_clobber: bool,
        output: Self::Output,
    ) -> Result<(), KeepFault>
        ensures kept { OnOk result (IfSome (Self.Output.contents output)
            (Replaces (world self.old).files (world self.new).files name.now)) }
        ensures free { OnOk result (IsFree (world self.old).files name.now no_clobber) }
        ensures fault { IfErr result (IsKeepFault (world self.old) name.now no_clobber) }
        ensures files { OnErr result ((world self.new).files ≡ (world self.old).files) }
        ensures silent { IsSilent (world self.old) (world self.new) }
        ensures created { (world self.new).created ≡ (world self.old).created };

    /// Drops what was written for this name, and answers why writing has failed, if it has.
    fn give_up(&mut self, name: &str, output: Self::Output) -> FileFault
        ensures fault { IsRefused (world self.old) name.now result }
        ensures files { KeepsFiles (world self.old) (world self.new) }
        ensures silent { IsSilent (world self.old) (world self.new) };

    /// Prints these bytes. They may be held back until they are passed on.
    fn print(&mut self, bytes: &[u8]) -> Result<(), Failed>
        ensures printed { OnOk result
            (Appends (world self.old).printed (world self.new).printed bytes.now) }
        ensures fails { OnErr result ((world self.new).failed ≡ true) }
        ensures files { KeepsFiles (world self.old) (world self.new) };

    /// Passes on what was printed and is held back.
    fn pass_on(&mut self) -> Result<(), Failed>
        ensures stays { OnOk result (Keeps (world self.old).printed (world self.new).printed) }
        ensures fails { OnErr result ((world self.new).failed ≡ true) }
        ensures files { KeepsFiles (world self.old) (world self.new) };
}
