//! A host in memory.
ghost use Rattle.std.specs.Prelude.{◌≡◌, ◌<◌, ◌≤◌, ◌-◌, ◌+◌, [], None, Some, true, false, length};
ghost use Rattle.std.specs.Prelude.{drop, OnOk, OnErr};
ghost use Rattle.std.specs.Option.{option_map};
ghost use Rattle.host.specs.Files.{files_of, AddsFile};
ghost use Rattle.host.specs.Worlds.{memory_world};

use crate::host::{FileFault, Host, KeepFault};
use lists::are_bytes;
use session::{Failed, Read, Sink, write_all};
use std::alloc::{AllocError, Global};
use streams::{ReadAt, copy_at};

/// A copy of a file's bytes, which gives `most` at a time at most. It never fails.
#[derive(Drop)]
pub struct MemoryInput {
    bytes: Vec<u8>,
    at: usize,
    most: usize,
    ghost some: { 0 < most },
    ghost within: { at ≤ length bytes.items },
}

impl Read for MemoryInput {
    ghost remaining = { λ input. Some (drop input.at input.bytes.items) };

    ghost left = { λ input. length input.bytes.items - input.at };

    ghost failed = { λ _. false };

    ghost sound = { λ _. true };

    fn read(&mut self, buf: &mut [u8]) -> Result<usize, Failed> {
        let (_, rest) = self.bytes.as_slice().split_at(self.at);
        let n = buf.len().min(rest.len()).min(self.most);
        let (front, _) = rest.split_at(n);
        buf[..n].copy_from_slice(front);
        self.at += n;
        Ok(n)
    }
}

impl ReadAt for MemoryInput {
    ghost content = { λ input. Some input.bytes.items };

    ghost reliable = { λ _. true };

    fn read_at(&self, offset: u64, buf: &mut [u8]) -> Result<usize, Failed> {
        let bytes = self.bytes.as_slice();
        are_bytes(bytes);
        Ok(copy_at(bytes, offset, self.most, buf))
    }
}

/// Named files, of which the last of a name counts, and what was printed. Reads give `most` bytes
/// at a time at most.
#[derive(Drop)]
pub struct MemoryHost {
    files: Vec<(String, Vec<u8>)>,
    most: usize,
    out: Sink,
    created: Vec<(String, bool)>,
    alloc: Global,
    ghost some: { 0 < most },
}

impl MemoryHost {
    /// A host of no files. What is printed goes to `out`, which may be limited.
    pub fn new(alloc: Global, most: usize, out: Sink) -> MemoryHost
        requires { 0 < most }
        ensures files { result.files.items ≡ [] }
        ensures most { result.most ≡ most }
        ensures out { result.out ≡ out }
        ensures created { result.created.items ≡ [] }
    {
        MemoryHost {
            files: Vec::new(alloc),
            most,
            out,
            created: Vec::new(alloc),
            alloc,
        }
    }

    /// Puts a file in, in the place of the one of its name.
    pub fn put(&mut self, name: &str, bytes: Vec<u8>) -> Result<(), AllocError>
        ensures ok { OnOk result
            (AddsFile self.old.files.items self.new.files.items name.now bytes.items) }
        ensures err { OnErr result (self.new.files.items ≡ self.old.files.items) }
        ensures out { self.new.out ≡ self.old.out }
        ensures created { self.new.created ≡ self.old.created }
    {
        let kept = name.to_string(self.alloc)?;
        match self.files.push((kept, bytes)) {
            Ok(()) => Ok(()),
            Err(_) => Err(AllocError),
        }
    }

    /// All that were put in and kept, in that order.
    pub fn files(&self) -> &[(String, Vec<u8>)]
        ensures { result.now ≡ self.now.files.items }
    {
        self.files.as_slice()
    }

    /// What stands under a name.
    pub fn get(&self, name: &str) -> Option<&[u8]>
        ensures { option_map (λ bytes. bytes.now) result
            ≡ files_of self.now.files.items name.now }
    {
        let mut found = None;
        for (known, bytes) in &self.files {
            if known.as_str() == name {
                found = Some(bytes.as_slice());
            }
        }
        found
    }

    /// What was printed.
    pub fn printed(&self) -> &[u8]
        ensures { result.now ≡ self.now.out.bytes.items }
    {
        self.out.bytes()
    }

    /// The outputs that were asked for, each by its name, and by whether a file that was there was
    /// to stay.
    pub fn created(&self) -> &[(String, bool)]
        ensures { result.now ≡ self.now.created.items }
    {
        self.created.as_slice()
    }
}

impl Host for MemoryHost {
    type Input = MemoryInput;

    type Output = Sink;

    ghost world = { λ host.
        memory_world host.files.items host.out.bytes.items
        host.out.failed host.created.items };

    fn open_file(&self, name: &str) -> Result<MemoryInput, FileFault> {
        let Some(bytes) = self.get(name) else {
            return Err(FileFault::Io);
        };
        match bytes.to_vec(self.alloc) {
            Ok(bytes) => Ok(MemoryInput {
                bytes,
                at: 0,
                most: self.most,
            }),
            Err(_) => Err(FileFault::NoMemory),
        }
    }

    fn length_of(&self, input: &MemoryInput) -> Option<u64> {
        Some((input.bytes.len() - input.at) as u64)
    }

    /// Nobody else changes these files.
    fn is_unchanged(&self, _input: &MemoryInput) -> bool {
        true
    }

    fn create_file(&mut self, name: &str, no_clobber: bool) -> Result<Sink, AllocError> {
        let asked = name.to_string(self.alloc)?;
        match self.created.push((asked, no_clobber)) {
            Ok(()) => Ok(Sink::new(self.alloc)),
            Err(_) => Err(AllocError),
        }
    }

    fn keep_file(&mut self, name: &str, no_clobber: bool, output: Sink) -> Result<(), KeepFault> {
        if no_clobber && self.get(name).is_some() {
            return Err(KeepFault::Uncreated);
        }
        match self.put(name, output.into_bytes()) {
            Ok(()) => Ok(()),
            Err(_) => Err(KeepFault::NoMemory),
        }
    }

    fn give_up(&mut self, _name: &str, _output: Sink) -> FileFault {
        FileFault::NoMemory
    }

    fn print(&mut self, bytes: &[u8]) -> Result<(), Failed> {
        write_all(&mut self.out, bytes)
    }

    /// Nothing is held back.
    fn pass_on(&mut self) -> Result<(), Failed> {
        Ok(())
    }
}
