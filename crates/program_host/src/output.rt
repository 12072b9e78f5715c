//! The program's output files.
ghost use Rattle.std.specs.Prelude.{◌≡◌, ◌<◌, ◌≤◌, None, IfOk, OnOk, OnErr, length, true, false};

use crate::creating::Wanted;
use crate::failures::Noted;
use crate::parts::Part;
use crate::state::FileState;
use session::{Device, Failed, Write};
use std::fs::File;
use std::io::{self, BufWriter, Seek, SeekFrom};
use std::os::unix::fs::FileExt;
use std::rt::{Files, Stdout};
use streams::WriteAt;

/// Where bytes go.
#[derive(Drop)]
pub(crate) enum Target {
    File(File),
    Stdout(Stdout),
}

impl io::Write for Target {
    fn write(&mut self, buf: &[u8]) -> io::Result<usize> {
        match self {
            Target::File(file) => file.write(buf),
            Target::Stdout(stdout) => stdout.write(buf),
        }
    }

    fn flush(&mut self) -> io::Result<()> {
        match self {
            Target::File(file) => file.flush(),
            Target::Stdout(stdout) => stdout.flush(),
        }
    }
}

/// A file that is written: beside its name until it is kept, or, if a device, a pipe or standard
/// output has that, straight.
#[derive(Drop)]
pub(crate) struct Written<'a> {
    device: Device<BufWriter<Noted<'a, Target>>>,
    part: Option<Part>,
    // How the last call with an offset or a length left the file.
    left: Option<FileState>,
}

impl<'a> Written<'a> {
    /// A file of which nothing was written, and where it goes if not straight to its name.
    pub(crate) fn new(writer: BufWriter<Noted<'a, Target>>, part: Option<Part>) -> Written<'a> {
        Written {
            device: Device::new(writer),
            part,
            left: None,
        }
    }

    /// The file, and where it goes.
    pub(crate) fn into_parts(self) -> (Target, Option<Part>) {
        let Written {
            device,
            part,
            left: _,
        } = self;
        let (noted, _) = device.into_inner().into_parts();
        (noted.into_inner(), part)
    }

    fn noted(&self) -> &Noted<'a, Target> {
        self.device.get_ref().get_ref()
    }

    // What has offsets.
    fn file(&self) -> Result<&File, Failed> {
        match self.noted().inner() {
            Target::File(file) => Ok(file),
            Target::Stdout(_) => Err(Failed),
        }
    }

    fn append(&mut self, bytes: &[u8]) -> Result<usize, Failed>
        ensures bound { IfOk result (λ n. n ≤ length bytes.now) }
        ensures some { IfOk result (λ n. 0 < length bytes.now → 0 < n) }
    {
        self.left = None;
        self.device.write(bytes)
    }

    // Passes on what the buffer holds back. Fails where another program has changed the file since
    // it was left, as far as that can be seen.
    fn flush_unchanged(&mut self) -> Result<(), Failed> {
        self.device.flush()?;
        if FileState::has_changed(self.left, self.file()?) {
            let changed = io::Error::other("another program has changed it");
            let _ = self.noted().see::<()>(Err(changed));
            return Err(Failed);
        }
        Ok(())
    }

    // Whatever is written next stands behind the file's end, as that of an output that grows.
    fn resize(&mut self, len: u64) -> Result<(), Failed> {
        self.flush_unchanged()?;
        let mut file = self.file()?;
        let set = self.noted().see(file.set_len(len));
        if set.is_err() || self.noted().see(file.seek(SeekFrom::End(0))).is_err() {
            return Err(Failed);
        }
        self.left = FileState::of(self.file()?);
        Ok(())
    }

    fn put(&mut self, offset: u64, bytes: &[u8]) -> Result<usize, Failed>
        ensures bound { IfOk result (λ n. n ≤ length bytes.now) }
        ensures some { IfOk result (λ n. 0 < length bytes.now → 0 < n) }
    {
        self.flush_unchanged()?;
        let file = self.file()?;
        match self.noted().see(file.write_at(bytes, offset)) {
            Ok(n) if n > 0 || bytes.is_empty() => {
                self.left = FileState::of(file);
                Ok(n)
            }
            _ => Err(Failed),
        }
    }

    fn get(&mut self, offset: u64, buf: &mut [u8]) -> Result<usize, Failed>
        ensures bound { IfOk result (λ n. n ≤ length buf.old) }
    {
        self.flush_unchanged()?;
        let file = self.file()?;
        match self.noted().see(file.read_at(buf, offset)) {
            Ok(n) => Ok(n),
            Err(_) => Err(Failed),
        }
    }
}

/// What is to be a file. Where it couldn't be created, that is tried once more when the first bytes
/// come, and then they go nowhere.
pub struct HostOutput<'a, R> {
    written: Option<Written<'a>>,
    /// What is to be created yet.
    wanted: Option<Wanted<'a, R>>,
    // Whether a call has failed. From then on each does.
    failed: bool,
}

impl<'a, R> HostOutput<'a, R> {
    /// One that was created.
    pub(crate) fn of(written: Written<'a>) -> HostOutput<'a, R> {
        HostOutput {
            written: Some(written),
            wanted: None,
            failed: false,
        }
    }

    /// One that couldn't be created so far.
    pub(crate) fn to_come(wanted: Wanted<'a, R>) -> HostOutput<'a, R> {
        HostOutput {
            written: None,
            wanted: Some(wanted),
            failed: false,
        }
    }

    /// The file, if there is one.
    pub(crate) fn into_written(self) -> Option<Written<'a>> {
        let HostOutput {
            written,
            wanted: _,
            failed: _,
        } = self;
        written
    }

    // Notes whether a call has failed.
    fn noted<T: Drop>(&mut self, outcome: Result<T, Failed>) -> Result<T, Failed>
        requires { self.old.failed ≡ false }
        ensures same { result ≡ outcome }
        ensures works { OnOk result (self.new.failed ≡ false) }
        ensures fails { OnErr result (self.new.failed ≡ true) }
    {
        self.failed = outcome.is_err();
        outcome
    }
}

impl<R: Files<File = File>> HostOutput<'_, R> {
    // Creates the file, if it is wanted yet and now can be created.
    fn create_late(&mut self)
        ensures { self.new.failed ≡ self.old.failed }
    {
        if let Some(wanted) = self.wanted.take() {
            self.written = wanted.create().ok();
        }
    }

    /// Passes on what the buffer holds back.
    pub(crate) fn flush(&mut self) -> Result<(), Failed>
        ensures works { OnOk result ((self.old.failed ≡ false) × (self.new.failed ≡ false)) }
        ensures fails { OnErr result (self.new.failed ≡ true) }
    {
        if self.failed {
            return Err(Failed);
        }
        self.create_late();
        let flushed = match &mut self.written {
            Some(written) => written.device.flush(),
            None => Ok(()),
        };
        self.noted(flushed)
    }
}

impl<R: Files<File = File>> Write for HostOutput<'_, R> {
    ghost contents = { λ _. None };

    ghost failed = { λ output. output.failed };

    ghost room = { λ _. 0 };

    fn write(&mut self, bytes: &[u8]) -> Result<usize, Failed> {
        if self.failed {
            return Err(Failed);
        }
        self.create_late();
        let taken = match &mut self.written {
            Some(written) => written.append(bytes),
            None => Ok(bytes.len()),
        };
        self.noted(taken)
    }
}

impl<R: Files<File = File>> WriteAt for HostOutput<'_, R> {
    fn is_seekable(&self) -> bool {
        match &self.written {
            Some(written) => written.part.is_some(),
            None => false,
        }
    }

    fn set_len(&mut self, len: u64) -> Result<(), Failed> {
        if self.failed {
            return Err(Failed);
        }
        let set = match &mut self.written {
            Some(written) => written.resize(len),
            None => Err(Failed),
        };
        self.noted(set)
    }

    fn write_at(&mut self, offset: u64, bytes: &[u8]) -> Result<usize, Failed> {
        if self.failed {
            return Err(Failed);
        }
        let taken = match &mut self.written {
            Some(written) => written.put(offset, bytes),
            None => Err(Failed),
        };
        self.noted(taken)
    }

    fn read_back(&mut self, offset: u64, buf: &mut [u8]) -> Result<usize, Failed> {
        if self.failed {
            return Err(Failed);
        }
        let given = match &mut self.written {
            Some(written) => written.get(offset, buf),
            None => Err(Failed),
        };
        self.noted(given)
    }
}
