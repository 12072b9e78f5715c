//! The host's files and its standard output.
ghost use Rattle.std.specs.Prelude.{◌≡◌, ◌^◌, ◌-◌, [], None, false, IfOk, OnOk, is_err};
ghost use Rattle.std.specs.Io.KnownBytes.{Keeps};
ghost use Rattle.std.specs.Io.Buffered.{writer_buffer, writer_contents};
ghost use Rattle.host.specs.Worlds.{untold};

use crate::creating::{Wanted, is_lack_of_memory, is_straight};
use crate::failures::{Failures, Noted};
use crate::input::HostInput;
use crate::output::{HostOutput, Target, Written};
use crate::parts::Part;
use crate::state::{FileId, FileState};
use host::{FileFault, Host, KeepFault};
use inspection::{Name, STANDARD_STREAM, input_name};
use progress::{Counted, Progress};
use request::{Output, Request};
use session::{Device, Failed, write_all};
use std::alloc::{AllocError, Global};
use std::cell::Cell;
use std::fs::File;
use std::io::{BufReader, BufWriter};
use std::rt::{Files, Stdout};
use std::time::Clock;
use std::{fs, io};

/// How many bytes stand between a file, or the output, and its reader or writer.
pub const BUFFER_SIZE: usize = 65536;

/// Why standard input isn't opened a second time.
const TAKEN: &str = "it can be read once, and - is the name of more than one input";

/// Where standard input is opened.
const INPUT_DEVICE: &str = "/dev/stdin";

/// The files that names lead to as paths, `-` as standard input or standard output, and an output
/// for lines.
#[derive(Drop)]
pub struct ProgramHost<'a, R, O: std::io::Write + Drop> {
    rt: &'a R,
    alloc: Global,
    out: Device<BufWriter<O>>,
    stdout: Stdout,
    took_input: Cell<bool>,
    /// Inputs that no output replaces.
    guarded: [Option<FileId>; 3],
    /// Whether sentences are wanted.
    is_telling: bool,
    progress: &'a Progress,
    failures: &'a Failures,
}

impl<'a, R, O: std::io::Write + Drop> ProgramHost<'a, R, O> {
    /// The files, through the host's runtime, standard output, this output for lines, what is told
    /// of inputs, and where it is kept that calls have failed.
    pub fn new(
        rt: &'a R,
        alloc: Global,
        stdout: Stdout,
        out: Device<BufWriter<O>>,
        progress: &'a Progress,
        failures: &'a Failures,
    ) -> ProgramHost<'a, R, O>
        ensures { result.rt.now ≡ rt.now }
    {
        ProgramHost {
            rt,
            alloc,
            out,
            stdout,
            took_input: Cell::new(false),
            guarded: [None; 3],
            is_telling: false,
            progress,
            failures,
        }
    }

    /// Passes on all that was printed. `Failed` comes exactly where the output has failed, now or
    /// before.
    pub fn flush(&mut self) -> Result<(), Failed>
        ensures passed { OnOk result (writer_buffer self.new.out.inner ≡ []) }
        ensures inner { Keeps (writer_contents O.contents self.old.out.inner)
            (writer_contents O.contents self.new.out.inner) }
        ensures failed { self.new.out.failed ≡ is_err result }
        ensures works { OnOk result (self.old.out.failed ≡ false) }
    {
        self.out.flush()
    }
}

impl<'a, R: Files<File = File>, O: std::io::Write + Drop> ProgramHost<'a, R, O> {
    // The file of this name, or standard input, whose bytes come once: it isn't opened again.
    fn open_input(&self, name: &str) -> io::Result<File> {
        if name != STANDARD_STREAM {
            return fs::open(self.rt, name);
        }
        if self.took_input.replace(true) {
            return Err(io::Error::other(TAKEN));
        }
        fs::open(self.rt, INPUT_DEVICE)
    }

    fn wanted(&self, name: &str, no_clobber: bool) -> Result<Wanted<'a, R>, AllocError> {
        Ok(Wanted {
            rt: self.rt,
            alloc: self.alloc,
            name: name.to_string(self.alloc)?,
            no_clobber,
            guarded: self.guarded,
            stdout: self.stdout,
            failures: self.failures,
        })
    }

    /// From now on no output replaces an input that it isn't made of, as the object that is checked
    /// or sent. What a command makes of one file, as `drop` of a session, may replace that.
    pub fn guard(&mut self, request: &Request<'_>)
        ensures { self.new.out ≡ self.old.out }
    {
        self.guarded = match request {
            Request::Drop(drop) => [self.id_of(drop.places_file), None, None],
            Request::Check(_) | Request::Twin(_) | Request::Encode(_) | Request::Certify(_) => [
                self.id_of(request.session()),
                self.id_of(request.object()),
                self.id_of(request.certificate()),
            ],
            _ => [None; 3],
        };
    }

    fn id_of(&self, name: Option<&str>) -> Option<FileId> {
        let name = name?;
        if name == STANDARD_STREAM {
            FileId::of_name(self.rt, INPUT_DEVICE)
        } else {
            FileId::of_name(self.rt, name)
        }
    }

    // Closes a file that isn't kept, and takes it away.
    fn discard(&self, written: Written<'_>) {
        let (target, part) = written.into_parts();
        self.remove(&part);
        drop(target);
    }

    // Gives what was written the place of the file of this name; whether that went well.
    fn put_in_place(&self, name: &str, target: &Target, part: &Option<Part>) -> bool {
        let (Some(part), Target::File(file)) = (part, target) else {
            return true;
        };
        match part.keep(self.rt, file) {
            Ok(()) => true,
            Err(error) => {
                self.failures.note(name, &error);
                false
            }
        }
    }

    fn remove(&self, part: &Option<Part>) {
        if let Some(part) = part {
            part.remove(self.rt);
        }
    }
}

impl<R: Files<File = File> + Clock + Eprint, O: std::io::Write + Drop> ProgramHost<'_, R, O> {
    /// From now on it is told how far inputs are read. Lines of the command may go to the same
    /// terminal.
    pub fn watch(&self, is_shared: bool) {
        self.progress.begin(self.rt, is_shared);
    }

    /// Takes away what stands on the terminal.
    pub fn end_watch(&self) {
        self.progress.wipe(self.rt);
    }

    /// Says so where the output of what will come can't be created, as far as a try tells, which
    /// leaves nothing. A pipe or a device isn't tried, as that could take something from it.
    pub fn forewarn(&self, output: &Output<'_>) {
        let is_written_straight = output.name == STANDARD_STREAM
            || !output.no_clobber && is_straight(self.rt, output.name);
        if is_written_straight {
            return;
        }
        let Ok(wanted) = self.wanted(output.name, output.no_clobber) else {
            return;
        };
        match wanted.create() {
            Ok(written) => self.discard(written),
            Err(error) if is_lack_of_memory(&error) => {}
            Err(error) => {
                let shown = Name { text: output.name };
                let _ = eprintln!(self.rt; "alcrs: what comes can't be kept: {shown}: {error}");
            }
        }
    }

    /// From now on it is told at once where an output can't be created.
    pub fn tell(&mut self)
        ensures { self.new.out ≡ self.old.out }
    {
        self.is_telling = true;
    }

    // The command's line may come much later, when it is too late to mend it.
    fn tell_uncreated(&self, name: &str, error: &io::Error) {
        if self.is_telling {
            self.progress.wipe(self.rt);
            let shown = Name { text: name };
            let _ = eprintln!(self.rt;
                "alcrs: {shown} can't be created: {error}; what is left is done first, and this is \
                the fault if there is no other"
            );
        }
    }
}

impl<'a, R: Files<File = File> + Clock + Eprint, O: std::io::Write + Drop> Host
    for ProgramHost<'a, R, O> {
    type Input = HostInput<'a, R>;

    type Output = HostOutput<'a, R>;

    // Nothing is told of files; of what was printed, what the output's writer tells.
    ghost world = { λ host.
        untold (writer_contents O.contents host.out.inner) host.out.failed };

    fn open_file(&self, name: &str) -> Result<HostInput<'a, R>, FileFault> {
        let told = input_name(name).text;
        let file = match self.open_input(name) {
            Ok(file) => file,
            Err(error) => {
                self.failures.note(told, &error);
                return Err(FileFault::Io);
            }
        };
        let Ok(told) = told.to_string(self.alloc) else {
            return Err(FileFault::NoMemory);
        };
        let opened = FileState::of(&file);
        let counted = Counted::new(self.rt, self.alloc, self.progress, name, file);
        let noted = Noted::new(counted, told, self.failures);
        match BufReader::with_capacity(self.alloc, BUFFER_SIZE, noted) {
            Ok(reader) => Ok(HostInput::new(reader, opened)),
            Err(_) => Err(FileFault::NoMemory),
        }
    }

    fn length_of(&self, input: &HostInput<'a, R>) -> Option<u64> {
        input.length()
    }

    fn is_unchanged(&self, input: &HostInput<'a, R>) -> bool {
        input.is_unchanged()
    }

    fn create_file(
        &mut self,
        name: &str,
        no_clobber: bool,
    ) -> Result<HostOutput<'a, R>, AllocError> {
        let wanted = self.wanted(name, no_clobber)?;
        match wanted.create() {
            Ok(written) => Ok(HostOutput::of(written)),
            Err(error) if is_lack_of_memory(&error) => Err(AllocError),
            Err(error) => {
                self.tell_uncreated(name, &error);
                Ok(HostOutput::to_come(wanted))
            }
        }
    }

    // The file is closed last, as its lock keeps other runs from its name.
    fn keep_file(
        &mut self,
        name: &str,
        _no_clobber: bool,
        mut output: HostOutput<'a, R>,
    ) -> Result<(), KeepFault> {
        let flushed = output.flush();
        let Some(written) = output.into_written() else {
            return Err(KeepFault::Uncreated);
        };
        let (target, part) = written.into_parts();
        let is_kept = flushed.is_ok() && self.put_in_place(name, &target, &part);
        if !is_kept {
            self.remove(&part);
        }
        drop(target);
        if is_kept { Ok(()) } else { Err(KeepFault::Io) }
    }

    fn give_up(&mut self, _name: &str, output: HostOutput<'a, R>) -> FileFault {
        if let Some(written) = output.into_written() {
            self.discard(written);
        }
        FileFault::Io
    }

    fn print(&mut self, bytes: &[u8]) -> Result<(), Failed> {
        self.progress.make_way(self.rt);
        write_all(&mut self.out, bytes)
    }

    fn pass_on(&mut self) -> Result<(), Failed> {
        self.progress.make_way(self.rt);
        self.flush()
    }
}
