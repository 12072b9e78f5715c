//! The program: the answer to its words, over the host's files and streams.
#![tactic(auto)]

mod words;

use causes::{explain, refused};
use commands::{Stop, Why};
use inspection::{Failure, STANDARD_STREAM};
use program_host::{BUFFER_SIZE, Failures, Noted, ProgramHost};
use progress::Progress;
use request::{CommandLine, Request, Usage, command_line};
use session::Device;
use std::alloc::{AllocError, Global};
use std::fs::{self, File};
use std::io::{self, BufWriter, ErrorKind, IsTerminal};
use std::process::ExitCode;
use std::rt::{Files, Stderr, Stdout};
use tool::{carry_out, refuse_memory, status_after};
use words::{WordFault, read_words, refuse_word};

/// Where a command's lines go.
#[derive(Clone, Copy)]
enum Lines {
    Out(Stdout),
    Err(Stderr),
}

impl Lines {
    fn is_terminal(&self) -> bool {
        match self {
            Lines::Out(out) => out.is_terminal(),
            Lines::Err(err) => err.is_terminal(),
        }
    }
}

impl io::Write for Lines {
    fn write(&mut self, buf: &[u8]) -> io::Result<usize> {
        match self {
            Lines::Out(out) => out.write(buf),
            Lines::Err(err) => err.write(buf),
        }
    }

    fn flush(&mut self) -> io::Result<()> {
        match self {
            Lines::Out(out) => out.flush(),
            Lines::Err(err) => err.flush(),
        }
    }
}

// Standard output, unless the command writes its file there.
fn lines_of(rt: &HostRuntime, line: &Result<CommandLine<'_>, Usage<'_>>) -> (Lines, &'static str) {
    if let Ok(line) = line {
        if let Some(output) = line.request.output() {
            if output.name == STANDARD_STREAM {
                return (Lines::Err(rt.stderr()), "standard error");
            }
        }
    }
    (Lines::Out(rt.stdout()), "standard output")
}

// The words as they are taken by what reads them.
fn views_of(alloc: Global, words: &[String]) -> Result<Vec<&str>, AllocError> {
    let mut views: Vec<&str> = Vec::new(alloc);
    for word in words {
        views.push(word.as_str())?;
    }
    Ok(views)
}

// Says on standard error why the command ended as it did, or its line was refused, where there is
// more to say.
fn tell_cause<R: Files<File = File> + Eprint>(
    rt: &R,
    alloc: Global,
    line: &Result<CommandLine<'_>, Usage<'_>>,
    why: Result<Why, Stop<'_>>,
    failure: Option<&Failure>,
) {
    match (line, why) {
        (Ok(line), _) if line.quiet => {}
        (_, Err(Stop::Unprinted)) => tell(rt, unprinted(alloc, failure)),
        (Ok(line), why) => tell(rt, explain(rt, alloc, &line.request, why, failure)),
        (Err(Usage::Line(error)), _) => {
            if let Ok(text) = error.to_string(alloc) {
                tell(rt, refused(alloc, error.kind(), text.as_str()));
            }
        }
        _ => {}
    }
}

// Why standard output can't be written. Who reads it through a pipe may have had enough.
fn unprinted(alloc: Global, failure: Option<&Failure>) -> Result<Option<String>, AllocError> {
    match failure {
        Some(failure) if failure.kind != ErrorKind::BrokenPipe => {
            Ok(Some(failure.to_string(alloc)?))
        }
        _ => Ok(None),
    }
}

fn tell<R: Eprint>(rt: &R, sentence: Result<Option<String>, AllocError>) {
    if let Ok(Some(sentence)) = sentence {
        let _ = eprintln!(rt; "alcrs: {sentence}");
    }
}

// Whether what a command prints as it reads might stand on the same terminal: it may go there
// through a pipe.
fn may_print_between(rt: &HostRuntime, request: &Request<'_>) -> bool {
    match request {
        Request::Show(show) if show.summary => false,
        Request::Show(_) | Request::Follow(_) => match fs::metadata(rt, "/dev/stdout") {
            Ok(there) => !there.is_file(),
            Err(_) => true,
        },
        _ => false,
    }
}

// Says what is known before a command begins, and watches over what it reads.
fn begin<O: io::Write + Drop>(
    rt: &HostRuntime,
    line: &CommandLine<'_>,
    lines: Lines,
    host: &mut ProgramHost<'_, HostRuntime, O>,
) {
    host.guard(&line.request);
    if line.quiet {
        return;
    }
    if let Request::Follow(follow) = &line.request {
        host.forewarn(&follow.output);
    }
    host.tell();
    if rt.stderr().is_terminal() && !may_print_between(rt, &line.request) {
        host.watch(lines.is_terminal());
    }
}

// Says that there is no memory for the words, and answers the status.
fn refuse_without_memory(rt: &HostRuntime) -> ExitCode {
    ExitCode::from(refuse_memory(&mut Device::new(rt.stdout())))
}

// Does what the words ask for, and answers the status.
fn obey(rt: &HostRuntime, alloc: Global, words: &[&str]) -> u8 {
    let line = command_line(alloc, words);
    let failures = Failures::new(alloc);
    let progress = Progress::new();
    let (lines, name) = lines_of(rt, &line);
    let Ok(name) = name.to_string(alloc) else {
        return refuse_memory(&mut Device::new(lines));
    };
    let noted = Noted::new(lines, name, &failures);
    let Ok(buffer) = BufWriter::with_capacity(alloc, BUFFER_SIZE, noted) else {
        return refuse_memory(&mut Device::new(lines));
    };
    let out = Device::new(buffer);
    let mut host = ProgramHost::new(rt, alloc, rt.stdout(), out, &progress, &failures);
    if let Ok(line) = &line {
        begin(rt, line, lines, &mut host);
    }
    let mut err = Device::new(rt.stderr());
    let settled = carry_out(alloc, &line, &mut host, &mut err);
    host.end_watch();
    let flushed = host.flush();
    let failure = failures.take();
    let why = match flushed {
        Ok(()) => settled.why,
        Err(_) => Err(Stop::Unprinted),
    };
    tell_cause(rt, alloc, &line, why, failure.as_ref());
    status_after(settled.status, flushed)
}

fn main(rt: HostRuntime) -> ExitCode {
    let alloc = rt.alloc();
    let words = match read_words(&rt, alloc) {
        Ok(words) => words,
        Err(WordFault::NoText(place)) => return ExitCode::from(refuse_word(&rt, place)),
        Err(WordFault::NoMemory) => return refuse_without_memory(&rt),
    };
    let Ok(views) = views_of(alloc, words.as_slice()) else {
        return refuse_without_memory(&rt);
    };
    ExitCode::from(obey(&rt, alloc, &views))
}
