//! What a command answers.
use crate::fault::Fault;
use host::MemoryHost;
use session::Sink;
use std::alloc::{AllocError, Global};
use tool::answer;

/// What a command answered.
#[derive(Drop)]
pub(crate) struct Outcome {
    /// The exit status.
    pub(crate) status: u8,
    err: Sink,
    /// The files that were given, and behind these those that the command created.
    host: MemoryHost,
    given: usize,
}

impl Outcome {
    /// What was printed.
    pub(crate) fn output(&self) -> Result<&str, Fault> {
        text_of(self.host.printed())
    }

    /// What was printed on standard error.
    pub(crate) fn refusal(&self) -> Result<&str, Fault> {
        text_of(self.err.bytes())
    }

    /// The files that were created, in that order.
    pub(crate) fn created(&self) -> &[(String, Vec<u8>)] {
        self.host.files().get(self.given..).unwrap_or(&[])
    }
}

fn text_of(bytes: &[u8]) -> Result<&str, Fault> {
    match std::str::from_utf8(bytes) {
        Ok(text) => Ok(text),
        Err(_) => Err(Fault::NoText),
    }
}

// The words of a command line. `""` stands for a word of no letters.
fn words_of(alloc: Global, line: &str) -> Result<Vec<&str>, AllocError> {
    let mut words = Vec::new(alloc);
    for word in line.split_whitespace() {
        words.push(if word == "\"\"" { "" } else { word })?;
    }
    Ok(words)
}

// A host of the same files, which are read 7 bytes at a time.
fn copy_of(alloc: Global, given: &MemoryHost) -> Result<MemoryHost, AllocError> {
    let mut host = MemoryHost::new(alloc, 7, Sink::new(alloc));
    for (name, bytes) in given.files() {
        host.put(name.as_str(), bytes.as_slice().to_vec(alloc)?)?;
    }
    Ok(host)
}

/// Runs a command over a new host of these files.
pub(crate) fn run(alloc: Global, line: &str, given: &MemoryHost) -> Result<Outcome, AllocError> {
    let words = words_of(alloc, line)?;
    let mut host = copy_of(alloc, given)?;
    let mut err = Sink::new(alloc);
    let status = answer(alloc, words.as_slice(), &mut host, &mut err);
    Ok(Outcome {
        status,
        err,
        host,
        given: given.files().len(),
    })
}
