//! Files whose reads are told.
ghost use Rattle.std.specs.Prelude.{◌≤◌, length, IfOk};

use crate::meter::Meter;
use crate::progress::Progress;
use std::alloc::Global;
use std::cell::Cell;
use std::fs::File;
use std::io::{self, Read};
use std::os::unix::fs::FileExt;
use std::time::Clock;

/// A file that is read, with what is told of it.
#[derive(Drop)]
pub struct Counted<'a, R> {
    file: File,
    meter: Option<Meter<'a, R>>,
}

// What is told of an input that is opened now; nothing where there is no memory for its name.
fn meter_of<'a, R: Clock>(
    rt: &'a R,
    alloc: Global,
    progress: &'a Progress,
    name: &str,
    file: &File,
) -> Option<Meter<'a, R>> {
    let opened = progress.passed(rt)?;
    let Ok(name) = name.to_string(alloc) else {
        return None;
    };
    Some(Meter {
        rt,
        progress,
        name,
        length: length_of(file),
        opened,
        bytes: Cell::new(0),
        reads: Cell::new(0),
    })
}

impl<'a, R: Clock> Counted<'a, R> {
    /// The file of this name.
    pub fn new(
        rt: &'a R,
        alloc: Global,
        progress: &'a Progress,
        name: &str,
        file: File,
    ) -> Counted<'a, R> {
        let meter = meter_of(rt, alloc, progress, name, &file);
        Counted { file, meter }
    }

    /// The file itself.
    pub fn file(&self) -> &File {
        &self.file
    }
}

impl<R: Clock + Eprint> Counted<'_, R> {
    /// Reads bytes from an offset on.
    pub fn read_at(&self, offset: u64, buf: &mut [u8]) -> io::Result<usize>
        ensures { IfOk result (λ n. n ≤ length buf.old) }
    {
        let bytes = self.file.read_at(buf, offset)?;
        if let Some(meter) = &self.meter {
            meter.reach(offset.saturating_add(bytes as u64), bytes == buf.len());
        }
        Ok(bytes)
    }
}

// A device or a pipe doesn't tell its length, nor does a file of the system's own, whose bytes are
// made as they are read and which calls itself empty.
fn length_of(file: &File) -> Option<u64> {
    match file.metadata() {
        Ok(there) if there.is_file() && there.len() > 0 => Some(there.len()),
        _ => None,
    }
}

impl<R: Clock + Eprint> Read for Counted<'_, R> {
    fn read(&mut self, buf: &mut [u8]) -> io::Result<usize> {
        let bytes = self.file.read(buf)?;
        if let Some(meter) = &self.meter {
            meter.count(bytes, bytes == buf.len());
        }
        Ok(bytes)
    }
}
