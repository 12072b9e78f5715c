//! Outputs as they are created.
use crate::failures::{Failures, Noted};
use crate::output::{Target, Written};
use crate::parts::{Part, create_beside};
use crate::program::BUFFER_SIZE;
use crate::state::FileId;
use inspection::{STANDARD_STREAM, output_name};
use std::alloc::Global;
use std::fs::{File, Metadata, OpenOptions};
use std::io::{BufWriter, ErrorKind};
use std::rt::{Files, Stdout};
use std::{fs, io};

/// Why a file that is there already isn't created.
const STAYS: &str = "it is there already, and stays by --no-clobber";

/// Why an input isn't replaced.
const IS_INPUT: &str = "it is an input of this command, and would be lost";

// A new file beside this name, in the place of this file, if there is one.
fn create_anew<R: Files<File = File>>(
    rt: &R,
    alloc: Global,
    name: &str,
    replaced: Option<&Metadata>,
    no_clobber: bool,
) -> io::Result<(File, Option<Part>)> {
    let (file, part) = create_beside(rt, alloc, name, replaced, no_clobber)?;
    Ok((file, Some(part)))
}

// A new file that is to take the place of the one of this name, if that may be written.
fn create_instead<R: Files<File = File>>(
    rt: &R,
    alloc: Global,
    name: &str,
    there: &Metadata,
) -> io::Result<(File, Option<Part>)> {
    drop(OpenOptions::new().write(true).open(rt, name)?);
    create_anew(rt, alloc, name, Some(there), false)
}

// What has this name, which is no file, to be written straight.
fn create_straight<R: Files<File = File>>(rt: &R, name: &str) -> io::Result<(File, Option<Part>)> {
    Ok((fs::create(rt, name)?, None))
}

// What a link leads to, to be written, so that a command may read the file that it replaces.
fn create_behind<R: Files<File = File>>(
    rt: &R,
    alloc: Global,
    link: &str,
) -> io::Result<(File, Option<Part>)> {
    let name = match rt.canonicalize(alloc, link) {
        Ok(path) => path.into_string(),
        // It leads to nothing, so nothing is replaced.
        Err(error) if error.kind() == ErrorKind::NotFound => return create_straight(rt, link),
        Err(error) => return Err(error),
    };
    match fs::symlink_metadata(rt, name.as_str()) {
        Ok(there) if there.is_file() => create_instead(rt, alloc, name.as_str(), &there),
        _ => create_straight(rt, link),
    }
}

// A file to be written, and where it goes if not straight to this name. With `no_clobber` whatever
// has the name stays.
fn create<R: Files<File = File>>(
    rt: &R,
    alloc: Global,
    name: &str,
    no_clobber: bool,
) -> io::Result<(File, Option<Part>)> {
    match fs::symlink_metadata(rt, name) {
        Ok(_) if no_clobber => Err(io::Error::other(STAYS)),
        Ok(there) if there.is_file() => create_instead(rt, alloc, name, &there),
        Ok(there) if there.is_symlink() => create_behind(rt, alloc, name),
        Ok(_) => create_straight(rt, name),
        Err(error) if error.kind() == ErrorKind::NotFound && !name.is_empty() => {
            create_anew(rt, alloc, name, None, no_clobber)
        }
        Err(error) => Err(error),
    }
}

/// Whether what has this name is written straight, as a pipe, a device or a link to nothing is.
pub(crate) fn is_straight<R: Files>(rt: &R, name: &str) -> bool {
    match fs::metadata(rt, name) {
        Ok(there) => !there.is_file() && !there.is_dir(),
        Err(_) => fs::symlink_metadata(rt, name).is_ok(),
    }
}

/// Whether memory is all that was wanting.
pub(crate) fn is_lack_of_memory(error: &io::Error) -> bool {
    error.kind() == ErrorKind::OutOfMemory
}

/// An output that is wanted, as long as it can't be created.
#[derive(Drop)]
pub(crate) struct Wanted<'a, R> {
    pub(crate) rt: &'a R,
    pub(crate) alloc: Global,
    pub(crate) name: String,
    pub(crate) no_clobber: bool,
    /// Files that aren't replaced.
    pub(crate) guarded: [Option<FileId>; 3],
    pub(crate) stdout: Stdout,
    pub(crate) failures: &'a Failures,
}

impl<'a, R: Files<File = File>> Wanted<'a, R> {
    /// The file, to which nothing was written. Why there is none is kept.
    pub(crate) fn create(&self) -> io::Result<Written<'a>> {
        let created = self.try_create();
        if let Err(error) = &created {
            self.failures.note(self.name.as_str(), error);
        }
        created
    }

    // What is written, and where it goes if not straight to this name.
    fn target(&self) -> io::Result<(Target, Option<Part>)> {
        let name = self.name.as_str();
        if name == STANDARD_STREAM {
            return Ok((Target::Stdout(self.stdout), None));
        }
        if self.is_guarded(name) {
            return Err(io::Error::other(IS_INPUT));
        }
        let (file, part) = create(self.rt, self.alloc, name, self.no_clobber)?;
        Ok((Target::File(file), part))
    }

    // Whether the name leads to one of the files that aren't replaced.
    fn is_guarded(&self, name: &str) -> bool {
        let there = FileId::of_name(self.rt, name);
        there.is_some() && self.guarded.contains(&there)
    }

    fn try_create(&self) -> io::Result<Written<'a>> {
        let name = output_name(self.name.as_str()).text.to_string(self.alloc)?;
        let (target, part) = self.target()?;
        let noted = Noted::new(target, name, self.failures);
        match BufWriter::with_capacity(self.alloc, BUFFER_SIZE, noted) {
            Ok(writer) => Ok(Written::new(writer, part)),
            Err(error) => {
                if let Some(part) = &part {
                    part.remove(self.rt);
                }
                Err(error)
            }
        }
    }
}
