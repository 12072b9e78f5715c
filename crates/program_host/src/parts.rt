//! Files beside those whose place they take.
//!
//! A part has the sticky bit from the moment in which it is made, which says nothing of a file, and
//! is locked while it is written. A run that is killed leaves its part with the bit and without the
//! lock. So another run can tell it from a part that is still written, and from any other file that
//! has this name.
use crate::rights::Rights;
use std::alloc::{AllocError, Global};
use std::fs::{File, Metadata, OpenOptions, Permissions, TryLockError};
use std::io::ErrorKind;
use std::os::unix::fs::{MetadataExt, OpenOptionsExt, PermissionsExt};
use std::rt::Files;
use std::{fs, io};

/// How many files may stand beside an output under the names for its parts.
const MOST_PARTS: u8 = 100;

/// The sticky bit.
const MARK: u32 = 0o1000;

/// Who may read and write a part: nobody but who writes it.
const PRIVATE: u32 = 0o600;

/// Who may read and write a new file, unless the user or the folder narrows it.
const OPEN: u32 = 0o666;

/// A file beside the one whose place it takes once it is kept.
#[derive(Drop)]
pub(crate) struct Part {
    name: String,
    target: String,
    rights: Rights,
    /// Whether it takes the name only where no file has it.
    no_clobber: bool,
}

impl Part {
    /// Gives the part its target's place. Until then it stays locked.
    pub(crate) fn keep<R: Files>(&self, rt: &R, file: &File) -> io::Result<()> {
        self.rights.give(file);
        if self.no_clobber {
            self.link(rt)
        } else {
            self.rename(rt)
        }
    }

    fn rename<R: Files>(&self, rt: &R) -> io::Result<()> {
        fs::rename(rt, self.name.as_str(), self.target.as_str())
    }

    // Takes the name unless a file has got it meanwhile: a link is refused then, a new name isn't.
    fn link<R: Files>(&self, rt: &R) -> io::Result<()> {
        match fs::hard_link(rt, self.name.as_str(), self.target.as_str()) {
            Ok(()) => {
                self.remove(rt);
                Ok(())
            }
            Err(error) if error.kind() == ErrorKind::AlreadyExists => Err(error),
            // Not each file system has links.
            Err(error) => match fs::symlink_metadata(rt, self.target.as_str()) {
                Ok(_) => Err(error),
                Err(_) => self.rename(rt),
            },
        }
    }

    /// Removes the part, whose file isn't closed yet, so that no other run has taken its name.
    pub(crate) fn remove<R: Files>(&self, rt: &R) {
        let _ = fs::remove_file(rt, self.name.as_str());
    }
}

fn name_of_part(alloc: Global, name: &str, number: u8) -> Result<String, AllocError> {
    if number == 0 {
        format!(in alloc; "{name}.part")
    } else {
        format!(in alloc; "{name}.part{number}")
    }
}

// A new file of this name, with the mark and these rights; none where the name is taken.
fn create_free<R: Files<File = File>>(rt: &R, name: &str, rights: u32) -> io::Result<Option<File>> {
    let created = OpenOptions::new()
        .read(true)
        .write(true)
        .create_new(true)
        .mode(MARK | rights)
        .open(rt, name);
    match created {
        Ok(file) => Ok(Some(file)),
        Err(error) if error.kind() == ErrorKind::AlreadyExists => Ok(None),
        Err(error) => Err(error),
    }
}

// Whether a file with the mark of a part has this name.
fn is_marked<R: Files>(rt: &R, name: &str) -> bool {
    match fs::symlink_metadata(rt, name) {
        Ok(there) => there.is_file() && there.mode() & MARK != 0,
        Err(_) => false,
    }
}

fn is_other(one: &Metadata, two: &Metadata) -> bool {
    one.dev() != two.dev() || one.ino() != two.ino()
}

// Removes the part that a killed run has left under this name; whether there was one.
fn remove_left<R: Files<File = File>>(rt: &R, name: &str) -> bool {
    if !is_marked(rt, name) {
        return false;
    }
    let Ok(file) = OpenOptions::new().write(true).open(rt, name) else {
        return false;
    };
    let is_left = file.try_lock().is_ok() && is_marked(rt, name) && !is_lost(rt, name, &file);
    // The lock is held until the name is free.
    let is_removed = is_left && fs::remove_file(rt, name).is_ok();
    drop(file);
    is_removed
}

// Whether the name of an open file is seen to be no longer its own.
fn is_lost<R: Files>(rt: &R, name: &str, file: &File) -> bool {
    match fs::symlink_metadata(rt, name) {
        Ok(named) => file
            .metadata()
            .is_ok_and(|opened| is_other(&named, &opened)),
        Err(error) => error.kind() == ErrorKind::NotFound,
    }
}

// Locks a new part; whether it still has its name. Before that another run may take it for one that
// is left, and remove it. Where the file system has no locks none does, and a part stays for good
// where its run is killed.
fn hold<R: Files>(rt: &R, name: &str, file: &File) -> bool {
    match file.try_lock() {
        Err(TryLockError::WouldBlock) => false,
        _ => !is_lost(rt, name, file),
    }
}

// A new part of this name, also in the place of what a killed run has left; none where the name is
// taken.
fn create_new<R: Files<File = File>>(rt: &R, name: &str, rights: u32) -> io::Result<Option<File>> {
    let created = match create_free(rt, name, rights)? {
        None if remove_left(rt, name) => create_free(rt, name, rights)?,
        created => created,
    };
    match created {
        Some(file) if hold(rt, name, &file) => Ok(Some(file)),
        _ => Ok(None),
    }
}

// A new file under one of the names for the parts of this one, and that name.
fn create_part<R: Files<File = File>>(
    rt: &R,
    alloc: Global,
    target: &str,
    rights: u32,
) -> io::Result<(File, String)> {
    for number in 0..MOST_PARTS {
        let name = name_of_part(alloc, target, number)?;
        if let Some(file) = create_new(rt, name.as_str(), rights)? {
            return Ok((file, name));
        }
    }
    Err(io::Error::other("all names for its parts are taken, from .part to .part99"))
}

/// A new file beside the one of this name, under one that no other file has. Once it is kept it has
/// the rights of the file that it replaces, or else those of a new file. With `no_clobber` it is
/// kept only where no file has the name by then.
pub(crate) fn create_beside<R: Files<File = File>>(
    rt: &R,
    alloc: Global,
    target: &str,
    replaced: Option<&Metadata>,
    no_clobber: bool,
) -> io::Result<(File, Part)> {
    let target = target.to_string(alloc)?;
    // What a new file's rights are, only making one tells: the folder may have a say, too. Who can
    // open it before it is made private may read what replaces nothing in any case.
    let made = if replaced.is_some() { PRIVATE } else { OPEN };
    let (file, name) = create_part(rt, alloc, target.as_str(), made)?;
    let rights = match replaced {
        Some(there) => Rights::of_replaced(there),
        None => Rights::of_new(&file),
    };
    let _ = file.set_permissions(Permissions::from_mode(MARK | PRIVATE));
    let part = Part {
        name,
        target,
        rights,
        no_clobber,
    };
    Ok((file, part))
}
