//! By what it is seen that a file has changed.
use std::fs::{self, File, Metadata};
use std::os::unix::fs::MetadataExt;
use std::rt::Files;

/// Which file it is, whatever names it has.
#[derive(Clone, Copy, PartialEq, Eq)]
pub(crate) struct FileId {
    device: u64,
    number: u64,
}

fn id_of(there: &Metadata) -> FileId {
    FileId {
        device: there.dev(),
        number: there.ino(),
    }
}

impl FileId {
    /// The regular file that a name leads to, if it does.
    pub(crate) fn of_name<R: Files>(rt: &R, name: &str) -> Option<FileId> {
        match fs::metadata(rt, name) {
            Ok(there) if there.is_file() => Some(id_of(&there)),
            _ => None,
        }
    }
}

/// Which file it is, its length, and when its bytes and its properties were changed last. Whoever
/// puts the first time back changes the second. What is written to memory that has the file mapped
/// needn't change either.
#[derive(Clone, Copy, PartialEq, Eq)]
pub(crate) struct FileState {
    id: FileId,
    length: u64,
    modified: (i64, i64),
    changed: (i64, i64),
}

fn state_of(there: &Metadata) -> FileState {
    FileState {
        id: id_of(there),
        length: there.len(),
        modified: (there.mtime(), there.mtime_nsec()),
        changed: (there.ctime(), there.ctime_nsec()),
    }
}

impl FileState {
    /// How a file is now, where the system tells it. A device or a pipe has no such state.
    pub(crate) fn of(file: &File) -> Option<FileState> {
        match file.metadata() {
            Ok(there) if there.is_file() => Some(state_of(&there)),
            _ => None,
        }
    }

    /// Whether a file is seen to be another than it was.
    pub(crate) fn has_changed(before: Option<FileState>, file: &File) -> bool {
        match (before, FileState::of(file)) {
            (Some(before), Some(now)) => before != now,
            _ => false,
        }
    }

    /// How many bytes the file has.
    pub(crate) fn length(&self) -> u64 {
        self.length
    }
}
