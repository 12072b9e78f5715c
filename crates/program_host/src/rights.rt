//! Who may read, write and run an output.
use std::fs::{File, Metadata, Permissions};
use std::os::unix::fs::{MetadataExt, PermissionsExt, fchown};

/// What a file's owner, its group and others may do. The bits beyond are no rights: whose bytes an
/// output has mustn't decide as whom it runs.
const RIGHTS: u32 = 0o777;

/// Whom an output belongs to once it is whole, and what each may do.
#[derive(Clone, Copy)]
pub(crate) struct Rights {
    mode: u32,
    /// The owner and the group of the file that it replaces, where it replaces one.
    holders: Option<(u32, u32)>,
}

impl Rights {
    /// Those that the system gave to a new file.
    pub(crate) fn of_new(file: &File) -> Rights {
        Rights {
            mode: file.metadata().map_or(0o600, |made| made.mode() & RIGHTS),
            holders: None,
        }
    }

    /// Those of a file that is replaced.
    pub(crate) fn of_replaced(there: &Metadata) -> Rights {
        Rights {
            mode: there.mode() & RIGHTS,
            holders: Some((there.uid(), there.gid())),
        }
    }

    /// Gives them to a file, as far as this user may. Where the group can't be the one that it was,
    /// its members may be any users. So group and others then get what both had, and nobody more
    /// than he had before. The mode comes last, as a change of owner takes bits from it.
    pub(crate) fn give(&self, file: &File) {
        let mode = match self.holders {
            Some((owner, group)) if !hand_over(file, owner, group) => without_group(self.mode),
            _ => self.mode,
        };
        let _ = file.set_permissions(Permissions::from_mode(mode));
    }
}

// Gives a file to this group and owner; whether it has that group. Each by itself, as others than
// root may give a file to a group that they are in, and to no other owner.
fn hand_over(file: &File, owner: u32, group: u32) -> bool {
    let _ = fchown(file, None, Some(group));
    let _ = fchown(file, Some(owner), None);
    match file.metadata() {
        Ok(now) => now.gid() == group,
        Err(_) => false,
    }
}

// The rights where group and others each have what both had.
fn without_group(mode: u32) -> u32 {
    let both = mode & (mode >> 3) & 0o7;
    (mode & 0o700) | (both << 3) | both
}
