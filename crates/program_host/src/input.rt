//! The program's input files.
ghost use Rattle.std.specs.Prelude.{None, false};

use crate::failures::Noted;
use crate::state::FileState;
use progress::Counted;
use session::{Device, Failed, Read};
use std::io::BufReader;
use std::time::Clock;
use streams::ReadAt;

/// A file that is read, from the front on through a buffer, or at any offset.
#[derive(Drop)]
pub struct HostInput<'a, R> {
    device: Device<BufReader<Noted<'a, Counted<'a, R>>>>,
    /// How the file was when it was opened, where that is known.
    opened: Option<FileState>,
}

impl<'a, R: Clock + Eprint> HostInput<'a, R> {
    /// A file of which nothing was read, and how it is.
    pub(crate) fn new(
        reader: BufReader<Noted<'a, Counted<'a, R>>>,
        opened: Option<FileState>,
    ) -> HostInput<'a, R> {
        HostInput {
            device: Device::new(reader),
            opened,
        }
    }

    /// How many bytes the file has, where that is known. A file of the system's own, whose bytes
    /// are made as they are read, calls itself empty.
    pub(crate) fn length(&self) -> Option<u64> {
        match self.opened {
            Some(opened) if opened.length() > 0 => Some(opened.length()),
            _ => None,
        }
    }

    /// Whether the file is as it was when it was opened, as far as that can be seen.
    pub(crate) fn is_unchanged(&self) -> bool {
        let noted = self.device.get_ref().get_ref();
        !FileState::has_changed(self.opened, noted.inner().file())
    }
}

impl<R: Clock + Eprint> Read for HostInput<'_, R> {
    ghost remaining = { λ _. None };

    ghost left = { λ input. input.device.left };

    ghost failed = { λ input. input.device.failed };

    ghost sound = { λ _. false };

    fn read(&mut self, buf: &mut [u8]) -> Result<usize, Failed> {
        self.device.read(buf)
    }
}

impl<R: Clock + Eprint> ReadAt for HostInput<'_, R> {
    // What another program writes to the file meanwhile is read, too, so that nothing is told.
    ghost content = { λ _. None };

    ghost reliable = { λ _. false };

    fn read_at(&self, offset: u64, buf: &mut [u8]) -> Result<usize, Failed> {
        let noted = self.device.get_ref().get_ref();
        match noted.see(noted.inner().read_at(offset, buf)) {
            Ok(n) if offset.checked_add(n as u64).is_some() => Ok(n),
            _ => Err(Failed),
        }
    }
}
