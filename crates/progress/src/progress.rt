//! When a line is to be told, and whether one stands there.
use std::cell::Cell;
use std::time::{Clock, Instant};

/// So many milliseconds nothing is told: most work is done by then.
const PATIENCE: u64 = 2000;

/// How many milliseconds one line is left standing.
const INTERVAL: u64 = 500;

/// What all inputs share: when a line is to be told, and whether one stands there.
#[derive(Drop)]
pub struct Progress {
    /// When the work began; none where nothing is to be told.
    beginning: Cell<Option<Instant>>,
    /// So many milliseconds later the next line is due.
    due: Cell<u64>,
    pub(crate) stands: Cell<bool>,
    /// Whether standard output is a terminal, too.
    is_shared: Cell<bool>,
}

impl Progress {
    /// Nothing is told yet.
    pub fn new() -> Progress {
        Progress {
            beginning: Cell::new(None),
            due: Cell::new(PATIENCE),
            stands: Cell::new(false),
            is_shared: Cell::new(false),
        }
    }

    /// The work begins now, and is told of inputs that are opened from now on. Where there is no
    /// clock it isn't. Standard output may share the terminal.
    pub fn begin<R: Clock>(&self, rt: &R, is_shared: bool) {
        self.is_shared.set(is_shared);
        if let Ok(now) = Instant::now(rt) {
            self.beginning.set(Some(now));
        }
    }

    /// How many milliseconds have passed, where that is known and to be told.
    pub(crate) fn passed<R: Clock>(&self, rt: &R) -> Option<u64> {
        let beginning = self.beginning.get()?;
        let Ok(now) = Instant::now(rt) else {
            return None;
        };
        u64::try_from(now.duration_since(beginning).as_millis()).ok()
    }

    /// The same where a line is due, which the next one is an interval later.
    pub(crate) fn passed_if_due<R: Clock>(&self, rt: &R) -> Option<u64> {
        let now = self.passed(rt)?;
        if now < self.due.get() {
            return None;
        }
        self.due.set(now.saturating_add(INTERVAL));
        Some(now)
    }

    /// Makes way for lines on standard output.
    pub fn make_way<R: Eprint>(&self, rt: &R) {
        if self.is_shared.get() {
            self.wipe(rt);
        }
    }

    /// Takes the line away that stands on the terminal.
    pub fn wipe<R: Eprint>(&self, rt: &R) {
        if self.stands.replace(false) {
            let _ = eprint!(rt; "\r\x1b[K");
        }
    }
}
