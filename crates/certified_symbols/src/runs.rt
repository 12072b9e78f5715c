//! How the repair symbols that are asked for follow one another. It tells what is worth making, and
//! no answer hangs on it.
ghost use Rattle.std.specs.Prelude.{◌≡◌, ◌≤◌, ◌↔◌, IsTrue};

/// So many runs that were left early, one behind the other, tell that blocks come again and again.
const SHORT_RUNS: usize = 2;

/// A run is made of the symbols of one block. It is short where no more than half of the block's
/// repair symbols came.
#[derive(Clone, Copy)]
pub(crate) struct Runs {
    block: u32,
    // Of the run that goes on.
    length: usize,
    // How many runs before it were short, since one wasn't.
    short: usize,
}

impl Runs {
    /// No symbol was asked for yet.
    pub(crate) fn new() -> Runs
        ensures { result.short ≡ 0 }
    {
        Runs {
            block: 0,
            length: 0,
            short: 0,
        }
    }

    /// Takes note of a repair symbol of a block that has `count` of them.
    pub(crate) fn take(&mut self, block: u32, count: usize)
        ensures { self.new.block ≡ block }
    {
        if block == self.block {
            self.length = self.length.saturating_add(1);
            return;
        }
        if self.length <= count / 2 {
            self.short = self.short.saturating_add(1);
        } else {
            self.short = 0;
        }
        self.block = block;
        self.length = 1;
    }

    /// Whether the last runs were short.
    pub(crate) fn are_short(&self) -> bool
        ensures { IsTrue result ↔ (2 ≤ self.now.short) }
    {
        self.short >= SHORT_RUNS
    }
}
