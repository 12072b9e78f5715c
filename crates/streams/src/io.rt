//! What a reader and a writer are.
ghost use Rattle.std.specs.Prelude.{◌≡◌, ◌<◌, ◌≤◌, ◌+◌, ℕ, List, Option, Bool, true, false, length};
ghost use Rattle.std.specs.Prelude.{IfOk, OnOk, OnErr};
ghost use Rattle.std.specs.Io.KnownBytes.{ReadConsumes, WriteAppends};

/// A read or a write that failed. It moved no byte.
#[derive(Debug, Clone, Copy, PartialEq, Eq)]
pub struct Failed;

/// A source of bytes that ends.
pub trait Read {
    /// The bytes that reads will give from here on, where they are told.
    ghost remaining: { Self → Option (List ℕ) };

    /// At most so many bytes are left, so that no reader is endless.
    ghost left: { Self → ℕ };

    /// Whether a call has failed. From then on each does.
    ghost failed: { Self → Bool };

    /// Whether no call can fail. That never changes.
    ghost sound: { Self → Bool };

    /// Reads into the front of `buf`, and answers how many bytes. Zero for a `buf` that isn't empty
    /// is the end. `Failed` never comes from a sound reader; from then on each call fails.
    fn read(&mut self, buf: &mut [u8]) -> Result<usize, Failed>
        ensures bound { IfOk result (λ n. n ≤ length buf.old) }
        ensures bytes { ReadConsumes (remaining self.old) (remaining self.new) result buf.new }
        ensures falls { IfOk result (λ n. left self.new + n ≤ left self.old) }
        ensures fails { OnErr result (failed self.new ≡ true) }
        ensures works { OnOk result ((failed self.old ≡ false) × (failed self.new ≡ false)) }
        ensures unsound { OnErr result (sound self.old ≡ false) }
        ensures stays { sound self.new ≡ sound self.old };
}

/// A sink of bytes.
pub trait Write {
    /// The bytes that were written, where they are told.
    ghost contents: { Self → Option (List ℕ) };

    /// Whether a call has failed. From then on each does.
    ghost failed: { Self → Bool };

    /// So many bytes more are taken for sure, before a call fails.
    ghost room: { Self → ℕ };

    /// Writes a front part of `bytes`, and answers how many: at least one, unless `bytes` is empty.
    /// `Failed` comes only where there is no room that is sure; from then on each call fails.
    fn write(&mut self, bytes: &[u8]) -> Result<usize, Failed>
        ensures bound { IfOk result (λ n. n ≤ length bytes.now) }
        ensures some { IfOk result (λ n. 0 < length bytes.now → 0 < n) }
        ensures bytes { WriteAppends (contents self.old) (contents self.new) result bytes.now }
        ensures fails { OnErr result (failed self.new ≡ true) }
        ensures works { OnOk result ((failed self.old ≡ false) × (failed self.new ≡ false)) }
        ensures full { OnErr result (room self.old ≡ 0) }
        ensures fills { IfOk result (λ n. room self.old ≤ room self.new + n) };
}
