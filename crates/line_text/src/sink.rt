//! Devices that bytes are written to.
ghost use Rattle.std.specs.Prelude.{◌≡◌, ◌≤◌, ◌<◌, length, List, ℕ, take, OnErr, OnOk, IfOk, true, false};
ghost use Rattle.std.specs.Io.{WritesAtMost};
ghost use Rattle.std.specs.Io.KnownBytes.{Appends, WriteAppends};

use crate::source::Failed;

/// A device that bytes are written to.
pub trait Sink {
    ghost use Rattle.std.specs.Prelude.{◌≡◌, ◌<◌, length, ℕ, Bool, true, false, List, Option, OnErr, OnOk, IfOk};

    // The bytes that it has taken, if they are known.
    ghost contents: { Self → Option (List ℕ) };

    // Whether the device has failed.
    ghost has_failed: { Self → Bool };

    /// Takes bytes from the front, and returns how many: at least one, unless `bytes` is empty.
    fn write(&mut self, bytes: &[u8]) -> Result<usize, Failed>
        ensures bound { WritesAtMost result bytes.now }
        ensures bytes { WriteAppends (contents self.old) (contents self.new) result bytes.now }
        ensures some { IfOk result (λ n. 0 < length bytes.now → 0 < n) }
        ensures works { OnOk result ((has_failed self.old ≡ false)
            × (has_failed self.new ≡ false)) }
        ensures fails { OnErr result (has_failed self.new ≡ true) };
}

/// Writes all of the bytes. If the sink fails, it has taken a beginning of them.
pub fn write_all<K: Sink>(sink: &mut K, bytes: &[u8]) -> Result<(), Failed>
    ensures ok { OnOk result (Appends (K.contents sink.old) (K.contents sink.new) bytes.now) }
    ensures works { OnOk result (K.has_failed sink.new ≡ K.has_failed sink.old) }
    ensures err { OnErr result ((n : ℕ) × (n ≤ length bytes.now)
        × Appends (K.contents sink.old) (K.contents sink.new) (take n bytes.now)) }
    ensures fails { OnErr result (K.has_failed sink.new ≡ true) }
{
    let mut rest = bytes;
    while !rest.is_empty() {
        let count = sink.write(rest)?;
        rest = &rest[count..];
    }
    Ok(())
}
