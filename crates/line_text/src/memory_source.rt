//! A source over bytes in memory.
ghost use Rattle.std.specs.Prelude.{◌≡◌, ◌^◌, Some, false};

use crate::source::{Failed, Source};

/// A source over bytes in memory.
#[derive(Drop)]
pub struct MemorySource<'a> {
    bytes: &'a [u8],
    reads: u64,
}

impl<'a> MemorySource<'a> {
    /// A source that gives these bytes.
    pub fn new(bytes: &'a [u8]) -> Self
        ensures bytes { ⟦<MemorySource<'static> as Source>⟧.remaining result ≡ Some bytes.now }
        ensures works { ⟦<MemorySource<'static> as Source>⟧.has_failed result ≡ false }
        ensures reads { ⟦<MemorySource<'static> as Source>⟧.reads_left result ≡ 2 ^ 32 }
    {
        MemorySource {
            bytes,
            reads: 1 << 32,
        }
    }
}

impl Source for MemorySource<'_> {
    ghost use Rattle.std.specs.Prelude.{Some, ◌==◌};
    ghost use Rattle.std.proofs.Common.{eq-eqb};

    ghost remaining = { λ s. Some s.bytes.now };

    ghost has_failed = { λ s. s.reads == 0 };

    ghost reads_left = { λ s. s.reads };

    ghost spent = { λ s none. eq-eqb s.reads 0 none };

    fn read(&mut self, buffer: &mut [u8]) -> Result<usize, Failed> {
        self.reads = self.reads.saturating_sub(1);
        if self.reads == 0 {
            return Err(Failed);
        }
        let count = self.bytes.len().min(buffer.len());
        let (front, rest) = self.bytes.split_at(count);
        buffer[..count].copy_from_slice(front);
        self.bytes = rest;
        Ok(count)
    }
}
