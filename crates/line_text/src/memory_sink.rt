//! A sink that keeps the bytes.
ghost use Rattle.std.specs.Prelude.{◌≡◌, Some, [], false};

use crate::sink::Sink;
use crate::source::Failed;
use std::alloc::Global;

/// A sink that keeps the bytes. It fails if memory runs out.
#[derive(Drop)]
pub struct MemorySink {
    bytes: Vec<u8>,
    failed: bool,
}

impl MemorySink {
    /// An empty sink.
    pub fn new(alloc: Global) -> Self
        ensures bytes { ⟦<MemorySink as Sink>⟧.contents result ≡ Some [] }
        ensures works { ⟦<MemorySink as Sink>⟧.has_failed result ≡ false }
    {
        MemorySink {
            bytes: Vec::new(alloc),
            failed: false,
        }
    }

    /// The bytes that were written.
    pub fn as_bytes(&self) -> &[u8]
        ensures { ⟦<MemorySink as Sink>⟧.contents self.now ≡ Some result.now }
    {
        self.bytes.as_slice()
    }

    /// The bytes that were written, taken out of the sink.
    pub fn into_bytes(self) -> Vec<u8>
        ensures { ⟦<MemorySink as Sink>⟧.contents self ≡ Some result.items }
    {
        let MemorySink { bytes, failed: _ } = self;
        bytes
    }
}

impl Sink for MemorySink {
    ghost use Rattle.std.specs.Prelude.{Some};

    ghost contents = { λ s. Some s.bytes.items };

    ghost has_failed = { λ s. s.failed };

    fn write(&mut self, bytes: &[u8]) -> Result<usize, Failed> {
        if self.failed || self.bytes.extend_from_slice(bytes).is_err() {
            self.failed = true;
            return Err(Failed);
        }
        Ok(bytes.len())
    }
}
