//! A sink for text that nobody wants.
ghost use Rattle.std.specs.Prelude.{None, true, false};

use line_text::{Failed, Sink};

/// Takes all bytes, and keeps none.
#[derive(Drop)]
pub(crate) struct Silence;

impl Sink for Silence {
    ghost contents = { λ _. None };

    ghost has_failed = { λ _. false };

    fn write(&mut self, bytes: &[u8]) -> Result<usize, Failed> {
        Ok(bytes.len())
    }
}
