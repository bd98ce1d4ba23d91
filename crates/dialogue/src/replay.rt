//! A dialogue over a source alone.
ghost use Rattle.std.specs.Prelude.{◌≡◌};

use crate::dialogue::{Dialogue, FailedDevice};
use line_text::Source;

/// A dialogue over a source alone: what it reads is kept already, and what is written to it is
/// dropped.
#[derive(Drop)]
pub struct Replay<R: Source + Drop> {
    reader: R,
}

impl<R: Source + Drop> Replay<R> {
    /// A dialogue over that source.
    pub fn new(reader: R) -> Self
        ensures { (⟦<Replay<R> as Dialogue>⟧.view result).remaining ≡ R.remaining reader }
    {
        Replay { reader }
    }
}

impl<R: Source + Drop> Dialogue for Replay<R> {
    ghost use Rattle.std.specs.Prelude.{None, false};

    ghost view = { λ replay. record {
      remaining = R.remaining replay.reader;
      has_log = false;
      log = None;
      output = None;
      history = None;
      has_failed = λ fault. R.has_failed replay.reader;
    } };

    fn read(&mut self, buffer: &mut [u8]) -> Result<usize, FailedDevice> {
        match self.reader.read(buffer) {
            Ok(count) => Ok(count),
            Err(_) => Err(FailedDevice::Input),
        }
    }

    fn write(&mut self, _bytes: &[u8]) -> Result<(), FailedDevice> {
        Ok(())
    }
}
