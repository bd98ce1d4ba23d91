//! A dialogue over a source, a sink and a log.
ghost use Rattle.std.specs.Prelude.{◌≡◌, None, Some};
ghost use Rattle.dialogue.specs.Keeping.{KeepsBytes};

use crate::dialogue::{Dialogue, FailedDevice};
use crate::log::Log;
use line_text::{Sink, Source, write_all};

/// A dialogue over a source and a sink. If it has a log, what is read is kept there.
#[derive(Drop)]
pub struct Connection<R: Source + Drop, W: Sink + Drop, L: Log + Drop> {
    reader: R,
    writer: W,
    log: Option<L>,
}

impl<R: Source + Drop, W: Sink + Drop, L: Log + Drop> Connection<R, W, L> {
    ghost use Rattle.std.specs.Prelude.{true, false};

    /// A dialogue without a log.
    pub fn new(reader: R, writer: W) -> Self
        ensures input { (⟦<Connection<R, W, L> as Dialogue>⟧.view result).remaining ≡ R.remaining reader }
        ensures output { (⟦<Connection<R, W, L> as Dialogue>⟧.view result).output ≡ W.contents writer }
        ensures log { (⟦<Connection<R, W, L> as Dialogue>⟧.view result).has_log ≡ false }
    {
        Connection {
            reader,
            writer,
            log: None,
        }
    }

    /// Keeps what is read on that log from now on.
    pub fn keep_on(&mut self, log: L)
        ensures input { (⟦<Connection<R, W, L> as Dialogue>⟧.view self.new).remaining
            ≡ (⟦<Connection<R, W, L> as Dialogue>⟧.view self.old).remaining }
        ensures output { (⟦<Connection<R, W, L> as Dialogue>⟧.view self.new).output
            ≡ (⟦<Connection<R, W, L> as Dialogue>⟧.view self.old).output }
        ensures has_log { (⟦<Connection<R, W, L> as Dialogue>⟧.view self.new).has_log ≡ true }
        ensures log { (⟦<Connection<R, W, L> as Dialogue>⟧.view self.new).log ≡ L.kept log }
    {
        drop(self.log.replace(log));
    }

    /// Ends the dialogue. Returns its output.
    pub fn into_output(self) -> W
        ensures { W.contents result ≡ (⟦<Connection<R, W, L> as Dialogue>⟧.view self).output }
    {
        let Connection {
            reader,
            writer,
            log,
        } = self;
        drop((reader, log));
        writer
    }
}

/// Keeps bytes on the log, if there is one.
fn keep_bytes<L: Log>(log: &mut Option<L>, bytes: &[u8]) -> Result<(), FailedDevice>
    ensures { KeepsBytes L.kept L.has_failed log.old log.new bytes.now result }
{
    match log {
        Some(log) => match log.keep(bytes) {
            Ok(()) => Ok(()),
            Err(_) => Err(FailedDevice::Log),
        },
        None => Ok(()),
    }
}

impl<R: Source + Drop, W: Sink + Drop, L: Log + Drop> Dialogue for Connection<R, W, L> {
    ghost use Rattle.std.specs.Prelude.{None, is_some};
    ghost use Rattle.dialogue.specs.Keeping.{failed_device, log_of};

    ghost view = { λ c. record {
      remaining = R.remaining c.reader;
      has_log = is_some c.log;
      log = log_of L.kept c.log;
      output = W.contents c.writer;
      history = None;
      has_failed = failed_device (R.has_failed c.reader) L.has_failed c.log (W.has_failed c.writer);
    } };

    fn read(&mut self, buffer: &mut [u8]) -> Result<usize, FailedDevice> {
        let Ok(count) = self.reader.read(buffer) else {
            return Err(FailedDevice::Input);
        };
        keep_bytes(&mut self.log, &buffer[..count])?;
        Ok(count)
    }

    fn write(&mut self, bytes: &[u8]) -> Result<(), FailedDevice> {
        match write_all(&mut self.writer, bytes) {
            Ok(()) => Ok(()),
            Err(_) => Err(FailedDevice::Output),
        }
    }
}
