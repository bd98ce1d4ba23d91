//! A sink over a writer of the standard library.
ghost use Rattle.std.specs.Prelude.{◌≡◌, take, IfOk, OnErr, false};
ghost use Rattle.std.specs.Io.{WritesAtMost};
ghost use Rattle.std.specs.Io.KnownBytes.{Appends, Keeps};

use crate::sink::Sink;
use crate::source::Failed;
use std::io::{ErrorKind, Write};

/// The largest number of tries of a call that is interrupted.
const MAX_TRIES: u32 = 1_000_000;

/// A sink over a writer of the standard library. An interrupted call is made again. From the
/// writer's first failure on it returns [`Failed`], as [`Sink`] requires, whatever the writer would
/// still take; a write of some bytes that takes 0 of them counts as a failure.
#[derive(Drop)]
pub struct StdSink<W: Write + Drop> {
    writer: W,
    failed: bool,
}

impl<W: Write + Drop> StdSink<W> {
    /// A sink whose contents are the writer's.
    pub fn new(writer: W) -> Self
        ensures bytes { ⟦<StdSink<W> as Sink>⟧.contents result ≡ W.contents writer }
        ensures works { ⟦<StdSink<W> as Sink>⟧.has_failed result ≡ false }
    {
        StdSink {
            writer,
            failed: false,
        }
    }

    /// The writer, which may have bytes to flush.
    pub fn into_writer(self) -> W
        ensures { W.contents result ≡ ⟦<StdSink<W> as Sink>⟧.contents self }
    {
        let StdSink { writer, failed: _ } = self;
        writer
    }
}

/// One write, made again if it is interrupted.
fn write_once<W: Write>(writer: &mut W, bytes: &[u8]) -> Result<usize, Failed>
    ensures bound { WritesAtMost result bytes.now }
    ensures ok { IfOk result (λ n. Appends (W.contents writer.old) (W.contents writer.new)
        (take n bytes.now)) }
    ensures err { OnErr result (Keeps (W.contents writer.old) (W.contents writer.new)) }
{
    for _ in 0..MAX_TRIES {
        match writer.write(bytes) {
            Ok(count) => return Ok(count),
            Err(e) => {
                if e.kind() != ErrorKind::Interrupted {
                    return Err(Failed);
                }
            }
        }
    }
    Err(Failed)
}

impl<W: Write + Drop> Sink for StdSink<W> {
    ghost contents = { λ s. W.contents s.writer };

    ghost has_failed = { λ s. s.failed };

    fn write(&mut self, bytes: &[u8]) -> Result<usize, Failed> {
        if self.failed {
            return Err(Failed);
        }
        match write_once(&mut self.writer, bytes) {
            Ok(count) if count > 0 || bytes.is_empty() => Ok(count),
            _ => {
                self.failed = true;
                Err(Failed)
            }
        }
    }
}
