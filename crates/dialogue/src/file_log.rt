//! A log over a file.
ghost use Rattle.std.specs.Prelude.{◌≡◌, take, IfOk, OnErr, false};
ghost use Rattle.std.specs.Io.{WritesAtMost};
ghost use Rattle.std.specs.Io.KnownBytes.{Appends, Keeps};

use crate::log::Log;
use line_text::{Failed, Sink, write_all};
use std::fs::OpenFile;
use std::io::{ErrorKind, Write};

/// The largest number of tries of a call that is interrupted.
const MAX_TRIES: u32 = 1_000_000;

/// A file that is written to. From the first failure on it returns [`Failed`].
#[derive(Drop)]
struct Appended<F: Write + Drop> {
    file: F,
    failed: bool,
}

/// One write, made again if it is interrupted.
fn write_once<W: Write>(writer: &mut W, bytes: &[u8]) -> Result<usize, Failed>
    ensures bound { WritesAtMost result bytes.now }
    ensures ok { IfOk result (λ n. Appends (W.contents writer.old) (W.contents writer.new)
        (take n bytes.now)) }
    ensures err { OnErr result (Keeps (W.contents writer.old) (W.contents writer.new)) }
{
    for _ in 0..MAX_TRIES {
        match writer.write(bytes) {
            Ok(count) => return Ok(count),
            Err(e) => {
                if e.kind() != ErrorKind::Interrupted {
                    return Err(Failed);
                }
            }
        }
    }
    Err(Failed)
}

impl<F: Write + Drop> Sink for Appended<F> {
    ghost contents = { λ s. F.contents s.file };

    ghost has_failed = { λ s. s.failed };

    fn write(&mut self, bytes: &[u8]) -> Result<usize, Failed> {
        if self.failed {
            return Err(Failed);
        }
        match write_once(&mut self.file, bytes) {
            Ok(count) if count > 0 || bytes.is_empty() => Ok(count),
            _ => {
                self.failed = true;
                Err(Failed)
            }
        }
    }
}

/// A log over a file that is open for appending. Bytes are kept once they are flushed to the
/// device.
#[derive(Drop)]
pub struct FileLog<F: Write + OpenFile + Drop> {
    appended: Appended<F>,
}

impl<F: Write + OpenFile + Drop> FileLog<F> {
    /// A log over that file.
    pub fn new(file: F) -> Self
        ensures { ⟦<FileLog<F> as Log>⟧.kept result ≡ F.contents file }
    {
        FileLog {
            appended: Appended {
                file,
                failed: false,
            },
        }
    }
}

impl<F: Write + OpenFile + Drop> Log for FileLog<F> {
    ghost kept = { λ l. F.contents l.appended.file };

    ghost has_failed = { λ l. l.appended.failed };

    fn keep(&mut self, bytes: &[u8]) -> Result<(), Failed> {
        write_all(&mut self.appended, bytes)?;
        if self.appended.file.sync_data().is_err() {
            self.appended.failed = true;
            return Err(Failed);
        }
        Ok(())
    }
}
