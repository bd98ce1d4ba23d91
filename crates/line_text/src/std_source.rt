//! A source over a reader of the standard library.
ghost use Rattle.std.specs.Prelude.{◌≡◌, ◌^◌, ◌-◌, ◌<◌, length, take, IfOk, OnErr, false};
ghost use Rattle.std.specs.Io.{ReadsAtMost};
ghost use Rattle.std.specs.Io.KnownBytes.{Consumes, IsAtEnd, Keeps};

use crate::source::{Failed, Source};
use std::io::{ErrorKind, Read};

/// The largest number of tries of a call that is interrupted.
const MAX_TRIES: u32 = 1_000_000;

/// A source over a reader of the standard library. An interrupted call is made again. From the
/// reader's first failure on it returns [`Failed`], as [`Source`] requires, whatever the reader
/// would still give.
#[derive(Drop)]
pub struct StdSource<R: Read + Drop> {
    reader: R,
    failed: bool,
    reads: u64,
}

impl<R: Read + Drop> StdSource<R> {
    /// A source of the bytes that are left in the reader.
    pub fn new(reader: R) -> Self
        ensures bytes { ⟦<StdSource<R> as Source>⟧.remaining result ≡ R.remaining reader }
        ensures works { ⟦<StdSource<R> as Source>⟧.has_failed result ≡ false }
        ensures reads { ⟦<StdSource<R> as Source>⟧.reads_left result ≡ 2 ^ 32 }
    {
        StdSource {
            reader,
            failed: false,
            reads: 1 << 32,
        }
    }

    /// A source of the bytes that are left in the reader, for a service that lives for months: it
    /// can be read 2^64 - 1 times.
    pub fn with_most_reads(reader: R) -> Self
        ensures bytes { ⟦<StdSource<R> as Source>⟧.remaining result ≡ R.remaining reader }
        ensures works { ⟦<StdSource<R> as Source>⟧.has_failed result ≡ false }
        ensures reads { ⟦<StdSource<R> as Source>⟧.reads_left result ≡ 2 ^ 64 - 1 }
    {
        StdSource {
            reader,
            failed: false,
            reads: u64::MAX,
        }
    }
}

/// One read, made again if it is interrupted.
fn read_once<R: Read>(reader: &mut R, buffer: &mut [u8]) -> Result<usize, Failed>
    ensures bound { ReadsAtMost result buffer.new }
    ensures ok { IfOk result (λ n. Consumes (R.remaining reader.old) (R.remaining reader.new)
        (take n buffer.new)) }
    ensures end { IfOk result (λ n. n ≡ 0 → 0 < length buffer.old →
        IsAtEnd (R.remaining reader.new)) }
    ensures err { OnErr result (Keeps (R.remaining reader.old) (R.remaining reader.new)) }
{
    for _ in 0..MAX_TRIES {
        match reader.read(buffer) {
            Ok(count) => return Ok(count),
            Err(e) => {
                if e.kind() != ErrorKind::Interrupted {
                    return Err(Failed);
                }
            }
        }
    }
    Err(Failed)
}

impl<R: Read + Drop> Source for StdSource<R> {
    ghost use Rattle.std.specs.Prelude.{◌==◌, ◌||◌, true, false};
    ghost use Rattle.line_text.specs.Device.{or_true};

    ghost remaining = { λ s. R.remaining s.reader };

    ghost has_failed = { λ s. s.failed || s.reads == 0 };

    ghost reads_left = { λ s. s.reads };

    ghost spent = { λ s none. or_true s.failed s.reads none };

    fn read(&mut self, buffer: &mut [u8]) -> Result<usize, Failed> {
        self.reads = self.reads.saturating_sub(1);
        if self.failed || self.reads == 0 {
            return Err(Failed);
        }
        let answer = read_once(&mut self.reader, buffer);
        if answer.is_err() {
            self.failed = true;
        }
        answer
    }
}
