//! A log that another service still writes.
ghost use Rattle.std.specs.Prelude.{◌≡◌};
ghost use Rattle.std.specs.Io.{ReadsAtMost};

use crate::log_lock::LockLog;
use crate::outcome::Outcome;
use line_text::{Failed, Source, StdSource};
use std::fs::OpenFile;
use std::io::{Read, Write};
use std::sync::Wait;
use std::thread::Parker;
use std::time::Duration;

/// How long a follower waits before it looks again for more of its log, in milliseconds.
const PAUSE: u64 = 20;

/// The bytes of a log that another service still writes. They end when that service has ended,
/// however it ended: then this one has locked the file, and has cut off a last line without its
/// end.
#[derive(Drop)]
pub(crate) struct FollowedFile<'h, R: Wait, F: Read + Write + OpenFile + LockLog + Drop> {
    rt: &'h R,
    source: StdSource<F>,
    /// The handle by which the file is locked and cut.
    log: F,
    pauses: Parker,
    is_locked: bool,
    /// The number of bytes that were read.
    length: u64,
    /// The number of those up to the last LF, with it.
    whole: u64,
}

impl<'h, R: Wait, F: Read + Write + OpenFile + LockLog + Drop> FollowedFile<'h, R, F> {
    /// The bytes of a file, from its beginning on, and the handle that is to lock it.
    pub(crate) fn new(rt: &'h R, file: F, log: F) -> Self {
        FollowedFile {
            rt,
            source: StdSource::new(file),
            log,
            pauses: Parker::new(),
            is_locked: false,
            length: 0,
            whole: 0,
        }
    }

    /// Reads what comes next, and waits for it as long as another service has locked the file. The
    /// buffer must not be empty.
    pub(crate) fn read_next(&mut self, buffer: &mut [u8]) -> Result<usize, Failed>
        ensures { ReadsAtMost result buffer.new }
    {
        for _ in self.rt.forever() {
            // Once the file is locked nobody else writes it, so what is read then is all.
            let was_locked = self.is_locked;
            let count = self.source.read(buffer)?;
            if count > 0 {
                self.note(&buffer[..count]);
                return Ok(count);
            }
            if was_locked {
                self.cut()?;
                return Ok(0);
            }
            self.lock_or_wait()?;
        }
        unreachable!()
    }

    /// Counts bytes that were read.
    fn note(&mut self, bytes: &[u8]) {
        let before = self.length;
        self.length = before.saturating_add(bytes.len() as u64);
        if let Some(place) = bytes.iter().rposition(|byte| *byte == b'\n') {
            self.whole = before.saturating_add(place as u64).saturating_add(1);
        }
    }

    /// Locks the file, or waits a moment if another service has locked it. Fails if the file is
    /// shorter than what was read of it: that is not its beginning any more.
    fn lock_or_wait(&mut self) -> Result<(), Failed> {
        match self.log.metadata() {
            Ok(metadata) if metadata.len() >= self.length => {}
            _ => return Err(Failed),
        }
        match self.log.lock_log() {
            Ok(()) => {
                self.is_locked = true;
                Ok(())
            }
            Err(Outcome::LogInUse) => {
                let pause = Duration::from_millis(PAUSE);
                self.pauses.park_timeout(self.rt, pause);
                Ok(())
            }
            Err(_) => Err(Failed),
        }
    }

    /// Cuts off a last line without its end.
    fn cut(&mut self) -> Result<(), Failed> {
        if self.whole < self.length && self.log.set_len(self.whole).is_err() {
            return Err(Failed);
        }
        Ok(())
    }
}
