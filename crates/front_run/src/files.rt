//! The files between fronts and a service.
ghost use Rattle.std.specs.Prelude.{◌≡◌};

use front_lines::Requests;
use line_text::{Failed, Sink, StdSink, write_all};
use std::fs::{File, OpenOptions};
use std::io;
use std::io::{Seek, SeekFrom, Write};
use std::rt::Files;

/// A file that one front at a time may write to.
pub trait LockFile {
    /// Waits until no other has locked the file, and locks it.
    ///
    /// # Errors
    /// An error if it can't be locked.
    fn lock_file(&self) -> io::Result<()>;

    /// Unlocks the file.
    ///
    /// # Errors
    /// An error if it can't be unlocked.
    fn unlock_file(&self) -> io::Result<()>;
}

impl LockFile for File {
    fn lock_file(&self) -> io::Result<()> {
        self.lock()
    }

    fn unlock_file(&self) -> io::Result<()> {
        self.unlock()
    }
}

/// A file of requests, which several fronts may share. It is locked while lines are written: the
/// system may mix writes of more than 4,096 bytes.
#[derive(Drop)]
pub struct SharedRequests<F: Write + LockFile + Drop> {
    /// The same file, opened once more for the lock.
    lock: F,
    sink: StdSink<F>,
}

impl<F: Write + LockFile + Drop> SharedRequests<F> {
    /// Requests that are written to a file. `lock` is the same file, opened once more.
    pub fn new(lock: F, file: F) -> Self
        ensures { ⟦<SharedRequests<F> as Requests>⟧.contents result ≡ F.contents file }
    {
        SharedRequests {
            lock,
            sink: StdSink::new(file),
        }
    }
}

impl<F: Write + LockFile + Drop> Requests for SharedRequests<F> {
    ghost contents = { λ r. ⟦<StdSink<F> as Sink>⟧.contents r.sink };

    ghost has_failed = { λ r. ⟦<StdSink<F> as Sink>⟧.has_failed r.sink };

    fn hand_over(&mut self, lines: &[u8]) -> Result<(), Failed> {
        let locked = self.lock.lock_file();
        let handed = write_all(&mut self.sink, lines);
        if locked.is_ok() {
            let _ = self.lock.unlock_file();
        }
        handed
    }
}

/// Opens the file of requests for appending. It must be there.
pub(crate) fn open_requests<H: Files>(rt: &H, path: &str) -> io::Result<SharedRequests<H::File>>
where
    H::File: LockFile,
{
    let lock = OpenOptions::new().append(true).open(rt, path)?;
    let file = OpenOptions::new().append(true).open(rt, path)?;
    Ok(SharedRequests::new(lock, file))
}

/// Opens the file of replies at its end.
pub(crate) fn open_replies<H: Files>(rt: &H, path: &str) -> io::Result<H::File> {
    let mut file = File::open(rt, path)?;
    file.seek(SeekFrom::End(0))?;
    Ok(file)
}
