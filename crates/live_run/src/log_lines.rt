//! What a log kept before a service uses it.
ghost use Rattle.std.specs.Io.{ReadsAtMost};

use crate::following::FollowedFile;
use crate::log_lock::LockLog;
use line_text::{Failed, Source, StdSource};
use std::fs::OpenFile;
use std::io::{Read, Take, Write};
use std::sync::Wait;

/// What a log kept before a service uses it: the whole lines of its file, or, if another service
/// still writes it, all lines that come until that one ends.
#[derive(Drop)]
pub struct LogLines<'h, R: Wait, F: Read + Write + OpenFile + LockLog + Drop> {
    device: Device<'h, R, F>,
    failed: bool,
    reads: u64,
}

/// Where the lines are read.
#[derive(Drop)]
enum Device<'h, R: Wait, F: Read + Write + OpenFile + LockLog + Drop> {
    Whole(StdSource<Take<F>>),
    Followed(FollowedFile<'h, R, F>),
}

impl<'h, R: Wait, F: Read + Write + OpenFile + LockLog + Drop> LogLines<'h, R, F> {
    /// The first bytes of a file.
    pub(crate) fn of_part(part: StdSource<Take<F>>) -> Self {
        LogLines::of_device(Device::Whole(part))
    }

    /// The bytes of a file that another service still writes, and the handle that is to lock it.
    pub(crate) fn of_file_in_use(rt: &'h R, file: F, log: F) -> Self {
        LogLines::of_device(Device::Followed(FollowedFile::new(rt, file, log)))
    }

    fn of_device(device: Device<'h, R, F>) -> Self {
        LogLines {
            device,
            failed: false,
            reads: 1 << 32,
        }
    }
}

/// Reads from a device.
fn read_device<R: Wait, F: Read + Write + OpenFile + LockLog + Drop>(
    device: &mut Device<'_, R, F>,
    buffer: &mut [u8],
) -> Result<usize, Failed>
    ensures { ReadsAtMost result buffer.new }
{
    match device {
        Device::Whole(source) => source.read(buffer),
        Device::Followed(file) => file.read_next(buffer),
    }
}

impl<R: Wait, F: Read + Write + OpenFile + LockLog + Drop> Source for LogLines<'_, R, F> {
    ghost use Rattle.std.specs.Prelude.{◌==◌, ◌||◌, None, true, false};
    ghost use Rattle.line_text.specs.Device.{or_true};

    // What a real file has is not known.
    ghost remaining = { λ l. None };

    ghost has_failed = { λ l. l.failed || l.reads == 0 };

    ghost reads_left = { λ l. l.reads };

    ghost spent = { λ l none. or_true l.failed l.reads none };

    fn read(&mut self, buffer: &mut [u8]) -> Result<usize, Failed> {
        self.reads = self.reads.saturating_sub(1);
        if self.failed || self.reads == 0 {
            return Err(Failed);
        }
        if buffer.is_empty() {
            return Ok(0);
        }
        let answer = read_device(&mut self.device, buffer);
        if answer.is_err() {
            self.failed = true;
        }
        answer
    }
}
