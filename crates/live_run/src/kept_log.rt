//! A log that is open.
ghost use Rattle.std.specs.Prelude.{◌≢◌, IfErr};

use crate::log_file::StoredLog;
use crate::log_lines::LogLines;
use crate::log_lock::LockLog;
use crate::outcome::Outcome;
use crate::restart::{length_to_keep, restart};
use crate::streams::is_stream;
use dialogue::FileLog;
use std::alloc::Global;
use std::fs::{File, OpenFile, OpenOptions};
use std::io::{self, Read, Write};
use std::rt::Files;
use std::sync::Wait;

/// A log that is open: what it kept before, and the log for what comes.
pub struct KeptLog<'h, R: Wait, F: Read + Write + OpenFile + LockLog + Drop> {
    pub past: LogLines<'h, R, F>,
    pub log: FileLog<F>,
}

/// Opens the log at that path, which begins with that line, and locks it. A last line without its
/// end is cut off. A new log gets the first line, and an old one a line with the sum of its lines,
/// unless its last line is one. If a line says another sum, the file is left as it is. If another
/// service has locked the log, it is followed, if that is wanted.
pub(crate) fn open_log<'h, H: Files + Wait + AllocGlobal>(
    rt: &'h H,
    path: &str,
    first_line: &[u8],
    follows: bool,
) -> Result<KeptLog<'h, H, H::File>, Outcome>
where
    H::File: LockLog,
    ensures { IfErr result (λ outcome. outcome ≢ Outcome.Done) }
{
    match open_locked(rt, path) {
        Ok(file) => open_own(rt.alloc(), StoredLog::new(rt, path, file), first_line),
        Err(Outcome::LogInUse) if follows => follow_log(rt, path, first_line),
        Err(outcome) => Err(outcome),
    }
}

/// Opens the log in that file, which is locked.
fn open_own<'h, H: Files + Wait + AllocGlobal>(
    alloc: Global,
    mut stored: StoredLog<'h, '_, H>,
    first_line: &[u8],
) -> Result<KeptLog<'h, H, H::File>, Outcome>
where
    H::File: LockLog,
    ensures { IfErr result (λ outcome. outcome ≢ Outcome.Done) }
{
    let past = restart(alloc, &mut stored, first_line)?;
    Ok(KeptLog {
        past: LogLines::of_part(past),
        log: FileLog::new(stored.into_file()),
    })
}

/// Opens the log that another service has locked. It must have its first line.
fn follow_log<'h, H: Files + Wait + AllocGlobal>(
    rt: &'h H,
    path: &str,
    first_line: &[u8],
) -> Result<KeptLog<'h, H, H::File>, Outcome>
where
    H::File: LockLog,
    ensures { IfErr result (λ outcome. outcome ≢ Outcome.Done) }
{
    let (Ok(file), Ok(reading)) = (open_file(rt, path), File::open(rt, path)) else {
        return Err(Outcome::LogUnreadable);
    };
    match file.metadata() {
        Ok(metadata) if is_stream(rt, &metadata) => return Err(Outcome::LogIsStream),
        Ok(_) => {}
        Err(_) => return Err(Outcome::LogUnreadable),
    }
    let stored = StoredLog::new(rt, path, file);
    if length_to_keep(rt.alloc(), &stored, first_line)? == 0 {
        return Err(Outcome::LogInUse);
    }
    let file = stored.into_file();
    match file.try_clone() {
        Ok(handle) => Ok(KeptLog {
            past: LogLines::of_file_in_use(rt, reading, handle),
            log: FileLog::new(file),
        }),
        Err(_) => Err(Outcome::LogUnreadable),
    }
}

/// Opens a file for reading and appending that is no standard stream, and locks it.
fn open_locked<H: Files>(rt: &H, path: &str) -> Result<H::File, Outcome>
where
    H::File: LockLog,
    ensures { IfErr result (λ outcome. outcome ≢ Outcome.Done) }
{
    let Ok(file) = open_file(rt, path) else {
        return Err(Outcome::LogUnreadable);
    };
    file.lock_log()?;
    match file.metadata() {
        Ok(metadata) if is_stream(rt, &metadata) => Err(Outcome::LogIsStream),
        Ok(_) => Ok(file),
        Err(_) => Err(Outcome::LogUnreadable),
    }
}

/// Opens a file for reading and appending.
fn open_file<H: Files>(rt: &H, path: &str) -> io::Result<H::File> {
    OpenOptions::new()
        .read(true)
        .append(true)
        .create(true)
        .open(rt, path)
}
