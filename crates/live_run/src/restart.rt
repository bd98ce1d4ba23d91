//! A log that a service opens again.
ghost use Rattle.std.specs.Prelude.{◌≡◌, ◌≢◌, true, IfErr, IfOk, IfSome, take};
ghost use Rattle.live_run.specs.Restart.{EndsLeaving, EndsRestart, HasNextLine, IsLeft, IsOtherLog, IsRefusal, IsRestarted, IsSumRefusal, IsUnread, is_log, kept_length, whole_from};

use crate::differing::LogDifference;
use crate::log_file::LogFile;
use crate::outcome::Outcome;
use crate::sums::check_sums;
use crate::whole_bytes::whole_length;
use dialogue::FailedDevice;
use line_text::read_all;
use std::alloc::Global;

/// More bytes than the first line of a log has.
const MAX_FIRST: u64 = 256;

/// Makes a log with that first line of a file: a last line without its end is cut off, and a line
/// is added. A new log gets the first line, and an old one a line with the sum of its lines, unless
/// its last line is one. Returns what the file then holds.
///
/// # Errors
/// `LogDiffers` if the file is another log, or if a line says another sum than that of the lines
/// before it: then it is left as it is.
pub(crate) fn restart<L: LogFile>(
    alloc: Global,
    file: &mut L,
    first_line: &[u8],
) -> Result<L::Part, Outcome>
    ensures ok { IfOk result (λ past. IfSome (L.content file.old) (λ bytes.
        IsRestarted first_line.now bytes (L.content file.new) (L.Part.remaining past))) }
    ensures err { IfErr result (λ outcome. IfSome (L.content file.old) (λ bytes.
        EndsRestart first_line.now bytes (L.content file.new) outcome)) }
    ensures none { IfErr result (λ outcome. outcome ≢ Outcome.Done) }
{
    let whole = length_to_keep(alloc, file, first_line)?;
    let added = line_to_add(alloc, file, whole, first_line)?;
    leave(file, whole, added.as_slice())
}

/// The length of a log's whole lines, the first of which must be that line. A file that is shorter
/// must be a beginning of it, and none of it is kept.
pub(crate) fn length_to_keep<L: LogFile>(
    alloc: Global,
    file: &L,
    first_line: &[u8],
) -> Result<u64, Outcome>
    ensures ok { IfOk result (λ count. IfSome (L.content file.now) (λ bytes.
        (is_log first_line.now bytes ≡ true) × (count ≡ kept_length first_line.now bytes))) }
    ensures err { IfErr result (λ outcome. IfSome (L.content file.now) (λ bytes.
        IsRefusal first_line.now bytes outcome)) }
    ensures none { IfErr result (λ outcome. outcome ≢ Outcome.Done) }
{
    let head = first_bytes(alloc, file, first_line.len() as u64)?;
    let is_log = first_line.starts_with(head.as_slice());
    if !is_log {
        let difference = difference_of(alloc, file, first_line)?;
        return Err(Outcome::LogDiffers(difference));
    }
    whole_lines_of(alloc, file, first_line.len() as u64)
}

/// The first `most` bytes of a file, or all of them if it has fewer.
fn first_bytes<L: LogFile>(alloc: Global, file: &L, most: u64) -> Result<Vec<u8>, Outcome>
    ensures ok { IfOk result (λ head. IfSome (L.content file.now) (λ bytes.
        head.items ≡ take most bytes)) }
    ensures err { IfErr result IsUnread }
{
    match file.part(most) {
        Ok(mut part) => Ok(read_all(alloc, &mut part)?),
        Err(_) => Err(Outcome::LogUnreadable),
    }
}

/// The length of the whole lines of a file; 0 if it has fewer bytes than `least`.
fn whole_lines_of<L: LogFile>(alloc: Global, file: &L, least: u64) -> Result<u64, Outcome>
    ensures ok { IfOk result (λ count. IfSome (L.content file.now) (λ bytes.
        count ≡ whole_from least bytes)) }
    ensures err { IfErr result IsUnread }
{
    let Ok(length) = file.length() else {
        return Err(Outcome::LogUnreadable);
    };
    if length < least {
        return Ok(0);
    }
    match file.part(length) {
        Ok(mut part) => Ok(whole_length(alloc, &mut part)?),
        Err(_) => Err(Outcome::LogUnreadable),
    }
}

/// In what a file differs from a log with that first line.
fn difference_of<L: LogFile>(
    alloc: Global,
    file: &L,
    first_line: &[u8],
) -> Result<LogDifference, Outcome>
    ensures ok { IfOk result IsOtherLog }
    ensures err { IfErr result IsUnread }
{
    let head = first_bytes(alloc, file, MAX_FIRST)?;
    Ok(LogDifference::of(first_line, head.as_slice()))
}

/// The line that is added to a log whose whole lines have `whole` bytes. Checks the sums that they
/// say.
fn line_to_add<L: LogFile>(
    alloc: Global,
    file: &L,
    whole: u64,
    first_line: &[u8],
) -> Result<Vec<u8>, Outcome>
    ensures ok { IfOk result (λ line. IfSome (L.content file.now) (λ bytes.
        HasNextLine first_line.now (take whole bytes) line.items)) }
    ensures err { IfErr result (λ outcome. IfSome (L.content file.now) (λ bytes.
        IsSumRefusal (take whole bytes) outcome)) }
    ensures none { IfErr result (λ outcome. outcome ≢ Outcome.Done) }
{
    let Ok(part) = file.part(whole) else {
        return Err(Outcome::LogUnreadable);
    };
    let sum = check_sums(alloc, part)?;
    match sum.added_line(alloc, first_line) {
        Ok(line) => Ok(line),
        Err(_) => Err(Outcome::NoMemory),
    }
}

/// Leaves the first `whole` bytes of a file, with `added` behind them. Returns what it then holds.
fn leave<L: LogFile>(file: &mut L, whole: u64, added: &[u8]) -> Result<L::Part, Outcome>
    ensures ok { IfOk result (λ past. IfSome (L.content file.old) (λ bytes.
        IsLeft whole added.now bytes (L.content file.new) (L.Part.remaining past))) }
    ensures err { IfErr result (λ outcome. IfSome (L.content file.old) (λ bytes.
        EndsLeaving whole added.now bytes (L.content file.new) outcome)) }
    ensures none { IfErr result (λ outcome. outcome ≢ Outcome.Done) }
{
    let Some(end) = whole.checked_add(added.len() as u64) else {
        return Err(Outcome::LogUnreadable);
    };
    if file.cut(whole).is_err() {
        return Err(Outcome::LogUnreadable);
    }
    if file.append(added).is_err() {
        return Err(Outcome::Stopped(FailedDevice::Log));
    }
    match file.part(end) {
        Ok(past) => Ok(past),
        Err(_) => Err(Outcome::LogUnreadable),
    }
}
