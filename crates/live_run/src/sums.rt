//! Sums of what came before, in a log.
ghost use Rattle.std.specs.Prelude.{◌≡◌, ◌≢◌, ◌+◌, ◌<◌, ◌^◌, ◌++◌, [], IfErr, IfOk, IfSome};
ghost use Rattle.std.specs.List.{list_all};
ghost use Rattle.live_run.specs.Prelude.{ahead_of, line_of, IsKept, kept_lines};
ghost use Rattle.live_run.specs.Sums.{ChecksLog, TakesNext, added_line, are_numbers, differs, first_differing, is_digit, is_number, no_lines, says_sum, sum_after, sum_line, sum_of, with_line};

use crate::differing::LogDifference;
use crate::outcome::Outcome;
use dialogue::{Dialogue, Replay};
use itoa::Buffer;
use line_feed::LineFeed;
use line_text::{MemorySink, ReadError, Source, is_word, write_slices};
use std::alloc::{AllocError, Global};
use tagged_lines::split_tag;

/// The sum of no bytes, and what it is multiplied by for each byte (FNV-1a).
const SUM_BEGINS: u64 = 0xcbf2_9ce4_8422_2325;

const SUM_TIMES: u64 = 0x0000_0100_0000_01b3;

/// What the lines of a log come to.
#[derive(Clone, Copy)]
pub(crate) struct LogSum {
    /// The number of lines.
    count: u64,
    /// The FNV-1a sum of their bytes, each line with its LF. Of a line the first 1,048,640 bytes
    /// count.
    sum: u64,
    /// Whether the last of them says a sum.
    is_said: bool,
}

impl LogSum {
    /// Without lines.
    fn none() -> Self
        ensures { result ≡ no_lines }
    {
        LogSum {
            count: 0,
            sum: SUM_BEGINS,
            is_said: false,
        }
    }

    /// The line that says how many lines these are, and which sum.
    fn line(&self, alloc: Global) -> Result<Vec<u8>, AllocError>
        ensures { IfOk result (λ line. line.items ≡ sum_line self.now) }
    {
        let (mut counts, mut sums) = (Buffer::new(), Buffer::new());
        let count = counts.format(self.count).as_bytes();
        let sum = sums.format(self.sum).as_bytes();
        let mut line = MemorySink::new(alloc);
        match write_slices(&mut line, &[b"# sum ", count, b" ", sum]) {
            Ok(()) => Ok(line.into_bytes()),
            Err(_) => Err(AllocError),
        }
    }

    /// Whether the next line says another sum.
    fn differs(&self, alloc: Global, line: &[u8]) -> Result<bool, AllocError>
        ensures { IfOk result (λ is_other. is_other ≡ differs self.now line.now) }
    {
        if !says_sum(line) {
            return Ok(false);
        }
        let own = self.line(alloc)?;
        Ok(own.as_slice() != line)
    }

    /// With one more line.
    fn with_line(&self, line: &[u8]) -> Self
        requires { self.now.count + 1 < 2 ^ 64 }
        ensures { result ≡ with_line self.now line.now }
    {
        LogSum {
            count: self.count + 1,
            sum: sum_after(sum_after(self.sum, line), b"\n"),
            is_said: says_sum(line),
        }
    }

    /// With one more line, unless it says another sum.
    fn next(&self, alloc: Global, line: &[u8]) -> Result<Self, Outcome>
        ensures takes { TakesNext self.now line.now result }
        ensures none { IfErr result (λ outcome. outcome ≢ Outcome.Done) }
    {
        if self.count == u64::MAX {
            return Err(Outcome::LogUnreadable);
        }
        match self.differs(alloc, line) {
            Ok(true) => Err(Outcome::LogDiffers(LogDifference::Changed(self.count + 1))),
            Ok(false) => Ok(self.with_line(line)),
            Err(_) => Err(Outcome::NoMemory),
        }
    }

    /// What a start adds to a log with these lines: the first line, if it has none; or the line
    /// that says their sum, unless the first is the only one or the last says a sum.
    pub(crate) fn added_line(&self, alloc: Global, first_line: &[u8]) -> Result<Vec<u8>, AllocError>
        ensures { IfOk result (λ line. line.items ≡ added_line first_line.now self.now) }
    {
        if self.count == 0 {
            return Vec::from_slice(alloc, first_line);
        }
        if self.count == 1 || self.is_said {
            return Ok(Vec::new(alloc));
        }
        let mut line = self.line(alloc)?;
        line.push(b'\n')?;
        Ok(line)
    }
}

/// The number of the first line of a log that says another sum than that of the lines before it.
///
/// # Errors
/// That the log can't be read, or that memory ran out.
pub fn changed_line<P: Source + Drop>(alloc: Global, log: P) -> Result<Option<u64>, ReadError>
    ensures { IfOk result (λ number. IfSome (P.remaining log)
        (λ bytes. number ≡ first_differing no_lines (kept_lines bytes))) }
{
    match check_sums(alloc, log) {
        Ok(_) => Ok(None),
        Err(Outcome::LogDiffers(LogDifference::Changed(number))) => Ok(Some(number)),
        Err(Outcome::NoMemory) => Err(ReadError::NoMemory),
        Err(_) => Err(ReadError::Failed),
    }
}

/// What the lines of a log come to.
///
/// # Errors
/// The number of the first line that says another sum than that of the lines before it; or that the
/// log can't be read, or that memory ran out.
pub(crate) fn check_sums<P: Source + Drop>(alloc: Global, log: P) -> Result<LogSum, Outcome>
    ensures checks { ChecksLog (P.remaining log) result }
    ensures none { IfErr result (λ outcome. outcome ≢ Outcome.Done) }
{
    let mut source = Replay::new(log);
    match LineFeed::new(alloc) {
        Ok(mut feed) => check_lines(alloc, &mut feed, &mut source),
        Err(_) => Err(Outcome::NoMemory),
    }
}

/// What the lines of a source come to.
fn check_lines<S: Dialogue>(
    alloc: Global,
    feed: &mut LineFeed,
    source: &mut S,
) -> Result<LogSum, Outcome>
    requires ahead { ahead_of feed.old ≡ [] }
    requires line { IsKept (line_of feed.old) [] }
    ensures checks { ChecksLog (S.view source.old).remaining result }
    ensures none { IfErr result (λ outcome. outcome ≢ Outcome.Done) }
{
    let mut sum = LogSum::none();
    for _ in 0..u64::MAX {
        if feed.take_piece() {
            match sum.next(alloc, feed.line()) {
                Ok(next) => sum = next,
                Err(outcome) => return Err(outcome),
            }
            feed.begin_line();
            continue;
        }
        if feed.refill(source).is_err() {
            return Err(Outcome::LogUnreadable);
        }
        if feed.is_empty() {
            return Ok(sum);
        }
    }
    Err(Outcome::LogUnreadable)
}

/// Whether a line says a sum: it is `# sum ` and two numbers, one blank between them.
fn says_sum(line: &[u8]) -> bool
    ensures { result ≡ says_sum line.now }
{
    let (tag, rest) = split_tag(line);
    let (word, numbers) = split_tag(rest);
    is_word(tag, "#") && is_word(word, "sum") && are_numbers(numbers)
}

fn are_numbers(words: &[u8]) -> bool
    ensures { result ≡ are_numbers words.now }
{
    let (count, sum) = split_tag(words);
    is_number(count) && is_number(sum)
}

fn is_number(word: &[u8]) -> bool
    ensures { result ≡ is_number word.now }
{
    !word.is_empty() && are_digits(word)
}

fn are_digits(word: &[u8]) -> bool
    ensures { result ≡ list_all is_digit word.now }
{
    word.iter().all(|byte| is_digit(*byte))
}

fn is_digit(byte: u8) -> bool
    ensures { result ≡ is_digit byte }
{
    (b'0'..=b'9').contains(&byte)
}

/// The FNV-1a sum of bytes, of 64 bits.
pub(crate) fn sum_of(bytes: &[u8]) -> u64
    ensures { result ≡ sum_of bytes.now }
{
    sum_after(SUM_BEGINS, bytes)
}

/// The sum of bytes, and of those before them, which have that sum.
fn sum_after(before: u64, bytes: &[u8]) -> u64
    ensures { result ≡ sum_after before bytes.now }
{
    let mut sum = before;
    for byte in bytes {
        sum = (sum ^ u64::from(*byte)).wrapping_mul(SUM_TIMES);
    }
    sum
}
