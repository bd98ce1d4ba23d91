//! An input that ends at its first line `op end`.
ghost use Rattle.std.specs.Prelude.{◌≡◌, ◌<◌, ◌≤◌, length, IfOk, IfNone, IfSome, OnErr, true, false};
ghost use Rattle.std.specs.Io.KnownBytes.{Keeps};
ghost use Rattle.ended_input.specs.UntilEnd.{Fills, Gives, IsCut, IsSeen};

use line_text::{Failed, Source};

/// The line that ends an input, with LF.
const END: &[u8] = b"op end\n";

/// A source up to its first line `op end`: that line is its end, and neither it nor what comes
/// after it is given. What may be the beginning of such a line is held back until more has come. A
/// buffer of fewer than 7 bytes fails.
#[derive(Drop)]
pub struct UntilEnd<S: Source + Drop> {
    source: S,
    /// Whether what is held back, and then what is read next, is at the beginning of a line.
    at_start: bool,
    /// What of such a line is held back.
    held: Held,
    /// Whether nothing more is given.
    is_over: bool,
    failed: bool,
    /// The number of reads left.
    reads: u64,
}

/// The first bytes of a line `op end`: how many.
#[derive(Clone, Copy)]
struct Held {
    count: usize,
    ghost short: { count < 7 },
}

/// Where bytes are cut.
#[derive(Clone, Copy)]
struct Cut {
    /// How many of them are given.
    given: usize,
    /// Whether the line `op end` comes then.
    is_over: bool,
    /// Whether what follows is at the beginning of a line.
    at_start: bool,
    /// What is held back after those that are given.
    held: Held,
}

/// What is at the beginning of bytes.
#[derive(Clone, Copy, PartialEq, Eq)]
enum Seen {
    /// The line `op end`.
    End,
    /// Only the beginning of such a line.
    Beginning,
    Other,
}

/// What is at the beginning of bytes that are at the beginning of a line, or not.
fn seen_in(start: bool, bytes: &[u8]) -> Seen
    ensures { IsSeen start bytes.now result }
{
    if !start {
        return Seen::Other;
    }
    if bytes.starts_with(END) {
        return Seen::End;
    }
    if bytes.len() < END.len() && END.starts_with(bytes) {
        return Seen::Beginning;
    }
    Seen::Other
}

/// Cuts bytes that are at the beginning of a line, or not.
fn cut_of(bytes: &[u8], at_start: bool) -> Cut
    ensures { IsCut at_start bytes.now result.given result.is_over result.at_start
        result.held.count }
{
    let mut start = at_start;
    let mut place = 0;
    while place < bytes.len() {
        let rest = &bytes[place..];
        match seen_in(start, rest) {
            Seen::End => return Cut::over(place),
            Seen::Beginning => return Cut::holding(place, rest),
            Seen::Other => {}
        }
        start = bytes[place] == b'\n';
        place += 1;
    }
    Cut {
        given: place,
        is_over: false,
        at_start: start,
        held: Held { count: 0 },
    }
}

impl Cut {
    /// So many bytes are given, and then the line comes.
    fn over(given: usize) -> Self
        ensures given { result.given ≡ given }
        ensures over { result.is_over ≡ true }
        ensures start { result.at_start ≡ true }
        ensures held { result.held.count ≡ 0 }
    {
        Cut {
            given,
            is_over: true,
            at_start: true,
            held: Held { count: 0 },
        }
    }

    /// So many bytes are given, and those after them are held back.
    fn holding(given: usize, rest: &[u8]) -> Self
        requires { length rest.now < 7 }
        ensures given { result.given ≡ given }
        ensures over { result.is_over ≡ false }
        ensures start { result.at_start ≡ true }
        ensures held { result.held.count ≡ length rest.now }
    {
        Cut {
            given,
            is_over: false,
            at_start: true,
            held: Held { count: rest.len() },
        }
    }
}

/// Puts what is held back into the buffer, and reads once after it. Returns the number of bytes
/// that were read.
fn fill<S: Source>(source: &mut S, held: Held, buffer: &mut [u8]) -> Result<usize, Failed>
    requires { 7 ≤ length buffer.old }
    ensures ok { IfOk result (λ count. Fills held.count (S.remaining source.old)
        (S.remaining source.new) count buffer.new) }
    ensures err { OnErr result (Keeps (S.remaining source.old) (S.remaining source.new)) }
{
    buffer[..held.count].copy_from_slice(&END[..held.count]);
    source.read(&mut buffer[held.count..])
}

impl<S: Source + Drop> UntilEnd<S> {
    ghost use Rattle.std.specs.Prelude.{option_map, Some};
    ghost use Rattle.ended_input.specs.Left.{input_left};
    ghost use Rattle.ended_input.specs.UntilEnd.{before_end};

    /// What is before the first line `op end` of that source, which is at the beginning of a line.
    pub fn new(source: S) -> Self
        ensures { input_left S.remaining result ≡ option_map (before_end true) (S.remaining source) }
    {
        UntilEnd {
            source,
            at_start: true,
            held: Held { count: 0 },
            is_over: false,
            failed: false,
            reads: u64::MAX,
        }
    }

    /// Reads once, and returns how many bytes are given. `None` if all that came is held back.
    fn read_once(&mut self, buffer: &mut [u8]) -> Result<Option<usize>, Failed>
        requires room { 7 ≤ length buffer.old }
        requires over { self.old.is_over ≡ false }
        ensures given { IfOk result (λ given. Gives (input_left S.remaining self.old)
            (input_left S.remaining self.new) given buffer.new) }
        ensures none { IfOk result (λ given. IfNone given (self.new.is_over ≡ false)) }
        ensures err { OnErr result (Keeps (input_left S.remaining self.old) (input_left S.remaining self.new)) }
        ensures failed { self.new.failed ≡ self.old.failed }
        ensures reads { self.new.reads ≡ self.old.reads }
    {
        let held = self.held;
        let count = fill(&mut self.source, held, buffer)?;
        if count == 0 {
            self.is_over = true;
            return Ok(Some(held.count));
        }
        let cut = cut_of(&buffer[..held.count + count], self.at_start);
        self.at_start = cut.at_start;
        self.held = cut.held;
        self.is_over = cut.is_over;
        if cut.given == 0 && !cut.is_over {
            return Ok(None);
        }
        Ok(Some(cut.given))
    }

    /// Reads until something is given, or the input is at its end.
    fn read_on(&mut self, buffer: &mut [u8]) -> Result<usize, Failed>
        requires room { 7 ≤ length buffer.old }
        requires over { self.old.is_over ≡ false }
        ensures given { IfOk result (λ given. Gives (input_left S.remaining self.old)
            (input_left S.remaining self.new) (Some given) buffer.new) }
        ensures err { OnErr result (Keeps (input_left S.remaining self.old) (input_left S.remaining self.new)) }
        ensures failed { self.new.failed ≡ self.old.failed }
        ensures reads { self.new.reads ≡ self.old.reads }
    {
        for _ in 0..=END.len() {
            match self.read_once(buffer) {
                Ok(Some(given)) => return Ok(given),
                Ok(None) => {}
                Err(_) => return Err(Failed),
            }
        }
        Err(Failed)
    }
}

impl<S: Source + Drop> Source for UntilEnd<S> {
    ghost use Rattle.std.specs.Prelude.{◌==◌, ◌||◌};
    ghost use Rattle.line_text.specs.Device.{or_true};
    ghost use Rattle.ended_input.specs.Left.{input_left};

    ghost remaining = { λ s. input_left S.remaining s };

    ghost has_failed = { λ s. s.failed || s.reads == 0 };

    ghost reads_left = { λ s. s.reads };

    ghost spent = { λ s none. or_true s.failed s.reads none };

    fn read(&mut self, buffer: &mut [u8]) -> Result<usize, Failed> {
        self.reads = self.reads.saturating_sub(1);
        if self.failed || self.reads == 0 {
            return Err(Failed);
        }
        if self.is_over || buffer.is_empty() {
            return Ok(0);
        }
        if buffer.len() < END.len() {
            self.failed = true;
            return Err(Failed);
        }
        let answer = self.read_on(buffer);
        if answer.is_err() {
            self.failed = true;
        }
        answer
    }
}
