//! A client of the live service, that waits for replies.
ghost use Rattle.std.specs.Prelude.{◌≤◌, length};

use line_text::{Failed, Sink, Source, decimal_u32};
use std::alloc::{AllocError, Global};
use std::sync::{Condvar, Mutex, Wait};
use std::time::{Clock, Duration};

/// What the line begins with at which the client waits: `# after N lines` is sent once N lines of
/// replies have come in all.
const MARK: &[u8] = b"# after ";

/// The most seconds that the client waits at a mark. Then it ends its input.
const PATIENCE: u64 = 20;

/// The replies that have come so far.
#[derive(Drop)]
pub(crate) struct ReplyText {
    pub bytes: Vec<u8>,
    /// Whether each write ended a line.
    pub is_whole: bool,
    lines: u64,
}

impl ReplyText {
    /// Adds what was written at once.
    fn add(&mut self, bytes: &[u8]) -> Result<(), AllocError> {
        self.bytes.extend_from_slice(bytes)?;
        for byte in bytes.iter() {
            if *byte == b'\n' {
                self.lines = self.lines.saturating_add(1);
            }
        }
        self.is_whole &= bytes.last() == Some(&b'\n');
        Ok(())
    }
}

/// The replies to a client, which threads write.
#[derive(Drop)]
pub(crate) struct Replies {
    text: Mutex<ReplyText>,
    changed: Condvar,
}

impl Replies {
    /// No replies yet.
    pub(crate) fn new(alloc: Global) -> Self {
        Replies {
            text: Mutex::new(ReplyText {
                bytes: Vec::new(alloc),
                is_whole: true,
                lines: 0,
            }),
            changed: Condvar::new(),
        }
    }

    /// The replies that have come.
    pub(crate) fn into_text(self) -> ReplyText {
        let Replies { text, changed } = self;
        drop(changed);
        text.into_inner()
    }

    /// Adds what was written at once.
    fn add<H: Wait>(&self, rt: &H, bytes: &[u8]) -> Result<(), AllocError> {
        let added = self.text.lock(rt).add(bytes);
        self.changed.notify_all();
        added
    }

    /// Waits for that many lines, and returns whether they have come.
    fn wait_for<H: Wait + Clock>(&self, rt: &H, lines: u64) -> bool {
        let patience = Duration::from_secs(PATIENCE);
        let (guard, result) = self.changed.wait_timeout_while(
            rt,
            self.text.lock(rt),
            patience,
            |text| text.lines < lines,
        );
        drop(guard);
        !result.timed_out()
    }
}

/// What the service writes to: each write is added to the replies.
#[derive(Drop)]
pub(crate) struct ReplySink<'a, H: Wait> {
    rt: &'a H,
    replies: &'a Replies,
    has_failed: bool,
}

impl<'a, H: Wait> ReplySink<'a, H> {
    /// A sink to these replies.
    pub(crate) fn new(rt: &'a H, replies: &'a Replies) -> Self {
        ReplySink {
            rt,
            replies,
            has_failed: false,
        }
    }
}

impl<'a, H: Wait> Sink for ReplySink<'a, H> {
    ghost use Rattle.std.specs.Prelude.{None};

    ghost contents = { λ s. None };

    ghost has_failed = { λ s. s.has_failed };

    fn write(&mut self, bytes: &[u8]) -> Result<usize, Failed> {
        if self.has_failed || self.replies.add(self.rt, bytes).is_err() {
            self.has_failed = true;
            return Err(Failed);
        }
        Ok(bytes.len())
    }
}

/// The lines of a client, which waits at each mark.
#[derive(Drop)]
pub(crate) struct Client<'a, H: Wait + Clock> {
    rt: &'a H,
    replies: &'a Replies,
    text: &'a [u8],
    reads: u64,
}

impl<'a, H: Wait + Clock> Client<'a, H> {
    /// A client that sends this text.
    pub(crate) fn new(rt: &'a H, replies: &'a Replies, text: &'a [u8]) -> Self {
        Client {
            rt,
            replies,
            text,
            reads: 1 << 32,
        }
    }

    /// The number of bytes to send next: those up to the next mark. None is left if the client lost
    /// its patience.
    fn next_length(&self) -> usize
        ensures { result ≤ length self.now.text.now }
    {
        match lines_awaited(self.text) {
            Some(lines) if !self.replies.wait_for(self.rt, lines) => 0,
            _ => length_to_mark(self.text),
        }
    }
}

impl<'a, H: Wait + Clock> Source for Client<'a, H> {
    ghost use Rattle.std.specs.Prelude.{None, ◌==◌};
    ghost use Rattle.std.proofs.Common.{eq-eqb};

    ghost remaining = { λ s. None };

    ghost has_failed = { λ s. s.reads == 0 };

    ghost reads_left = { λ s. s.reads };

    ghost spent = { λ s none. eq-eqb s.reads 0 none };

    fn read(&mut self, buffer: &mut [u8]) -> Result<usize, Failed> {
        self.reads = self.reads.saturating_sub(1);
        if self.reads == 0 {
            return Err(Failed);
        }
        let count = self.next_length().min(buffer.len());
        let (front, rest) = self.text.split_at(count);
        buffer[..count].copy_from_slice(front);
        self.text = rest;
        Ok(count)
    }
}

/// The lines that the client waits for before it sends this text, if a mark is at its beginning.
fn lines_awaited(text: &[u8]) -> Option<u64> {
    let number = text.strip_prefix(MARK)?;
    let number = number.split(|byte| *byte == b' ').next()?;
    Some(u64::from(decimal_u32(number)?))
}

/// The length of the text up to the next mark after its beginning.
fn length_to_mark(text: &[u8]) -> usize
    ensures { result ≤ length text.now }
{
    for place in 1..text.len() {
        if text[place - 1] == b'\n' && text[place..].starts_with(MARK) {
            return place;
        }
    }
    text.len()
}
