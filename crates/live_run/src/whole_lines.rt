//! An input, with a word on standard error if its last line has no end.
ghost use Rattle.std.specs.Prelude.{◌≡◌};

use line_text::{Failed, Source};
use std::io::Eprint;

/// What is told of an input whose last line has no end.
pub const NO_END: &str = "input: its last line has no end and is not served";

/// A source of lines, whose last line may have no end: then it is not served, and at the end
/// [`NO_END`] is written to standard error.
#[derive(Drop)]
pub struct WholeLines<'h, H: Eprint, S: Source + Drop> {
    rt: &'h H,
    source: S,
    /// Whether the last byte that was read ends no line.
    is_open: bool,
}

impl<'h, H: Eprint, S: Source + Drop> WholeLines<'h, H, S> {
    /// The lines of that source.
    pub fn new(rt: &'h H, source: S) -> Self {
        WholeLines {
            rt,
            source,
            is_open: false,
        }
    }

    /// Notes what was read. At the end it tells of a line that has none.
    fn note(&mut self, bytes: &[u8])
        ensures { self.new.source ≡ self.old.source }
    {
        match bytes.last() {
            Some(byte) => self.is_open = *byte != b'\n',
            None if self.is_open => {
                self.is_open = false;
                let _ = self.rt.eprintln(NO_END);
            }
            None => {}
        }
    }
}

impl<H: Eprint, S: Source + Drop> Source for WholeLines<'_, H, S> {
    ghost remaining = { λ lines. S.remaining lines.source };

    ghost has_failed = { λ lines. S.has_failed lines.source };

    ghost reads_left = { λ lines. S.reads_left lines.source };

    ghost spent = { λ lines none. S.spent lines.source none };

    fn read(&mut self, buffer: &mut [u8]) -> Result<usize, Failed> {
        let count = self.source.read(buffer)?;
        if !buffer.is_empty() {
            self.note(&buffer[..count]);
        }
        Ok(count)
    }
}
