//! A shorter log.
ghost use Rattle.std.specs.Prelude.{◌≡◌, IfOk, length, map};
ghost use Rattle.std.specs.List.{flat_map};
ghost use Rattle.live_log.specs.Prelude.{physical_lines, texts, Writes, with_feed};
ghost use Rattle.live_log.specs.Kept.{kept_lines, last_line, line_if, lines_in};

use crate::last_tags::LAST;
use line_text::{Failed, Sink, split_line, write_slices};
use std::alloc::{AllocError, Global};

/// A shorter log: some of the lines of a log, and after them a comment for each name that has ids.
#[derive(Drop)]
pub struct ShortLog<'l> {
    pub(crate) log: &'l [u8],
    pub(crate) kept: Vec<bool>,
    /// The last tag of each name.
    pub(crate) last: Vec<&'l [u8]>,
}

impl<'l> ShortLog<'l> {
    /// The whole log, without comments.
    pub(crate) fn into_whole(self, alloc: Global) -> Result<Self, AllocError>
        requires { length self.kept.items ≡ length (physical_lines self.log.now) }
        ensures log { IfOk result (λ whole. whole.log.now ≡ self.entry.log.now) }
        ensures lines { IfOk result (λ whole. lines_in whole ≡ physical_lines self.entry.log.now) }
    {
        Ok(ShortLog {
            log: self.log,
            kept: Vec::from_elem(alloc, true, self.kept.len())?,
            last: Vec::new(alloc),
        })
    }

    /// Writes the lines, each ended by LF: those of the log that are kept, byte for byte, and a
    /// comment `# last @NAME/ID` for each name that has ids. Takes no memory.
    ///
    /// # Errors
    /// `Failed` if the sink fails. It has then taken a beginning of them.
    pub fn write<W: Sink>(&self, sink: &mut W) -> Result<(), Failed>
        ensures { Writes W.contents W.has_failed sink.old sink.new
            (flat_map with_feed (lines_in self.now)) result }
    {
        self.write_kept(sink)?;
        write_last(sink, self.last.as_slice())
    }

    /// Writes the lines that are kept, each ended by LF.
    fn write_kept<W: Sink>(&self, sink: &mut W) -> Result<(), Failed>
        ensures { Writes W.contents W.has_failed sink.old sink.new
            (kept_lines self.now.kept.items (physical_lines self.now.log.now)) result }
    {
        let mut rest = self.log;
        let mut marks = self.kept.as_slice();
        while !rest.is_empty() {
            let Some((kept, others)) = marks.split_first() else {
                return Ok(());
            };
            let (line, after) = split_line(rest);
            write_line(sink, *kept, line)?;
            rest = after;
            marks = others;
        }
        Ok(())
    }
}

/// Writes a line with its end, if it is kept.
fn write_line<W: Sink>(sink: &mut W, kept: bool, line: &[u8]) -> Result<(), Failed>
    ensures { Writes W.contents W.has_failed sink.old sink.new
        (line_if kept line.now) result }
{
    if kept {
        write_slices(sink, &[line, b"\n"])
    } else {
        Ok(())
    }
}

/// Writes a comment for each of the tags.
fn write_last<W: Sink>(sink: &mut W, tags: &[&[u8]]) -> Result<(), Failed>
    ensures { Writes W.contents W.has_failed sink.old sink.new
        (flat_map with_feed (map last_line (texts tags.now))) result }
{
    for tag in tags {
        write_comment(sink, tag)?;
    }
    Ok(())
}

/// Writes the comment that says a tag.
fn write_comment<W: Sink>(sink: &mut W, tag: &[u8]) -> Result<(), Failed>
    ensures { Writes W.contents W.has_failed sink.old sink.new
        (with_feed (last_line tag.now)) result }
{
    write_slices(sink, &[LAST, tag, b"\n"])
}
