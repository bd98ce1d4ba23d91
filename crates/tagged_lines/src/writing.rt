//! Texts, written with a tag in front of each line.
ghost use Rattle.line_text.specs.Writing.{Writes};
ghost use Rattle.std.specs.Prelude.{◌≡◌, ◌++◌, codes, OnOk};
ghost use Rattle.tagged_lines.specs.Tags.{answer_told, output_of, tagged_text, with_feed};

use crate::tags::has_id;
use line_text::{Failed, MemorySink, Sink, split_line, write_all, write_slices};
use std::alloc::{AllocError, Global};

/// Appends a line and its LF.
///
/// # Errors
/// `AllocError` if memory runs out.
pub fn push_line(text: &mut Vec<u8>, line: &[u8]) -> Result<(), AllocError>
    ensures { OnOk result (text.new.items ≡ text.old.items ++ with_feed line.now) }
{
    text.extend_from_slice(line)?;
    text.push(b'\n')?;
    Ok(())
}

/// Writes each line of a text with that tag in front, and LF after the last line too. Takes no
/// memory.
///
/// # Errors
/// `Failed` if the sink fails. It has then taken a beginning of the lines.
pub fn write_tagged<W: Sink>(sink: &mut W, tag: &[u8], text: &[u8]) -> Result<(), Failed>
    ensures { Writes W.contents W.has_failed sink.old sink.new (tagged_text tag.now text.now)
        result }
{
    let mut rest = text;
    while !rest.is_empty() {
        let (line, after) = split_line(rest);
        write_slices(sink, &[tag, b" ", line, b"\n"])?;
        rest = after;
    }
    Ok(())
}

/// Writes what [`write_tagged`] writes by one write, if there is memory for all of it. Without
/// memory it is written line by line.
///
/// # Errors
/// `Failed` if the sink fails. It has then taken a beginning of the lines.
pub fn write_at_once<W: Sink>(
    alloc: Global,
    sink: &mut W,
    tag: &[u8],
    text: &[u8],
) -> Result<(), Failed>
    ensures { Writes W.contents W.has_failed sink.old sink.new (tagged_text tag.now text.now)
        result }
{
    let mut all = MemorySink::new(alloc);
    match write_tagged(&mut all, tag, text) {
        Ok(()) => write_all(sink, all.as_bytes()),
        Err(_) => write_tagged(sink, tag, text),
    }
}

/// Writes an answer with its tag, and if the tag has an id, a line `done TAG` after it, by one
/// write, if there is memory for all of it.
///
/// # Errors
/// `Failed` if the sink fails. It has then taken a beginning of the lines.
pub fn write_answer<W: Sink>(
    alloc: Global,
    sink: &mut W,
    tag: &[u8],
    text: &[u8],
) -> Result<(), Failed>
    ensures { Writes W.contents W.has_failed sink.old sink.new (output_of (answer_told tag.now
        text.now)) result }
{
    if !has_id(tag) {
        return write_at_once(alloc, sink, tag, text);
    }
    let mut all = MemorySink::new(alloc);
    match write_with_end(&mut all, tag, text) {
        Ok(()) => write_all(sink, all.as_bytes()),
        Err(_) => write_with_end(sink, tag, text),
    }
}

/// Writes an answer with its tag, and the line that says that it is whole.
fn write_with_end<W: Sink>(sink: &mut W, tag: &[u8], text: &[u8]) -> Result<(), Failed>
    ensures { Writes W.contents W.has_failed sink.old sink.new (tagged_text tag.now text.now
        ++ tagged_text (codes "done") tag.now) result }
{
    write_tagged(sink, tag, text)?;
    write_tagged(sink, b"done", tag)
}
