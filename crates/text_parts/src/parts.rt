//! Texts, bytes and numbers, written to a sink.
ghost use Rattle.std.specs.List.{flat_map};
ghost use Rattle.line_text.specs.Writing.{Writes};
ghost use Rattle.text_parts.specs.Parts.{bytes_of_part};

use itoa::Buffer;
use line_text::{Failed, Sink, write_all};

/// A part of a text. Numbers are written in decimal digits.
#[derive(Clone, Copy)]
pub enum Part<'a> {
    Text(&'a str),
    Bytes(&'a [u8]),
    Number(u32),
    Long(u64),
}

/// Writes the parts one after another. If the sink fails, it has taken a beginning of them.
pub fn write_parts<K: Sink>(sink: &mut K, parts: &[Part<'_>]) -> Result<(), Failed>
    ensures { Writes K.contents K.has_failed sink.old sink.new (flat_map bytes_of_part parts.now)
        result }
{
    for part in parts {
        write_part(sink, part)?;
    }
    Ok(())
}

fn write_part<K: Sink>(sink: &mut K, part: &Part<'_>) -> Result<(), Failed>
    ensures { Writes K.contents K.has_failed sink.old sink.new (bytes_of_part part.now) result }
{
    let mut digits = Buffer::new();
    match part {
        Part::Text(text) => write_all(sink, text.as_bytes()),
        Part::Bytes(bytes) => write_all(sink, bytes),
        Part::Number(number) => write_all(sink, digits.format(*number).as_bytes()),
        Part::Long(number) => write_all(sink, digits.format(*number).as_bytes()),
    }
}
