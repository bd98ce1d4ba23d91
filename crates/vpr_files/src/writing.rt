//! Words and numbers, written to a sink.
ghost use Rattle.std.specs.Prelude.{◌++◌, ◌∷◌, [], decimal};
ghost use Rattle.vpr_files.specs.TextLines.{word_after_space};
ghost use Rattle.vpr_files.specs.Prelude.{Writes};

use itoa::Buffer;
use line_text::{Failed, Sink, write_slices};

/// Writes a space and a word.
pub(crate) fn write_word<W: Sink>(sink: &mut W, word: &[u8]) -> Result<(), Failed>
    ensures { Writes W.contents W.has_failed sink.old sink.new (word_after_space word.now) result }
{
    write_slices(sink, &[b" ", word])
}

/// Writes these bytes and a number.
pub(crate) fn write_number<W: Sink>(
    sink: &mut W,
    before: &[u8],
    number: usize,
) -> Result<(), Failed>
    ensures { Writes W.contents W.has_failed sink.old sink.new (before.now ++ decimal number)
        result }
{
    let mut buffer = Buffer::new();
    write_slices(sink, &[before, buffer.format(number).as_bytes()])
}

pub(crate) fn end_line<W: Sink>(sink: &mut W) -> Result<(), Failed>
    ensures { Writes W.contents W.has_failed sink.old sink.new (10 ∷ []) result }
{
    write_slices(sink, &[b"\n"])
}
