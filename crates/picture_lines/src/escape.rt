//! Text in an SVG.
ghost use Rattle.std.specs.Prelude.{◌≡◌};
ghost use Rattle.std.specs.List.{flat_map};
ghost use Rattle.line_text.specs.Writing.{Writes};
ghost use Rattle.picture_lines.specs.Escapes.{escape_of};

use line_text::{Failed, Sink, write_all};

/// Writes bytes as the text of an element, or of an attribute: a byte with a meaning in XML by its
/// name, and one that isn't a printable ASCII character as the replacement character. If the sink
/// fails, it has taken a first part of them.
pub fn write_escaped<K: Sink>(sink: &mut K, bytes: &[u8]) -> Result<(), Failed>
    ensures { Writes K.contents K.has_failed sink.old sink.new (flat_map escape_of bytes.now)
        result }
{
    for byte in bytes {
        write_byte(sink, *byte)?;
    }
    Ok(())
}

fn write_byte<K: Sink>(sink: &mut K, byte: u8) -> Result<(), Failed>
    ensures { Writes K.contents K.has_failed sink.old sink.new (escape_of byte) result }
{
    match byte {
        b'&' => write_all(sink, b"&amp;"),
        b'<' => write_all(sink, b"&lt;"),
        b'>' => write_all(sink, b"&gt;"),
        b'"' => write_all(sink, b"&quot;"),
        b'\'' => write_all(sink, b"&#39;"),
        b' '..=b'~' => write_all(sink, &[byte]),
        _ => write_all(sink, b"&#65533;"),
    }
}
