//! Fields of tables.
ghost use Rattle.std.specs.List.{flat_map};
ghost use Rattle.desk_circuits.specs.Prelude.{Writes};
ghost use Rattle.desk_circuits.specs.Fields.{doubled_quote, number_field, number_fields, quote, quoted_field};

use line_text::{Failed, Sink, write_all};
use text_parts::{Part, write_parts};

/// Writes a field of a CSV file: the bytes in quotes, each quote among them twice.
pub fn write_quoted<K: Sink>(sink: &mut K, bytes: &[u8]) -> Result<(), Failed>
    ensures { Writes K.contents K.has_failed sink.old sink.new (quoted_field bytes.now) result }
{
    write_quote(sink)?;
    write_doubled(sink, bytes)?;
    write_quote(sink)
}

/// Writes a quote.
fn write_quote<K: Sink>(sink: &mut K) -> Result<(), Failed>
    ensures { Writes K.contents K.has_failed sink.old sink.new quote result }
{
    write_all(sink, b"\"")
}

/// Writes bytes, each quote among them twice.
fn write_doubled<K: Sink>(sink: &mut K, bytes: &[u8]) -> Result<(), Failed>
    ensures { Writes K.contents K.has_failed sink.old sink.new (flat_map doubled_quote bytes.now)
        result }
{
    for byte in bytes {
        write_byte(sink, *byte)?;
    }
    Ok(())
}

fn write_byte<K: Sink>(sink: &mut K, byte: u8) -> Result<(), Failed>
    ensures { Writes K.contents K.has_failed sink.old sink.new (doubled_quote byte) result }
{
    match byte {
        b'"' => write_all(sink, b"\"\""),
        _ => write_all(sink, &[byte]),
    }
}

/// Writes numbers, each after a comma.
pub fn write_numbers<W: Sink>(writer: &mut W, numbers: &[u64]) -> Result<(), Failed>
    ensures { Writes W.contents W.has_failed writer.old writer.new (number_fields numbers.now)
        result }
{
    for number in numbers {
        write_number(writer, *number)?;
    }
    Ok(())
}

/// Writes a number after a comma.
fn write_number<W: Sink>(writer: &mut W, number: u64) -> Result<(), Failed>
    ensures { Writes W.contents W.has_failed writer.old writer.new (number_field number) result }
{
    write_parts(writer, &[Part::Text(","), Part::Long(number)])
}
