//! Writes a script's lines with their replies.
ghost use Rattle.std.specs.Prelude.{◌≡◌, [], flat_map, decimal};
ghost use Rattle.std.specs.Option.{option_map_or};
ghost use Rattle.script_replies.specs.Prelude.{Writes, bytes_of_part};
ghost use Rattle.script_replies.specs.Told.{advice_text, asked_text, count_text, count_words, end_text, meaning_text, refusal_text, refused_text, reply_text, text_if, told_text};

use crate::listing::ToldLine;
use line_text::{Failed, Sink};
use text_parts::{Part, write_parts};

/// Writes the lines, each with its number and, below it, the first line of its reply and what may
/// be done. If the sink fails, it has taken a first part of them.
pub fn write_told<K: Sink>(sink: &mut K, told: &[ToldLine<'_>]) -> Result<(), Failed>
    ensures { Writes K.contents K.has_failed sink.old sink.new (flat_map told_text told.now)
        result }
{
    for line in told {
        write_line(sink, line)?;
    }
    Ok(())
}

/// Writes a line with its reply.
fn write_line<K: Sink>(sink: &mut K, told: &ToldLine<'_>) -> Result<(), Failed>
    ensures { Writes K.contents K.has_failed sink.old sink.new (told_text told.now) result }
{
    write_asked(sink, told)?;
    write_meaning(sink, told)?;
    write_end(sink, told)
}

/// Ends the line of the advice.
fn write_end<K: Sink>(sink: &mut K, told: &ToldLine<'_>) -> Result<(), Failed>
    ensures { Writes K.contents K.has_failed sink.old sink.new (end_text told.now) result }
{
    write_parts(sink, &[text_if(told.advice.is_some(), "\n")])
}

/// Writes a line and the first line of its reply, and what comes before the advice.
fn write_asked<K: Sink>(sink: &mut K, told: &ToldLine<'_>) -> Result<(), Failed>
    ensures { Writes K.contents K.has_failed sink.old sink.new (asked_text told.now) result }
{
    write_parts(
        sink,
        &[
            Part::Long(told.number as u64),
            Part::Text(": "),
            Part::Bytes(told.line),
            Part::Text("\n"),
            text_if(told.reply.is_some(), "    "),
            Part::Bytes(told.reply.unwrap_or(b"")),
            text_if(told.reply.is_some(), "\n"),
            text_if(told.advice.is_some(), "    "),
        ],
    )
}

/// Writes what a reply means, and how many lines have it.
fn write_meaning<K: Sink>(sink: &mut K, told: &ToldLine<'_>) -> Result<(), Failed>
    ensures { Writes K.contents K.has_failed sink.old sink.new (meaning_text told.now) result }
{
    write_advice(sink, told)?;
    write_count(sink, told)
}

/// Writes the advice, with the script's line of a netlist's fault before it.
fn write_advice<K: Sink>(sink: &mut K, told: &ToldLine<'_>) -> Result<(), Failed>
    ensures { Writes K.contents K.has_failed sink.old sink.new (advice_text told.now) result }
{
    write_parts(
        sink,
        &[
            text_if(told.fault.is_some(), "line "),
            number(told.fault),
            text_if(told.fault.is_some(), " of the script: "),
            Part::Text(told.advice.unwrap_or("")),
        ],
    )
}

/// Writes how many lines have the reply.
fn write_count<K: Sink>(sink: &mut K, told: &ToldLine<'_>) -> Result<(), Failed>
    ensures { Writes K.contents K.has_failed sink.old sink.new (count_text told.now) result }
{
    let words = count_words(told.is_refused());
    write_parts(
        sink,
        &[
            text_if(told.alike.is_some(), " ("),
            number(told.alike),
            text_if(told.alike.is_some(), words),
        ],
    )
}

/// What is said of lines that have the same reply: not each reply with advice is a refusal.
fn count_words(is_refused: bool) -> &'static str
    ensures { result.now ≡ count_words is_refused }
{
    if is_refused {
        " lines are refused so)"
    } else {
        " lines are answered so)"
    }
}

/// Writes the refused lines among these, in four lines each: the line's number, the line, its
/// reply, and what may be done. If the sink fails, it has taken a first part of them.
pub fn write_refused<K: Sink>(sink: &mut K, told: &[ToldLine<'_>]) -> Result<(), Failed>
    ensures { Writes K.contents K.has_failed sink.old sink.new (flat_map refused_text told.now)
        result }
{
    for line in told {
        write_if_refused(sink, line)?;
    }
    Ok(())
}

/// Writes a line in four lines, if it is refused.
fn write_if_refused<K: Sink>(sink: &mut K, told: &ToldLine<'_>) -> Result<(), Failed>
    ensures { Writes K.contents K.has_failed sink.old sink.new (refused_text told.now) result }
{
    if told.is_refused() {
        write_refusal(sink, told)
    } else {
        Ok(())
    }
}

/// Writes a refused line in four lines.
fn write_refusal<K: Sink>(sink: &mut K, told: &ToldLine<'_>) -> Result<(), Failed>
    ensures { Writes K.contents K.has_failed sink.old sink.new (refusal_text told.now) result }
{
    write_reply(sink, told)?;
    write_meaning(sink, told)?;
    write_parts(sink, &[Part::Text("\n")])
}

/// Writes the number of a line, the line, and the first line of its reply, each in a line.
fn write_reply<K: Sink>(sink: &mut K, told: &ToldLine<'_>) -> Result<(), Failed>
    ensures { Writes K.contents K.has_failed sink.old sink.new (reply_text told.now) result }
{
    let line = Part::Bytes(told.line);
    write_parts(
        sink,
        &[
            Part::Long(told.number as u64),
            Part::Text("\n"),
            line,
            Part::Text("\n"),
            Part::Bytes(told.reply.unwrap_or(b"")),
            Part::Text("\n"),
        ],
    )
}

/// A text that is written only if something is there.
fn text_if(is_there: bool, text: &'static str) -> Part<'static>
    ensures { bytes_of_part result ≡ text_if is_there text.now }
{
    Part::Text(if is_there { text } else { "" })
}

/// A number that is written only if it is there.
fn number(number: Option<usize>) -> Part<'static>
    ensures { bytes_of_part result ≡ option_map_or decimal number [] }
{
    match number {
        Some(number) => Part::Long(number as u64),
        None => Part::Text(""),
    }
}
