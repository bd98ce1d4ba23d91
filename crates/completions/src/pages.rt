//! Tools and their options, on a page of the manual.
ghost use Rattle.std.specs.Prelude.{codes};
ghost use Rattle.std.specs.List.{flat_map};
ghost use Rattle.line_text.specs.Writing.{Writes};
ghost use Rattle.option_words.specs.declared.declared.Takes.TheVariants.{Text};
ghost use Rattle.completions.specs.Pages.{option_head_as, page_option, page_tool, page_tools, roff_byte, roff_text, tool_head};

use line_text::{Failed, Sink, write_all};
use option_words::{OptionWord, Program, Takes};
use text_parts::{Part, write_parts};

/// Writes a section for each tool: what it is for, its options, and the end of its help. If the
/// sink fails, it has taken a beginning of them.
pub fn write_page<K: Sink>(sink: &mut K, tools: &[Program]) -> Result<(), Failed>
    ensures { Writes K.contents K.has_failed sink.old sink.new (page_tools tools.now) result }
{
    for tool in tools {
        write_tool(sink, tool)?;
    }
    Ok(())
}

/// Writes the section of a tool.
fn write_tool<K: Sink>(sink: &mut K, tool: &Program) -> Result<(), Failed>
    ensures { Writes K.contents K.has_failed sink.old sink.new (page_tool tool.now) result }
{
    write_head(sink, tool)?;
    write_text(sink, tool.about)?;
    write_options(sink, tool.options)?;
    write_parts(sink, &[Part::Text(".PP\n")])?;
    write_text(sink, tool.after_help)
}

/// Writes the heading of a tool.
fn write_head<K: Sink>(sink: &mut K, tool: &Program) -> Result<(), Failed>
    ensures { Writes K.contents K.has_failed sink.old sink.new (tool_head tool.now) result }
{
    write_parts(
        sink,
        &[Part::Text(".SH "), Part::Text(tool.name), Part::Text("\n")],
    )
}

/// Writes a text, whatever its lines begin with.
fn write_text<K: Sink>(sink: &mut K, text: &str) -> Result<(), Failed>
    ensures { Writes K.contents K.has_failed sink.old sink.new (roff_text text.now) result }
{
    write_parts(sink, &[Part::Text("\\&")])?;
    write_bytes(sink, text.as_bytes())?;
    write_parts(sink, &[Part::Text("\n")])
}

/// Writes the bytes of a text.
fn write_bytes<K: Sink>(sink: &mut K, bytes: &[u8]) -> Result<(), Failed>
    ensures { Writes K.contents K.has_failed sink.old sink.new (flat_map roff_byte bytes.now)
        result }
{
    for byte in bytes {
        write_byte(sink, *byte)?;
    }
    Ok(())
}

/// Writes a byte of a text.
fn write_byte<K: Sink>(sink: &mut K, byte: u8) -> Result<(), Failed>
    ensures { Writes K.contents K.has_failed sink.old sink.new (roff_byte byte) result }
{
    if byte == b'\\' {
        write_all(sink, b"\\e")
    } else if byte == b'-' {
        write_all(sink, b"\\-")
    } else if byte == b'\n' {
        write_all(sink, b"\n.br\n\\&")
    } else {
        write_all(sink, &[byte])
    }
}

/// Writes these options.
fn write_options<K: Sink>(sink: &mut K, options: &[OptionWord]) -> Result<(), Failed>
    ensures { Writes K.contents K.has_failed sink.old sink.new (flat_map page_option options.now)
        result }
{
    for option in options {
        write_option(sink, option)?;
    }
    Ok(())
}

/// Writes an option and its help.
fn write_option<K: Sink>(sink: &mut K, option: &OptionWord) -> Result<(), Failed>
    ensures { Writes K.contents K.has_failed sink.old sink.new (page_option option.now) result }
{
    write_option_head(sink, option)?;
    write_text(sink, option.help)
}

/// Writes the name of an option, and that of its value.
fn write_option_head<K: Sink>(sink: &mut K, option: &OptionWord) -> Result<(), Failed>
    ensures { Writes K.contents K.has_failed sink.old sink.new
        (option_head_as option.now option.now.takes) result }
{
    match option.takes {
        Takes::Nothing => write_parts(
            sink,
            &[
                Part::Text(".TP\n.B \\-\\-"),
                Part::Text(option.name),
                Part::Text("\n"),
            ],
        ),
        Takes::Alone => write_parts(
            sink,
            &[
                Part::Text(".TP\n.I "),
                Part::Text(option.value_name),
                Part::Text("\n"),
            ],
        ),
        Takes::Text => write_valued(sink, option),
        Takes::GivenText => write_valued(sink, option),
        Takes::Number(_, _) => write_valued(sink, option),
        Takes::Long => write_valued(sink, option),
        Takes::Word(_) => write_valued(sink, option),
    }
}

/// Writes the name of an option that takes a value, and the value's.
fn write_valued<K: Sink>(sink: &mut K, option: &OptionWord) -> Result<(), Failed>
    ensures { Writes K.contents K.has_failed sink.old sink.new
        (option_head_as option.now Text) result }
{
    write_parts(
        sink,
        &[
            Part::Text(".TP\n.BI \\-\\-"),
            Part::Text(option.name),
            Part::Text(" \" "),
            Part::Text(option.value_name),
            Part::Text("\"\n"),
        ],
    )
}
