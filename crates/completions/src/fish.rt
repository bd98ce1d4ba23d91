//! Tools and their options, for fish.
ghost use Rattle.std.specs.Prelude.{codes};
ghost use Rattle.std.specs.List.{flat_map};
ghost use Rattle.line_text.specs.Writing.{Writes};
ghost use Rattle.completions.specs.Shells.{fish_byte, fish_front, fish_line, fish_name, fish_name_front, fish_names, fish_option, fish_options, fish_quoted, fish_tool};

use line_text::{Failed, Sink, write_all};
use option_words::{OptionWord, Program, Takes};
use text_parts::{Part, write_parts};

/// Writes a line for each tool, with what it is for. If the sink fails, it has taken a beginning of
/// them.
pub fn write_fish_names<K: Sink>(sink: &mut K, tools: &[Program]) -> Result<(), Failed>
    ensures { Writes K.contents K.has_failed sink.old sink.new (fish_names tools.now) result }
{
    for tool in tools {
        write_name(sink, tool)?;
    }
    Ok(())
}

/// Writes the line of a tool.
fn write_name<K: Sink>(sink: &mut K, tool: &Program) -> Result<(), Failed>
    ensures { Writes K.contents K.has_failed sink.old sink.new (fish_name tool.now) result }
{
    write_name_front(sink, tool)?;
    write_quoted(sink, tool.about)
}

/// Writes what comes before the words of a tool.
fn write_name_front<K: Sink>(sink: &mut K, tool: &Program) -> Result<(), Failed>
    ensures { Writes K.contents K.has_failed sink.old sink.new (fish_name_front tool.now) result }
{
    write_parts(
        sink,
        &[
            Part::Text("complete -c fpgad_desk -n __fish_use_subcommand -f -a "),
            Part::Text(tool.name),
            Part::Text(" -d "),
        ],
    )
}

/// Writes a text in quotes, and ends the line.
fn write_quoted<K: Sink>(sink: &mut K, text: &str) -> Result<(), Failed>
    ensures { Writes K.contents K.has_failed sink.old sink.new (fish_quoted text.now) result }
{
    write_parts(sink, &[Part::Text("'")])?;
    write_bytes(sink, text.as_bytes())?;
    write_parts(sink, &[Part::Text("'\n")])
}

/// Writes the bytes of a text in quotes.
fn write_bytes<K: Sink>(sink: &mut K, bytes: &[u8]) -> Result<(), Failed>
    ensures { Writes K.contents K.has_failed sink.old sink.new (flat_map fish_byte bytes.now)
        result }
{
    for byte in bytes {
        write_byte(sink, *byte)?;
    }
    Ok(())
}

/// Writes a byte of a text in quotes.
fn write_byte<K: Sink>(sink: &mut K, byte: u8) -> Result<(), Failed>
    ensures { Writes K.contents K.has_failed sink.old sink.new (fish_byte byte) result }
{
    if byte == b'\'' || byte == b'\\' {
        write_all(sink, &[b'\\', byte])
    } else {
        write_all(sink, &[byte])
    }
}

/// Writes a line for each option of each tool that is given by its name. If the sink fails, it has
/// taken a beginning of them.
pub fn write_fish_options<K: Sink>(sink: &mut K, tools: &[Program]) -> Result<(), Failed>
    ensures { Writes K.contents K.has_failed sink.old sink.new (fish_options tools.now) result }
{
    for tool in tools {
        write_options(sink, tool.name, tool.options)?;
    }
    Ok(())
}

/// Writes the lines of these options of a tool.
fn write_options<K: Sink>(sink: &mut K, tool: &str, options: &[OptionWord]) -> Result<(), Failed>
    ensures { Writes K.contents K.has_failed sink.old sink.new
        (flat_map (fish_option tool.now) options.now) result }
{
    for option in options {
        write_option(sink, tool, option)?;
    }
    Ok(())
}

/// Writes the line of an option, if it is given by its name.
fn write_option<K: Sink>(sink: &mut K, tool: &str, option: &OptionWord) -> Result<(), Failed>
    ensures { Writes K.contents K.has_failed sink.old sink.new (fish_option tool.now option.now)
        result }
{
    match option.takes {
        Takes::Alone => write_parts(sink, &[]),
        Takes::Nothing => write_line(sink, tool, option, ""),
        Takes::Text => write_line(sink, tool, option, " -r"),
        Takes::GivenText => write_line(sink, tool, option, " -r"),
        Takes::Number(_, _) => write_line(sink, tool, option, " -r"),
        Takes::Long => write_line(sink, tool, option, " -r"),
        Takes::Word(_) => write_line(sink, tool, option, " -r"),
    }
}

/// Writes the line of an option.
fn write_line<K: Sink>(
    sink: &mut K,
    tool: &str,
    option: &OptionWord,
    value: &str,
) -> Result<(), Failed>
    ensures { Writes K.contents K.has_failed sink.old sink.new
        (fish_line tool.now option.now value.now) result }
{
    write_front(sink, tool, option.name, value)?;
    write_quoted(sink, option.help)
}

/// Writes what comes before the help of an option.
fn write_front<'x, K: Sink>(
    sink: &mut K,
    tool: &'x str,
    name: &'x str,
    value: &'x str,
) -> Result<(), Failed>
    ensures { Writes K.contents K.has_failed sink.old sink.new
        (fish_front tool.now name.now value.now) result }
{
    write_parts(
        sink,
        &[
            Part::Text("complete -c fpgad_desk -n '__fish_seen_subcommand_from "),
            Part::Text(tool),
            Part::Text("' -l "),
            Part::Text(name),
            Part::Text(value),
            Part::Text(" -d "),
        ],
    )
}
