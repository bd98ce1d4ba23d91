//! Tools and their options, for bash and zsh.
ghost use Rattle.std.specs.Prelude.{codes};
ghost use Rattle.std.specs.List.{flat_map};
ghost use Rattle.line_text.specs.Writing.{Writes};
ghost use Rattle.completions.specs.Shells.{case_front, case_text, cases_text, dashed, name_word, names_text, option_word};

use line_text::{Failed, Sink};
use option_words::{OptionWord, Program, Takes};
use text_parts::{Part, write_parts};

/// Writes the names of the tools, each before a blank. If the sink fails, it has taken a beginning
/// of them.
pub fn write_names<K: Sink>(sink: &mut K, tools: &[Program]) -> Result<(), Failed>
    ensures { Writes K.contents K.has_failed sink.old sink.new (names_text tools.now) result }
{
    for tool in tools {
        write_name(sink, tool)?;
    }
    Ok(())
}

/// Writes the name of a tool before a blank.
fn write_name<K: Sink>(sink: &mut K, tool: &Program) -> Result<(), Failed>
    ensures { Writes K.contents K.has_failed sink.old sink.new (name_word tool.now) result }
{
    write_parts(sink, &[Part::Text(tool.name), Part::Text(" ")])
}

/// Writes a case for each tool, with its options. If the sink fails, it has taken a beginning of
/// them.
pub fn write_cases<K: Sink>(sink: &mut K, tools: &[Program]) -> Result<(), Failed>
    ensures { Writes K.contents K.has_failed sink.old sink.new (cases_text tools.now) result }
{
    for tool in tools {
        write_case(sink, tool)?;
    }
    Ok(())
}

/// Writes the case of a tool.
fn write_case<K: Sink>(sink: &mut K, tool: &Program) -> Result<(), Failed>
    ensures { Writes K.contents K.has_failed sink.old sink.new (case_text tool.now) result }
{
    write_front(sink, tool)?;
    write_options(sink, tool.options)?;
    write_parts(sink, &[Part::Text("' ;;\n")])
}

/// Writes what comes before the options of a tool.
fn write_front<K: Sink>(sink: &mut K, tool: &Program) -> Result<(), Failed>
    ensures { Writes K.contents K.has_failed sink.old sink.new (case_front tool.now) result }
{
    write_parts(
        sink,
        &[
            Part::Text("    "),
            Part::Text(tool.name),
            Part::Text(") options='"),
        ],
    )
}

/// Writes the options that are given by their names.
fn write_options<K: Sink>(sink: &mut K, options: &[OptionWord]) -> Result<(), Failed>
    ensures { Writes K.contents K.has_failed sink.old sink.new (flat_map option_word options.now)
        result }
{
    for option in options {
        write_option(sink, option)?;
    }
    Ok(())
}

/// Writes an option, if it is given by its name.
fn write_option<K: Sink>(sink: &mut K, option: &OptionWord) -> Result<(), Failed>
    ensures { Writes K.contents K.has_failed sink.old sink.new (option_word option.now) result }
{
    match option.takes {
        Takes::Alone => write_parts(sink, &[]),
        Takes::Nothing => write_dashed(sink, option.name),
        Takes::Text => write_dashed(sink, option.name),
        Takes::GivenText => write_dashed(sink, option.name),
        Takes::Number(_, _) => write_dashed(sink, option.name),
        Takes::Long => write_dashed(sink, option.name),
        Takes::Word(_) => write_dashed(sink, option.name),
    }
}

/// Writes an option's name.
fn write_dashed<K: Sink>(sink: &mut K, name: &str) -> Result<(), Failed>
    ensures { Writes K.contents K.has_failed sink.old sink.new (dashed name.now) result }
{
    write_parts(sink, &[Part::Text("--"), Part::Text(name), Part::Text(" ")])
}
