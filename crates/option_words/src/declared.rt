//! What a program declares.
use clap::builder::ValueParser;
use clap::{Arg, ArgAction, Command};
use std::alloc::{AllocError, Global};

/// What value an option takes.
#[derive(Clone, Copy)]
pub enum Takes {
    /// Any text.
    Text,
    /// Any text; the option is required.
    GivenText,
    /// A number from the first to the second, both included.
    Number(u32, u32),
    /// Any number of 64 bits.
    Long,
    /// One of these words.
    Word(&'static [&'static str]),
    /// No value: the option is given or not.
    Nothing,
    /// Any text, required and given without the option's name. If there are several such options,
    /// the first word belongs to the first of them.
    Alone,
}

/// An option, given as `--name VALUE`, as `--name` or as `VALUE`.
#[derive(Clone, Copy)]
pub struct OptionWord {
    pub name: &'static str,
    /// The name of its value in the help.
    pub value_name: &'static str,
    pub help: &'static str,
    pub takes: Takes,
    /// Its value if the words don't give one.
    pub default: Option<&'static str>,
}

/// A program that has options.
#[derive(Clone, Copy)]
pub struct Program {
    pub name: &'static str,
    /// The beginning of its help.
    pub about: &'static str,
    /// The end of its help.
    pub after_help: &'static str,
    /// Its options, in the help's order.
    pub options: &'static [OptionWord],
}

/// A program of several tools; the first word calls one by its name.
#[derive(Clone, Copy)]
pub struct Toolbox {
    pub name: &'static str,
    /// The beginning of its help.
    pub about: &'static str,
    /// The end of its help.
    pub after_help: &'static str,
    /// Its tools, in the help's order.
    pub tools: &'static [Program],
}

/// The toolbox as a clap command.
pub(crate) fn commands<'a>(alloc: Global, toolbox: &Toolbox) -> Result<Command<'a>, AllocError> {
    let mut commands = Command::new(alloc, toolbox.name)
        .about(toolbox.about)
        .after_help(toolbox.after_help)
        .subcommand_required(true)
        .disable_help_subcommand(true);
    for tool in toolbox.tools {
        commands = commands.subcommand(command(alloc, tool)?)?;
    }
    Ok(commands)
}

/// The program as a clap command.
pub(crate) fn command<'a>(alloc: Global, program: &Program) -> Result<Command<'a>, AllocError> {
    let mut command = Command::new(alloc, program.name)
        .about(program.about)
        .after_help(program.after_help);
    for option in program.options {
        command = command.arg(argument(alloc, option))?;
    }
    Ok(command)
}

/// An option as a clap argument.
fn argument<'a>(alloc: Global, option: &OptionWord) -> Arg<'a> {
    let argument = taking(Arg::new(alloc, option.name), option).help(option.help);
    match option.default {
        Some(default) => argument.default_value(default),
        None => argument,
    }
}

/// The argument with its name and the kind of value that it takes.
fn taking<'a>(argument: Arg<'a>, option: &OptionWord) -> Arg<'a> {
    match option.takes {
        Takes::Nothing => argument.long(option.name).action(ArgAction::SetTrue),
        Takes::Alone => argument.value_name(option.value_name).required(true),
        takes => with_value_name(argument, option)
            .value_parser(parser(takes))
            .required(matches!(takes, Takes::GivenText)),
    }
}

/// The argument with its name and the name of its value in the help.
fn with_value_name<'a>(argument: Arg<'a>, option: &OptionWord) -> Arg<'a> {
    argument.long(option.name).value_name(option.value_name)
}

/// The clap parser that checks an option's value.
fn parser<'a>(takes: Takes) -> ValueParser<'a> {
    match takes {
        Takes::Number(least, most) => ValueParser::Signed(i64::from(least), i64::from(most)),
        Takes::Long => ValueParser::Unsigned(0, u64::MAX),
        Takes::Word(words) => ValueParser::Names(words),
        Takes::Text | Takes::GivenText | Takes::Nothing | Takes::Alone => ValueParser::String,
    }
}
