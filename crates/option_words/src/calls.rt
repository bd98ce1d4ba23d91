//! Words that call a tool of a toolbox.
ghost use Rattle.std.specs.Prelude.{IfOk, IfSome};
ghost use Rattle.std.specs.List.{Contains};

use crate::declared::{Program, Toolbox, command, commands};
use crate::given::Given;
use clap::error::ErrorKind;
use clap::{ArgMatches, Error};
use std::alloc::Global;
use std::convert::AsStr;

/// A tool that is called, and the values of its options.
#[derive(Drop)]
pub struct Call<'a> {
    pub tool: Program,
    pub given: Given<'a>,
}

/// The tool that a program's words call; the first word is the program's name. An error is clap's:
/// the words are refused, or ask for help.
pub fn read_call<'a, S: AsStr>(
    alloc: Global,
    toolbox: &Toolbox,
    words: &'a [S],
) -> Result<Call<'a>, Error>
    ensures { IfOk result (λ call. Contains toolbox.now.tools.now call.tool) }
{
    let mut commands = commands(alloc, toolbox)?;
    let matches = commands.try_get_matches_from_mut(words)?;
    match call_of(alloc, toolbox, &matches)? {
        Some(call) => Ok(call),
        None => Err(commands.error(ErrorKind::MissingSubcommand, "a tool is wanted")?),
    }
}

/// The tool of clap's subcommand match; `None` if there is no subcommand.
fn call_of<'a>(
    alloc: Global,
    toolbox: &Toolbox,
    matches: &ArgMatches<'a>,
) -> Result<Option<Call<'a>>, Error>
    ensures { IfOk result (λ called.
        IfSome called (λ call. Contains toolbox.now.tools.now call.tool)) }
{
    let Some((name, matches)) = matches.subcommand() else {
        return Ok(None);
    };
    let Some(tool) = toolbox.tools.iter().find(|tool| tool.name == name) else {
        return Ok(None);
    };
    let given = Given::new(alloc, tool.options, matches)?;
    Ok(Some(Call { tool: *tool, given }))
}

/// The refusal of words that called a tool and could be parsed, in the form of clap's own errors.
pub fn call_refusal(alloc: Global, toolbox: &Toolbox, tool: &Program, why: &str) -> Error {
    match refused_by(alloc, toolbox, tool, why) {
        Ok(refusal) => refusal,
        Err(error) => error,
    }
}

/// Builds that refusal. Returns an error if memory runs out.
fn refused_by(alloc: Global, toolbox: &Toolbox, tool: &Program, why: &str) -> Result<Error, Error> {
    let name = format!(in alloc; "{} {}", toolbox.name, tool.name)?;
    let mut command = command(alloc, tool)?.bin_name(name.as_str())?;
    Ok(command.error(ErrorKind::ValueValidation, why)?)
}
