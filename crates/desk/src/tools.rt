//! The tools and their options, for shells and for the manual.
ghost use Rattle.std.specs.Prelude.{IfOk, OnErr};
ghost use Rattle.desk.specs.Errands.{IsShellAskedFor};

use crate::errand::{LAYOUTS, OTHERS, ROUTES, TOOLBOX, VIEWS};
use completions::{write_cases, write_fish_names, write_fish_options, write_names, write_page};
use desk_common::Outcome;
use line_text::{Failed, Sink, write_all};
use option_words::{Given, OptionWord, Program, Takes};

const NO_SHELL: &str = "give bash, zsh or fish";

/// The tool that prints a completion script.
pub(crate) const COMPLETION: Program = Program {
    name: "completion",
    about: "Prints a script that completes the names of tools and options in a shell",
    after_help: "\
bash: source <(fpgad_desk completion bash)
zsh: fpgad_desk completion zsh > FOLDER/_fpgad_desk, with a FOLDER of $fpath
fish: fpgad_desk completion fish > ~/.config/fish/completions/fpgad_desk.fish",
    options: &[OptionWord {
        name: "shell",
        value_name: "SHELL",
        help: "bash, zsh or fish",
        takes: Takes::Alone,
        default: None,
    }],
};

/// The tool that prints a page of the manual.
pub(crate) const MANUAL: Program = Program {
    name: "man",
    about: "Prints a page of the manual with all tools and their options",
    after_help: "Example: fpgad_desk man > fpgad_desk.1; man ./fpgad_desk.1",
    options: &[],
};

/// What is printed of the tools.
#[derive(Clone, Copy)]
pub(crate) enum ToolsForm {
    /// A completion script.
    Bash,
    Zsh,
    Fish,
    /// A page of the manual, in roff.
    Manual,
}

/// The script for the shell that is given, or why the words are refused.
pub(crate) fn shell_of(given: &Given<'_>) -> Result<ToolsForm, &'static str>
    ensures asked { IfOk result (IsShellAskedFor given.now) }
    ensures refused { OnErr result ((form : ToolsForm) → IsShellAskedFor given.now form → ⊥) }
{
    match given.text("shell").unwrap_or("") {
        "bash" => Ok(ToolsForm::Bash),
        "zsh" => Ok(ToolsForm::Zsh),
        "fish" => Ok(ToolsForm::Fish),
        _ => Err(NO_SHELL),
    }
}

/// Prints the tools and their options.
pub(crate) fn print_tools<W: Sink>(form: ToolsForm, writer: &mut W) -> Outcome {
    let written = match form {
        ToolsForm::Bash => write_bash(writer),
        ToolsForm::Zsh => write_zsh(writer),
        ToolsForm::Fish => write_fish(writer),
        ToolsForm::Manual => write_manual(writer),
    };
    Outcome::of_writing(written)
}

/// Writes the script for bash.
fn write_bash<W: Sink>(writer: &mut W) -> Result<(), Failed> {
    write_all(writer, BASH_NAMES)?;
    write_tool_names(writer)?;
    write_all(writer, BASH_CASES)?;
    write_all_cases(writer)?;
    write_all(writer, BASH_END)
}

/// Writes the script for zsh.
fn write_zsh<W: Sink>(writer: &mut W) -> Result<(), Failed> {
    write_all(writer, ZSH_NAMES)?;
    write_tool_names(writer)?;
    write_all(writer, ZSH_CASES)?;
    write_all_cases(writer)?;
    write_all(writer, ZSH_END)
}

/// Writes the names of all tools.
fn write_tool_names<W: Sink>(writer: &mut W) -> Result<(), Failed> {
    write_names(writer, TOOLBOX.tools)
}

/// The tools with their options, in the order of a completion script.
fn tools_for_shells() -> [&'static [Program]; 4] {
    [VIEWS.tools, ROUTES.tools, LAYOUTS.tools, OTHERS]
}

/// Writes a case for each tool.
fn write_all_cases<W: Sink>(writer: &mut W) -> Result<(), Failed> {
    for tools in tools_for_shells() {
        write_cases(writer, tools)?;
    }
    Ok(())
}

/// Writes the script for fish.
fn write_fish<W: Sink>(writer: &mut W) -> Result<(), Failed> {
    write_fish_names(writer, TOOLBOX.tools)?;
    for tools in tools_for_shells() {
        write_fish_options(writer, tools)?;
    }
    Ok(())
}

/// Writes the page of the manual.
fn write_manual<W: Sink>(writer: &mut W) -> Result<(), Failed> {
    write_all(writer, PAGE_HEAD)?;
    for tools in [OTHERS, ROUTES.tools, LAYOUTS.tools, VIEWS.tools] {
        write_page(writer, tools)?;
    }
    Ok(())
}

/// The script for bash, up to the names of the tools.
const BASH_NAMES: &[u8] = b"\
# Completes the tools and options of fpgad_desk in bash: source <(fpgad_desk completion bash)
_fpgad_desk() {
  local word=${COMP_WORDS[COMP_CWORD]} options=
  if [ \"$COMP_CWORD\" -eq 1 ]; then
    COMPREPLY=($(compgen -W '";

/// From there to the options of each tool.
const BASH_CASES: &[u8] = b"help --help --version' -- \"$word\"))
    return
  fi
  case ${COMP_WORDS[1]} in
";

/// What comes after them.
const BASH_END: &[u8] = b"  esac
  case $word in
    -*) COMPREPLY=($(compgen -W \"$options --help\" -- \"$word\")) ;;
    *) COMPREPLY=($(compgen -f -- \"$word\")) ;;
  esac
}
complete -o filenames -F _fpgad_desk fpgad_desk
";

/// The script for zsh, up to the names of the tools.
const ZSH_NAMES: &[u8] = b"\
#compdef fpgad_desk
# Completes the tools and options of fpgad_desk in zsh.
_fpgad_desk() {
  local options=
  if (( CURRENT == 2 )); then
    compadd -- ";

/// From there to the options of each tool.
const ZSH_CASES: &[u8] = b"help --help --version
    return
  fi
  case $words[2] in
";

/// What comes after them.
const ZSH_END: &[u8] = b"  esac
  if [[ $PREFIX == -* ]]; then
    compadd -- ${=options} --help
  else
    _files
  fi
}
compdef _fpgad_desk fpgad_desk
";

/// The page of the manual, up to the sections of the tools.
const PAGE_HEAD: &[u8] = b"\
.TH fpgad_desk 1
.SH NAME
fpgad_desk \\- tools for fpgad: they write its scripts and read its output
.SH SYNOPSIS
.B fpgad_desk
.I TOOL
[options]
.PP
.B fpgad_desk help
.I TOOL
.SH STATUS
0 done; 1 a file could not be read or written, files found a refused line, or check or configure
found that the files do not implement the netlist; 2 the command line is wrong; 3 the input is
wrong (standard error names the line); 4 out of memory
";
