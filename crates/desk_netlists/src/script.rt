//! The tool that prints the script of a tenancy.
ghost use Rattle.std.specs.Prelude.{ℕ, Option, codes, IfOk, OnErr};
ghost use Rattle.desk_netlists.specs.Prelude.{IsNumberIn};
ghost use Rattle.desk_netlists.specs.Asked.{IsScriptAskedFor};
ghost use Rattle.desk_netlists.specs.Scripts.{Prints};

use desk_common::{EFFORT, Outcome, SEED};
use line_text::Sink;
use option_words::{Given, OptionWord, Program, Takes};
use script_text::is_name;
use tenancy_script::{ScriptParameters, TenancyScript};

const NO_NAME: &str = "a name is 1 to 32 letters, digits and `_`";

/// The tool and its options.
pub const TOOL: Program = Program {
    name: "script",
    about: "Prints a script for one tenancy with the netlist on standard input: op admit, upload, pack, wait, place, wait, route, wait, net, placefile, routefile",
    after_help: "\
A netlist with a line `.`, or of more than 1048576 bytes, is refused with that line and status 3. Any other text is safe:
appended to a script, it adds one upload of this text and the commands above, and nothing else.
Each latch without a clock gets a warning on standard error, as do an empty netlist, a net called `open`, and tables that drive nothing.

Example: fpgad_desk script --name T --width 2 --seed 1 --effort 50 < t.blif >> my.script",
    options: &[
        OptionWord {
            name: "name",
            value_name: "NAME",
            help: "The tenancy's name, 1 to 32 letters, digits and `_`",
            takes: Takes::GivenText,
            default: None,
        },
        OptionWord {
            name: "width",
            value_name: "COLUMNS",
            help: "The columns of its strip, 1 to 256; without this option there is no line `op admit`",
            takes: Takes::Number(1, 256),
            default: None,
        },
        SEED,
        EFFORT,
    ],
};

/// What the options ask for, or why they are refused.
pub fn wishes_of<'a>(given: &Given<'a>) -> Result<ScriptParameters<'a>, &'static str>
    ensures asked { IfOk result (IsScriptAskedFor given.now) }
    ensures refused { OnErr result ((wishes : ScriptParameters) →
        IsScriptAskedFor given.now wishes → ⊥) }
{
    let name = given.text("name").ok_or(NO_NAME)?.as_bytes();
    if !is_name(name) {
        return Err(NO_NAME);
    }
    Ok(ScriptParameters {
        name,
        width: width_of(given)?,
        seed: given.long_number("seed")?,
        effort: given.number("effort")?,
    })
}

/// The width, if one is given.
fn width_of(given: &Given<'_>) -> Result<Option<u32>, &'static str>
    ensures asked { IfOk result (IsNumberIn given.now (codes "width")) }
    ensures refused { OnErr result ((width : Option ℕ) →
        IsNumberIn given.now (codes "width") width → ⊥) }
{
    match given.text("width") {
        Some(_) => Ok(Some(given.number("width")?)),
        None => Ok(None),
    }
}

/// Prints the script of a tenancy with that netlist, or refuses it.
pub fn print<W: Sink>(wishes: ScriptParameters<'_>, text: &[u8], writer: &mut W) -> Outcome
    ensures { Prints W.contents W.has_failed writer.old writer.new wishes.entry text.now result }
{
    match TenancyScript::new(wishes, text) {
        Ok(script) => Outcome::of_writing(script.write(writer)),
        Err(fault) => Outcome::TextRefused(fault),
    }
}
