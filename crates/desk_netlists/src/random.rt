//! The tool that prints a script with random circuits.
ghost use Rattle.std.specs.Prelude.{◌≡◌, ◌≢◌, Some, codes, IfNone, IfOk, IfSome, OnErr};
ghost use Rattle.desk_netlists.specs.Prelude.{text_of, HavePlan, LoadParameters, Phase};
ghost use Rattle.desk_netlists.specs.Asked.{IsLoadAskedFor, IsRandomAskedFor, word_of};

use arch_file::{MAX_CLUSTER_SIZE, MAX_LUT_SIZE};
use desk_common::Outcome;
use line_text::Sink;
use option_words::{Given, OptionWord, Program, Takes};
use random_script::{LoadParameters, MAX_TABLES, Phase, Plan, write_netlist, write_script};

const NO_ROOM: &str =
    "the tenancies do not fit on the largest device: ask for fewer tenancies or fewer tables";

const NO_PHASE: &str = "unknown phase";

/// The tool and its options.
pub const TOOL: Program = Program {
    name: "random",
    about: "Prints a script for fpgad with random circuits, for measurements",
    after_help: "The first line of the script is a comment with the options for fpgad. Example: fpgad_desk random --tables 60 > my.script && fpgad $(head -n 1 my.script | cut -c 9-) < my.script",
    options: &[
        OptionWord {
            name: "tables",
            value_name: "N",
            help: "Lookup tables in each circuit, 1 to 7500",
            takes: Takes::Number(1, MAX_TABLES),
            default: Some("400"),
        },
        OptionWord {
            name: "tenancies",
            value_name: "T",
            help: "Tenancies, each with its own circuit, 1 to 64",
            takes: Takes::Number(1, 64),
            default: Some("1"),
        },
        OptionWord {
            name: "inputs",
            value_name: "K",
            help: "Inputs of a lookup table, 1 to 8",
            takes: Takes::Number(1, MAX_LUT_SIZE),
            default: Some("4"),
        },
        OptionWord {
            name: "cluster",
            value_name: "C",
            help: "Lookup tables in a cluster, 1 to 16",
            takes: Takes::Number(1, MAX_CLUSTER_SIZE),
            default: Some("1"),
        },
        OptionWord {
            name: "seed",
            value_name: "S",
            help: "Seed of the random numbers, 0 to 18446744073709551615",
            takes: Takes::Long,
            default: Some("1"),
        },
        OptionWord {
            name: "until",
            value_name: "PHASE",
            help: "The last phase that the tenants request",
            takes: Takes::Word(&["reading", "packing", "placing", "routing"]),
            default: Some("routing"),
        },
        OptionWord {
            name: "blif",
            value_name: "",
            help: "Prints the netlist of the first circuit alone",
            takes: Takes::Nothing,
            default: None,
        },
    ],
};

/// What is printed of a plan.
#[derive(Clone, Copy)]
pub struct RandomWishes {
    plan: Plan,
    /// Whether the netlist is printed alone, without the script around it.
    is_alone: bool,
}

/// What the options ask for, or why they are refused.
pub fn wishes_of(given: &Given<'_>) -> Result<RandomWishes, &'static str>
    ensures asked { IfOk result (IsRandomAskedFor given.now) }
    ensures refused { OnErr result ((wishes : RandomWishes) → IsRandomAskedFor given.now wishes → ⊥) }
{
    Ok(RandomWishes {
        plan: plan_of(given)?,
        is_alone: given.is_given("blif"),
    })
}

/// Prints the script, or the netlist alone.
pub fn print<W: Sink>(wishes: RandomWishes, writer: &mut W) -> Outcome {
    let written = if wishes.is_alone {
        write_netlist(writer, wishes.plan)
    } else {
        write_script(writer, wishes.plan)
    };
    Outcome::of_writing(written)
}

/// The plan that the options give, or why they are refused.
fn plan_of(given: &Given<'_>) -> Result<Plan, &'static str>
    ensures asked { IfOk result (λ plan. IsLoadAskedFor given.now plan.wishes) }
    ensures room { IfOk result (λ plan. HavePlan plan.wishes) }
    ensures refused { OnErr result ((load : LoadParameters) → IsLoadAskedFor given.now load →
        HavePlan load → ⊥) }
{
    let load = load_of(given)?;
    Plan::new(load).ok_or(NO_ROOM)
}

/// The parameters of the script that the options give, or why they are refused.
fn load_of(given: &Given<'_>) -> Result<LoadParameters, &'static str>
    ensures asked { IfOk result (IsLoadAskedFor given.now) }
    ensures only { IfOk result (λ load. (other : LoadParameters) → IsLoadAskedFor given.now other →
        other ≡ load) }
    ensures refused { OnErr result ((load : LoadParameters) → IsLoadAskedFor given.now load → ⊥) }
{
    Ok(LoadParameters {
        tables: given.number("tables")?,
        tenancies: given.number("tenancies")?,
        inputs: given.number("inputs")?,
        cluster: given.number("cluster")?,
        seed: given.long_number("seed")?,
        until: until_of(given)?,
    })
}

/// The last phase that the options give, or why they are refused.
fn until_of(given: &Given<'_>) -> Result<Phase, &'static str>
    ensures asked { IfOk result (λ until. text_of given.now (codes "until") ≡ Some (word_of until)) }
    ensures refused { OnErr result ((until : Phase) →
        text_of given.now (codes "until") ≢ Some (word_of until)) }
{
    match given.text("until") {
        Some(word) => phase(word).ok_or(NO_PHASE),
        None => Err(NO_PHASE),
    }
}

/// The phase with this name, if there is one.
fn phase(word: &str) -> Option<Phase>
    ensures some { IfSome result (λ until. word.now ≡ word_of until) }
    ensures none { IfNone result ((until : Phase) → word.now ≢ word_of until) }
{
    match word {
        "reading" => Some(Phase::Reading),
        "packing" => Some(Phase::Packing),
        "placing" => Some(Phase::Placing),
        "routing" => Some(Phase::Routing),
        _ => None,
    }
}
