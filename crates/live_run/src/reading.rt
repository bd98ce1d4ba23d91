//! The command line that words give.
ghost use Rattle.std.specs.Prelude.{MatchResult, Option, ℕ};
ghost use Rattle.live_run.specs.Lines.{AreOptionsOf, IsToldOf};
ghost use Rattle.live_run.specs.declared.options.Options.{Options};

use crate::options::{CommandLine, Options, PROGRAM};
use clap::Error;
use option_words::{Given, read_words, refusal};
use std::alloc::Global;
use std::convert::AsStr;

const BEYOND: &str = "a number is beyond its limits";

const NO_ARCH: &str = "--arch FILE is missing";

const NO_LOG: &str = "--told N needs --log FILE";

const NOTHING_TO_FOLLOW: &str = "--follow needs --log FILE";

const TOLD_TWICE: &str = "--follow and --told N exclude each other";

/// The options that these words give, the first being the program's name. An error is clap's; a
/// request for help is one.
pub fn read_options<'a, S: AsStr>(alloc: Global, words: &'a [S]) -> Result<CommandLine<'a>, Error> {
    let given = read_words(alloc, &PROGRAM, words)?;
    match CommandLine::of(&given) {
        Ok(line) => Ok(line),
        Err(why) => Err(refusal(alloc, &PROGRAM, words, why)),
    }
}

impl<'a> CommandLine<'a> {
    ghost use Rattle.std.specs.Prelude.{MatchResult};
    ghost use Rattle.live_run.specs.Lines.{IsLineOf};
    ghost use Rattle.live_run.specs.declared.options.CommandLine.{CommandLine};

    /// The command line that the options give, or why they are refused.
    fn of(given: &Given<'a>) -> Result<Self, &'static str>
        ensures { MatchResult result (IsLineOf given.now)
            (λ _. (line : CommandLine) → IsLineOf given.now line → ⊥) }
    {
        let told = told_of(given)?;
        let log = given.text("log");
        if told.is_some() && log.is_none() {
            return Err(NO_LOG);
        }
        let follows = given.is_given("follow");
        if follows && log.is_none() {
            return Err(NOTHING_TO_FOLLOW);
        }
        if follows && told.is_some() {
            return Err(TOLD_TWICE);
        }
        Ok(CommandLine {
            options: options_of(given)?,
            arch: given.text("arch").ok_or(NO_ARCH)?,
            log,
            told,
            workers: given.number("workers")?,
            ready: given.is_given("ready"),
            follows,
        })
    }
}

/// The sizes that the options give, and what a tenancy's journal may hold.
fn options_of(given: &Given<'_>) -> Result<Options, &'static str>
    ensures { MatchResult result (AreOptionsOf given.now)
        (λ _. (options : Options) → AreOptionsOf given.now options → ⊥) }
{
    let tracks = given.number("tracks")?;
    let columns = given.number("columns")?;
    let rows = given.number("rows")?;
    let options = Options::new(tracks, columns, rows).ok_or(BEYOND)?;
    let tenant_memory = given.number("tenant-memory")?;
    options.with_tenant_memory(tenant_memory).ok_or(BEYOND)
}

/// The line of the log after which replies are written, if the options give one.
fn told_of(given: &Given<'_>) -> Result<Option<u64>, &'static str>
    ensures { MatchResult result (IsToldOf given.now)
        (λ _. (told : Option ℕ) → IsToldOf given.now told → ⊥) }
{
    match given.text("told") {
        Some(_) => Ok(Some(given.long_number("told")?)),
        None => Ok(None),
    }
}
