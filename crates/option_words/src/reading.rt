//! Reads the words of a program.
use crate::declared::{Program, command};
use crate::given::Given;
use clap::Error;
use clap::error::ErrorKind;
use std::alloc::Global;
use std::convert::AsStr;

/// The values that a program's words give to its options; the first word is the program's name. An
/// error is clap's: the words are refused, or ask for help.
pub fn read_words<'a, S: AsStr>(
    alloc: Global,
    program: &Program,
    words: &'a [S],
) -> Result<Given<'a>, Error> {
    let mut command = command(alloc, program)?;
    let matches = command.try_get_matches_from_mut(words)?;
    Ok(Given::new(alloc, program.options, &matches)?)
}

/// The refusal of words that could be parsed, in the form of clap's own errors.
pub fn refusal<'a, S: AsStr>(alloc: Global, program: &Program, words: &'a [S], why: &str) -> Error {
    match refused_by(alloc, program, words, why) {
        Ok(refusal) => refusal,
        Err(error) => error,
    }
}

/// Builds that refusal with a clap command, which learns from the words how it is called. Returns
/// an error if memory runs out.
fn refused_by<'a, S: AsStr>(
    alloc: Global,
    program: &Program,
    words: &'a [S],
    why: &str,
) -> Result<Error, Error> {
    let mut command = command(alloc, program)?;
    drop(command.try_get_matches_from_mut(words)?);
    Ok(command.error(ErrorKind::ValueValidation, why)?)
}
