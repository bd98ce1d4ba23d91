//! The input and the output of a tool.
ghost use Rattle.std.specs.Prelude.{◌≡◌, IfErr, IfOk, IfSome, MatchResult};
ghost use Rattle.desk_common.specs.Outcomes.{read_so};
ghost use Rattle.desk_common.specs.declared.outcome.Outcome.TheVariants.{NoMemory, OutputFailed};
ghost use Rattle.line_text.specs.Writing.{TakesAll};
ghost use Rattle.line_text.specs.declared.source.ReadError.{ReadError};

use crate::outcome::Outcome;
use line_text::{Sink, Source, read_all, write_all};
use std::alloc::{AllocError, Global};

/// All that is left of the input, or how the errand ends if it can't be read.
pub fn read_input<R: Source>(alloc: Global, reader: &mut R) -> Result<Vec<u8>, Outcome>
    ensures read { IfOk result (λ all.
        IfSome (R.remaining reader.old) (λ bytes. all.items ≡ bytes)) }
    ensures failed { IfErr result (λ outcome. (error : ReadError) × (outcome ≡ read_so error)) }
{
    match read_all(alloc, reader) {
        Ok(all) => Ok(all),
        Err(error) => Err(Outcome::of_reading(error)),
    }
}

/// Prints a text, if memory sufficed to make it.
pub fn print_text<W: Sink>(text: Result<Vec<u8>, AllocError>, writer: &mut W) -> Result<(), Outcome>
    ensures printed { IfOk result (λ _. MatchResult text
        (λ text. TakesAll W.contents W.has_failed writer.old writer.new text.items) (λ _. ⊥)) }
    ensures failed { IfErr result (λ outcome. MatchResult text
        (λ _. outcome ≡ OutputFailed) (λ _. outcome ≡ NoMemory)) }
{
    match text {
        Ok(text) => { write_all(writer, text.as_slice()).or(Err(Outcome::OutputFailed)) }
        Err(_) => Err(Outcome::NoMemory),
    }
}
