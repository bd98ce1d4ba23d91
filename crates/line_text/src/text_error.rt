//! Why a reader of a text has no value to return.
ghost use Rattle.line_text.specs.TextErrors.{IsToldAs};

use std::alloc::{AllocError, AllocFailed};
use std::error::Error;
use std::fmt;

/// Why a reader of a text has no value: memory ran out, or the text has a fault. Of several faults
/// it is the least.
#[derive(Debug, Drop, PartialEq, Eq)]
pub enum TextError<F> {
    NoMemory,
    Fault(F),
}

impl<F> TextError<F> {
    /// The error with its fault, if it is one, converted to another kind of fault.
    pub fn told_as<G: From<F>>(self) -> TextError<G>
        ensures { IsToldAs G.from_gives self result }
    {
        match self {
            TextError::NoMemory => TextError::NoMemory,
            TextError::Fault(fault) => TextError::Fault(G::from(fault)),
        }
    }
}

impl<F> From<AllocError> for TextError<F> {
    ghost use Rattle.std.specs.Prelude.{◌≡◌};
    ghost use Rattle.line_text.specs.declared.text_error.TextError.TheVariants.{NoMemory};

    ghost from_gives = { λ _ error. error ≡ NoMemory };

    fn from(_error: AllocError) -> Self {
        TextError::NoMemory
    }
}

impl<T: Drop, F> From<AllocFailed<T>> for TextError<F> {
    ghost use Rattle.std.specs.Prelude.{◌≡◌};
    ghost use Rattle.line_text.specs.declared.text_error.TextError.TheVariants.{NoMemory};

    ghost from_gives = { λ _ error. error ≡ NoMemory };

    fn from(_failed: AllocFailed<T>) -> Self {
        TextError::NoMemory
    }
}

impl<F: fmt::Display> fmt::Display for TextError<F> {
    ghost use Rattle.line_text.specs.TextErrors.{printed_error};

    ghost output = { λ error. printed_error F.output error };

    fn fmt<W: fmt::Write>(&self, f: &mut fmt::Formatter<W>) -> fmt::Result {
        match self {
            TextError::NoMemory => write!(f, "memory"),
            TextError::Fault(fault) => fault.fmt(f),
        }
    }
}

impl<F: fmt::Debug + fmt::Display + Drop> Error for TextError<F> {}
