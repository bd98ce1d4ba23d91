//! The values that the words give to the options.
ghost use Rattle.std.specs.Prelude.{◌≡◌, IfErr, IfOk, None, Some, codes, option_map};
ghost use Rattle.option_words.specs.Values.{is_given, number_of, text_of};

use crate::declared::OptionWord;
use clap::ArgMatches;
use line_text::{decimal_u32, decimal_u64};
use std::alloc::{AllocError, Global};

/// Why a number is refused that clap accepts.
const SIGNED: &str = "a number has a sign";

/// The text of an option without a value, if it is given.
const GIVEN: &str = "true";

/// The value of an option.
#[derive(Clone, Copy)]
struct Value<'a> {
    name: &'a str,
    text: &'a str,
}

/// The values of a program's options: those that its words give, and the defaults of the others.
#[derive(Drop)]
pub struct Given<'a> {
    values: Vec<Value<'a>>,
}

impl<'a> Given<'a> {
    /// The values that clap found for these options.
    pub(crate) fn new(
        alloc: Global,
        options: &[OptionWord],
        matches: &ArgMatches<'a>,
    ) -> Result<Self, AllocError> {
        let mut values = Vec::new(alloc);
        for option in options {
            if let Some(text) = matches.get_str(option.name) {
                values.push(Value {
                    name: option.name,
                    text,
                })?;
            }
        }
        Ok(Given { values })
    }

    /// The text of an option. `None` if it has no value.
    pub fn text(&self, name: &str) -> Option<&'a str>
        ensures { option_map (λ text. text.now) result ≡ text_of self.now name.now }
    {
        let value = self.values.iter().find(|value| value.name == name)?;
        Some(value.text)
    }

    /// Whether an option without a value is given.
    pub fn is_given(&self, name: &str) -> bool
        ensures { result ≡ is_given self.now name.now }
    {
        match self.text(name) {
            Some(text) => text == GIVEN,
            None => false,
        }
    }

    /// The value of an option that takes a number of 32 bits, or why the words are refused.
    pub fn number(&self, name: &str) -> Result<u32, &'static str>
        ensures told { IfOk result (λ number. number_of 32 self.now name.now ≡ Some number) }
        ensures none { IfErr result (λ _. number_of 32 self.now name.now ≡ None) }
        ensures why { IfErr result (λ why. why.now ≡ codes "a number has a sign") }
    {
        match self.text(name) {
            Some(text) => decimal_u32(text.as_bytes()).ok_or(SIGNED),
            None => Err(SIGNED),
        }
    }

    /// The value of an option that takes a number of 64 bits, or why the words are refused.
    pub fn long_number(&self, name: &str) -> Result<u64, &'static str>
        ensures told { IfOk result (λ number. number_of 64 self.now name.now ≡ Some number) }
        ensures none { IfErr result (λ _. number_of 64 self.now name.now ≡ None) }
        ensures why { IfErr result (λ why. why.now ≡ codes "a number has a sign") }
    {
        match self.text(name) {
            Some(text) => decimal_u64(text.as_bytes()).ok_or(SIGNED),
            None => Err(SIGNED),
        }
    }
}
