//! Reads a device file.
ghost use Rattle.std.specs.Prelude.{◌≡◌, ◌<◌, ◌^◌, length};
ghost use Rattle.line_text.specs.Words.{texts};
ghost use Rattle.device_file.specs.DeviceFiles.{line_read, is_given, option_read, value_read, values_in, word_read, words_read};
ghost use Rattle.device_file.specs.Reading.{Gives, IsStep, Refuses, read_of};

use crate::fault::{DeviceFileError, DeviceFileFault, FaultKind};
use crate::names::{begins_comment, is_no_value, is_option, is_text, is_value, split_value};
use line_text::{append_words, split_line};
use std::alloc::Global;

/// An option of a device, and its value.
#[derive(Clone, Copy)]
pub struct OptionValue<'t> {
    /// The option's name, with its two dashes.
    pub name: &'t [u8],
    pub text: &'t [u8],
    /// The number of its line, from 1.
    pub line: u32,
}

/// An option whose value is still to come.
#[derive(Clone, Copy)]
struct Awaited<'t> {
    name: &'t [u8],
    line: u32,
}

/// What was read so far.
#[derive(Drop)]
struct Reader<'t> {
    values: Vec<OptionValue<'t>>,
    awaited: Option<Awaited<'t>>,
}

/// The refusal of a word, or of a line that is no text.
fn refusal<'t>(line: u32, kind: FaultKind, word: &'t [u8]) -> DeviceFileError<'t>
    ensures { Refuses line kind word.now result }
{
    DeviceFileError::Fault(DeviceFileFault { line, kind, word })
}

impl<'t> Reader<'t> {
    /// Reads a line, which has that number.
    fn line(
        &mut self,
        alloc: Global,
        line: &'t [u8],
        number: u32,
    ) -> Result<(), DeviceFileError<'t>>
        ensures { IsStep (line_read (read_of self.old) line.now number) (read_of self.new) result }
    {
        if !is_text(line) {
            return Err(refusal(number, FaultKind::NotText, b""));
        }
        let mut words = Vec::new(alloc);
        match append_words(&mut words, line) {
            Ok(()) => self.words(&words, number),
            Err(_) => Err(DeviceFileError::NoMemory),
        }
    }

    /// Reads the words of a line, up to its comment.
    fn words(&mut self, words: &[&'t [u8]], line: u32) -> Result<(), DeviceFileError<'t>>
        ensures { IsStep (words_read (texts words.now) (read_of self.old) line)
            (read_of self.new) result }
    {
        for word in words {
            if begins_comment(word) {
                return Ok(());
            }
            if let Err(error) = self.word(word, line) {
                return Err(error);
            }
        }
        Ok(())
    }

    /// Reads a word: an option, or the value of the one before it.
    fn word(&mut self, word: &'t [u8], line: u32) -> Result<(), DeviceFileError<'t>>
        ensures { IsStep (word_read (read_of self.old) word.now line) (read_of self.new) result }
    {
        match self.awaited {
            Some(awaited) => self.value(awaited.name, word, awaited.line),
            None => self.option(word, line),
        }
    }

    /// Reads an option, with its value if that follows an `=`.
    fn option(&mut self, word: &'t [u8], line: u32) -> Result<(), DeviceFileError<'t>>
        ensures { IsStep (option_read (read_of self.old) word.now line) (read_of self.new) result }
    {
        let (name, text) = split_value(word);
        if !is_option(name) {
            return Err(refusal(line, FaultKind::NotAnOption, word));
        }
        if self.is_given(name) {
            return Err(refusal(line, FaultKind::Repeated, name));
        }
        match text {
            Some(text) => self.value(name, text, line),
            None => {
                self.awaited = Some(Awaited { name, line });
                Ok(())
            }
        }
    }

    /// Returns whether an option was read already.
    fn is_given(&self, name: &[u8]) -> bool
        ensures { result ≡ is_given (read_of self.now).values name.now }
    {
        self.values.iter().any(|value| value.name == name)
    }

    /// Reads the value of an option.
    fn value(
        &mut self,
        name: &'t [u8],
        text: &'t [u8],
        line: u32,
    ) -> Result<(), DeviceFileError<'t>>
        ensures { IsStep (value_read (read_of self.old) name.now text.now line)
            (read_of self.new) result }
    {
        if is_no_value(text) {
            return Err(refusal(line, FaultKind::NoValue, name));
        }
        if !is_value(name, text) {
            return Err(refusal(line, FaultKind::NotANumber, text));
        }
        match self.values.push(OptionValue { name, text, line }) {
            Ok(()) => {
                self.awaited = None;
                Ok(())
            }
            Err(_) => Err(DeviceFileError::NoMemory),
        }
    }
}

/// The options of a device file and their values, in the file's order. Fails with the first fault
/// of the file, or if memory runs out.
pub fn read_device_file(
    alloc: Global,
    text: &[u8],
) -> Result<Vec<OptionValue<'_>>, DeviceFileError<'_>>
    requires { length text.now < 2 ^ 32 }
    ensures { Gives (values_in text.now) result }
{
    let mut reader = Reader {
        values: Vec::new(alloc),
        awaited: None,
    };
    let mut rest = text;
    let mut number = 0;
    while !rest.is_empty() {
        let (line, later) = split_line(rest);
        number += 1;
        if let Err(error) = reader.line(alloc, line, number) {
            return Err(error);
        }
        rest = later;
    }
    match reader.awaited {
        Some(awaited) => Err(refusal(awaited.line, FaultKind::NoValue, awaited.name)),
        None => Ok(reader.values),
    }
}
