//! The text that each name's session is in.
ghost use Rattle.std.specs.Prelude.{◌≡◌, ◌<◌, ◌+◌, ◌⊎◌, ◌&&◌, List, ℕ, length, is_some, IfOk, OnOk};
ghost use Rattle.live_lines.specs.Prelude.{number_of};
ghost use Rattle.live_lines.specs.Ends.{EndsLast, IsWithin};
ghost use Rattle.live_lines.specs.Said.{HearsLine, IsEven, no_texts, text_in, texts_of};

use line_text::NameSet;
use script_text::is_name;
use sessions::{SessionLine, SessionReader};
use std::alloc::{AllocError, Global};

/// The names that have said something, each with the reader of its session. A name is kept to the
/// program's end.
#[derive(Drop)]
pub struct Said {
    alloc: Global,
    names: NameSet<'static>,
    readers: Vec<SessionReader>,
}

/// What is known of the last name at the input's end.
#[derive(Clone, Copy)]
pub(crate) enum LastName {
    /// No name is left.
    Missing,
    /// It is in no text.
    Finished,
    /// Its text has no end.
    Unfinished(&'static [u8]),
}

impl Said {
    /// The names, and the reader of each one's session, by number.
    pub fn into_readers(self) -> (NameSet<'static>, Vec<SessionReader>)
        ensures texts { text_in result.0 result.1.items ≡ texts_of self }
        ensures even { IsEven self → length result.1.items ≡ length result.0 }
    {
        let Said {
            alloc: _,
            names,
            readers,
        } = self;
        (names, readers)
    }

    /// No name has said anything.
    pub(crate) fn new(alloc: Global) -> Self
        ensures even { IsEven result }
        ensures texts { texts_of result ≡ no_texts }
    {
        Said {
            alloc,
            names: NameSet::new(alloc),
            readers: Vec::new(alloc),
        }
    }

    /// Takes a line of that name's session, and returns the item that ends with it, if one does.
    ///
    /// # Errors
    /// `AllocError` if it runs out of memory.
    pub(crate) fn hear(
        &mut self,
        name: &[u8],
        line: &[u8],
    ) -> Result<Option<SessionLine>, AllocError>
        requires { IsEven self.old }
        ensures even { OnOk result (IsEven self.new) }
        ensures hears { IfOk result (λ item.
            HearsLine (texts_of self.old) name.now line.now item (texts_of self.new)) }
    {
        let number = self.number_for(name)?;
        self.readers[number].take_line(line)
    }

    /// Whether that name is in a text.
    pub(crate) fn is_in_text(&self, name: &[u8]) -> bool
        requires { IsEven self.now }
        ensures { result ≡ is_some (texts_of self.now name.now) }
    {
        let number = self.names.number(name);
        number < self.readers.len() && self.readers[number].is_in_text()
    }

    /// The number of the name, which has a reader from now on.
    fn number_for(&mut self, name: &[u8]) -> Result<usize, AllocError>
        requires { IsEven self.old }
        ensures even { OnOk result (IsEven self.new) }
        ensures number { IfOk result (λ number. number ≡ number_of self.new.names name.now) }
        ensures within { IfOk result (λ number. number < length self.new.readers.items) }
        ensures texts { OnOk result ((other : List ℕ) →
            texts_of self.new other ≡ texts_of self.old other) }
    {
        let number = self.names.number(name);
        if number < self.readers.len() {
            return Ok(number);
        }
        let kept: &'static [u8] = Vec::from_slice(self.alloc, name)?.leak();
        self.readers.reserve(1)?;
        let number = self.names.add_numbered(kept)?;
        self.readers.push(SessionReader::new(self.alloc)).unwrap();
        Ok(number)
    }

    /// Removes the reader of the last name, and returns that name if its text has no end.
    pub(crate) fn end_last(&mut self) -> LastName
        requires { IsWithin self.old }
        ensures ends { EndsLast self.old result self.new }
        ensures within { IsWithin self.new }
        ensures shorter { (result ≡ LastName.Missing) ⊎ (length self.new.readers.items + 1
            ≡ length self.old.readers.items) }
    {
        match self.readers.pop() {
            None => LastName::Missing,
            Some(reader) => {
                let has_text = has_text(reader);
                let number = self.readers.len();
                let name = self.names.name(number);
                let is_first = self.names.number(name) == number;
                if are_all(has_text, is_name(name), is_first) {
                    LastName::Unfinished(name)
                } else {
                    LastName::Finished
                }
            }
        }
    }
}

/// Whether all three are so.
fn are_all(first: bool, second: bool, third: bool) -> bool
    ensures { result ≡ (first && second && third) }
{
    first && second && third
}

/// Whether the reader is in a text.
fn has_text(reader: SessionReader) -> bool
    ensures { result ≡ is_some reader }
{
    match reader.finish() {
        Some(item) => {
            drop(item);
            true
        }
        None => false,
    }
}
