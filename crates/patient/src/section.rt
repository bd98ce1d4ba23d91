//! The replies to the operator or a session.
use crate::again::TIMES;
use line_text::{Failed, Sink};
use std::alloc::{AllocError, Global};

/// The size of a section, in bytes.
const ROOM: usize = 4096;

/// The number of sections for which memory is reserved at the start.
const MOST: usize = 8;

/// A name's section: a sink of a fixed size, so that no allocation is refused while it is written.
#[derive(Drop)]
pub(crate) struct Section<'t> {
    pub name: &'t [u8],
    pub bytes: Vec<u8>,
    failed: bool,
}

impl<'t> Section<'t> {
    pub(crate) fn new(alloc: Global, name: &'t [u8]) -> Result<Self, AllocError> {
        let mut bytes = Vec::new(alloc);
        if bytes.reserve(ROOM).is_err() {
            bytes.reserve(ROOM)?;
        }
        Ok(Section {
            name,
            bytes,
            failed: false,
        })
    }
}

impl Sink for Section<'_> {
    ghost use Rattle.std.specs.Prelude.{Some};

    ghost contents = { λ s. Some s.bytes.items };

    ghost has_failed = { λ s. s.failed };

    fn write(&mut self, bytes: &[u8]) -> Result<usize, Failed> {
        if self.failed || self.bytes.extend_from_slice(bytes).is_err() {
            self.failed = true;
            return Err(Failed);
        }
        Ok(bytes.len())
    }
}

/// The operator's section, and each name's in the order of their first lines.
#[derive(Drop)]
pub(crate) struct Sections<'t> {
    alloc: Global,
    sections: Vec<Section<'t>>,
}

impl<'t> Sections<'t> {
    /// The operator's section alone.
    pub(crate) fn new(alloc: Global) -> Option<Self> {
        let mut sections = Vec::new(alloc);
        if sections.reserve(MOST).is_err() {
            sections.reserve(MOST).ok()?;
        }
        let mut all = Sections { alloc, sections };
        all.of(b"op")?;
        Some(all)
    }

    /// The section of that name; a new name gets the next free one.
    pub(crate) fn of(&mut self, name: &'t [u8]) -> Option<&mut Section<'t>> {
        let place = match self.sections.iter().position(|it| it.name == name) {
            Some(place) => place,
            None => {
                let section = Section::new(self.alloc, name).ok()?;
                self.sections.push(section).ok()?;
                self.sections.len() - 1
            }
        };
        self.sections.get_mut(place)
    }

    /// All sections, each after its name.
    pub(crate) fn whole_text(&self) -> Option<Vec<u8>> {
        for _ in 0..TIMES {
            if let Ok(whole) = self.whole_once() {
                return Some(whole);
            }
        }
        None
    }

    fn whole_once(&self) -> Result<Vec<u8>, AllocError> {
        let mut whole = Vec::new(self.alloc);
        for section in self.sections.iter() {
            whole.extend_from_slice(b"== ")?;
            whole.extend_from_slice(section.name)?;
            whole.push(b'\n')?;
            whole.extend_from_slice(section.bytes.as_slice())?;
        }
        Ok(whole)
    }
}
