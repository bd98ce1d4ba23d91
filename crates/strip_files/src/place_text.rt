//! The `.place` file: the size of the strip, and the places of its blocks.
ghost use Rattle.std.specs.Prelude.{◌+◌, ◌-◌, ◌≡◌, ◌≤◌, ◌++◌, ◌∷◌, ℕ, List, [], length, map, true, is_some, nat_lt, IfOk, IfSome, OnOk};
ghost use Rattle.strip_files.specs.Prelude.{MAX_COLUMNS, MAX_ROWS, Place, is_no_digit};
ghost use Rattle.strip_files.specs.BlockLines.{AreFirst, listed_of};
ghost use Rattle.strip_files.specs.Fronts.{Stops};
ghost use Rattle.strip_files.specs.PlaceLines.{HavePlaces, IsLineOfPlace, IsPlaceLine, IsPlaceReadOn, is_place_line, places_of};
ghost use Rattle.strip_files.specs.SizeLines.{IsSizeRead, IsWithin, size_line};

use crate::block::{ListedBlock, PlacedBlock};
use crate::fault::{Fault, File, FileFault, in_file};
use crate::size::StripSize;
use arch_file::MAX_IO_RAT;
use grid::Place;
use line_text::{TextError, split_line};
use std::alloc::Global;
use text_parts::Scanner;

/// The contents of a `.place` file.
#[derive(Drop)]
pub(crate) struct Placed<'t> {
    /// The size in its second line.
    pub(crate) size: Option<StripSize>,
    pub(crate) blocks: Vec<PlacedBlock<'t>>,
}

impl<'t> Placed<'t> {
    /// Reads the lines of a `.place` file, whose blocks must be the listed ones: the strip's size,
    /// and the blocks.
    pub(crate) fn read(
        alloc: Global,
        text: &[u8],
        listed: &[ListedBlock<'t>],
    ) -> Result<(StripSize, Vec<PlacedBlock<'t>>), TextError<FileFault>>
        ensures listed { IfOk result (λ found. map listed_of found.1.items ≡ listed.now) }
        ensures places { IfOk result (λ found. HavePlaces text.now found.1.items) }
    {
        let mut placed = Placed {
            size: None,
            blocks: Vec::new(alloc),
        };
        let mut number = 0usize;
        let mut rest = text;
        while !rest.is_empty() {
            let (line, later) = split_line(rest);
            number = number.saturating_add(1);
            if let Err(error) = placed.line(line, number, listed) {
                return Err(in_file(error, File::Place, number));
            }
            rest = later;
        }
        let Placed { size, blocks } = placed;
        match size {
            Some(size) if blocks.len() >= listed.len() => Ok((size, blocks)),
            _ => Err(in_file(TextError::Fault(Fault::Unfinished), File::Place, number)),
        }
    }

    /// Reads the line of that number.
    fn line(
        &mut self,
        line: &[u8],
        number: usize,
        listed: &[ListedBlock<'t>],
    ) -> Result<(), TextError<Fault>>
        requires listed { AreFirst listed.now self.old.blocks.items }
        requires sized { (1 ≤ number) × (is_some self.old.size ≡ nat_lt 2 number) }
        ensures listed { OnOk result (AreFirst listed.now self.new.blocks.items) }
        ensures places { OnOk result (IsPlaceReadOn (number - 1) line.now self.old.blocks.items
            self.new.blocks.items) }
        ensures sized { OnOk result (is_some self.new.size ≡ nat_lt 1 number) }
    {
        match (number, self.size) {
            (1, _) if line.starts_with(b"Netlist file: ") => Ok(()),
            (1, _) => Err(TextError::Fault(Fault::UnknownLine)),
            (_, None) => {
                let Some(size) = size_in(line, " logic blocks") else {
                    return Err(TextError::Fault(Fault::BadSize));
                };
                self.size = Some(size);
                Ok(())
            }
            (_, Some(size)) if has_block(line) => self.block(size, line, listed),
            (_, Some(_)) => Ok(()),
        }
    }

    /// Reads the line of a block on a strip of that size.
    fn block(
        &mut self,
        size: StripSize,
        line: &[u8],
        listed: &[ListedBlock<'t>],
    ) -> Result<(), TextError<Fault>>
        requires listed { AreFirst listed.now self.old.blocks.items }
        ensures listed { OnOk result (AreFirst listed.now self.new.blocks.items) }
        ensures place { OnOk result ((block : List ℕ × Place)
            × (places_of self.new.blocks.items ≡ places_of self.old.blocks.items ++ block ∷ [])
            × IsLineOfPlace (length (places_of self.old.blocks.items)) line.now block) }
        ensures size { self.new.size ≡ self.old.size }
    {
        let Some((name, place, number)) = place_in(line) else {
            return Err(TextError::Fault(Fault::BadBlock));
        };
        if number as usize != self.blocks.len() {
            return Err(TextError::Fault(Fault::OutOfOrder));
        }
        let block = match listed.get(self.blocks.len()) {
            Some(block) if block.name == name => *block,
            _ => return Err(TextError::Fault(Fault::OtherBlock)),
        };
        if !is_there(size, place) {
            return Err(TextError::Fault(Fault::NotThere));
        }
        self.blocks.push(PlacedBlock {
            kind: block.kind,
            name: block.name,
            first_element: block.first_element,
            place,
        })?;
        Ok(())
    }
}

/// Returns whether a strip of that size has the place.
fn is_there(size: StripSize, place: Place) -> bool
    ensures column { result ≡ true → place.x ≤ MAX_COLUMNS }
    ensures row { result ≡ true → place.y ≤ MAX_ROWS + 1 }
    ensures pad { result ≡ true → place.subblock ≤ 7 }
{
    let logic = size.has_block(place.x, place.y) && place.subblock == 0;
    let pads = size.has_pads(place.x, place.y) && place.subblock < MAX_IO_RAT;
    logic || pads
}

/// Whether a line after the size has a block: it is not empty, and no comment.
fn has_block(line: &[u8]) -> bool
    ensures { result ≡ is_place_line line.now }
{
    !line.is_empty() && line[0] != b'#'
}

/// The name, the place and the number of a block's line: `NAME COLUMN ROW PAD #NUMBER`.
fn place_in(line: &[u8]) -> Option<(&[u8], Place, u32)>
    ensures { IfSome result (λ found. IsPlaceLine found.2 line.now found.0.now found.1) }
{
    let mut scanner = Scanner::new(line);
    let name = scanner.word();
    scanner.text(" ")?;
    let x = scanner.number()?;
    scanner.text(" ")?;
    let y = scanner.number()?;
    scanner.text(" ")?;
    let subblock = scanner.number()?;
    scanner.text(" #")?;
    let number = scanner.number()?;
    if !scanner.is_done() {
        return None;
    }
    Some((name, Place { x, y, subblock }, number))
}

/// The size in a line `Array size: COLUMNS x ROWS` with these words at its end.
pub fn size_in(line: &[u8], end: &str) -> Option<StripSize>
    ensures { IsSizeRead line.now end.now result }
{
    let (is_size, columns, rows) = size_words(line, end);
    if !is_size {
        return None;
    }
    StripSize::new(columns, rows)
}

/// Whether the line has that form, its columns, and its rows. A number that can't be read is 0.
fn size_words(line: &[u8], end: &str) -> (bool, u32, u32)
    ensures { (columns rows : ℕ) → IsWithin columns rows → Stops is_no_digit end.now
        → line.now ≡ size_line columns rows end.now → result ≡ (true, columns, rows) }
{
    let mut scanner = Scanner::new(line);
    let begins = scanner.takes("Array size: ");
    let columns = scanner.number();
    let has_cross = scanner.takes(" x ");
    let rows = scanner.number();
    let has_end = scanner.takes(end);
    let is_size = begins & has_cross & has_end & scanner.is_done();
    (is_size, columns.unwrap_or(0), rows.unwrap_or(0))
}
