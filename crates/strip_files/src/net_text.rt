//! The `.net` file: the blocks, and the BLEs of each.
ghost use Rattle.std.specs.Prelude.{◌≡◌, ◌+◌, ◌++◌, ◌∷◌, [], length, true, false, IfOk, MatchOption, OnOk};
ghost use Rattle.strip_files.specs.BlockLines.{AreElementsNamed, IsBlockReadOn, IsElementReadOn, IsLineOfBlock, block_lines, block_start, listed_names};
ghost use Rattle.strip_files.specs.Prelude.{texts};
ghost use Rattle.strip_files.specs.EachLine.{AreEachFrom};
ghost use Rattle.strip_files.specs.Starts.{AddsTo, block_starts, is_block_line, is_element_line, listed_elements};

use crate::block::{BlockKind, ListedBlock};
use crate::fault::{Fault, File, FileFault, in_file};
use arch_file::MAX_PINS;
use line_text::{TextError, is_word, split_line};
use std::alloc::Global;
use text_parts::Scanner;

/// The largest number of blocks of a tenancy: a net of its own for each input and cluster, and an
/// output for each net.
const MAX_BLOCKS: usize = 16_384;

/// A pin with a net.
#[derive(Clone, Copy)]
pub(crate) struct ListedPin<'t> {
    /// The number of its block.
    pub(crate) block: usize,
    /// The number of its line.
    pub(crate) line: usize,
    /// The name of its net.
    pub(crate) name: &'t [u8],
}

/// The contents of a `.net` file.
#[derive(Drop)]
pub(crate) struct Listed<'t> {
    /// The pins with nets, block by block.
    pub(crate) pins: Vec<ListedPin<'t>>,
    pub(crate) blocks: Vec<ListedBlock<'t>>,
    /// The names of the BLEs, cluster by cluster.
    pub(crate) elements: Vec<&'t [u8]>,
}

impl<'t> Listed<'t> {
    /// Reads the lines of a `.net` file.
    pub(crate) fn read(alloc: Global, text: &'t [u8]) -> Result<Self, TextError<FileFault>>
        ensures starts { IfOk result (λ listed. listed_elements listed.blocks.items
            ≡ block_starts text.now) }
        ensures names { IfOk result (λ listed. AreEachFrom IsLineOfBlock 0 (block_lines text.now)
            (listed_names listed.blocks.items)) }
        ensures elements { IfOk result (λ listed.
            AreElementsNamed text.now listed.elements.items) }
    {
        let mut listed = Listed {
            pins: Vec::new(alloc),
            blocks: Vec::new(alloc),
            elements: Vec::new(alloc),
        };
        let mut number = 0usize;
        let mut rest = text;
        while !rest.is_empty() {
            let (line, later) = split_line(rest);
            number = number.saturating_add(1);
            if let Err(error) = listed.line(line, number) {
                return Err(in_file(error, File::Net, number));
            }
            rest = later;
        }
        Ok(listed)
    }

    /// Reads the line of that number.
    fn line(&mut self, line: &'t [u8], number: usize) -> Result<(), TextError<Fault>>
        ensures starts { OnOk result (AddsTo (is_element_line line.now) (is_block_line line.now)
            (length self.old.elements.items) (length self.new.elements.items)
            (listed_elements self.old.blocks.items) (listed_elements self.new.blocks.items)) }
        ensures names { OnOk result (IsBlockReadOn line.now self.old.blocks.items
            self.new.blocks.items) }
        ensures elements { OnOk result (IsElementReadOn line.now self.old.elements.items
            self.new.elements.items) }
    {
        let mut scanner = Scanner::new(line);
        if scanner.takes("subblock: ") {
            return self.element(scanner.word());
        }
        match take_kind(&mut scanner) {
            Some(kind) => self.block(kind, scanner.word()),
            None => self.read_other(line, number),
        }
    }

    /// Reads a line that is neither a BLE's nor the first one of a block.
    fn read_other(&mut self, line: &'t [u8], number: usize) -> Result<(), TextError<Fault>>
        ensures elements { self.new.elements.items ≡ self.old.elements.items }
        ensures blocks { self.new.blocks.items ≡ self.old.blocks.items }
    {
        let mut scanner = Scanner::new(line);
        if line.is_empty() || scanner.takes(".global ") {
            return Ok(());
        }
        if scanner.takes("pinlist:") {
            return self.pin_list(&mut scanner, number);
        }
        Err(TextError::Fault(Fault::UnknownLine))
    }

    /// Adds the pins of the last block that have nets.
    fn pin_list(&mut self, scanner: &mut Scanner<'t>, line: usize) -> Result<(), TextError<Fault>>
        ensures elements { self.new.elements.items ≡ self.old.elements.items }
        ensures blocks { self.new.blocks.items ≡ self.old.blocks.items }
    {
        let Some(block) = self.blocks.len().checked_sub(1) else {
            return Err(TextError::Fault(Fault::UnknownLine));
        };
        for _ in 0..MAX_PINS {
            if !scanner.takes(" ") {
                break;
            }
            let name = scanner.word();
            if !is_word(name, "open") {
                self.pins.push(ListedPin { block, line, name })?;
            }
        }
        if !scanner.is_done() {
            return Err(TextError::Fault(Fault::UnknownLine));
        }
        Ok(())
    }

    /// Adds a block of that kind and name.
    fn block(&mut self, kind: BlockKind, name: &'t [u8]) -> Result<(), TextError<Fault>>
        ensures elements { self.new.elements.items ≡ self.old.elements.items }
        ensures blocks { OnOk result (listed_elements self.new.blocks.items
            ≡ listed_elements self.old.blocks.items ++ length self.old.elements.items ∷ []) }
        ensures names { OnOk result (listed_names self.new.blocks.items
            ≡ listed_names self.old.blocks.items ++ (kind, name.now) ∷ []) }
    {
        if self.blocks.len() >= MAX_BLOCKS {
            return Err(TextError::Fault(Fault::OverLimit));
        }
        self.blocks.push(ListedBlock {
            kind,
            name,
            first_element: self.elements.len(),
        })?;
        Ok(())
    }

    /// Adds a BLE of that name to the last block, which must be a cluster.
    fn element(&mut self, name: &'t [u8]) -> Result<(), TextError<Fault>>
        ensures elements { OnOk result (length self.new.elements.items
            ≡ length self.old.elements.items + 1) }
        ensures names { OnOk result (texts self.new.elements.items
            ≡ texts self.old.elements.items ++ name.now ∷ []) }
        ensures blocks { self.new.blocks.items ≡ self.old.blocks.items }
    {
        match self.blocks.last() {
            Some(block) if block.kind == BlockKind::Cluster => {
                self.elements.push(name)?;
                Ok(())
            }
            _ => Err(TextError::Fault(Fault::UnknownLine)),
        }
    }
}

/// Reads the word for a kind of blocks; `None` if the line does not begin with one.
fn take_kind(scanner: &mut Scanner<'_>) -> Option<BlockKind>
    ensures { MatchOption result (is_block_line scanner.old ≡ false)
        (λ kind. (is_block_line scanner.old ≡ true)
        × (scanner.old ≡ block_start kind ++ scanner.new)) }
{
    if scanner.takes(".input ") {
        return Some(BlockKind::InputPad);
    }
    if scanner.takes(".output ") {
        return Some(BlockKind::OutputPad);
    }
    scanner.takes(".clb ").then_some(BlockKind::Cluster)
}
