//! A line that is being read.
ghost use Rattle.std.specs.Prelude.{◌≡◌, ◌++◌, [], ℕ, List, IfOk, take};
ghost use Rattle.line_feed.specs.Pieces.{IsKept, kept_of};

use std::alloc::{AllocError, Global};
use std::marker::Model;

/// How many bytes of a line are kept: the first 1,048,577 bytes of a line of a text, and room for
/// a tag before them.
pub const MAX_FED_LINE: usize = 1_048_640;

/// What is kept of a line that is being read: its first [`MAX_FED_LINE`] bytes. The memory for them
/// is taken at the start, so reading a line takes none.
#[derive(Drop)]
pub(crate) struct FedLine {
    bytes: Vec<u8>,
}

impl Model for FedLine {
    ghost use Rattle.std.specs.Prelude.{◌≤◌, List, ℕ, vec_capacity};
    ghost use Rattle.line_feed.specs.declared.fed_line.TheConstants.{MAX_FED_LINE};

    ghost Value = { List ℕ };

    ghost view = { λ l. l.bytes.items };

    ghost invariant = { λ l. MAX_FED_LINE ≤ vec_capacity l.bytes };
}

/// The first bytes, at most that many.
fn first_bytes(bytes: &[u8], count: usize) -> &[u8]
    ensures { result.now ≡ take count bytes.now }
{
    if count < bytes.len() {
        &bytes[..count]
    } else {
        bytes
    }
}

/// What is kept of a line.
pub fn kept_bytes(line: &[u8]) -> &[u8]
    ensures { result.now ≡ kept_of line.now }
{
    first_bytes(line, MAX_FED_LINE)
}

impl FedLine {
    /// A line of no bytes.
    pub(crate) fn new(alloc: Global) -> Result<Self, AllocError>
        ensures { IfOk result (λ line. IsKept line []) }
    {
        Ok(FedLine {
            bytes: Vec::with_capacity(alloc, MAX_FED_LINE)?,
        })
    }

    /// Begins a new line.
    pub(crate) fn clear(&mut self)
        ensures { IsKept self.new [] }
    {
        self.bytes.clear();
    }

    /// Appends bytes to the line. Those beyond [`MAX_FED_LINE`] are dropped.
    pub(crate) fn append(&mut self, bytes: &[u8])
        ensures { (line : List ℕ) → IsKept self.old line → IsKept self.new (line ++ bytes.now) }
    {
        let room = MAX_FED_LINE.saturating_sub(self.bytes.len());
        let taken = first_bytes(bytes, room);
        self.bytes.extend_from_slice(taken).unwrap();
    }

    /// What is kept of the line.
    pub(crate) fn bytes(&self) -> &[u8]
        ensures { result.now ≡ self.now }
    {
        self.bytes.as_slice()
    }
}
