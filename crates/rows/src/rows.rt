//! Rows of numbers.
ghost use Rattle.std.specs.Prelude.{◌≡◌, ◌<◌, ◌++◌, [], ◌∷◌, length, map, slice_get, Some, IfOk, OnErr};
ghost use Rattle.rows.specs.Spans.{AreWithin, part_of};

use crate::span::Span;
use std::alloc::{AllocError, Global};
use std::marker::Model;

/// Rows of numbers, one after another in one list. Its value is the list of rows.
#[derive(Drop)]
pub struct Rows {
    numbers: Vec<u32>,
    spans: Vec<Span>,
}

impl Model for Rows {
    ghost use Rattle.std.specs.Prelude.{List, ℕ, length, map};
    ghost use Rattle.rows.specs.Spans.{AreWithin, part_of};

    ghost Value = { List (List ℕ) };

    ghost view = { λ r. map (part_of r.numbers.items) r.spans.items };

    ghost invariant = { λ r. AreWithin (length r.numbers.items) r.spans.items };
}

impl Rows {
    /// No rows. Takes no memory.
    pub fn new(alloc: Global) -> Self
        ensures { result ≡ [] }
    {
        Rows {
            numbers: Vec::new(alloc),
            spans: Vec::new(alloc),
        }
    }

    /// The rows at these spans of the numbers.
    pub(crate) fn at_spans(numbers: Vec<u32>, spans: Vec<Span>) -> Self
        requires { AreWithin (length numbers.items) spans.items }
        ensures { result ≡ map (part_of numbers.items) spans.items }
    {
        Rows { numbers, spans }
    }

    /// The number of rows.
    pub fn len(&self) -> usize
        ensures { result ≡ length self.now }
    {
        self.spans.len()
    }

    /// The row with this number, from 0.
    pub fn row(&self, number: usize) -> &[u32]
        requires { number < length self.now }
        ensures { slice_get self.now number ≡ Some result.now }
    {
        let span = self.spans[number];
        &self.numbers[span.start..span.end]
    }

    /// Adds a row at the end. If memory runs out nothing changes.
    pub fn push(&mut self, row: &[u32]) -> Result<(), AllocError>
        ensures added { IfOk result (λ _. self.new ≡ self.old ++ row.now ∷ []) }
        ensures unchanged { OnErr result (self.new ≡ self.old) }
    {
        self.spans.reserve(1)?;
        let start = self.numbers.len();
        self.numbers.extend_from_slice(row)?;
        let end = self.numbers.len();
        self.spans.push(Span { start, end }).unwrap();
        Ok(())
    }
}
