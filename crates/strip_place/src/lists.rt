//! Rows of numbers, with bounds of 32 bits.
ghost use Rattle.std.specs.Prelude.{◌≡◌, ◌+◌, ◌<◌, ◌≤◌, ◌∷◌, [], length, IfOk, slice_get, slice_index, Some};
ghost use Rattle.strip_place.specs.Lists.{AreCopied, AreSmall, row_at};

use rows::Rows;
use std::alloc::{AllocError, Global};
use std::marker::Model;

/// Rows of numbers, one after another in one list, each of which ends where the next begins. A
/// bound takes four bytes, and a span of [`Rows`] sixteen: of these more stay in a processor's
/// cache. Its value is the list of rows.
#[derive(Drop)]
pub(crate) struct Lists {
    numbers: Vec<u32>,
    bounds: Vec<u32>,
}

impl Model for Lists {
    ghost use Rattle.std.specs.Prelude.{List, ℕ, length};
    ghost use Rattle.strip_place.specs.Lists.{AreBounds, rows_of};

    ghost Value = { List (List ℕ) };

    ghost view = { λ l. rows_of l.numbers.items l.bounds.items };

    ghost invariant = { λ l. AreBounds (length l.numbers.items) l.bounds.items };
}

impl Lists {
    /// A copy of the rows.
    pub(crate) fn of(alloc: Global, rows: &Rows) -> Result<Self, AllocError>
        requires { AreSmall rows.now }
        ensures { IfOk result (λ lists. lists ≡ rows.now) }
    {
        let mut numbers = Vec::new(alloc);
        let mut bounds = Vec::new(alloc);
        bounds.push(0)?;
        copy_rows(&mut numbers, &mut bounds, rows)?;
        Ok(Lists { numbers, bounds })
    }

    /// The row with this number, from 0.
    pub(crate) fn row(&self, number: usize) -> &[u32]
        requires { number < length self.now }
        ensures { slice_get self.now number ≡ Some result.now }
    {
        row_at(self.numbers.as_slice(), self.bounds.as_slice(), number)
    }
}

/// The row with this number, from its bound to the next.
fn row_at<'a>(numbers: &'a [u32], bounds: &[u32], number: usize) -> &'a [u32]
    requires next { number + 1 < length bounds.now }
    requires rises { slice_index bounds.now number ≤ slice_index bounds.now (number + 1) }
    requires within { slice_index bounds.now (number + 1) ≤ length numbers.now }
    ensures { result.now ≡ row_at numbers.now bounds.now number }
{
    let start = bounds[number] as usize;
    let end = bounds[number + 1] as usize;
    &numbers[start..end]
}

/// Appends the rows, and where each ends. Before, there is only the first bound.
fn copy_rows(numbers: &mut Vec<u32>, bounds: &mut Vec<u32>, rows: &Rows) -> Result<(), AllocError>
    requires small { AreSmall rows.now }
    requires none { numbers.old.items ≡ [] }
    requires first { bounds.old.items ≡ 0 ∷ [] }
    ensures { IfOk result (λ _. AreCopied rows.now (length rows.now) numbers.new.items
        bounds.new.items) }
{
    for number in 0..rows.len() {
        numbers.extend_from_slice(rows.row(number))?;
        bounds.push(numbers.len() as u32)?;
    }
    Ok(())
}
