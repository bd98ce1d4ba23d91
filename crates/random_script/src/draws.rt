//! Random draws.
ghost use Rattle.std.specs.Prelude.{◌+◌, ◌≤◌, ◌<◌};
ghost use Rattle.random_script.specs.declared.plan.TheConstants.{MAX_TABLES};

use rand_core::utils::NextWord;
use rand_pcg::Pcg32;

/// The positions of a circuit's tables for the draws: in a square, row by row. Tables that are
/// wired together are near one another.
#[derive(Clone, Copy)]
pub(crate) struct Square {
    /// The number of tables.
    pub(crate) tables: u32,
    /// The number of tables side by side.
    pub(crate) side: u32,
    /// The number of the circuit's inputs.
    pub(crate) inputs: u32,
    ghost tables_some: { (1 ≤ tables) × (tables ≤ MAX_TABLES) },
    ghost side_some: { (1 ≤ side) × (side ≤ 87) },
    ghost inputs_some: { (1 ≤ inputs) × (inputs ≤ 200) },
}

/// The source that a table reads.
#[derive(Clone, Copy, PartialEq)]
pub(crate) enum Source {
    /// The input of that number.
    Input(u32),
    /// The table of that number, or the latch after it.
    Table(u32),
}

impl Square {
    /// Draws a source near a table, at distances to the left or right and up or down that follow a
    /// power law. If no other table is there, the source is an input of the circuit, by the table's
    /// column.
    pub(crate) fn draw(&self, words: &mut Pcg32, table: u32) -> Source
        requires { table < self.now.tables }
    {
        let column = table % self.side;
        let across = random_shift(column, words.next_word());
        let row = random_shift(table / self.side, words.next_word());
        match self.table_at(across, row) {
            Some(near) if near != table => Source::Table(near),
            _ => Source::Input(column * self.inputs / self.side),
        }
    }

    /// The table in that column and row, if there is one.
    fn table_at(&self, column: Option<u32>, row: Option<u32>) -> Option<u32> {
        let column = column?;
        let row = row?;
        if column >= self.side || row >= self.side {
            return None;
        }
        let table = row * self.side + column;
        if table < self.tables {
            Some(table)
        } else {
            None
        }
    }
}

/// A position at a random distance from another: a distance of at least d has probability 1 / (d +
/// 1), and both directions are equally likely.
fn random_shift(place: u32, word: u32) -> Option<u32>
    requires { place ≤ MAX_TABLES }
{
    let distance = 65_536 / (word % 65_536 + 1) - 1;
    if word / 65_536 % 2 == 0 {
        Some(place + distance)
    } else {
        place.checked_sub(distance)
    }
}
