//! The lookup tables of a circuit.
ghost use Rattle.std.specs.Prelude.{◌≡◌, ◌<◌, ◌++◌, [], ◌∷◌, length, slice_get, Some, IfOk};

use crate::span::IndexSpan;
use std::alloc::{AllocError, Global};
use std::marker::Model;

/// A table: the number of its `.names` line, the nets that it reads, in order, and the net that it
/// drives.
#[derive(Clone, Copy)]
pub struct Table<'a> {
    pub line: u32,
    pub inputs: &'a [u32],
    pub output: u32,
}

/// A table without its inputs, and the span of these among all inputs.
#[derive(Clone, Copy)]
pub(crate) struct TableSpan {
    pub(crate) line: u32,
    pub(crate) inputs: IndexSpan,
    pub(crate) output: u32,
}

/// Tables, in the order of their lines. Its value is their list.
#[derive(Drop)]
pub struct Tables {
    inputs: Vec<u32>,
    tables: Vec<TableSpan>,
}

impl Model for Tables {
    ghost use Rattle.std.specs.Prelude.{List, length, map};
    ghost use Rattle.blif.specs.LookupTables.{LookupTable, AreTablesWithin, table_at};

    ghost Value = { List LookupTable };

    ghost view = { λ t. map (table_at t.inputs.items) t.tables.items };

    ghost invariant = { λ t. AreTablesWithin (length t.inputs.items) t.tables.items };
}

impl Tables {
    /// No tables.
    pub(crate) fn new(alloc: Global) -> Self
        ensures { result ≡ [] }
    {
        Tables {
            inputs: Vec::new(alloc),
            tables: Vec::new(alloc),
        }
    }

    /// The number of tables.
    pub fn len(&self) -> usize
        ensures { result ≡ length self.now }
    {
        self.tables.len()
    }

    /// The table at this index, from 0.
    pub fn table(&self, place: usize) -> Table<'_>
        requires { place < length self.now }
        ensures { slice_get self.now place
            ≡ Some (record {
              line = result.line;
              inputs = result.inputs.now;
              output = result.output;
            }) }
    {
        let table = self.tables[place];
        Table {
            line: table.line,
            inputs: &self.inputs[table.inputs.start..table.inputs.end],
            output: table.output,
        }
    }

    /// Adds a table at the end.
    pub(crate) fn push(&mut self, table: Table<'_>) -> Result<(), AllocError>
        ensures { IfOk result (λ _. self.new
            ≡ self.old ++ record {
              line = table.entry.line;
              inputs = table.entry.inputs.now;
              output = table.entry.output;
            } ∷ []) }
    {
        let start = self.inputs.len();
        self.inputs.extend_from_slice(table.inputs)?;
        let end = self.inputs.len();
        self.tables.push(TableSpan {
            line: table.line,
            inputs: IndexSpan { start, end },
            output: table.output,
        })?;
        Ok(())
    }
}
