//! The basic logic elements of a circuit.
ghost use Rattle.std.specs.Prelude.{◌≡◌, ◌<◌, ◌≤◌, ◌++◌, [], ◌∷◌, map, length, slice_get, Some, IfOk, OnErr};
ghost use Rattle.std.specs.List.{take_while};
ghost use Rattle.ble_cluster.specs.Prelude.{IsCircuit};
ghost use Rattle.ble_cluster.specs.Nets.{distinct_nets};
ghost use Rattle.ble_cluster.specs.Bles.{bles_of, element_of_latch, element_of_table, in_line_order};
ghost use Rattle.ble_cluster.specs.LineOrder.{is_above};

use crate::readers::Readers;
use blif::{Circuit, Latch, Table};
use rows::Span;
use std::alloc::{AllocError, Global};
use std::marker::Model;

/// A basic logic element (BLE): a table, a latch, or a table with the latch that stores its output.
#[derive(Clone, Copy)]
pub struct Ble<'a> {
    /// The nets that it reads, each once, in the order in which they first appear.
    pub inputs: &'a [u32],
    /// The net that it drives and that gives it its name.
    pub output: u32,
    /// The net that clocks it, if there is one.
    pub clock: Option<u32>,
}

/// A BLE without its inputs, and the span of these among all inputs.
#[derive(Clone, Copy)]
pub(crate) struct BleSpan {
    pub(crate) inputs: Span,
    pub(crate) output: u32,
    pub(crate) clock: Option<u32>,
}

/// BLEs, by number. Its value is their list.
#[derive(Drop)]
pub struct Bles {
    inputs: Vec<u32>,
    bles: Vec<BleSpan>,
}

impl Model for Bles {
    ghost use Rattle.std.specs.Prelude.{List, length, map};
    ghost use Rattle.ble_cluster.specs.Bles.{LogicElement};
    ghost use Rattle.ble_cluster.specs.FlatBles.{ble_at, AreBlesWithin};

    ghost Value = { List LogicElement };

    ghost view = { λ b. map (ble_at b.inputs.items) b.bles.items };

    ghost invariant = { λ b. AreBlesWithin (length b.inputs.items) b.bles.items };
}

impl Bles {
    ghost use Rattle.ble_cluster.specs.CircuitReaders.{AreReaders};

    /// The BLEs of a circuit, in the order of their lines.
    pub fn new(alloc: Global, circuit: &Circuit) -> Result<Self, AllocError>
        requires { IsCircuit circuit.now }
        ensures { IfOk result (λ bles. bles ≡ bles_of circuit.now) }
    {
        let readers = Readers::new(alloc, circuit)?;
        let mut bles = Bles::empty(alloc);
        let pushed = bles.push_all(alloc, circuit, &readers);
        drop(readers);
        match pushed {
            Ok(()) => Ok(bles),
            Err(error) => {
                drop(bles);
                Err(error)
            }
        }
    }

    /// No BLEs.
    fn empty(alloc: Global) -> Self
        ensures { result ≡ [] }
    {
        Bles {
            inputs: Vec::new(alloc),
            bles: Vec::new(alloc),
        }
    }

    /// The number of BLEs.
    pub fn len(&self) -> usize
        ensures { result ≡ length self.now }
    {
        self.bles.len()
    }

    /// The BLE with this number.
    pub fn ble(&self, number: usize) -> Ble<'_>
        requires { number < length self.now }
        ensures { slice_get self.now number
            ≡ Some (record {
              inputs = result.inputs.now;
              output = result.output;
              clock = result.clock;
            }) }
    {
        let ble = self.bles[number];
        Ble {
            inputs: &self.inputs[ble.inputs.start..ble.inputs.end],
            output: ble.output,
            clock: ble.clock,
        }
    }

    /// Adds a BLE that reads these nets, each of which is kept once.
    fn push(&mut self, nets: &[u32], output: u32, clock: Option<u32>) -> Result<(), AllocError>
        ensures { IfOk result (λ _. self.new
            ≡ self.old ++ record { inputs = distinct_nets nets.now; output = output; clock = clock }
            ∷ []) }
    {
        let start = self.inputs.len();
        push_distinct(&mut self.inputs, nets)?;
        let end = self.inputs.len();
        self.bles.push(BleSpan {
            inputs: Span { start, end },
            output,
            clock,
        })?;
        Ok(())
    }

    /// Adds the BLEs of the circuit, in the order of their lines.
    fn push_all(
        &mut self,
        alloc: Global,
        circuit: &Circuit,
        readers: &Readers,
    ) -> Result<(), AllocError>
        requires { AreReaders circuit.now readers.now }
        ensures { IfOk result (λ _. self.new ≡ self.old ++ bles_of circuit.now) }
    {
        let latches = readers.lone_latches(alloc, circuit)?;
        let pushed = self.push_in_order(circuit, readers, latches.as_slice());
        drop(latches);
        pushed
    }

    /// Adds the circuit's tables and these latches, in the order of their lines.
    fn push_in_order(
        &mut self,
        circuit: &Circuit,
        readers: &Readers,
        latches: &[Latch],
    ) -> Result<(), AllocError>
        requires { AreReaders circuit.now readers.now }
        ensures { IfOk result (λ _. self.new
            ≡ self.old ++ in_line_order circuit.now circuit.now.tables latches.now) }
    {
        let mut rest = latches;
        for place in 0..circuit.tables.len() {
            let table = circuit.tables.table(place);
            let (above, below) = rest.split_at(count_above(table.line, rest));
            self.push_latches(above)?;
            rest = below;
            self.push_table(table, readers.latch_after(circuit, table.output))?;
        }
        self.push_latches(rest)
    }

    /// Adds a table, with the latch that stores its output if there is one.
    fn push_table(&mut self, table: Table<'_>, behind: Option<Latch>) -> Result<(), AllocError>
        ensures { IfOk result (λ _. self.new
            ≡ self.old ++ element_of_table
            (record {
              line = table.entry.line;
              inputs = table.entry.inputs.now;
              output = table.entry.output;
            }) behind ∷ []) }
    {
        match behind {
            None => self.push(table.inputs, table.output, None),
            Some(latch) => self.push(table.inputs, latch.output, latch.control),
        }
    }

    /// Adds each latch as a BLE of its own.
    fn push_latches(&mut self, latches: &[Latch]) -> Result<(), AllocError>
        ensures { IfOk result (λ _. self.new ≡ self.old ++ map element_of_latch latches.now) }
    {
        for latch in latches {
            self.push(&[latch.input], latch.output, latch.control)?;
        }
        Ok(())
    }
}

/// The number of latches at the front that are above the line.
fn count_above(line: u32, latches: &[Latch]) -> usize
    ensures { result ≡ length (take_while (is_above line) latches.now) }
{
    latches.iter().take_while(|latch| latch.line < line).count()
}

/// Appends each of the nets once, in the order in which they first appear.
fn push_distinct(inputs: &mut Vec<u32>, nets: &[u32]) -> Result<(), AllocError>
    ensures added { IfOk result (λ _. inputs.new.items ≡ inputs.old.items
        ++ distinct_nets nets.now) }
    ensures longer { OnErr result (length inputs.old.items ≤ length inputs.new.items) }
{
    let start = inputs.len();
    for net in nets {
        if !inputs[start..].contains(net) {
            inputs.push(*net)?;
        }
    }
    Ok(())
}
