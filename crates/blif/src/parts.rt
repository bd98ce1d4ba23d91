//! Builds the parts of a circuit, line by line, with nets by number.
ghost use Rattle.std.specs.Prelude.{◌≡◌, List, ℕ, ◌++◌, [], map, option_map, IfOk, IfNone};
ghost use Rattle.blif.specs.LineByLine.{parts_after, parts_of};
ghost use Rattle.blif.specs.Names.{first_of, number_of};
ghost use Rattle.blif.specs.LatchLines.{is_latch};
ghost use Rattle.blif.specs.LineNets.{front_of, latch_nets, names_in, reads_in};
ghost use Rattle.blif.specs.Circuits.{latch_with, table_with};
ghost use Rattle.blif.specs.Numbering.{AreNumbered};
ghost use Rattle.blif.specs.Repeats.{undriven_names};

use crate::circuit::Circuit;
use crate::driven::Driven;
use crate::keyword::{Keyword, front_of};
use crate::latch_line::{control_of, is_latch};
use crate::latches::{Latch, Latches};
use crate::net_names::NetNames;
use crate::nets::Nets;
use crate::tables::{Table, Tables};
use line_text::{Line, NameSet, Text};
use std::alloc::{AllocError, Global};
use std::marker::Model;

/// The parts so far. Its value is the record of them.
#[derive(Drop)]
pub struct CircuitParts {
    inputs: Nets,
    outputs: Nets,
    tables: Tables,
    latches: Latches,
}

impl Model for CircuitParts {
    ghost use Rattle.blif.specs.LineByLine.{Parts};

    ghost Value = { Parts };

    ghost view = { λ p. record { inputs = p.inputs; outputs = p.outputs; tables = p.tables; latches = p.latches } };
}

impl CircuitParts {
    /// No parts.
    #[tactic(auto, unfolding(crate::specs::LineByLine::parts_of))]
    pub fn new(alloc: Global) -> Self
        ensures { (nets : List (List ℕ)) → result ≡ parts_of nets [] }
    {
        CircuitParts {
            inputs: Nets::new(alloc),
            outputs: Nets::new(alloc),
            tables: Tables::new(alloc),
            latches: Latches::new(alloc),
        }
    }

    /// The circuit of these parts, with this model and these nets.
    pub fn into_circuit(self, model: Text, nets: NetNames) -> Circuit
        ensures { result ≡ record {
          model = model;
          nets = nets;
          inputs = self.inputs;
          outputs = self.outputs;
          tables = self.tables;
          latches = self.latches;
        } }
    {
        Circuit {
            model,
            nets,
            inputs: self.inputs,
            outputs: self.outputs,
            tables: self.tables,
            latches: self.latches,
        }
    }

    /// Adds the clocks as inputs.
    pub fn add_clocks(&mut self, driven: &Driven<'_>) -> Result<(), AllocError>
        ensures { IfOk result (λ _. self.new
            ≡ record self.old {
              inputs = self.old.inputs ++ map (number_of driven.now.nets) driven.now.clocks;
            }) }
    {
        number_names(driven.clocks(), driven, &mut self.inputs)
    }

    /// The first net that a line of this kind reads and that is not driven. If no net is, the
    /// line's parts are added. `nets` are the numbers of the nets that the line names.
    pub fn add_line<'t>(
        &mut self,
        driven: &Driven<'t>,
        line: &Line<'_, 't>,
        keyword: Keyword,
        nets: &[u32],
    ) -> Result<Option<&'t [u8]>, AllocError>
        requires { AreNumbered driven.now.nets (names_in keyword line.now.words) nets.now }
        ensures least { IfOk result (λ net.
            option_map (λ n. n.now) net
            ≡ first_of (undriven_names (driven.now.clocks ++ driven.now.drivers)
            (reads_in keyword line.now.words))) }
        ensures parts { IfOk result (λ net.
            IfNone net (self.new ≡ parts_after driven.now.nets line.now.number keyword
            line.now.words self.old)) }
    {
        let args = line.without_first();
        match keyword {
            Keyword::Inputs => {
                self.inputs.extend(nets)?;
                Ok(None)
            }
            Keyword::Outputs => {
                if let Some(net) = driven.first_undriven(args.words(), nets) {
                    return Ok(Some(net));
                }
                self.outputs.extend(nets)?;
                Ok(None)
            }
            Keyword::Names => add_table(&mut self.tables, driven, &args, nets),
            Keyword::Latch => add_latch(&mut self.latches, driven, &args, nets),
            _ => Ok(None),
        }
    }
}

/// The first input of the table on this line that is not driven. If no input is, the table is
/// added.
fn add_table<'t>(
    tables: &mut Tables,
    driven: &Driven<'t>,
    args: &Line<'_, 't>,
    nets: &[u32],
) -> Result<Option<&'t [u8]>, AllocError>
    requires { AreNumbered driven.now.nets args.now.words nets.now }
    ensures least { IfOk result (λ net. option_map (λ n. n.now) net
        ≡ first_of (undriven_names (driven.now.clocks
        ++ driven.now.drivers) (front_of args.now.words))) }
    ensures tables { IfOk result (λ net.
        IfNone net (tables.new ≡ tables.old
        ++ table_with driven.now.nets args.now.number args.now.words)) }
{
    if nets.is_empty() {
        return Ok(None);
    }
    let end = nets.len() - 1;
    let inputs = &nets[..end];
    if let Some(net) = driven.first_undriven(front_of(args), inputs) {
        return Ok(Some(net));
    }
    let output = nets[end];
    tables.push(Table {
        line: args.number(),
        inputs,
        output,
    })?;
    Ok(None)
}

/// The first net that the latch on this line reads and that is not driven. If no net is, the
/// latch is added.
fn add_latch<'t>(
    latches: &mut Latches,
    driven: &Driven<'t>,
    args: &Line<'_, 't>,
    nets: &[u32],
) -> Result<Option<&'t [u8]>, AllocError>
    requires { AreNumbered driven.now.nets (latch_nets 2 args.now.words) nets.now }
    ensures least { IfOk result (λ net. option_map (λ n. n.now) net
        ≡ first_of (undriven_names (driven.now.clocks ++ driven.now.drivers)
        (latch_nets 1 args.now.words))) }
    ensures latches { IfOk result (λ net.
        IfNone net (latches.new
        ≡ latches.old ++ latch_with driven.now.nets args.now.number args.now.words)) }
{
    if !is_latch(args) {
        return Ok(None);
    }
    if !driven.is_driven(nets[0]) {
        return Ok(Some(args.words()[0]));
    }
    let control = match control_of(args) {
        Some(net) => {
            if !driven.is_driven(nets[2]) {
                return Ok(Some(net));
            }
            Some(nets[2])
        }
        None => None,
    };
    latches.push(Latch {
        line: args.number(),
        input: nets[0],
        output: nets[1],
        control,
    })?;
    Ok(None)
}

/// Appends the numbers of the names.
fn number_names(
    names: &NameSet<'_>,
    driven: &Driven<'_>,
    numbers: &mut Nets,
) -> Result<(), AllocError>
    ensures { IfOk result (λ _. numbers.new
        ≡ numbers.old ++ map (number_of driven.now.nets) names.now) }
{
    for place in 0..names.len() {
        numbers.push(driven.number(names.name(place)))?;
    }
    Ok(())
}
