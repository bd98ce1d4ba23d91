//! The nets that a circuit reads.
ghost use Rattle.std.specs.Prelude.{◌≡◌, ◌++◌, IfOk, flat_map};
ghost use Rattle.unread_tables.specs.Unread.{read_nets, reads_of};

use blif::{Circuit, Latch, Tables};
use std::alloc::{AllocError, Global};

/// The nets that are outputs, or that tables or latches read.
pub(crate) fn read_nets(alloc: Global, circuit: &Circuit) -> Result<Vec<u32>, AllocError>
    ensures { IfOk result (λ nets. nets.items ≡ read_nets circuit.now) }
{
    let mut nets = circuit.outputs.as_slice().to_vec(alloc)?;
    add_tables(&mut nets, &circuit.tables)?;
    add_latches(&mut nets, circuit.latches.as_slice())?;
    Ok(nets)
}

/// Adds the nets that the tables read.
fn add_tables(nets: &mut Vec<u32>, tables: &Tables) -> Result<(), AllocError>
    ensures { IfOk result (λ _.
        nets.new.items ≡ nets.old.items ++ flat_map (λ table. table.inputs) tables.now) }
{
    for place in 0..tables.len() {
        let table = tables.table(place);
        nets.extend_from_slice(table.inputs)?;
    }
    Ok(())
}

/// Adds the nets that the latches read.
fn add_latches(nets: &mut Vec<u32>, latches: &[Latch]) -> Result<(), AllocError>
    ensures { IfOk result (λ _.
        nets.new.items ≡ nets.old.items ++ flat_map reads_of latches.now) }
{
    for latch in latches {
        add_latch(nets, latch)?;
    }
    Ok(())
}

/// Adds the nets that a latch reads.
fn add_latch(nets: &mut Vec<u32>, latch: &Latch) -> Result<(), AllocError>
    ensures { IfOk result (λ _. nets.new.items ≡ nets.old.items ++ reads_of latch.now) }
{
    nets.push(latch.input)?;
    if let Some(control) = latch.control {
        nets.push(control)?;
    }
    Ok(())
}
