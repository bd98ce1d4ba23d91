//! What a routed netlist uses of its device, what sets the device's size, and its longest path.
ghost use Rattle.std.specs.Prelude.{◌≤◌};
ghost use Rattle.desk_netlists.specs.Prelude.{MAX_IO_RAT};

use crate::path_lines::write_stops_of;
use crate::route_wishes::{RouteForm, RouteWishes, Size};
use crate::routed_design::RoutedDesign;
use crate::routed_table::Routed;
use circuit_use::{DeviceUse, Lacking, circuit_use, lacking_on, write_lacking, write_use};
use line_text::{Failed, Sink};
use std::alloc::Global;

/// Writes the stops of a routed netlist's longest path if they are asked for, what it uses of its
/// device, and what sets the device's size if it is the least one. Writes nothing if memory runs
/// out.
pub(crate) fn write_device_use<W: Sink>(
    alloc: Global,
    wishes: RouteWishes<'_>,
    routed: Routed<'_>,
    writer: &mut W,
) -> Result<(), Failed> {
    let Some(design) = RoutedDesign::read(alloc, routed) else {
        return Ok(());
    };
    write_design(alloc, wishes, routed, &design, writer)
}

/// Writes the stops of a design's longest path if they are asked for, what it uses, and what sets
/// the device's size.
fn write_design<W: Sink>(
    alloc: Global,
    wishes: RouteWishes<'_>,
    routed: Routed<'_>,
    design: &RoutedDesign,
    writer: &mut W,
) -> Result<(), Failed> {
    if let RouteForm::Path = wishes.form {
        write_stops_of(alloc, routed, &design.circuit, writer)?;
    }
    write_counted(alloc, routed, design, writer)?;
    match lacking_before(wishes.size, routed, design.arch.io_rat) {
        Some(lacking) => write_lacking(writer, lacking),
        None => Ok(()),
    }
}

/// Writes what a design uses.
fn write_counted<W: Sink>(
    alloc: Global,
    routed: Routed<'_>,
    design: &RoutedDesign,
    writer: &mut W,
) -> Result<(), Failed> {
    let RoutedDesign { arch, circuit, .. } = design;
    let size = routed.size;
    let counted = circuit_use(alloc, circuit, arch.cluster_size, size.columns, size.rows);
    match counted {
        Ok(counted) => {
            let device = DeviceUse {
                blocks: routed.figures.blocks,
                circuit: counted,
                pads: routed.figures.pads,
                wires: routed.figures.wires,
            };
            write_use(writer, device, &circuit.tables, arch.lut_size)
        }
        Err(_) => Ok(()),
    }
}

/// The places of which a device has too few that is one column, one row or one of both smaller.
/// `None` if the size is given.
pub(crate) fn lacking_before(asked: Size, routed: Routed<'_>, io_rat: u32) -> Option<Lacking>
    requires { io_rat ≤ MAX_IO_RAT }
{
    let columns = routed.size.columns;
    let rows = routed.size.rows;
    let (columns, rows) = match asked {
        Size::Given(_) => return None,
        Size::LeastSquare => (columns - 1, rows - 1),
        Size::LeastColumns(_) => (columns - 1, rows),
        Size::LeastRows(_) => (columns, rows - 1),
    };
    let figures = routed.figures;
    Some(lacking_on(
        figures.blocks.used,
        figures.pads.used,
        io_rat,
        columns,
        rows,
    ))
}
