//! Whether each table and each latch of the circuit is in exactly one BLE.
ghost use Rattle.std.specs.Prelude.{◌≡◌, IfOk, MatchOption};
ghost use Rattle.layout_check.specs.Prelude.{AreBlesOf, traced_bles};
ghost use Rattle.layout_check.specs.Helds.{IsHeldFault, of_latches, of_tables};
ghost use Rattle.layout_check.specs.NetOwners.{AreNets};
ghost use Rattle.layout_check.specs.Wrongs.{IsWrong};

use crate::elements::{Element, ble_number, trace_bles};
use crate::fault::{HoldFault, Wrong};
use crate::holding::find_held;
use crate::once::{OnceFault, check_once};
use crate::owners::{Owner, find_owners};
use crate::reads::count_reads;
use blif::Circuit;
use layouts::Layout;
use rr_graph::{Fabric, StripGraph};
use std::alloc::{AllocError, Global};

/// What is wrong with what BLEs hold, by their places in the list of all BLEs.
#[derive(Clone, Copy)]
pub(crate) enum HeldFault {
    Unlawful(u32),
    Ble(usize, HoldFault),
    TableTwice(usize, usize, usize),
    NoTable(usize),
    LatchTwice(usize, usize, usize),
    NoLatch(usize),
}

/// The fault of a table that isn't held just once.
fn of_tables(fault: OnceFault) -> HeldFault
    ensures { result ≡ of_tables fault }
{
    match fault {
        OnceFault::Twice(table, place, other) => HeldFault::TableTwice(table, place, other),
        OnceFault::Never(table) => HeldFault::NoTable(table),
    }
}

/// The fault of a latch that isn't held just once.
fn of_latches(fault: OnceFault) -> HeldFault
    ensures { result ≡ of_latches fault }
{
    match fault {
        OnceFault::Twice(latch, place, other) => HeldFault::LatchTwice(latch, place, other),
        OnceFault::Never(latch) => HeldFault::NoLatch(latch),
    }
}

/// What is wrong with what the BLEs hold, by what drives the nets and how often they are read.
fn check_elements(
    alloc: Global,
    circuit: &Circuit,
    owners: &[Owner],
    counts: &[u8],
    elements: &[Element],
) -> Result<Option<HeldFault>, AllocError>
    requires { AreNets circuit.now owners.now counts.now }
    ensures { IfOk result (λ fault. MatchOption fault (AreBlesOf circuit.now elements.now)
        (IsHeldFault circuit.now elements.now)) }
{
    let mut tables = Vec::new(alloc);
    let mut latches = Vec::new(alloc);
    for (place, element) in elements.iter().enumerate() {
        match find_held(circuit, owners, counts, element) {
            Err(fault) => return Ok(Some(HeldFault::Ble(place, fault))),
            Ok(found) => {
                tables.push(found.table)?;
                latches.push(found.latch)?;
            }
        }
    }
    if let Some(fault) = check_once(alloc, tables.as_slice(), circuit.tables.len())? {
        return Ok(Some(of_tables(fault)));
    }
    match check_once(alloc, latches.as_slice(), circuit.latches.as_slice().len())? {
        Some(fault) => Ok(Some(of_latches(fault))),
        None => Ok(None),
    }
}

/// What is wrong with what the traced BLEs hold.
fn check_traced(
    alloc: Global,
    circuit: &Circuit,
    graph: &Fabric,
    layout: &Layout,
) -> Result<Option<HeldFault>, AllocError>
    ensures { IfOk result (λ fault. MatchOption fault
        (AreBlesOf circuit.now (traced_bles graph.now.arch layout.now))
        (IsHeldFault circuit.now (traced_bles graph.now.arch layout.now))) }
{
    let elements = trace_bles(alloc, graph.arch(), layout.blocks())?;
    let mut owners = Vec::from_elem(alloc, Owner::Nothing, circuit.nets.len())?;
    if let Some(net) = find_owners(circuit, &mut owners) {
        return Ok(Some(HeldFault::Unlawful(net)));
    }
    let mut counts = Vec::from_elem(alloc, 0, circuit.nets.len())?;
    count_reads(&mut counts, circuit);
    check_elements(
        alloc,
        circuit,
        owners.as_slice(),
        counts.as_slice(),
        elements.as_slice(),
    )
}

/// Finds what is wrong with what the BLEs of a layout hold: whether each is a table, a latch, or a
/// table with the latch that alone reads it, and each table and each latch of the circuit is in
/// exactly one.
pub(crate) fn check_held(
    alloc: Global,
    circuit: &Circuit,
    graph: &Fabric,
    layout: &Layout,
) -> Result<Option<Wrong>, AllocError>
    ensures { IfOk result (λ found. MatchOption found
        (AreBlesOf circuit.now (traced_bles graph.now.arch layout.now))
        (IsWrong circuit.now graph.now layout.now)) }
{
    let Some(fault) = check_traced(alloc, circuit, graph, layout)? else {
        return Ok(None);
    };
    let blocks = layout.blocks();
    match fault {
        HeldFault::Unlawful(net) => Ok(Some(Wrong::Unlawful(net))),
        HeldFault::Ble(place, fault) => Ok(Some(Wrong::Ble(ble_number(blocks, place), fault))),
        HeldFault::TableTwice(table, place, other) => {
            let first = ble_number(blocks, place);
            let second = ble_number(blocks, other);
            Ok(Some(Wrong::TableTwice(table, first, second)))
        }
        HeldFault::NoTable(table) => Ok(Some(Wrong::NoTable(table))),
        HeldFault::LatchTwice(latch, place, other) => {
            let first = ble_number(blocks, place);
            let second = ble_number(blocks, other);
            Ok(Some(Wrong::LatchTwice(latch, first, second)))
        }
        HeldFault::NoLatch(latch) => Ok(Some(Wrong::NoLatch(latch))),
    }
}
