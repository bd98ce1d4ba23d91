//! Which table and which latch a BLE holds.
ghost use Rattle.std.specs.Prelude.{◌≡◌, ◌<◌, MatchOption, MatchResult, Some, length, slice_get, true};
ghost use Rattle.layout_check.specs.Prelude.{Latch as LatchValue, LookupTable, is_read_once, reads_of, is_same_net, is_table, receives};
ghost use Rattle.layout_check.specs.Helds.{IsHeld, IsLatchOrPair};
ghost use Rattle.layout_check.specs.HoldFaults.{DrivesAsPair, IsHoldFault};
ghost use Rattle.layout_check.specs.NetOwners.{AreCounts, AreNets};

use crate::elements::Element;
use crate::fault::HoldFault;
use crate::owners::{Owner, owner_of};
use crate::reads::is_single;
use crate::receives::check_reads;
use blif::Circuit;

/// The numbers of the table and of the latch that a BLE holds.
#[derive(Clone, Copy)]
pub(crate) struct Held {
    pub(crate) table: Option<usize>,
    pub(crate) latch: Option<usize>,
}

/// Whether both are the same net, or neither is a net.
fn is_same_net(net: Option<u32>, other: Option<u32>) -> bool
    ensures { result ≡ is_same_net net other }
{
    match (net, other) {
        (Some(net), Some(other)) => net == other,
        (None, None) => true,
        _ => false,
    }
}

/// Why a BLE that drives what the table drives isn't the table.
fn check_table(circuit: &Circuit, element: &Element, number: usize) -> Option<HoldFault>
    requires small { number < length circuit.now.tables }
    requires same { (table : LookupTable) → slice_get circuit.now.tables number ≡ Some table → element.now.output ≡ table.output }
    ensures { MatchOption result
        ((table : LookupTable) → slice_get circuit.now.tables number ≡ Some table → is_table element.now table ≡ true)
        (IsHoldFault circuit.now element.now) }
{
    if !is_same_net(element.clock(), None) {
        return Some(HoldFault::Clocked(number));
    }
    match check_reads(element, circuit.tables.table(number).inputs) {
        Some(fault) => Some(HoldFault::Table(number, fault)),
        None => None,
    }
}

/// Why a BLE that drives what the latch drives, and doesn't receive just the latch's data, isn't
/// the table with the latch.
fn check_pair(
    circuit: &Circuit,
    counts: &[u8],
    element: &Element,
    table: usize,
    latch: usize,
) -> Option<HoldFault>
    requires pair { (read : LookupTable) × (stored : LatchValue) × DrivesAsPair circuit.now element.now table latch read stored × (read.output < length counts.now) }
    requires counted { AreCounts (reads_of circuit.now) counts.now }
    ensures { MatchOption result
        ((read : LookupTable) → slice_get circuit.now.tables table ≡ Some read
        → (receives element.now read.inputs ≡ true) × (is_read_once circuit.now read.output ≡ true))
        (IsHoldFault circuit.now element.now) }
{
    let read = circuit.tables.table(table);
    if let Some(fault) = check_reads(element, read.inputs) {
        return Some(HoldFault::Pair(table, latch, fault));
    }
    if is_single(counts, read.output) {
        None
    } else {
        Some(HoldFault::ReadElsewhere(table, latch))
    }
}

/// The table that a BLE holds with the latch, if it holds one. The BLE drives what the latch
/// drives. An error says why it doesn't hold the latch.
fn check_latch(
    circuit: &Circuit,
    owners: &[Owner],
    counts: &[u8],
    element: &Element,
    number: usize,
) -> Result<Option<usize>, HoldFault>
    requires nets { AreNets circuit.now owners.now counts.now }
    requires small { number < length circuit.now.latches }
    requires same { (latch : LatchValue) → slice_get circuit.now.latches number ≡ Some latch → element.now.output ≡ latch.output }
    ensures { MatchResult result (IsLatchOrPair circuit.now element.now number) (IsHoldFault circuit.now element.now) }
{
    let latch = circuit.latches.as_slice()[number];
    if !is_same_net(element.clock(), latch.control) {
        return Err(HoldFault::WrongClock(number));
    }
    let Some(fault) = check_reads(element, &[latch.input]) else {
        return Ok(None);
    };
    match owner_of(owners, latch.input) {
        Owner::Table(table) => match check_pair(circuit, counts, element, table, number) {
            Some(fault) => Err(fault),
            None => Ok(Some(table)),
        },
        Owner::Latch(_) => Err(HoldFault::Latch(number, fault)),
        Owner::Nothing => Err(HoldFault::Latch(number, fault)),
    }
}

/// What the BLE holds, or why it holds nothing.
pub(crate) fn find_held(
    circuit: &Circuit,
    owners: &[Owner],
    counts: &[u8],
    element: &Element,
) -> Result<Held, HoldFault>
    requires { AreNets circuit.now owners.now counts.now }
    ensures { MatchResult result (λ held. IsHeld circuit.now element.now held.table held.latch)
        (IsHoldFault circuit.now element.now) }
{
    match owner_of(owners, element.output()) {
        Owner::Nothing => Err(HoldFault::NotDriven),
        Owner::Table(number) => match check_table(circuit, element, number) {
            Some(fault) => Err(fault),
            None => Ok(Held {
                table: Some(number),
                latch: None,
            }),
        },
        Owner::Latch(number) => match check_latch(circuit, owners, counts, element, number) {
            Err(fault) => Err(fault),
            Ok(table) => Ok(Held {
                table,
                latch: Some(number),
            }),
        },
    }
}
