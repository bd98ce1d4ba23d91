//! A netlist that is packed and placed at one go, without a slot and its jobs.
ghost use Rattle.std.specs.Prelude.{◌≡◌, ◌≤◌, IfOk, None, Ok, OnOk};
ghost use Rattle.one_user.specs.Prelude.{MAX_EFFORT, circuit_of, fit_of, Fits, packed_of, unfit_of, IsStripSize, pass_count};
ghost use Rattle.one_user.specs.Outcomes.{task_on};
ghost use Rattle.one_user.specs.Placing.{AreAllPasses, IsPackedFrom, IsPlacedFrom, IsPlacingOf, placed_from};

use crate::device::Request;
use arch_file::SharedArch;
use blif::{BlifError, BlifFault, MAX_NETS, SharedCircuit, read_blif};
use block_places::{Fit, fit_of};
use cluster::{PackEnd, PackError, PackFault, Packing, SharedPacked, check};
use grid::Strip;
use std::alloc::{AllocError, Global};
use strip_place::{Kept, MAX_PASSES, PassEnd, Placing, laws_of_kept, laws_of_passes};
use tenant_slot::{Misfit, Refusal};

/// The largest number of clusters of a packing: a circuit has no more BLEs.
const MAX_CLUSTERS: u32 = MAX_NETS as u32;

/// How the packing and placing of a netlist ended.
#[derive(Drop)]
pub(crate) enum PlacingEnd {
    /// It is placed, after the last pass.
    Placed(Placing),
    Refused(Refusal),
}

/// Packs and places a netlist, or returns why it is refused.
pub(crate) fn place_netlist(
    alloc: Global,
    arch: &SharedArch,
    strip: Strip,
    request: Request<'_>,
) -> Result<PlacingEnd, AllocError>
    requires size { IsStripSize strip }
    requires effort { request.effort ≤ MAX_EFFORT }
    ensures { IfOk result (IsPlacingOf (task_on (record { arch = arch.now; strip = strip })
        request.entry.netlist.now request.entry.seed request.entry.effort)) }
{
    let lut_size = arch.arch().lut_size;
    match circuit_in(alloc, request.netlist.as_bytes(), lut_size)? {
        Ok(circuit) => {
            let placed = place_circuit(alloc, arch, strip, request, &circuit);
            drop(circuit);
            placed
        }
        Err(fault) => Ok(PlacingEnd::Refused(Refusal::BadBlif(fault))),
    }
}

/// Packs and places the netlist's circuit.
fn place_circuit(
    alloc: Global,
    arch: &SharedArch,
    strip: Strip,
    request: Request<'_>,
    circuit: &SharedCircuit,
) -> Result<PlacingEnd, AllocError>
    requires size { IsStripSize strip }
    requires effort { request.effort ≤ MAX_EFFORT }
    requires circuit { circuit_of request.netlist.now arch.now.lut_size ≡ Ok circuit.now }
    ensures { IfOk result (IsPlacingOf (task_on (record { arch = arch.now; strip = strip })
        request.entry.netlist.now request.entry.seed request.entry.effort)) }
{
    match packed_from(alloc, circuit, arch)? {
        Ok(packed) => {
            let placed = place_packed(alloc, &packed, strip, request.seed, request.effort);
            drop(packed);
            placed
        }
        Err(ble) => Ok(PlacingEnd::Refused(Refusal::CannotPack(ble))),
    }
}

/// The circuit of a text, or the text's fault.
fn circuit_in(
    alloc: Global,
    text: &[u8],
    lut_size: u32,
) -> Result<Result<SharedCircuit, BlifFault>, AllocError>
    ensures { IfOk result (λ found. found ≡ circuit_of text.now lut_size) }
{
    match read_blif(alloc, text, lut_size) {
        Ok(circuit) => Ok(Ok(SharedCircuit::new(alloc, circuit)?)),
        Err(BlifError::Fault(fault)) => Ok(Err(fault)),
        Err(BlifError::NoMemory) => Err(AllocError),
    }
}

/// The packed circuit, or a BLE that fits into no cluster.
fn packed_from(
    alloc: Global,
    circuit: &SharedCircuit,
    arch: &SharedArch,
) -> Result<Result<SharedPacked, u32>, AllocError>
    ensures { IfOk result (IsPackedFrom circuit.now arch.now) }
{
    match check(alloc, circuit.circuit(), arch.arch()) {
        Ok(()) => Ok(Ok(pack(alloc, circuit, arch)?)),
        Err(PackError::Fault(PackFault::CannotFit(ble))) => Ok(Err(ble)),
        Err(PackError::NoMemory) => Err(AllocError),
    }
}

/// Packs a circuit whose BLEs each fit into a cluster alone.
fn pack(
    alloc: Global,
    circuit: &SharedCircuit,
    arch: &SharedArch,
) -> Result<SharedPacked, AllocError>
    requires { unfit_of circuit.now arch.now ≡ None }
    ensures { IfOk result (λ packed. packed ≡ packed_of circuit.now arch.now) }
{
    circuit.laws();
    arch.laws();
    let mut packing = Packing::start(alloc, circuit, arch)?;
    for _made in 0..MAX_CLUSTERS {
        match packing.next() {
            Ok(PackEnd::More(next)) => packing = next,
            Ok(PackEnd::Last(packed)) => return Ok(SharedPacked::new(alloc, packed)?),
            Err(back) => {
                drop(back);
                return Err(AllocError);
            }
        }
    }
    unreachable!()
}

/// Places the blocks of a packed circuit, if the strip has enough places.
fn place_packed(
    alloc: Global,
    packed: &SharedPacked,
    strip: Strip,
    seed: u64,
    effort: u32,
) -> Result<PlacingEnd, AllocError>
    requires size { IsStripSize strip }
    requires effort { effort ≤ MAX_EFFORT }
    ensures { IfOk result (IsPlacedFrom strip packed.now seed effort) }
{
    match fit_of(strip, packed.packed()) {
        Fit::Fits => Ok(PlacingEnd::Placed(place_fitting(alloc, packed, strip, seed, effort)?)),
        Fit::TooManyBlocks { have, need } => Ok(PlacingEnd::Refused(Refusal::DoesNotFit(
            Misfit::Blocks { have, need },
        ))),
        Fit::TooManyPads { have, need } => Ok(PlacingEnd::Refused(Refusal::DoesNotFit(Misfit::Pads {
            have,
            need,
        }))),
    }
}

/// Places the blocks of a packed circuit for which the strip has enough places.
fn place_fitting(
    alloc: Global,
    packed: &SharedPacked,
    strip: Strip,
    seed: u64,
    effort: u32,
) -> Result<Placing, AllocError>
    requires size { IsStripSize strip }
    requires effort { effort ≤ MAX_EFFORT }
    requires fits { fit_of strip packed.now ≡ Fits }
    ensures exact { IfOk result (λ placing. placing ≡ placed_from strip packed.now seed effort) }
    ensures all { OnOk result (AreAllPasses strip (pass_count strip)) }
{
    laws_of_kept();
    let mut placing = Placing::start(alloc, packed, strip, &Kept::none(), seed, effort)?;
    make_passes(&mut placing);
    Ok(placing)
}

/// Makes all passes of a placing that has made none.
fn make_passes(placing: &mut Placing)
    requires { placing.old.passes ≡ 0 }
    ensures made { placing.new ≡ record placing.old { passes = pass_count placing.old.strip } }
    ensures all { AreAllPasses placing.old.strip (pass_count placing.old.strip) }
{
    laws_of_passes();
    let _size = placing.strip();
    for _pass in 0..MAX_PASSES {
        match placing.pass() {
            PassEnd::More => {}
            PassEnd::Last => return,
        }
    }
    unreachable!()
}
