//! The readers of the nets of a circuit.
ghost use Rattle.std.specs.Prelude.{◌≡◌, ◌<◌, [], ◌∷◌, All, filter, map, length, IfOk};
ghost use Rattle.std.specs.List.{flat_map};
ghost use Rattle.std.specs.Option.{option_to_list};
ghost use Rattle.ble_cluster.specs.Prelude.{IsCircuit, IsLatchWithin, IsTableWithin};
ghost use Rattle.ble_cluster.specs.Bles.{latch_after, reads_of, stands_alone};
ghost use Rattle.ble_cluster.specs.Reads.{AreCounts, AreDriven, AreLatches, CountsOn, HasCounts};

use blif::{Circuit, Latch, Tables};
use std::alloc::{AllocError, Global};

/// For each net of a circuit the number of its reads, the first latch that stores it, and whether a
/// table drives it.
#[derive(Drop)]
pub(crate) struct Readers {
    /// Counted up to 255.
    counts: Vec<u8>,
    latches: Vec<Option<Latch>>,
    is_driven: Vec<bool>,
}

impl Readers {
    ghost use Rattle.ble_cluster.specs.CircuitReaders.{AreReaders, HasReaders};

    /// The readers of the nets of this circuit.
    pub(crate) fn new(alloc: Global, circuit: &Circuit) -> Result<Self, AllocError>
        requires { IsCircuit circuit.now }
        ensures { IfOk result (AreReaders circuit.now) }
    {
        Ok(Readers {
            counts: count_reads(alloc, circuit)?,
            latches: first_latches(alloc, circuit.nets.len(), circuit.latches.as_slice())?,
            is_driven: mark_driven(alloc, circuit.nets.len(), &circuit.tables)?,
        })
    }

    /// The latch that is the only reader of the net, if there is one.
    pub(crate) fn latch_after(&self, circuit: &Circuit, net: u32) -> Option<Latch>
        requires { HasReaders circuit.now self.now net }
        ensures { result ≡ latch_after circuit.now net }
    {
        if self.counts[net as usize] == 1 {
            self.latches[net as usize]
        } else {
            None
        }
    }

    /// The latches that are not joined with a table.
    pub(crate) fn lone_latches(
        &self,
        alloc: Global,
        circuit: &Circuit,
    ) -> Result<Vec<Latch>, AllocError>
        requires { AreReaders circuit.now self.now }
        ensures { IfOk result (λ latches.
            latches.items ≡ filter (stands_alone circuit.now) circuit.now.latches) }
    {
        let mut latches = Vec::new(alloc);
        for latch in circuit.latches.as_slice() {
            if self.stands_alone(circuit, latch) {
                latches.push(*latch)?;
            }
        }
        Ok(latches)
    }

    /// Whether the latch is not joined with a table.
    fn stands_alone(&self, circuit: &Circuit, latch: &Latch) -> bool
        requires { HasReaders circuit.now self.now latch.now.input }
        ensures { result ≡ stands_alone circuit.now latch.now }
    {
        let net = latch.input as usize;
        !(self.counts[net] == 1 && self.is_driven[net])
    }
}

/// The number of reads of each net, counted up to 255.
fn count_reads(alloc: Global, circuit: &Circuit) -> Result<Vec<u8>, AllocError>
    requires { IsCircuit circuit.now }
    ensures length { IfOk result (λ counts. length counts.items ≡ length circuit.now.nets) }
    ensures counts { IfOk result (λ counts. AreCounts (reads_of circuit.now) counts.items) }
{
    let mut counts = vec![in alloc; 0u8; circuit.nets.len()]?;
    count_circuit(counts.as_mut_slice(), circuit);
    Ok(counts)
}

/// Counts all reads of the circuit.
fn count_circuit(counts: &mut [u8], circuit: &Circuit)
    requires { HasCounts circuit.now counts.old }
    ensures { CountsOn counts.old (reads_of circuit.now) counts.new }
{
    count_tables(counts, &circuit.tables);
    count_latches(counts, circuit.latches.as_slice());
    count_controls(counts, circuit.latches.as_slice());
    count_all(counts, circuit.outputs.as_slice());
}

/// Counts the reads by tables.
fn count_tables(counts: &mut [u8], tables: &Tables)
    requires { All (IsTableWithin (length counts.old)) tables.now }
    ensures { CountsOn counts.old (flat_map (λ table. table.inputs) tables.now) counts.new }
{
    for place in 0..tables.len() {
        count_all(counts, tables.table(place).inputs);
    }
}

/// Counts the reads by latches that store a net.
fn count_latches(counts: &mut [u8], latches: &[Latch])
    requires { All (IsLatchWithin (length counts.old)) latches.now }
    ensures { CountsOn counts.old (map (λ latch. latch.input) latches.now) counts.new }
{
    for latch in latches {
        count(counts, latch.input);
    }
}

/// Counts the reads by controls of latches.
fn count_controls(counts: &mut [u8], latches: &[Latch])
    requires { All (IsLatchWithin (length counts.old)) latches.now }
    ensures { CountsOn counts.old (flat_map (λ latch. option_to_list latch.control) latches.now)
        counts.new }
{
    for latch in latches {
        if let Some(control) = latch.control {
            count(counts, control);
        }
    }
}

/// Counts one read of each of the nets.
fn count_all(counts: &mut [u8], nets: &[u32])
    requires { All (λ net. net < length counts.old) nets.now }
    ensures { CountsOn counts.old nets.now counts.new }
{
    for net in nets {
        count(counts, *net);
    }
}

/// Counts one read of the net.
fn count(counts: &mut [u8], net: u32)
    requires { net < length counts.old }
    ensures { CountsOn counts.old (net ∷ []) counts.new }
{
    let net = net as usize;
    counts[net] = counts[net].saturating_add(1);
}

/// For each of `nets` nets the first of the latches that stores it.
fn first_latches(
    alloc: Global,
    nets: usize,
    latches: &[Latch],
) -> Result<Vec<Option<Latch>>, AllocError>
    requires { All (IsLatchWithin nets) latches.now }
    ensures length { IfOk result (λ behind. length behind.items ≡ nets) }
    ensures latches { IfOk result (λ behind. AreLatches latches.now behind.items) }
{
    let mut behind = vec![in alloc; None; nets]?;
    for latch in latches {
        let net = latch.input as usize;
        if behind[net].is_none() {
            behind[net] = Some(*latch);
        }
    }
    Ok(behind)
}

/// For each of `nets` nets whether one of the tables drives it.
fn mark_driven(alloc: Global, nets: usize, tables: &Tables) -> Result<Vec<bool>, AllocError>
    requires { All (IsTableWithin nets) tables.now }
    ensures length { IfOk result (λ driven. length driven.items ≡ nets) }
    ensures driven { IfOk result (λ driven. AreDriven tables.now driven.items) }
{
    let mut is_driven = vec![in alloc; false; nets]?;
    for place in 0..tables.len() {
        is_driven[tables.table(place).output as usize] = true;
    }
    Ok(is_driven)
}
