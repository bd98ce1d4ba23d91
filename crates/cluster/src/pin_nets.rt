//! The nets on the pins of all clusters, and the blocks that read each net.
ghost use Rattle.std.specs.Prelude.{◌≡◌, ℕ, List, [], ◌++◌, IfOk, length};
ghost use Rattle.cluster.specs.Prelude.{IsCircuit, LogicElement, pairs_with};
ghost use Rattle.cluster.specs.ClusterPins.{AreClustersOf, AreSetsOf, IsBegun, TellReaders, clocks_of_clusters, inputs_of_clusters, readers_by_net};

use crate::cluster_sets::ClusterSets;
use ble_cluster::Bles;
use blif::Circuit;
use rows::{Keyed, Rows};
use std::alloc::{AllocError, Global};

/// The outside inputs and the clocks of each cluster, and for each net of the circuit the blocks
/// that read it.
#[derive(Drop)]
pub(crate) struct PinNets {
    pub(crate) inputs: Rows,
    pub(crate) clocks: Rows,
    pub(crate) readers: Rows,
}

impl PinNets {
    pub(crate) fn new(
        alloc: Global,
        circuit: &Circuit,
        bles: &Bles,
        clusters: &Rows,
    ) -> Result<Self, AllocError>
        requires circuit { IsCircuit circuit.now }
        requires clusters { AreClustersOf circuit.now bles.now clusters.now }
        ensures inputs { IfOk result (λ nets.
            nets.inputs ≡ inputs_of_clusters bles.now clusters.now) }
        ensures clocks { IfOk result (λ nets.
            nets.clocks ≡ clocks_of_clusters bles.now clusters.now) }
        ensures readers { IfOk result (λ nets.
            nets.readers ≡ readers_by_net circuit.now bles.now clusters.now) }
    {
        let mut gathered = Gathered::new(alloc, circuit)?;
        match gathered.add_all(alloc, circuit, bles, clusters) {
            Ok(readers) => Ok(gathered.into_nets(readers)),
            Err(error) => {
                drop(gathered);
                Err(error)
            }
        }
    }
}

/// The nets of the clusters so far, and pairs of a net and a block that reads it.
#[derive(Drop)]
struct Gathered {
    inputs: Rows,
    clocks: Rows,
    pairs: Vec<Keyed>,
}

impl Gathered {
    /// The state before the first cluster, with the pads of all outputs.
    fn new(alloc: Global, circuit: &Circuit) -> Result<Self, AllocError>
        requires { IsCircuit circuit.now }
        ensures inputs { IfOk result (λ gathered. gathered.inputs ≡ []) }
        ensures clocks { IfOk result (λ gathered. gathered.clocks ≡ []) }
        ensures pairs { IfOk result (λ gathered.
            (elements : List LogicElement) (clusters : List (List ℕ)) →
            TellReaders circuit.now elements clusters (length circuit.now.outputs) 0
            gathered.pairs.items) }
    {
        let pairs = pad_pairs(alloc, circuit)?;
        Ok(Gathered {
            inputs: Rows::new(alloc),
            clocks: Rows::new(alloc),
            pairs,
        })
    }

    /// Adds all clusters to the initial state. Returns the readers of each net.
    fn add_all(
        &mut self,
        alloc: Global,
        circuit: &Circuit,
        bles: &Bles,
        clusters: &Rows,
    ) -> Result<Rows, AllocError>
        requires clusters { AreClustersOf circuit.now bles.now clusters.now }
        requires begun { IsBegun circuit.now bles.now clusters.now self.old }
        ensures inputs { IfOk result (λ _. self.new.inputs
            ≡ inputs_of_clusters bles.now clusters.now) }
        ensures clocks { IfOk result (λ _. self.new.clocks
            ≡ clocks_of_clusters bles.now clusters.now) }
        ensures readers { IfOk result (λ readers.
            readers ≡ readers_by_net circuit.now bles.now clusters.now) }
    {
        let count = circuit.nets.len();
        let mut sets = ClusterSets::new(alloc, count)?;
        let added = self.add_with(&mut sets, circuit, bles, clusters);
        drop(sets);
        added?;
        Rows::by_key(alloc, count, self.pairs.as_slice())
    }

    /// Adds all clusters, using these empty sets.
    fn add_with(
        &mut self,
        sets: &mut ClusterSets,
        circuit: &Circuit,
        bles: &Bles,
        clusters: &Rows,
    ) -> Result<(), AllocError>
        requires clusters { AreClustersOf circuit.now bles.now clusters.now }
        requires begun { IsBegun circuit.now bles.now clusters.now self.old }
        requires sets { AreSetsOf (length circuit.now.nets) sets.old }
        ensures inputs { IfOk result (λ _. self.new.inputs
            ≡ inputs_of_clusters bles.now clusters.now) }
        ensures clocks { IfOk result (λ _. self.new.clocks
            ≡ clocks_of_clusters bles.now clusters.now) }
        ensures pairs { IfOk result (λ _. TellReaders circuit.now bles.now clusters.now
            (length circuit.now.outputs) (length clusters.now) self.new.pairs.items) }
    {
        let first = circuit.inputs.as_slice().len() + circuit.outputs.as_slice().len();
        for cluster in 0..clusters.len() {
            sets.gather(bles, clusters.row(cluster))?;
            self.inputs.push(sets.inputs.nets())?;
            self.clocks.push(sets.clocks.nets())?;
            sets.inputs.insert_all(sets.clocks.nets())?;
            add_pairs(
                &mut self.pairs,
                sets.inputs.nets(),
                (first + cluster) as u32,
            )?;
        }
        Ok(())
    }

    /// The nets, with these readers.
    fn into_nets(self, readers: Rows) -> PinNets
        ensures inputs { result.inputs ≡ self.inputs }
        ensures clocks { result.clocks ≡ self.clocks }
        ensures readers { result.readers ≡ readers }
    {
        let Gathered {
            inputs,
            clocks,
            pairs,
        } = self;
        drop(pairs);
        PinNets {
            inputs,
            clocks,
            readers,
        }
    }
}

/// Each output's net, paired with its pad's number.
fn pad_pairs(alloc: Global, circuit: &Circuit) -> Result<Vec<Keyed>, AllocError>
    requires { IsCircuit circuit.now }
    ensures { IfOk result (λ pairs. (elements : List LogicElement) (clusters : List (List ℕ)) →
        TellReaders circuit.now elements clusters (length circuit.now.outputs) 0 pairs.items) }
{
    let inputs = circuit.inputs.as_slice().len();
    let mut pairs = Vec::new(alloc);
    for (pad, net) in circuit.outputs.as_slice().iter().enumerate() {
        pairs.push(Keyed {
            key: *net,
            item: (inputs + pad) as u32,
        })?;
    }
    Ok(pairs)
}

/// Appends each of the nets, paired with the item.
fn add_pairs(pairs: &mut Vec<Keyed>, nets: &[u32], item: u32) -> Result<(), AllocError>
    ensures { IfOk result (λ _. pairs.new.items ≡ pairs.old.items ++ pairs_with item nets.now) }
{
    for net in nets {
        pairs.push(Keyed { key: *net, item })?;
    }
    Ok(())
}
