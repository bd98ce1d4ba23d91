//! Packing, one cluster in each step.
ghost use Rattle.std.specs.Prelude.{◌≡◌, filter, not, IfOk, None, OnErr};
ghost use Rattle.cluster.specs.Prelude.{IsArch, IsCircuit, has, cluster_of, unfit_of, with_cluster, AllFit};
ghost use Rattle.cluster.specs.Packing.{IsChecked, GoesOn};

use crate::fault::{PackError, PackFault};
use crate::packed::Packed;
use crate::packed_tables::PackedTables;
use arch_file::{Arch, SharedArch};
use ble_cluster::{Bles, FreeBles, first_unfit};
use blif::{Circuit, SharedCircuit};
use rows::Rows;
use std::alloc::{AllocError, Global};
use std::marker::Model;

/// Checks that each BLE of the circuit fits into a cluster alone; the fault is the least BLE that
/// doesn't.
pub fn check(alloc: Global, circuit: &Circuit, arch: &Arch) -> Result<(), PackError>
    requires circuit { IsCircuit circuit.now }
    requires arch { IsArch arch.now }
    ensures { IsChecked (unfit_of circuit.now arch.now) result }
{
    let bles = Bles::new(alloc, circuit)?;
    match first_unfit(&bles, circuit.nets.len(), arch) {
        None => Ok(()),
        Some(number) => Err(PackError::Fault(PackFault::CannotFit(number))),
    }
}

/// A packing in progress. Its value is the circuit, the architecture and the number of steps made.
#[derive(Drop)]
pub struct Packing {
    alloc: Global,
    circuit: SharedCircuit,
    arch: SharedArch,
    grower: FreeBles,
    clusters: Rows,
    made: usize,
}

impl Model for Packing {
    ghost use Rattle.cluster.specs.Clusters.{PackingUnderWay};
    ghost use Rattle.cluster.specs.UnderWay.{IsUnderWay};

    ghost Value = { PackingUnderWay };

    ghost view = { λ p. record { circuit = p.circuit; arch = p.arch; made = p.made } };

    ghost invariant = { λ p. IsUnderWay p.circuit p.arch p.grower p.clusters p.made };
}

/// The result of a step of packing.
#[derive(Drop)]
pub enum PackEnd {
    More(Packing),
    Last(Packed),
}

impl Packing {
    /// A packing before its first step. Shares the circuit and the architecture.
    pub fn start(
        alloc: Global,
        circuit: &SharedCircuit,
        arch: &SharedArch,
    ) -> Result<Self, AllocError>
        requires { unfit_of circuit.now arch.now ≡ None }
        ensures { IfOk result (λ packing.
            packing ≡ record { circuit = circuit.now; arch = arch.now; made = 0 }) }
    {
        let bles = Bles::new(alloc, circuit.circuit())?;
        let grower = FreeBles::new(alloc, bles, circuit.circuit().nets.len())?;
        match share(circuit, arch) {
            Ok((circuit, arch)) => Ok(Packing {
                alloc,
                circuit,
                arch,
                grower,
                clusters: Rows::new(alloc),
                made: 0,
            }),
            Err(error) => {
                drop(grower);
                Err(error)
            }
        }
    }

    /// The circuit that is packed.
    pub fn circuit(&self) -> &SharedCircuit
        ensures { result.now ≡ self.now.circuit }
    {
        &self.circuit
    }

    /// The circuit that was being packed. The rest is dropped.
    pub fn into_circuit(self) -> SharedCircuit
        ensures { result ≡ self.circuit }
    {
        let Packing {
            alloc: _,
            circuit,
            arch,
            grower,
            clusters,
            made: _,
        } = self;
        drop(arch);
        drop(grower);
        drop(clusters);
        circuit
    }

    /// Makes one cluster. If memory runs out the packing is handed back unchanged.
    pub fn next(mut self) -> Result<PackEnd, Self>
        ensures { GoesOn self result }
    {
        match add_cluster(&mut self.grower, &mut self.clusters, self.arch.arch()) {
            Err(_) => return Err(self),
            Ok(()) => {}
        }
        let more = self.grower.has_free();
        if more {
            self.made += 1;
            return Ok(PackEnd::More(self));
        }
        let tables = PackedTables::new(
            self.alloc,
            self.circuit.circuit(),
            self.arch.arch(),
            self.grower.bles(),
            &self.clusters,
        );
        match tables {
            Err(_) => Err(self),
            Ok(tables) => Ok(PackEnd::Last(Packed::new(
                self.circuit,
                self.arch,
                self.grower.into_bles(),
                self.clusters,
                tables,
            ))),
        }
    }
}

/// Adds an owner of the circuit and one of the architecture.
fn share(
    circuit: &SharedCircuit,
    arch: &SharedArch,
) -> Result<(SharedCircuit, SharedArch), AllocError>
    ensures { IfOk result (λ shared. (shared.0 ≡ circuit.now) × (shared.1 ≡ arch.now)) }
{
    let circuit = circuit.clone()?;
    match arch.clone() {
        Ok(arch) => Ok((circuit, arch)),
        Err(error) => {
            drop(circuit);
            Err(error)
        }
    }
}

/// Adds one cluster of free BLEs, if there are any. If memory runs out nothing is added.
fn add_cluster(grower: &mut FreeBles, clusters: &mut Rows, arch: &Arch) -> Result<(), AllocError>
    requires { AllFit arch.now grower.old.elements }
    ensures elements { grower.new.elements ≡ grower.old.elements }
    ensures added { IfOk result (λ _. clusters.new
        ≡ with_cluster clusters.old (cluster_of arch.now grower.old.elements grower.old.free)) }
    ensures free { IfOk result (λ _. grower.new.free
        ≡ filter (λ number. not
        (has (cluster_of arch.now grower.old.elements grower.old.free) number)) grower.old.free) }
    ensures unchanged { OnErr result (clusters.new ≡ clusters.old) }
    ensures still { OnErr result (grower.new.free ≡ grower.old.free) }
{
    grower.choose(arch)?;
    if grower.members().is_empty() {
        return Ok(());
    }
    clusters.push(grower.members())?;
    grower.take();
    Ok(())
}
