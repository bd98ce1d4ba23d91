//! Makes clusters of free BLEs, one after another.
ghost use Rattle.std.specs.Prelude.{◌≡◌, ◌<◌, [], All, length, filter, not, IfOk, IsTrue, ◌↔◌, false, replicate};
ghost use Rattle.std.specs.List.{range_with_len};
ghost use Rattle.ble_cluster.specs.Nets.{has};
ghost use Rattle.ble_cluster.specs.Clusters.{cluster_of};
ghost use Rattle.ble_cluster.specs.FirstFree.{AreFound, AreLacks, AreOutsideCounts, HaveAtMost, IsFirstOf, IsKept};
ghost use Rattle.ble_cluster.specs.BleIndex.{AreLawful};
ghost use Rattle.ble_cluster.specs.FreeBles.{AllFit, free_in};

use crate::ble_index::BleIndex;
use crate::bles::Bles;
use crate::first_free::FirstFree;
use crate::growing_cluster::GrowingCluster;
use crate::keys::{lacks, most_inputs, outside_counts};
use arch_file::Arch;
use std::alloc::{AllocError, Global};
use std::marker::Model;

/// BLEs, those of them that are free, and the members of a cluster of free ones. Its value is the
/// record of these.
#[derive(Drop)]
pub struct FreeBles {
    elements: BleIndex,
    taken: Vec<bool>,
    /// Finds free BLEs by the largest number of inputs minus their own.
    by_lack: FirstFree,
    /// Finds free BLEs by the number of nets that they read from outside.
    by_outside: FirstFree,
    /// The first free BLE with most inputs.
    seed: Option<usize>,
    growth: GrowingCluster,
}

impl Model for FreeBles {
    ghost use Rattle.ble_cluster.specs.FreeBles.{FreeBlesState, free_in};
    ghost use Rattle.ble_cluster.specs.GrowingCluster.{AreFreeBles, IsSeeded};

    ghost Value = { FreeBlesState };

    ghost view = { λ g. record { elements = g.elements.elements; free = free_in g.taken.items; members = g.growth.members.items } };

    ghost invariant = { λ g. AreFreeBles g.elements g.taken.items g.growth
        × IsSeeded g.elements.elements g.taken.items g.by_lack g.by_outside g.seed };
}

impl FreeBles {
    /// These BLEs, all free. The numbers of their nets are below `count`.
    pub fn new(alloc: Global, bles: Bles, count: usize) -> Result<Self, AllocError>
        requires { AreLawful (record { elements = bles; nets = count }) }
        ensures { IfOk result (λ grower.
            grower ≡ record {
              elements = bles;
              free = range_with_len 0 (length bles);
              members = [];
            }) }
    {
        let elements = BleIndex::new(alloc, bles, count)?;
        match by_keys(alloc, elements.bles(), count) {
            Ok((by_lack, by_outside)) => {
                FreeBles::all_free(alloc, elements, by_lack, by_outside)
            }
            Err(error) => {
                drop(elements);
                Err(error)
            }
        }
    }

    /// BLEs, all free, with the indices that find them.
    fn all_free(
        alloc: Global,
        elements: BleIndex,
        mut by_lack: FirstFree,
        by_outside: FirstFree,
    ) -> Result<Self, AllocError>
        requires { AreFound elements.elements by_lack by_outside }
        ensures { IfOk result (λ grower.
            grower ≡ record {
              elements = elements.elements;
              free = range_with_len 0 (length elements.elements);
              members = [];
            }) }
    {
        match room_for(alloc, elements.len(), elements.nets()) {
            Ok((taken, growth)) => {
                let seed = by_lack.lowest_free(taken.as_slice());
                Ok(FreeBles {
                    elements,
                    taken,
                    by_lack,
                    by_outside,
                    seed,
                    growth,
                })
            }
            Err(error) => {
                drop(elements);
                drop(by_lack);
                drop(by_outside);
                Err(error)
            }
        }
    }

    /// The BLEs.
    pub fn bles(&self) -> &Bles
        ensures { result.now ≡ self.now.elements }
    {
        self.elements.bles()
    }

    /// The BLEs, without the rest.
    pub fn into_bles(self) -> Bles
        ensures { result ≡ self.elements }
    {
        self.elements.into_bles()
    }

    /// The members, the seed first.
    pub fn members(&self) -> &[u32]
        ensures value { result.now ≡ self.now.members }
        ensures within { All (λ number. number < length self.now.elements) self.now.members }
    {
        self.growth.members.as_slice()
    }

    /// Whether some BLE is free.
    pub fn has_free(&self) -> bool
        ensures { IsTrue result ↔ (0 < length self.now.free) }
    {
        self.seed.is_some()
    }

    /// Chooses the members of a cluster among the free BLEs.
    pub fn choose(&mut self, arch: &Arch) -> Result<(), AllocError>
        requires { AllFit arch.now self.old.elements }
        ensures members { IfOk result (λ _. self.new.members
            ≡ cluster_of arch.now self.old.elements self.old.free) }
        ensures elements { self.new.elements ≡ self.old.elements }
        ensures free { self.new.free ≡ self.old.free }
    {
        self.growth.choose(
            arch,
            &self.elements,
            self.taken.as_slice(),
            &mut self.by_outside,
            self.seed,
        )
    }

    /// Takes the members, which are then no longer free.
    pub fn take(&mut self)
        ensures elements { self.new.elements ≡ self.old.elements }
        ensures free { self.new.free ≡ filter (λ number. not (has self.old.members number))
            self.old.free }
    {
        mark_taken(self.taken.as_mut_slice(), self.growth.members.as_slice());
        self.seed = self.by_lack.lowest_free(self.taken.as_slice());
    }
}

/// Finds the BLEs by the largest number of inputs minus their own, and by the number of nets that
/// they read from outside. The numbers of their nets are below `count`.
fn by_keys(alloc: Global, bles: &Bles, count: usize) -> Result<(FirstFree, FirstFree), AllocError>
    requires { AreLawful (record { elements = bles.now; nets = count }) }
    ensures lacks { IfOk result (λ made. AreLacks bles.now made.0.keys.items) }
    ensures outside { IfOk result (λ made. AreOutsideCounts bles.now made.1.keys.items) }
    ensures by_lack { IfOk result (λ made. IsFirstOf (length bles.now) made.0) }
    ensures by_outside { IfOk result (λ made. IsFirstOf (length bles.now) made.1) }
{
    let most = most_inputs(bles, count);
    let by_lack = FirstFree::new(alloc, lacks(alloc, bles, most)?, most)?;
    match by_outside(alloc, bles, most) {
        Ok(by_outside) => Ok((by_lack, by_outside)),
        Err(error) => {
            drop(by_lack);
            Err(error)
        }
    }
}

/// Finds the BLEs by the number of nets that they read from outside; none has more than `most`
/// inputs.
fn by_outside(alloc: Global, bles: &Bles, most: usize) -> Result<FirstFree, AllocError>
    requires { HaveAtMost bles.now most }
    ensures outside { IfOk result (λ index. AreOutsideCounts bles.now index.keys.items) }
    ensures lawful { IfOk result (IsFirstOf (length bles.now)) }
{
    let keys = outside_counts(alloc, bles, most)?;
    FirstFree::new(alloc, keys, most)
}

/// A mark for each of `elements` BLEs, none of which is taken, and a cluster without members for
/// them and `nets` nets.
fn room_for(
    alloc: Global,
    elements: usize,
    nets: usize,
) -> Result<(Vec<bool>, GrowingCluster), AllocError>
    ensures marks { IfOk result (λ room. room.0.items ≡ replicate elements false) }
    ensures members { IfOk result (λ room. room.1.members.items ≡ []) }
    ensures room { IfOk result (λ room. (room.1.reads.count ≡ nets) × (room.1.drives.count ≡ nets)
        × (length room.1.gains ≡ elements)) }
{
    let taken = vec![in alloc; false; elements]?;
    match GrowingCluster::new(alloc, elements, nets) {
        Ok(growth) => Ok((taken, growth)),
        Err(error) => {
            drop(taken);
            Err(error)
        }
    }
}

/// Marks the members as taken.
fn mark_taken(taken: &mut [bool], members: &[u32])
    requires { All (λ number. number < length taken.old) members.now }
    ensures free { free_in taken.new ≡ filter (λ number. not (has members.now number))
        (free_in taken.old) }
    ensures kept { IsKept taken.old taken.new }
{
    for number in members {
        taken[*number as usize] = true;
    }
}
