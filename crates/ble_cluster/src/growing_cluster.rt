//! A growing cluster.
ghost use Rattle.std.specs.Prelude.{◌≡◌, ◌<◌, ◌+◌, ◌++◌, [], ◌∷◌, All, length, min, IfOk, OnErr, not, ◌&&◌, ◌||◌, is_ok, if◌then◌else◌};
ghost use Rattle.ble_cluster.specs.Nets.{has, with_nets};
ghost use Rattle.ble_cluster.specs.NetSets.{with_net};
ghost use Rattle.ble_cluster.specs.Clusters.{elements_at, outside_inputs};
ghost use Rattle.ble_cluster.specs.GrowingCluster.{agree, IsBeside, IsEntered, IsGrowingCluster, IsRoomFor, IsTold, MayAdd, MayAllEnter, MayEnter, is_new_input, new_inputs_of};

use crate::ble_index::BleIndex;
use crate::net_set::NetSet;
use crate::shared_nets::SharedNets;
use std::alloc::{AllocError, Global};

/// A growing cluster: its members, and data derived from them.
#[derive(Drop)]
pub(crate) struct GrowingCluster {
    pub(crate) members: Vec<u32>,
    /// The nets that a member reads.
    pub(crate) reads: NetSet,
    /// The nets that a member drives.
    pub(crate) drives: NetSet,
    /// The number of nets that members read and don't drive.
    pub(crate) outside: usize,
    pub(crate) clock: Option<u32>,
    /// The number of nets that each BLE shares with the members.
    pub(crate) gains: SharedNets,
}

impl GrowingCluster {
    /// A cluster without members, for this number of BLEs and nets.
    pub(crate) fn new(alloc: Global, elements: usize, nets: usize) -> Result<Self, AllocError>
        ensures members { IfOk result (λ growth. growth.members.items ≡ []) }
        ensures room { IfOk result (λ growth. (growth.reads.count ≡ nets)
            × (growth.drives.count ≡ nets) × (length growth.gains ≡ elements)) }
    {
        let gains = SharedNets::new(alloc, elements)?;
        match two_sets(alloc, nets) {
            Ok((reads, drives)) => Ok(GrowingCluster {
                members: Vec::new(alloc),
                reads,
                drives,
                outside: 0,
                clock: None,
                gains,
            }),
            Err(error) => {
                drop(gains);
                Err(error)
            }
        }
    }

    /// Removes all members.
    pub(crate) fn clear(&mut self, elements: &BleIndex)
        requires { IsRoomFor elements.now self.old }
        ensures members { self.new.members.items ≡ [] }
        ensures room { IsRoomFor elements.now self.new }
        ensures growth { IsGrowingCluster elements.now.elements elements.now.nets self.new }
    {
        self.members.clear();
        self.reads.clear();
        self.drives.clear();
        self.outside = 0;
        self.clock = None;
        self.gains.clear();
    }

    /// Whether a BLE that drives `output` has this net as an input from outside that the members
    /// don't have yet.
    fn gains_input(&self, net: u32, output: u32) -> bool
        requires { net < min self.now.reads.count self.now.drives.count }
        ensures { result ≡ is_new_input self.now.reads.nets self.now.drives.nets output net }
    {
        !self.reads.has(net) && !self.drives.has(net) && net != output
    }

    /// Whether the net is an input from outside.
    fn is_outside(&self, net: u32) -> bool
        requires { net < min self.now.reads.count self.now.drives.count }
        ensures { result ≡ (has self.now.reads.nets net && not (has self.now.drives.nets net)) }
    {
        self.reads.has(net) && !self.drives.has(net)
    }

    /// The number of the BLE's inputs that come from outside and that the members don't have yet.
    fn new_inputs(&self, inputs: &[u32], output: u32) -> usize
        requires { All (λ net. net < min self.now.reads.count self.now.drives.count) inputs.now }
        ensures { result ≡ length (new_inputs_of self.now.reads.nets self.now.drives.nets output
            inputs.now) }
    {
        let mut count = 0;
        for net in inputs {
            if self.gains_input(*net, output) {
                count += 1;
            }
        }
        count
    }

    /// The number of inputs from outside that the members and this BLE have together.
    pub(crate) fn outside_with(&self, elements: &BleIndex, number: u32) -> usize
        requires { IsBeside elements.now self.now number }
        ensures { result ≡ length (outside_inputs
            (elements_at elements.now.elements (self.now.members.items ++ number ∷ []))) }
    {
        let ble = elements.ble(number as usize);
        let outside = self.outside + self.new_inputs(ble.inputs, ble.output);
        if self.is_outside(ble.output) {
            outside - 1
        } else {
            outside
        }
    }

    /// Whether the BLE and the members together have at most one clock.
    pub(crate) fn agrees_on_clock(&self, clock: Option<u32>) -> bool
        ensures { result ≡ agree self.now.clock clock }
    {
        match (self.clock, clock) {
            (Some(own), Some(other)) => own == other,
            _ => true,
        }
    }

    /// Whether a member has the net.
    fn has(&self, net: u32) -> bool
        requires { net < min self.now.reads.count self.now.drives.count }
        ensures { result ≡ (has self.now.reads.nets net || has self.now.drives.nets net) }
    {
        self.reads.has(net) || self.drives.has(net)
    }

    /// Adds one to the count of shared nets of each BLE that has the net, unless a member already
    /// has the net.
    fn enter(&mut self, elements: &BleIndex, net: u32) -> Result<(), AllocError>
        requires { MayEnter elements.now self.old net }
        ensures same { self.new ≡ record self.old { gains = self.new.gains } }
        ensures count { length self.new.gains ≡ length self.old.gains }
        ensures entered { IfOk result (λ _. IsEntered elements.now self.old net self.new.gains) }
    {
        if self.has(net) {
            return Ok(());
        }
        self.gains.raise(elements.having(net))
    }

    /// Adds the net to those that members read.
    fn read(&mut self, elements: &BleIndex, net: u32) -> Result<(), AllocError>
        requires { MayEnter elements.now self.old net }
        ensures same { self.new ≡ record self.old {
          gains = self.new.gains;
          reads = self.new.reads;
        } }
        ensures room { IsRoomFor elements.now self.new }
        ensures told { IfOk result (λ _. IsTold elements.now.elements self.new) }
        ensures read { IfOk result (λ _. self.new.reads
            ≡ record { count = self.old.reads.count; nets = with_net self.old.reads.nets net }) }
    {
        self.enter(elements, net)?;
        self.reads.insert(net)?;
        Ok(())
    }

    /// Adds these nets to those that members read.
    fn read_all(&mut self, elements: &BleIndex, nets: &[u32]) -> Result<(), AllocError>
        requires { MayAllEnter elements.now self.old nets.now }
        ensures same { self.new ≡ record self.old {
          gains = self.new.gains;
          reads = self.new.reads;
        } }
        ensures room { IsRoomFor elements.now self.new }
        ensures told { IfOk result (λ _. IsTold elements.now.elements self.new) }
        ensures read { IfOk result (λ _. self.new.reads
            ≡ record {
              count = self.old.reads.count;
              nets = with_nets self.old.reads.nets nets.now;
            }) }
    {
        for net in nets {
            self.read(elements, *net)?;
        }
        Ok(())
    }

    /// Adds the net to those that members drive.
    fn drive(&mut self, elements: &BleIndex, net: u32) -> Result<(), AllocError>
        requires { MayEnter elements.now self.old net }
        ensures same { self.new ≡ record self.old {
          gains = self.new.gains;
          drives = self.new.drives;
        } }
        ensures room { IsRoomFor elements.now self.new }
        ensures told { IfOk result (λ _. IsTold elements.now.elements self.new) }
        ensures driven { IfOk result (λ _. self.new.drives
            ≡ record { count = self.old.drives.count; nets = with_net self.old.drives.nets net }) }
    {
        self.enter(elements, net)?;
        self.drives.insert(net)?;
        Ok(())
    }

    /// Adds a member that fits with the others. If memory runs out, the growing cluster is
    /// inconsistent and must be cleared.
    pub(crate) fn add(&mut self, elements: &BleIndex, number: u32) -> Result<(), AllocError>
        requires { MayAdd elements.now self.old number }
        ensures room { IsRoomFor elements.now self.new }
        ensures still { OnErr result (self.new.members.items ≡ self.old.members.items) }
        ensures members { IfOk result (λ _. self.new.members.items
            ≡ self.old.members.items ++ number ∷ []) }
        ensures growth { IfOk result (λ _. IsGrowingCluster elements.now.elements elements.now.nets
            self.new) }
    {
        let ble = elements.ble(number as usize);
        let outside = self.outside_with(elements, number);
        self.read_all(elements, ble.inputs)?;
        self.drive(elements, ble.output)?;
        self.members.push(number)?;
        self.outside = outside;
        self.clock = ble.clock.or(self.clock);
        Ok(())
    }

    /// Adds the last member of a cluster. The shared nets are not updated, since they are not
    /// needed any more.
    pub(crate) fn fill(&mut self, number: u32) -> Result<(), AllocError>
        ensures same { self.new ≡ record self.old { members = self.new.members } }
        ensures added { IfOk result (λ _. self.new.members.items
            ≡ self.old.members.items ++ number ∷ []) }
        ensures members { self.new.members.items
            ≡ (if is_ok result then self.old.members.items ++ number ∷ []
            else self.old.members.items) }
    {
        self.members.push(number)?;
        Ok(())
    }
}

/// Two empty sets for nets with numbers below `nets`.
fn two_sets(alloc: Global, nets: usize) -> Result<(NetSet, NetSet), AllocError>
    ensures { IfOk result (λ both. (both.0.count ≡ nets) × (both.1.count ≡ nets)) }
{
    let first = NetSet::new(alloc, nets)?;
    match NetSet::new(alloc, nets) {
        Ok(second) => Ok((first, second)),
        Err(error) => {
            drop(first);
            Err(error)
        }
    }
}
