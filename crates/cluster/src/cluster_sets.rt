//! The nets on the pins of one cluster.
ghost use Rattle.std.specs.Prelude.{◌≡◌, [], IfOk, filter, not};
ghost use Rattle.cluster.specs.Prelude.{has, with_nets, inputs_of, elements_at, outputs_of, clocks_of, outside_inputs};
ghost use Rattle.cluster.specs.ClusterPins.{AreMembersWithin, CanGather, all_clocks_of};

use ble_cluster::{Bles, NetSet};
use std::alloc::{AllocError, Global};

/// The nets on the pins of a cluster, by class. The sets are reused from one cluster to the next.
#[derive(Drop)]
pub(crate) struct ClusterSets {
    pub(crate) outputs: NetSet,
    pub(crate) inputs: NetSet,
    pub(crate) clocks: NetSet,
}

impl ClusterSets {
    /// Empty sets for nets with numbers below `count`.
    pub(crate) fn new(alloc: Global, count: usize) -> Result<Self, AllocError>
        ensures inputs { IfOk result (λ sets. sets.inputs ≡ record { count = count; nets = [] }) }
        ensures outputs { IfOk result (λ sets. sets.outputs ≡ record { count = count; nets = [] }) }
        ensures clocks { IfOk result (λ sets. sets.clocks ≡ record { count = count; nets = [] }) }
    {
        Ok(ClusterSets {
            outputs: NetSet::new(alloc, count)?,
            inputs: NetSet::new(alloc, count)?,
            clocks: NetSet::new(alloc, count)?,
        })
    }

    /// Replaces the nets by those of a cluster with these members.
    pub(crate) fn gather(&mut self, bles: &Bles, members: &[u32]) -> Result<(), AllocError>
        requires { CanGather self.old bles.now members.now }
        ensures inputs { IfOk result (λ _. self.new.inputs
            ≡ record {
              count = self.old.inputs.count;
              nets = outside_inputs (elements_at bles.now members.now);
            }) }
        ensures clocks { IfOk result (λ _. self.new.clocks
            ≡ record {
              count = self.old.inputs.count;
              nets = clocks_of (elements_at bles.now members.now);
            }) }
        ensures outputs_count { IfOk result (λ _. self.new.outputs.count ≡ self.old.inputs.count) }
    {
        self.outputs.clear();
        self.inputs.clear();
        self.clocks.clear();
        add_outputs(&mut self.outputs, bles, members)?;
        add_inputs(&mut self.inputs, &self.outputs, bles, members)?;
        add_clocks(&mut self.clocks, bles, members)?;
        Ok(())
    }
}

/// Adds the nets that the members drive.
fn add_outputs(outputs: &mut NetSet, bles: &Bles, members: &[u32]) -> Result<(), AllocError>
    requires { AreMembersWithin outputs.old.count bles.now members.now }
    ensures { IfOk result (λ _. outputs.new
        ≡ record {
          count = outputs.old.count;
          nets = with_nets outputs.old.nets (outputs_of (elements_at bles.now members.now));
        }) }
{
    for member in members {
        outputs.insert(bles.ble(*member as usize).output)?;
    }
    Ok(())
}

/// Adds the nets that the members read and that none of them drives.
fn add_inputs(
    inputs: &mut NetSet,
    outputs: &NetSet,
    bles: &Bles,
    members: &[u32],
) -> Result<(), AllocError>
    requires members { AreMembersWithin inputs.old.count bles.now members.now }
    requires same_count { outputs.now.count ≡ inputs.old.count }
    ensures { IfOk result (λ _. inputs.new
        ≡ record {
          count = inputs.old.count;
          nets = with_nets inputs.old.nets (filter (λ net. not (has outputs.now.nets net))
              (inputs_of (elements_at bles.now members.now)));
        }) }
{
    for member in members {
        inputs.insert_others(bles.ble(*member as usize).inputs, outputs)?;
    }
    Ok(())
}

/// Adds the clocks of the members.
fn add_clocks(clocks: &mut NetSet, bles: &Bles, members: &[u32]) -> Result<(), AllocError>
    requires { AreMembersWithin clocks.old.count bles.now members.now }
    ensures { IfOk result (λ _. clocks.new
        ≡ record {
          count = clocks.old.count;
          nets = with_nets clocks.old.nets (all_clocks_of (elements_at bles.now members.now));
        }) }
{
    for member in members {
        if let Some(clock) = bles.ble(*member as usize).clock {
            clocks.insert(clock)?;
        }
    }
    Ok(())
}
