//! Sets of nets.
ghost use Rattle.std.specs.Prelude.{◌≡◌, ◌<◌, [], All, IfOk, filter, not};
ghost use Rattle.ble_cluster.specs.Nets.{has, with_nets};
ghost use Rattle.ble_cluster.specs.NetSets.{AreMarked, with_net};

use std::alloc::{AllocError, Global};
use std::marker::Model;

/// Nets, each once, in the order in which they were added, with numbers below a count. Its value is
/// their list and the count. Whether a net is in the set is looked up in constant time.
#[derive(Drop)]
pub struct NetSet {
    nets: Vec<u32>,
    marks: Vec<bool>,
}

impl Model for NetSet {
    ghost use Rattle.std.specs.Prelude.{length};
    ghost use Rattle.ble_cluster.specs.NetSets.{NetsAmong, AreMarked};

    ghost Value = { NetsAmong };

    ghost view = { λ s. record { count = length s.marks.items; nets = s.nets.items } };

    ghost invariant = { λ s. AreMarked s.marks.items s.nets.items };
}

impl NetSet {
    /// An empty set for nets with numbers below `count`.
    pub fn new(alloc: Global, count: usize) -> Result<Self, AllocError>
        ensures { IfOk result (λ set. set ≡ record { count = count; nets = [] }) }
    {
        Ok(NetSet {
            nets: Vec::new(alloc),
            marks: Vec::from_elem(alloc, false, count)?,
        })
    }

    /// The nets, in the order in which they were added.
    pub fn nets(&self) -> &[u32]
        ensures value { result.now ≡ self.now.nets }
        ensures within { All (λ net. net < self.now.count) self.now.nets }
    {
        self.nets.as_slice()
    }

    /// Whether the set has the net.
    pub fn has(&self, net: u32) -> bool
        requires { net < self.now.count }
        ensures { result ≡ has self.now.nets net }
    {
        self.marks[net as usize]
    }

    /// Appends the net, unless the set has it.
    pub fn insert(&mut self, net: u32) -> Result<(), AllocError>
        requires { net < self.old.count }
        ensures count { self.new.count ≡ self.old.count }
        ensures inserted { IfOk result (λ _. self.new
            ≡ record { count = self.old.count; nets = with_net self.old.nets net }) }
    {
        if !self.marks[net as usize] {
            self.nets.push(net)?;
            self.marks[net as usize] = true;
        }
        Ok(())
    }

    /// Appends each of the nets that the set doesn't have yet.
    pub fn insert_all(&mut self, nets: &[u32]) -> Result<(), AllocError>
        requires { All (λ net. net < self.old.count) nets.now }
        ensures { IfOk result (λ _. self.new
            ≡ record { count = self.old.count; nets = with_nets self.old.nets nets.now }) }
    {
        for net in nets {
            self.insert(*net)?;
        }
        Ok(())
    }

    /// Appends each of the nets that neither set has yet.
    pub fn insert_others(&mut self, nets: &[u32], known: &NetSet) -> Result<(), AllocError>
        requires within { All (λ net. net < self.old.count) nets.now }
        requires same_count { known.now.count ≡ self.old.count }
        ensures { IfOk result (λ _. self.new
            ≡ record {
              count = self.old.count;
              nets = with_nets self.old.nets
                  (filter (λ net. not (has known.now.nets net)) nets.now);
            }) }
    {
        for net in nets {
            if !known.has(*net) {
                self.insert(*net)?;
            }
        }
        Ok(())
    }

    /// Removes all nets.
    pub fn clear(&mut self)
        ensures { self.new ≡ record { count = self.old.count; nets = [] } }
    {
        unmark(self.marks.as_mut_slice(), self.nets.as_slice());
        self.nets.clear();
    }
}

/// Removes the marks of these nets, which are all marked nets.
fn unmark(marks: &mut [bool], nets: &[u32])
    requires { AreMarked marks.old nets.now }
    ensures { AreMarked marks.new [] }
{
    for net in nets {
        marks[*net as usize] = false;
    }
}
