//! Records which nets of a text are driven.
ghost use Rattle.std.specs.Prelude.{◌≡◌, ◌≤◌, ◌<◌, ◌++◌, [], map, length, IfOk, option_map, slice_index_or};
ghost use Rattle.blif.specs.Names.{first_of, has_name, number_of, texts};
ghost use Rattle.blif.specs.Numbering.{AreNumbered};
ghost use Rattle.blif.specs.Repeats.{undriven_names};

use crate::circuit::MAX_NETS;
use line_text::NameSet;
use std::alloc::{AllocError, Global};
use std::marker::Model;

/// The nets of a whole text, the clocks among them that are inputs, and the nets that other inputs,
/// tables and latches drive. Its value is the record of these.
#[derive(Drop)]
pub struct Driven<'t> {
    nets: NameSet<'t>,
    clocks: NameSet<'t>,
    drivers: NameSet<'t>,
    is_driven: Vec<bool>,
}

impl<'t> Model for Driven<'t> {
    ghost use Rattle.blif.specs.DrivenNets.{AreMarked, DrivenNets};

    ghost Value = { DrivenNets };

    ghost view = { λ d. record { nets = d.nets; clocks = d.clocks; drivers = d.drivers } };

    ghost invariant = { λ d. AreMarked d.nets d.clocks d.drivers d.is_driven.items };
}

impl<'t> Driven<'t> {
    /// These nets, at most [`MAX_NETS`].
    pub fn new(
        alloc: Global,
        nets: NameSet<'t>,
        clocks: NameSet<'t>,
        drivers: NameSet<'t>,
    ) -> Result<Self, AllocError>
        requires { length nets ≤ MAX_NETS }
        ensures { IfOk result (λ driven.
            driven ≡ record { nets = nets.entry; clocks = clocks.entry; drivers = drivers.entry }) }
    {
        let is_driven = marks(alloc, &nets, &clocks, &drivers)?;
        Ok(Driven {
            nets,
            clocks,
            drivers,
            is_driven,
        })
    }

    /// The nets, in the order of their numbers.
    pub fn nets(&self) -> &NameSet<'t>
        ensures { result.now ≡ self.now.nets }
    {
        &self.nets
    }

    /// The clocks that are inputs.
    pub fn clocks(&self) -> &NameSet<'t>
        ensures { result.now ≡ self.now.clocks }
    {
        &self.clocks
    }

    /// The number of a net, or the number of nets if the name is not a net.
    pub fn number(&self, net: &[u8]) -> u32
        ensures { result ≡ number_of self.now.nets net.now }
    {
        self.nets.number(net) as u32
    }

    /// Whether the net with this number is driven.
    pub fn is_driven(&self, net: u32) -> bool
        requires { net < length self.now.nets }
        ensures { result ≡ has_name (self.now.clocks ++ self.now.drivers)
            (slice_index_or self.now.nets net []) }
    {
        self.is_driven[net as usize]
    }

    /// The first of the names whose net is not driven; `nets` are the numbers of the names' nets.
    pub fn first_undriven(&self, names: &[&'t [u8]], nets: &[u32]) -> Option<&'t [u8]>
        requires { AreNumbered self.now.nets (texts names.now) nets.now }
        ensures { option_map (λ n. n.now) result
            ≡ first_of (undriven_names (self.now.clocks ++ self.now.drivers) (texts names.now)) }
    {
        for place in 0..names.len() {
            if !self.is_driven(nets[place]) {
                return Some(names[place]);
            }
        }
        None
    }
}

/// Whether each net is driven, by net number.
fn marks<'t>(
    alloc: Global,
    nets: &NameSet<'t>,
    clocks: &NameSet<'t>,
    drivers: &NameSet<'t>,
) -> Result<Vec<bool>, AllocError>
    ensures { IfOk result (λ marks.
        marks.items ≡ map (has_name (clocks.now ++ drivers.now)) nets.now) }
{
    let mut marks = Vec::with_capacity(alloc, nets.len())?;
    for number in 0..nets.len() {
        let net = nets.name(number);
        marks.push(is_driven(clocks, drivers, net))?;
    }
    Ok(marks)
}

/// Whether the net is driven.
fn is_driven(clocks: &NameSet<'_>, drivers: &NameSet<'_>, net: &[u8]) -> bool
    ensures { result ≡ has_name (clocks.now ++ drivers.now) net.now }
{
    clocks.contains(net) || drivers.contains(net)
}
