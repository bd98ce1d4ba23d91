//! The device that is read.
ghost use Rattle.std.specs.Prelude.{◌+◌, ◌-◌, ◌≡◌, ◌≤◌, [], ◌==◌, Contains, IfSome, find, is_some, map, option_map};
ghost use Rattle.std.specs.List.{list_all};
ghost use Rattle.device_lines.specs.Prelude.{MAX_PINS, MAX_COLUMNS, MAX_ROWS};

use crate::size::DeviceSize;
use crate::tenancy::Tenancy;
use rr_graph::Resource;
use std::alloc::Global;

/// A wire, pin or pad of the device, and the id of the tenancy that owns it.
#[derive(Clone, Copy)]
pub struct OwnedResource {
    pub node: Resource,
    pub owner: u32,
    ghost on_largest: { (node.x ≤ MAX_COLUMNS) × (node.y ≤ MAX_ROWS + 1)
        × (node.n ≤ MAX_PINS - 1) },
}

/// The device: its size, its live tenancies, and what they own, in node order.
#[derive(Drop)]
pub struct ListedDevice<'t> {
    pub size: DeviceSize,
    pub tenancies: Vec<Tenancy<'t>>,
    pub owned: Vec<OwnedResource>,
}

impl<'t> ListedDevice<'t> {
    ghost use Rattle.device_lines.specs.Lines.{listed_of, owned_node};
    ghost use Rattle.device_lines.specs.Reading.{are_parted, follows, last_of, rises, with_id};

    /// Returns a device of that size without tenancies.
    pub fn new(alloc: Global, size: DeviceSize) -> Self
        ensures size { result.size ≡ size }
        ensures tenancies { result.tenancies.items ≡ [] }
        ensures owned { result.owned.items ≡ [] }
    {
        ListedDevice {
            size,
            tenancies: Vec::new(alloc),
            owned: Vec::new(alloc),
        }
    }

    /// The tenancy of that id; `None` if it isn't listed.
    pub(crate) fn tenancy(&self, id: u32) -> Option<&Tenancy<'t>>
        ensures listed { IfSome result (λ tenancy. Contains self.now.tenancies.items tenancy.now
            × (tenancy.now.id ≡ id)) }
        ensures exact { option_map (λ tenancy. tenancy.now) result
            ≡ find (λ tenancy. tenancy.id == id) self.now.tenancies.items }
    {
        self.tenancies.iter().find(|tenancy| tenancy.id == id)
    }

    /// Returns whether a tenancy has that id.
    pub(crate) fn is_listed(&self, id: u32) -> bool
        ensures { result ≡ is_some (with_id (map listed_of self.now.tenancies.items) id) }
    {
        self.tenancy(id).is_some()
    }

    /// Returns whether a tenancy of that id may follow those in the list: its id is greater.
    pub(crate) fn is_next(&self, id: u32) -> bool
        ensures { result ≡ rises (last_of (map listed_of self.now.tenancies.items)) id }
    {
        match self.tenancies.last() {
            Some(last) => last.id < id,
            None => true,
        }
    }

    /// Returns whether a node comes after the owned ones in node order.
    pub(crate) fn goes_on_with(&self, owned: OwnedResource) -> bool
        ensures { result ≡ follows (last_of (map owned_node self.now.owned.items)) (owned_node owned) }
    {
        match self.owned.last() {
            Some(last) => last.node.is_before(owned.node),
            None => true,
        }
    }

    /// Returns whether this strip is separated from all others by an unused column.
    pub(crate) fn is_parted(&self, strip: &Tenancy<'_>) -> bool
        ensures { result ≡ list_all (λ other. are_parted (listed_of other) (listed_of strip.now))
            self.now.tenancies.items }
    {
        self.tenancies.iter().all(|other| other.is_parted(strip))
    }
}
