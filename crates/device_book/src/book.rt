//! The book of owners.
ghost use Rattle.std.specs.Prelude.{◌≡◌, [], ◌∷◌, ◌+◌, ◌<◌, ◌≤◌, ◌*◌, IfOk, None, OnOk, Some, length, map, max, true};
ghost use Rattle.arch_file.specs.declared.arch.TheConstants.{MAX_PINS};
ghost use Rattle.arch_file.specs.Arch.{IsArch};
ghost use Rattle.device_book.specs.Columns.{IsWhole, ListsBefore, column_size};
ghost use Rattle.device_book.specs.Owners.{AreOwned, CanClaim, CanShift, Claims, HasPlace, IsExtent, IsPlace, KeepsLimits, ListsOwners, Releases, Shifts, StandIn, extent_of, in_book, no_owners, number_of, owner_of, size_of};
ghost use Rattle.rr_graph.specs.Resources.{moved_resource, resource_rank};

use arch_file::Arch;
use rr_graph::{Resource, ResourceKind};
use std::alloc::{AllocError, Global};
use std::marker::Model;

/// The limits of a device's resources: its columns, its rows, and the numbers at each place.
#[derive(Clone, Copy, PartialEq, Eq)]
pub struct Extent {
    /// The device's columns, without the one of wires to the left of them.
    pub columns: u32,
    /// The device's rows, without the pads below and above them.
    pub rows: u32,
    /// Greater than any number of a pin, a pad or a track.
    pub numbers: u32,
}

/// The owners of a device's resources. Its value has for each resource its owner, or `None`.
#[derive(Drop)]
pub struct Book {
    extent: Extent,
    owners: Vec<Option<u16>>,
    /// How many places of each column are owned, column by column from the left.
    used: Vec<u32>,
}

impl Model for Book {
    ghost use Rattle.device_book.specs.Columns.{IsWhole};
    ghost use Rattle.device_book.specs.Owners.{Owners};

    ghost Value = { Owners };

    ghost view = { λ b. record { extent = b.extent; owners = b.owners.items } };

    ghost invariant = { λ b. IsWhole b.extent b.owners.items b.used.items };
}

impl Book {
    /// Returns the book of a device on which nobody owns anything. Fails with [`AllocError`] if
    /// memory runs out.
    pub fn new(alloc: Global, arch: &Arch, columns: u32, rows: u32) -> Result<Self, AllocError>
        requires { KeepsLimits arch.now columns rows }
        ensures { IfOk result (λ book. book ≡ no_owners (extent_of arch.now columns rows)) }
    {
        let numbers = numbers(arch);
        let extent = Extent {
            columns,
            rows,
            numbers,
        };
        let used = vec![in alloc; 0; columns as usize + 1]?;
        let owners = vec![in alloc; None; size(extent)]?;
        Ok(Book {
            extent,
            owners,
            used,
        })
    }

    /// Returns the owner of a resource; `None` if nobody owns it or the device doesn't have it.
    pub fn owner(&self, resource: Resource) -> Option<u32>
        ensures { result ≡ owner_of self.now resource }
    {
        if !in_book(self.extent, resource) {
            return None;
        }
        self.owners[number_of(self.extent, resource)].map(u32::from)
    }

    /// Lists each owned resource with its owner, in node order. It skips the columns in which
    /// nothing is owned. Fails with [`AllocError`] if memory runs out.
    pub fn owned_resources(&self, alloc: Global) -> Result<Vec<Owned>, AllocError>
        ensures { IfOk result (λ list. ListsOwners self.now list.items) }
    {
        let mut list = Vec::new(alloc);
        for column in 0..self.used.len() {
            if self.used[column] > 0 {
                self.list_column(column, &mut list)?;
            }
        }
        Ok(list)
    }

    /// Gives resources of a tenancy's strip, moved `offset` columns to the right, to the tenancy.
    /// Nobody may own them. Takes no memory.
    pub fn claim(&mut self, id: u16, offset: u32, resources: &[Resource])
        requires { CanClaim self.old offset resources.now }
        ensures { Claims self.old id (map (moved_resource offset) resources.now) self.new }
    {
        self.write(Some(id), offset, resources);
    }

    /// Takes resources of a tenancy's strip, moved `offset` columns to the right, from their owner.
    /// Takes no memory.
    pub fn release(&mut self, offset: u32, resources: &[Resource])
        requires there { StandIn self.old.extent offset resources.now }
        ensures { Releases self.old (map (moved_resource offset) resources.now) self.new }
    {
        self.write(None, offset, resources);
    }

    /// Moves what a tenancy owns, these resources of its strip, from one offset of the strip to
    /// another. The old and the new resources may overlap. Takes no memory.
    pub fn shift(&mut self, id: u16, from: u32, to: u32, resources: &[Resource])
        requires { CanShift self.old id from to resources.now }
        ensures { Shifts self.old id (map (moved_resource from) resources.now)
            (map (moved_resource to) resources.now) self.new }
    {
        self.release(from, resources);
        self.claim(id, to, resources);
    }

    /// Sets the owner, or `None`, of each of these resources, moved `offset` columns to the right.
    fn write(&mut self, owner: Option<u16>, offset: u32, resources: &[Resource])
        requires { StandIn self.old.extent offset resources.now }
        ensures { AreOwned self.old (map (moved_resource offset) resources.now) owner self.new }
    {
        for resource in resources {
            self.write_one(owner, offset, *resource);
        }
    }

    /// Sets the owner, or `None`, of one resource, moved `offset` columns to the right, and updates
    /// the count of its column.
    fn write_one(&mut self, owner: Option<u16>, offset: u32, resource: Resource)
        requires { in_book self.old.extent (moved_resource offset resource) ≡ true }
        ensures { AreOwned self.old (moved_resource offset resource ∷ []) owner self.new }
    {
        let extent = self.extent;
        let resource = resource.at_offset(offset);
        let place = number_of(extent, resource);
        let column = resource.x as usize;
        let was_owned = u32::from(self.owners[place].is_some());
        let is_owned = u32::from(owner.is_some());
        self.owners[place] = owner;
        self.used[column] = self.used[column] + is_owned - was_owned;
    }

    /// Appends what is owned in a column to the list of what is owned in the columns before it.
    fn list_column(&self, column: usize, list: &mut Vec<Owned>) -> Result<(), AllocError>
        requires within { column ≤ self.now.extent.columns }
        requires before { ListsBefore self.now column list.old.items }
        ensures { OnOk result (ListsBefore self.now (column + 1) list.new.items) }
    {
        let size = column_size(self.extent);
        for place in column * size..(column + 1) * size {
            if let Some(id) = self.owners[place] {
                let resource = resource_at(self.extent, place);
                let id = u32::from(id);
                list.push(Owned { resource, id })?;
            }
        }
        Ok(())
    }
}

/// A resource and the tenancy that owns it.
#[derive(Clone, Copy, PartialEq, Eq)]
pub struct Owned {
    pub resource: Resource,
    pub id: u32,
}

/// A number greater than any number of a pin, a pad or a track.
#[tactic(auto, using(arch_file::proofs::FewPins::few_pins))]
fn numbers(arch: &Arch) -> u32
    requires { IsArch arch.now }
    ensures value { result ≡ max (max (length arch.now.pins) arch.now.tracks) arch.now.io_rat }
    ensures few { result ≤ MAX_PINS }
{
    let pins = arch.pins.as_slice().len() as u32;
    pins.max(arch.tracks).max(arch.io_rat)
}

/// The number of places.
fn size(extent: Extent) -> usize
    requires { IsExtent extent }
    ensures { result ≡ size_of extent }
{
    (extent.columns as usize + 1) * 5 * (extent.rows as usize + 2) * extent.numbers as usize
}

/// Returns whether there is a place for the resource.
fn in_book(extent: Extent, resource: Resource) -> bool
    requires { IsExtent extent }
    ensures { result ≡ in_book extent resource }
{
    resource.x <= extent.columns && resource.y <= extent.rows + 1 && resource.n < extent.numbers
}

/// The place of a resource.
fn number_of(extent: Extent, resource: Resource) -> usize
    requires { HasPlace extent resource }
    ensures value { result ≡ number_of extent resource }
    ensures within { result < size_of extent }
{
    let kind = rank(resource.kind);
    let row = (resource.x as usize * 5 + kind) * (extent.rows as usize + 2) + resource.y as usize;
    row * extent.numbers as usize + resource.n as usize
}

/// The rank of a kind in node order.
fn rank(kind: ResourceKind) -> usize
    ensures { result ≡ resource_rank kind }
{
    match kind {
        ResourceKind::Opin => 0,
        ResourceKind::Ipin => 1,
        ResourceKind::ChanX => 2,
        ResourceKind::ChanY => 3,
        ResourceKind::Pad => 4,
    }
}

/// The number of places in a column.
fn column_size(extent: Extent) -> usize
    requires { IsExtent extent }
    ensures { result ≡ column_size extent }
{
    5 * (extent.rows as usize + 2) * extent.numbers as usize
}

/// The resource at a place.
fn resource_at(extent: Extent, place: usize) -> Resource
    requires { IsPlace extent place }
    ensures there { in_book extent result ≡ true }
    ensures place { number_of extent result ≡ place }
{
    let numbers = extent.numbers as usize;
    let rows = extent.rows as usize + 2;
    let n = (place % numbers) as u32;
    let row = place / numbers;
    let y = (row % rows) as u32;
    let column = row / rows;
    let kind = kind_of(column % 5);
    let x = (column / 5) as u32;
    Resource { x, kind, y, n }
}

/// The kind of that rank in node order.
fn kind_of(rank: usize) -> ResourceKind
    requires { rank < 5 }
    ensures { resource_rank result ≡ rank }
{
    match rank {
        0 => ResourceKind::Opin,
        1 => ResourceKind::Ipin,
        2 => ResourceKind::ChanX,
        3 => ResourceKind::ChanY,
        _ => ResourceKind::Pad,
    }
}
