//! Places by key, in the order of the keys.
ghost use Rattle.std.specs.Prelude.{◌≡◌, ◌↔◌, ◌<◌, [], length, slice_get, Some, IfOk, IsTrue};
ghost use Rattle.std.specs.FinMap.{is_sorted};
ghost use Rattle.std.specs.List.{IsDistinct};
ghost use Rattle.std.specs.Map.{keys_of};
ghost use Rattle.std.specs.Ordering.{eq_by_cmp};
ghost use Rattle.cluster.specs.Keys.{key_order};
ghost use Rattle.kept_places.specs.Kept.{in_order, kept_place};
ghost use Rattle.kept_places.specs.Table.{entries_of, entry_of, key_of};

use cluster::{BlockKey, BlockKind};
use grid::Place;
use rows::Span;
use std::alloc::{AllocError, Global};
use std::cmp::Ordering;
use std::marker::Model;

/// A place that is kept for a block.
#[derive(Clone, Copy, PartialEq, Eq, PartialOrd, Ord)]
pub struct KeptPlace<'a> {
    /// The block's key.
    pub key: BlockKey<'a>,
    /// Its place.
    pub place: Place,
}

/// An entry of a table, with the span of its name among all names.
#[derive(Clone, Copy)]
pub(crate) struct Row {
    pub(crate) kind: BlockKind,
    pub(crate) name: Span,
    pub(crate) place: Place,
}

/// Places by key, in the order of the keys, which are all different. Its value is the list of the
/// entries.
#[derive(Drop)]
pub(crate) struct Table {
    names: Vec<u8>,
    rows: Vec<Row>,
}

impl Model for Table {
    ghost use Rattle.kept_places.specs.Kept.{KeptPlaces};
    ghost use Rattle.kept_places.specs.Rows.{IsTable, entries_at};

    ghost Value = { KeptPlaces };

    ghost view = { λ t. entries_at t.names.items t.rows.items };

    ghost invariant = { λ t. IsTable t.names.items t.rows.items };
}

impl Table {
    /// The table of these entries, whose keys are all different.
    pub(crate) fn of(alloc: Global, mut entries: Vec<KeptPlace<'_>>) -> Result<Self, AllocError>
        requires { IsDistinct (eq_by_cmp key_order) (keys_of (entries_of entries.items)) }
        ensures { IfOk result (λ table. table ≡ in_order (entries_of entries.entry.items)) }
    {
        entries.sort_unstable();
        Table::in_order(alloc, entries.as_slice())
    }

    /// The table of entries that are in the order of their keys.
    fn in_order(alloc: Global, entries: &[KeptPlace<'_>]) -> Result<Self, AllocError>
        requires { IsTrue (is_sorted key_order (entries_of entries.now)) }
        ensures { IfOk result (λ table. table ≡ entries_of entries.now) }
    {
        let mut names = Vec::new(alloc);
        let mut rows = Vec::new(alloc);
        rows.reserve(entries.len())?;
        for entry in entries {
            let start = names.len();
            names.extend_from_slice(entry.key.name)?;
            let end = names.len();
            rows.push(Row {
                kind: entry.key.kind,
                name: Span { start, end },
                place: entry.place,
            })?;
        }
        Ok(Table { names, rows })
    }

    /// The place that is kept for the block with this key, if there is one.
    pub(crate) fn place_of(&self, key: BlockKey<'_>) -> Option<Place>
        ensures { result ≡ kept_place self.now (key_of key.entry) }
    {
        let mut low = 0;
        let mut high = self.len();
        while low < high {
            let middle = low + (high - low) / 2;
            let found = self.entry(middle);
            match key.cmp(&found.key) {
                Ordering::Less => high = middle,
                Ordering::Equal => return Some(found.place),
                Ordering::Greater => low = middle + 1,
            }
        }
        None
    }

    /// Whether both tables have equal entries.
    pub(crate) fn same(&self, other: &Table) -> bool
        ensures { IsTrue result ↔ (self.now ≡ other.now) }
    {
        if self.len() != other.len() {
            return false;
        }
        for number in 0..self.len() {
            if !same_entry(self.entry(number), other.entry(number)) {
                return false;
            }
        }
        true
    }

    /// Whether there are no entries.
    pub(crate) fn is_empty(&self) -> bool
        ensures { IsTrue result ↔ (self.now ≡ []) }
    {
        self.rows.is_empty()
    }

    /// The number of entries.
    fn len(&self) -> usize
        ensures value { result ≡ length self.now }
        ensures rising { IsTrue (is_sorted key_order self.now) }
    {
        self.rows.len()
    }

    /// The entry with this number.
    fn entry(&self, number: usize) -> KeptPlace<'_>
        requires { number < length self.now }
        ensures { slice_get self.now number ≡ Some (entry_of result) }
    {
        let row = self.rows[number];
        KeptPlace {
            key: BlockKey {
                kind: row.kind,
                name: &self.names[row.name.start..row.name.end],
            },
            place: row.place,
        }
    }
}

/// Whether both entries are equal.
fn same_entry(entry: KeptPlace<'_>, other: KeptPlace<'_>) -> bool
    ensures { IsTrue result ↔ (entry_of entry.entry ≡ entry_of other.entry) }
{
    entry.key.kind == other.key.kind
        && entry.place == other.place
        && entry.key.name == other.key.name
}
