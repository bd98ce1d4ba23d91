//! Kept places with many owners.
ghost use Rattle.std.specs.Prelude.{◌≡◌, ◌↔◌, [], IfOk, IsTrue};
ghost use Rattle.std.specs.List.{IsDistinct};
ghost use Rattle.std.specs.Map.{keys_of};
ghost use Rattle.std.specs.Ordering.{eq_by_cmp};
ghost use Rattle.cluster.specs.Keys.{key_order};
ghost use Rattle.kept_places.specs.Kept.{in_order, kept_place};
ghost use Rattle.kept_places.specs.Table.{entries_of, key_of};

use crate::table::{KeptPlace, Table};
use cluster::BlockKey;
use grid::Place;
use std::alloc::{AllocError, Global};
use std::marker::Model;
use std::sync::Arc;

/// Places that are kept for blocks, with many owners, who share one copy. Its value is the map from
/// keys to places, as a list in the order of the keys.
#[derive(Drop)]
pub struct Kept {
    table: Option<Arc<Table>>,
}

impl Model for Kept {
    ghost use Rattle.kept_places.specs.Kept.{KeptPlaces};
    ghost use Rattle.kept_places.specs.Shared.{shared_value};

    ghost Value = { KeptPlaces };

    ghost view = { λ k. shared_value k.table };
}

impl Kept {
    /// An empty map. Takes no memory.
    pub fn none() -> Self
        ensures { result ≡ [] }
    {
        Kept { table: None }
    }

    /// The map of these entries, whose keys are all different. Copies the names.
    pub fn of(alloc: Global, entries: Vec<KeptPlace<'_>>) -> Result<Self, AllocError>
        requires { IsDistinct (eq_by_cmp key_order) (keys_of (entries_of entries.items)) }
        ensures { IfOk result (λ kept. kept ≡ in_order (entries_of entries.entry.items)) }
    {
        let table = Table::of(alloc, entries)?;
        match Arc::new(alloc, table) {
            Ok(table) => Ok(Kept { table: Some(table) }),
            Err(_) => Err(AllocError),
        }
    }

    /// The place that is kept for the block with this key, if there is one. Takes no memory.
    pub fn place_of(&self, key: BlockKey<'_>) -> Option<Place>
        ensures { result ≡ kept_place self.now (key_of key.entry) }
    {
        match &self.table {
            None => None,
            Some(table) => table.place_of(key),
        }
    }

    /// Whether both maps have equal values.
    pub fn same(&self, other: &Kept) -> bool
        ensures { IsTrue result ↔ (self.now ≡ other.now) }
    {
        match (&self.table, &other.table) {
            (None, None) => true,
            (Some(table), Some(others)) => table.same(others),
            (None, Some(table)) | (Some(table), None) => table.is_empty(),
        }
    }
}

impl Clone for Kept {
    ghost is_clone = { λ kept copy. copy ≡ kept };

    /// Adds an owner, without copying. Fails only if the number of owners overflows.
    fn clone(&self) -> Result<Self, AllocError> {
        match &self.table {
            None => Ok(Kept { table: None }),
            Some(table) => Ok(Kept {
                table: Some(table.clone()?),
            }),
        }
    }
}
