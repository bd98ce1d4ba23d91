//! The nets that cross a column.
ghost use Rattle.std.specs.Prelude.{ℕ, ◌≡◌, ◌+◌, ◌*◌, ◌<◌, ◌≤◌, All, length};
ghost use Rattle.arch_file.specs.Arch.{IsWithin};
ghost use Rattle.cluster.specs.Blocks.{blocks_of};
ghost use Rattle.grid.specs.declared.TheConstants.{MAX_COLUMNS};
ghost use Rattle.track_bound.specs.Crossings.{crosses_column, crossing_count, is_between};
ghost use Rattle.track_bound.specs.Busiest.{IsBusiest};

use cluster::{BlockNet, Packed, laws_of_packing};
use grid::Place;

/// The nets that cross a column: the block that drives the net is on one side of the column, and a
/// block that reads it is on the other. A global net crosses none.
#[derive(Clone, Copy)]
pub struct Crossing {
    /// The column, counted from 1.
    pub column: u32,
    /// The number of nets.
    pub nets: usize,
}

impl Crossing {
    /// The least number of tracks with which a strip of that many rows has a horizontal wire over
    /// the column for each of the nets.
    pub fn least_tracks(self, rows: u32) -> usize
        ensures enough { self.nets ≤ (rows + 1) * result }
        ensures least { (tracks : ℕ) → self.nets ≤ (rows + 1) * tracks →
            result ≤ tracks }
    {
        let channels = rows as usize + 1;
        if self.nets == 0 {
            0
        } else {
            (self.nets - 1) / channels + 1
        }
    }
}

/// The first of the columns that the most nets cross. The columns are those from 1 to `columns`,
/// and each block has its place in `places`.
pub fn busiest_column(packed: &Packed, places: &[Place], columns: u32) -> Crossing
    requires columns { IsWithin 1 columns MAX_COLUMNS }
    requires places { length places.now ≡ length (blocks_of packed.now) }
    ensures { IsBusiest packed.now places.now columns result }
{
    let mut busiest = crossing_at(packed, places, 1);
    for column in 2..columns + 1 {
        let crossing = crossing_at(packed, places, column);
        if crossing.nets > busiest.nets {
            busiest = crossing;
        }
    }
    busiest
}

/// The nets that cross that column.
fn crossing_at(packed: &Packed, places: &[Place], column: u32) -> Crossing
    requires { length places.now ≡ length (blocks_of packed.now) }
    ensures { result
        ≡ record { column = column; nets = crossing_count packed.now places.now column } }
{
    packed.laws();
    laws_of_packing();
    let mut nets = 0;
    for number in 0..packed.net_count() {
        if crosses(packed.net(number), places, column) {
            nets += 1;
        }
    }
    Crossing { column, nets }
}

/// Whether the net crosses the column.
fn crosses(net: BlockNet<'_>, places: &[Place], column: u32) -> bool
    requires driver { net.driver < length places.now }
    requires readers { All (λ reader. reader < length places.now) net.readers.now }
    ensures { result ≡ crosses_column places.now column
        (record {
          net = net.entry.net;
          driver = net.entry.driver;
          readers = net.entry.readers.now;
          global = net.entry.global;
        }) }
{
    if net.global {
        return false;
    }
    let from = places[net.driver as usize].x;
    for reader in net.readers {
        if is_between(column, from, places[*reader as usize].x) {
            return true;
        }
    }
    false
}

/// Whether the column is between two others.
fn is_between(column: u32, a: u32, b: u32) -> bool
    ensures { result ≡ is_between column a b }
{
    (a < column && column < b) || (b < column && column < a)
}
