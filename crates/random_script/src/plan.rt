//! The contents of a script, and the device that it needs.
ghost use Rattle.std.specs.Prelude.{◌≡◌, ◌+◌, ◌*◌, ◌/◌, ◌≤◌, ◌<◌, IfNone, IfSome};
ghost use Rattle.arch_file.specs.declared.arch.TheConstants.{MAX_CLUSTER_SIZE, MAX_LUT_SIZE, MAX_TRACKS};
ghost use Rattle.strips.specs.declared.layout.TheConstants.{MAX_STRIPS};
ghost use Rattle.random_script.specs.declared.plan.TheConstants.{MAX_TABLES};
ghost use Rattle.grid.specs.declared.TheConstants.{MAX_COLUMNS, MAX_ROWS};
ghost use Rattle.random_script.specs.Plans.{AreWithin, HasRoom, HavePlan};

use arch_file::{MAX_CLUSTER_SIZE, MAX_LUT_SIZE, MAX_TRACKS};
use grid::{MAX_COLUMNS, MAX_ROWS};
use strips::MAX_STRIPS;

/// The largest number of tables of a random circuit.
pub const MAX_TABLES: u32 = 7_500;

/// The last command of a script's tenants.
#[derive(Clone, Copy, PartialEq, PartialOrd)]
pub enum Phase {
    Reading,
    Packing,
    Placing,
    Routing,
}

/// What a user wants to measure.
#[derive(Clone, Copy)]
pub struct LoadParameters {
    /// Tables of each circuit, 1 to 7,500.
    pub tables: u32,
    /// Tenancies with a circuit each, 1 to 64.
    pub tenancies: u32,
    /// Inputs of a table, at most, 1 to 8.
    pub inputs: u32,
    /// Tables of a cluster, at most, 1 to 16.
    pub cluster: u32,
    /// The start of the random draws.
    pub seed: u64,
    /// The last phase of the script.
    pub until: Phase,
}

/// Wishes within their limits.
#[derive(Clone, Copy)]
struct Checked {
    wishes: LoadParameters,
    ghost tables_lawful: { (1 ≤ wishes.tables) × (wishes.tables ≤ MAX_TABLES) },
    ghost tenancies_lawful: { (1 ≤ wishes.tenancies) × (wishes.tenancies ≤ MAX_STRIPS) },
    ghost inputs_lawful: { (1 ≤ wishes.inputs) × (wishes.inputs ≤ MAX_LUT_SIZE) },
    ghost cluster_lawful: { (1 ≤ wishes.cluster) × (wishes.cluster ≤ MAX_CLUSTER_SIZE) },
}

/// A script's circuits and its device.
#[derive(Clone, Copy)]
pub struct Plan {
    pub(crate) wishes: LoadParameters,
    /// Columns of each strip.
    pub(crate) width: u32,
    /// Rows of the device.
    pub(crate) rows: u32,
    /// Tracks of each channel.
    pub(crate) tracks: u32,
    ghost tables_lawful: { (1 ≤ wishes.tables) × (wishes.tables ≤ MAX_TABLES) },
    ghost tenancies_lawful: { (1 ≤ wishes.tenancies) × (wishes.tenancies ≤ MAX_STRIPS) },
    ghost inputs_lawful: { (1 ≤ wishes.inputs) × (wishes.inputs ≤ MAX_LUT_SIZE) },
    ghost cluster_lawful: { (1 ≤ wishes.cluster) × (wishes.cluster ≤ MAX_CLUSTER_SIZE) },
    ghost rows_lawful: { (1 ≤ rows) × (rows ≤ MAX_ROWS) },
    ghost tracks_lawful: { (1 ≤ tracks) × (tracks ≤ MAX_TRACKS) },
    ghost width_lawful: { (1 ≤ width) × (width ≤ MAX_COLUMNS) },
    ghost strips_fit: { wishes.tenancies * (width + 1) ≤ MAX_COLUMNS + 1 },
}

/// The wishes, if each is within its limits.
fn check(wishes: LoadParameters) -> Option<Checked>
    ensures some { IfSome result (λ checked. checked.wishes ≡ wishes) }
    ensures none { IfNone result (AreWithin wishes → ⊥) }
{
    if wishes.tables < 1 || wishes.tables > MAX_TABLES {
        return None;
    }
    if wishes.tenancies < 1 || wishes.tenancies > MAX_STRIPS as u32 {
        return None;
    }
    if wishes.inputs < 1 || wishes.inputs > MAX_LUT_SIZE {
        return None;
    }
    if wishes.cluster < 1 || wishes.cluster > MAX_CLUSTER_SIZE {
        return None;
    }
    Some(Checked { wishes })
}

impl Plan {
    /// Returns a plan for these wishes; `None` if a wish is beyond its limits, or if the strips
    /// don't fit on any device.
    ///
    /// The device has a quarter more places for logic blocks than there are full clusters; it is a
    /// square, as far as 64 rows and 256 columns allow.
    #[tactic(auto, using(crate::proofs::Rooms::in_all_rows))]
    pub fn new(wishes: LoadParameters) -> Option<Self>
        ensures wishes { IfSome result (λ plan. plan.wishes ≡ wishes) }
        ensures some { IfSome result (λ _. HavePlan wishes) }
        ensures none { IfNone result (HavePlan wishes → ⊥) }
    {
        let checked = check(wishes)?;
        let clusters = wishes.tables.div_ceil(wishes.cluster);
        let places = clusters + clusters / 4 + 1;
        let square = side_of(places, MAX_ROWS);
        if let Some(plan) = Plan::with_rows(checked, places, square) {
            return Some(plan);
        }
        Plan::with_rows(checked, places, MAX_ROWS)
    }

    /// A plan for strips with that number of places for logic blocks in that number of rows, if all
    /// strips fit.
    fn with_rows(checked: Checked, places: u32, rows: u32) -> Option<Self>
        requires places { (1 ≤ places) × (places ≤ 10_000) }
        requires rows { (1 ≤ rows) × (rows ≤ MAX_ROWS) }
        ensures wishes { IfSome result (λ plan. plan.wishes ≡ checked.wishes) }
        ensures some { IfSome result (λ _. HasRoom checked.wishes.tenancies places rows) }
        ensures none { IfNone result (HasRoom checked.wishes.tenancies places rows → ⊥) }
    {
        let wishes = checked.wishes;
        let width = places.div_ceil(rows);
        if width > MAX_COLUMNS || wishes.tenancies * (width + 1) > MAX_COLUMNS + 1 {
            return None;
        }
        Some(Plan {
            wishes,
            width,
            rows,
            tracks: tracks_for(checked),
        })
    }

    /// Columns of the device: a strip for each tenancy, and a column between two strips.
    pub fn columns(&self) -> u32
        ensures value { result + 1 ≡ self.now.wishes.tenancies * (self.now.width + 1) }
        ensures few { result ≤ MAX_COLUMNS }
    {
        self.wishes.tenancies * (self.width + 1) - 1
    }

    /// Rows of the device.
    pub fn rows(&self) -> u32
        ensures value { result ≡ self.now.rows }
        ensures few { (1 ≤ result) × (result ≤ MAX_ROWS) }
    {
        self.rows
    }

    /// Tracks of each channel. That the number is large enough is only tested.
    pub fn tracks(&self) -> u32
        ensures value { result ≡ self.now.tracks }
        ensures few { (1 ≤ result) × (result ≤ MAX_TRACKS) }
    {
        self.tracks
    }

    /// The largest number of inputs, and of outputs, of a circuit: one for each column of its
    /// strip.
    pub(crate) fn ends(&self) -> u32
        ensures { (1 ≤ result) × (result ≤ 200) }
    {
        self.width.min(200)
    }

    /// The number of inputs of a cluster: those of all its tables, less what they share.
    pub(crate) fn cluster_inputs(&self) -> u32
        ensures { (1 ≤ result) × (result ≤ 68) }
    {
        (self.wishes.inputs * (self.wishes.cluster + 1) / 2).max(1)
    }
}

/// The side of the smallest square with that number of places, but not more than the largest side.
pub(crate) fn side_of(places: u32, largest: u32) -> u32
    requires { (1 ≤ largest) × (largest ≤ 100) }
    ensures { (1 ≤ result) × (result ≤ largest) }
{
    for side in 1..largest {
        if places <= side * side {
            return side;
        }
    }
    largest
}

/// The number of tracks for circuits of that kind: more for larger circuits, for more inputs and
/// for larger clusters.
fn tracks_for(checked: Checked) -> u32
    ensures { (1 ≤ result) × (result ≤ MAX_TRACKS) }
{
    let wishes = checked.wishes;
    let spread = 4 + side_of(wishes.tables, 87) * 3 / 10;
    let clusters = 9 + 5 * (wishes.cluster - 1).min(2) + wishes.cluster;
    let more = spread * (2 + wishes.inputs) * clusters / 60;
    more.clamp(8, MAX_TRACKS)
}
