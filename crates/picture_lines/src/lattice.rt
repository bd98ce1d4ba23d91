//! Columns, rows and tracks.
ghost use Rattle.std.specs.Prelude.{◌≡◌, ◌-◌, ◌+◌, ◌*◌, ◌≤◌, ◌⊎◌};
ghost use Rattle.arch_file.specs.declared.arch.TheConstants.{MAX_PINS};
ghost use Rattle.grid.specs.declared.TheConstants.{MAX_COLUMNS};

/// The direction of a channel.
#[derive(Clone, Copy, PartialEq, Eq)]
pub enum Direction {
    /// Horizontal, above a row.
    Across,
    /// Vertical, right of a column.
    Up,
}

/// The sizes of blocks and channels.
#[derive(Clone, Copy)]
pub struct Lattice {
    /// The width and height of a block.
    pub block: u32,
    /// The width of a channel.
    pub channel: u32,
    ghost block_small: { (4 ≤ block) × (block ≤ 65) },
    ghost channel_small: { (1 ≤ channel) × (channel ≤ 65) },
}

impl Lattice {
    /// The distance of two neighbouring columns, or rows.
    pub fn pitch(&self) -> u32
        ensures small { result ≤ 130 }
        ensures block { self.now.block ≤ result }
        ensures some { 5 ≤ result }
        ensures value { result ≡ self.now.block + self.now.channel }
    {
        self.block + self.channel
    }

    /// The position at which column or row `number` begins.
    pub fn start(&self, number: u32) -> u32
        requires { number ≤ MAX_COLUMNS + 1 }
        ensures small { result ≤ 33_410 }
        ensures value { result ≡ number * (self.now.block + self.now.channel) }
    {
        number * self.pitch()
    }

    /// The position of a track in the channel after column or row `number`.
    pub fn track(&self, number: u32, track: u32) -> u32
        requires number { number ≤ MAX_COLUMNS + 1 }
        requires track { track ≤ MAX_PINS - 1 }
        ensures small { result ≤ 33_700 }
        ensures value { result
            ≡ number * (self.now.block + self.now.channel) + self.now.block + track + 1 }
    {
        self.start(number) + self.block + track + 1
    }

    /// The length of `count` columns or rows.
    pub fn span(&self, count: u32) -> u32
        requires { count ≤ MAX_COLUMNS + 1 }
        ensures small { result ≤ 33_410 }
        ensures value { result ≡ count * (self.now.block + self.now.channel) }
    {
        count * self.pitch()
    }

    /// How many columns, or rows, go with one number beside them, so that the numbers are at least
    /// that distance apart.
    pub fn step(&self, apart: u32) -> u32
        ensures some { 1 ≤ result }
        ensures apart { (apart ≤ result * (self.now.block + self.now.channel)) ⊎ (result ≡ 100) }
    {
        for step in [1, 2, 5, 10, 20, 50].iter() {
            if *step * self.pitch() >= apart {
                return *step;
            }
        }
        100
    }
}
