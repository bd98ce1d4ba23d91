//! The positions in the picture of a strip.
//!
//! The letters of clusters, and those of pads, are as large as the longest name allows in one line,
//! but a line counts as at most ten letters. Pads are as high as a block.
ghost use Rattle.std.specs.Prelude.{◌-◌, ◌+◌, ◌*◌, ◌≤◌};
ghost use Rattle.grid.specs.declared.TheConstants.{MAX_COLUMNS};
ghost use Rattle.arch_file.specs.declared.arch.TheConstants.{MAX_IO_RAT, MAX_PINS, MAX_TRACKS};

use picture_lines::Lattice;
use rr_graph::NodeKind;
use strip_files::{BlockKind, RoutedStrip, StripSize};

/// The largest number of letters of a line in a block.
const MAX_LETTERS: u32 = 10;

/// The number of tracks of a channel in which a number fits.
const NUMBER_TRACKS: u32 = 9;

/// The positions in the picture. Heights count upwards.
#[derive(Clone, Copy)]
pub(crate) struct Plan {
    pub(crate) lattice: Lattice,
    pub(crate) size: StripSize,
    /// The distance of two neighbouring pads at an end of a column.
    pub(crate) pad: u32,
    /// The number of letters side by side in a block.
    pub(crate) letters: u32,
    /// The size of the letters of blocks, in tenths.
    pub(crate) name_font: u32,
    /// The size of the letters of pads, in tenths.
    pub(crate) pad_font: u32,
    /// The size of other letters.
    pub(crate) font: u32,
    ghost pad_small: { (1 ≤ pad) × (pad ≤ 65) },
    ghost letters_small: { (3 ≤ letters) × (letters ≤ 10) },
    ghost name_small: { (1 ≤ name_font) × (name_font ≤ 400) },
    ghost pad_font_small: { (1 ≤ pad_font) × (pad_font ≤ 400) },
    ghost font_small: { (1 ≤ font) × (font ≤ 1000) },
}

/// The largest numbers in a strip.
#[derive(Clone, Copy)]
struct Most {
    /// The number of tracks of a channel, as far as the used ones show it.
    tracks: u32,
    /// The largest number of a pin.
    pin: u32,
    /// The number of pads of an end of a column, as far as the used ones show it.
    pads: u32,
    /// The letters of the longest name of a cluster, from 3 to 10.
    letters: u32,
    /// The letters of the longest name of a pad, from 3 to 10.
    pad_letters: u32,
    ghost tracks_small: { (1 ≤ tracks) × (tracks ≤ MAX_TRACKS) },
    ghost pin_small: { pin ≤ MAX_PINS - 1 },
    ghost pads_small: { (1 ≤ pads) × (pads ≤ MAX_IO_RAT) },
    ghost letters_small: { (3 ≤ letters) × (letters ≤ 10) },
    ghost pad_letters_small: { (3 ≤ pad_letters) × (pad_letters ≤ 10) },
}

impl Plan {
    /// The plan of a strip whose tracks are drawn.
    pub(crate) fn of_tracks(strip: &RoutedStrip<'_>) -> Self {
        let most = Most::of(strip);
        Plan::new(strip.size, most, most.tracks)
    }

    /// The plan of a strip with a number in each channel.
    pub(crate) fn of_numbers(strip: &RoutedStrip<'_>) -> Self {
        Plan::new(strip.size, Most::of(strip), NUMBER_TRACKS)
    }

    /// The plan of a strip with that number of tracks.
    fn new(size: StripSize, most: Most, tracks: u32) -> Self
        requires { (1 ≤ tracks) × (tracks ≤ MAX_TRACKS) }
    {
        let channel = tracks + 1;
        let block = channel.max(12).max(most.pin + 2).max(3 * most.pads).min(65);
        let pad = block / most.pads;
        let name_font = 100 * block / (6 * (most.letters + 1));
        let pad_font = 100 * block / (6 * (most.pad_letters + 1));
        let lattice = Lattice { block, channel };
        let length = size.columns * lattice.pitch() + channel;
        Plan {
            lattice,
            size,
            pad,
            letters: most.letters,
            name_font: name_font.min(3 * block).max(1),
            pad_font: pad_font.min((pad - 1) * 8).max(1),
            font: (length / 80).clamp(1, 40),
        }
    }

    pub(crate) fn pad_width(&self) -> u32 {
        self.pad - self.pad / 4
    }

    /// The position at which a pad begins in its column.
    pub(crate) fn pad_start(&self, column: u32, pad: u32) -> u32
        requires column { column ≤ MAX_COLUMNS + 1 }
        requires pad { pad ≤ MAX_PINS - 1 }
        ensures { result ≤ 43_000 }
    {
        self.lattice.start(column) + pad * self.pad
    }

    /// The length of the strip, from its first channel to its last one.
    pub(crate) fn length(&self) -> u32
        ensures { (1 ≤ result) × (result ≤ 33_500) }
    {
        self.lattice.span(self.size.columns) + self.lattice.channel
    }

    /// The height of the strip, from the lower pads to the upper ones.
    pub(crate) fn height(&self) -> u32
        ensures { (1 ≤ result) × (result ≤ 33_700) }
    {
        self.lattice.span(self.size.rows) + self.lattice.channel + 2 * self.lattice.block
    }
}

impl Most {
    /// The largest numbers in a strip.
    fn of(strip: &RoutedStrip<'_>) -> Self {
        let mut most = Most {
            tracks: 1,
            pin: 0,
            pads: 1,
            letters: 3,
            pad_letters: 3,
        };
        most.see_nodes(strip);
        most.see_blocks(strip);
        most
    }

    /// Includes the nodes.
    fn see_nodes(&mut self, strip: &RoutedStrip<'_>) {
        for read in strip.nodes.iter() {
            let n = read.node.n;
            match read.node.kind {
                NodeKind::ChanX | NodeKind::ChanY => self.tracks = self.tracks.max(n + 1).min(64),
                NodeKind::Opin | NodeKind::Ipin => self.pin = self.pin.max(n),
                NodeKind::Source | NodeKind::Sink => {}
            }
        }
    }

    /// Includes the blocks.
    fn see_blocks(&mut self, strip: &RoutedStrip<'_>) {
        for block in strip.blocks.iter() {
            self.pads = self.pads.max(block.place.subblock + 1);
            let letters = block.name.len().min(MAX_LETTERS as usize) as u32;
            if block.kind == BlockKind::Cluster {
                self.letters = self.letters.max(letters);
            } else {
                self.pad_letters = self.pad_letters.max(letters);
            }
        }
    }
}
