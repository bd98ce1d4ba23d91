//! Wires that adjoin.
ghost use Rattle.std.specs.Prelude.{◌-◌, ◌+◌, ◌≤◌};
ghost use Rattle.arch_file.specs.declared.arch.TheConstants.{MAX_PINS};
ghost use Rattle.grid.specs.declared.TheConstants.{MAX_COLUMNS};

use std::alloc::{AllocError, Global};

/// Wires of one owner and track in one channel, each beside the next one.
#[derive(Clone, Copy)]
pub(crate) struct Run {
    /// The channel: its row if it is horizontal, otherwise its column.
    pub(crate) channel: u32,
    pub(crate) track: u32,
    /// The column, or the row, of the last wire.
    pub(crate) last: u32,
    /// The number of wires.
    pub(crate) count: u32,
    ghost channel_small: { channel ≤ MAX_COLUMNS },
    ghost track_small: { track ≤ MAX_PINS - 1 },
    ghost last_small: { last ≤ MAX_COLUMNS },
    ghost count_small: { count ≤ last + 1 },
}

impl Run {
    /// A wire alone.
    pub(crate) fn new(channel: u32, track: u32, last: u32) -> Self
        requires channel { channel ≤ MAX_COLUMNS }
        requires track { track ≤ MAX_PINS - 1 }
        requires last { last ≤ MAX_COLUMNS }
    {
        Run {
            channel,
            track,
            last,
            count: 1,
        }
    }

    /// These wires and that one after them; `None` if it does not adjoin the last of them.
    fn with(self, next: Run) -> Option<Run> {
        let adjoins = self.channel == next.channel && self.track == next.track;
        if !adjoins || next.last != self.last + 1 {
            return None;
        }
        Some(Run {
            channel: next.channel,
            track: next.track,
            last: next.last,
            count: self.count + 1,
        })
    }
}

/// The runs that may still grow, by lane. A lane is a place at which at most one run grows at a
/// time.
#[derive(Drop)]
pub(crate) struct Runs {
    open: Vec<Option<Run>>,
}

impl Runs {
    /// Returns `lanes` lanes without runs.
    pub(crate) fn new(alloc: Global, lanes: usize) -> Result<Self, AllocError> {
        Ok(Runs {
            open: Vec::from_elem(alloc, None, lanes)?,
        })
    }

    /// Adds a wire to a lane's run, or begins a new one and returns the old one, which grows no
    /// more. A wire beyond the lanes is a run of its own.
    pub(crate) fn push(&mut self, lane: usize, wire: Run) -> Option<Run> {
        let Some(place) = self.open.get_mut(lane) else {
            return Some(wire);
        };
        let Some(run) = *place else {
            *place = Some(wire);
            return None;
        };
        match run.with(wire) {
            Some(longer) => {
                *place = Some(longer);
                None
            }
            None => {
                *place = Some(wire);
                Some(run)
            }
        }
    }

    /// The runs that are open, by lane.
    pub(crate) fn open(&self) -> &[Option<Run>] {
        self.open.as_slice()
    }

    /// Forgets all runs.
    pub(crate) fn clear(&mut self) {
        self.open.fill(None);
    }
}
