//! Looks now and then whether a service is nearly full.
use live_input::LiveLines;
use live_run::Warnings;
use std::alloc::Global;
use std::io::Eprint;

/// After how many rounds it looks.
const ROUNDS: u32 = 16;

/// Looks now and then whether a service is nearly full.
#[derive(Drop)]
pub(crate) struct Watch {
    warnings: Warnings,
    /// How many rounds there were since it looked.
    rounds: u32,
}

impl Watch {
    /// Texts of one tenancy may take so many bytes.
    pub(crate) fn new(alloc: Global, text_limit: u64) -> Self {
        Watch {
            warnings: Warnings::new(alloc, text_limit),
            rounds: 0,
        }
    }

    /// Looks if it is time.
    pub(crate) fn look<H: Eprint>(&mut self, rt: &H, lines: &LiveLines<'_>) {
        self.rounds = self.rounds.wrapping_add(1) % ROUNDS;
        if self.rounds == 0 {
            self.warnings.look(rt, lines);
        }
    }
}
