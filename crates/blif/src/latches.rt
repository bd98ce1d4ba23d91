//! The latches of a circuit.
ghost use Rattle.std.specs.Prelude.{◌≡◌, ◌++◌, [], ◌∷◌, IfOk};

use std::alloc::{AllocError, Global};
use std::marker::Model;

/// A latch: the number of its `.latch` line, the net that it stores, the net that it drives, and
/// the net that controls it, if there is one.
#[derive(Clone, Copy, PartialEq, Eq)]
pub struct Latch {
    pub line: u32,
    pub input: u32,
    pub output: u32,
    pub control: Option<u32>,
}

/// Latches, in the order of their lines. Its value is their list.
#[derive(Drop)]
pub struct Latches {
    latches: Vec<Latch>,
}

impl Model for Latches {
    ghost use Rattle.std.specs.Prelude.{List};
    ghost use Rattle.blif.specs.declared.latches.Latch.{Latch};

    ghost Value = { List Latch };

    ghost view = { λ l. l.latches.items };
}

impl Latches {
    /// No latches.
    pub(crate) fn new(alloc: Global) -> Self
        ensures { result ≡ [] }
    {
        Latches {
            latches: Vec::new(alloc),
        }
    }

    /// The latches.
    pub fn as_slice(&self) -> &[Latch]
        ensures { result.now ≡ self.now }
    {
        self.latches.as_slice()
    }

    /// Adds a latch at the end.
    pub(crate) fn push(&mut self, latch: Latch) -> Result<(), AllocError>
        ensures { IfOk result (λ _. self.new ≡ self.old ++ latch ∷ []) }
    {
        self.latches.push(latch)?;
        Ok(())
    }
}
