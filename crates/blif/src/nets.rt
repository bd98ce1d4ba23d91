//! Lists of nets, by number.
ghost use Rattle.std.specs.Prelude.{◌≡◌, ◌++◌, [], ◌∷◌, IfOk};

use std::alloc::{AllocError, Global};
use std::marker::Model;

/// Nets, by number. Its value is the list of their numbers.
#[derive(Drop)]
pub struct Nets {
    nets: Vec<u32>,
}

impl Model for Nets {
    ghost use Rattle.std.specs.Prelude.{List, ℕ};

    ghost Value = { List ℕ };

    ghost view = { λ n. n.nets.items };
}

impl Nets {
    /// No nets.
    pub(crate) fn new(alloc: Global) -> Self
        ensures { result ≡ [] }
    {
        Nets {
            nets: Vec::new(alloc),
        }
    }

    /// The numbers.
    pub fn as_slice(&self) -> &[u32]
        ensures { result.now ≡ self.now }
    {
        self.nets.as_slice()
    }

    /// Adds a net at the end.
    pub(crate) fn push(&mut self, net: u32) -> Result<(), AllocError>
        ensures { IfOk result (λ _. self.new ≡ self.old ++ net ∷ []) }
    {
        self.nets.push(net)?;
        Ok(())
    }

    /// Adds these nets at the end.
    pub(crate) fn extend(&mut self, nets: &[u32]) -> Result<(), AllocError>
        ensures { IfOk result (λ _. self.new ≡ self.old ++ nets.now) }
    {
        self.nets.extend_from_slice(nets)
    }
}
