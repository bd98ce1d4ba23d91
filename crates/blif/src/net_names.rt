//! The names of a circuit's nets.
ghost use Rattle.std.specs.Prelude.{◌≡◌, ◌<◌, ◌++◌, [], ◌∷◌, length, slice_get, Some, IfOk};

use crate::span::IndexSpan;
use std::alloc::{AllocError, Global};
use std::marker::Model;

/// The names of nets, by net number. Its value is the list of the names.
#[derive(Drop)]
pub struct NetNames {
    bytes: Vec<u8>,
    spans: Vec<IndexSpan>,
}

impl Model for NetNames {
    ghost use Rattle.std.specs.Prelude.{List, ℕ, length, map};
    ghost use Rattle.blif.specs.Spans.{AreWithin, part_of};

    ghost Value = { List (List ℕ) };

    ghost view = { λ n. map (part_of n.bytes.items) n.spans.items };

    ghost invariant = { λ n. AreWithin (length n.bytes.items) n.spans.items };
}

impl NetNames {
    /// No names.
    pub(crate) fn new(alloc: Global) -> Self
        ensures { result ≡ [] }
    {
        NetNames {
            bytes: Vec::new(alloc),
            spans: Vec::new(alloc),
        }
    }

    /// The number of names.
    pub fn len(&self) -> usize
        ensures { result ≡ length self.now }
    {
        self.spans.len()
    }

    /// The name of a net.
    pub fn name(&self, net: usize) -> &[u8]
        requires { net < length self.now }
        ensures { slice_get self.now net ≡ Some result.now }
    {
        let span = self.spans[net];
        &self.bytes[span.start..span.end]
    }

    /// Adds a name at the end.
    pub(crate) fn push(&mut self, name: &[u8]) -> Result<(), AllocError>
        ensures { IfOk result (λ _. self.new ≡ self.old ++ name.now ∷ []) }
    {
        let start = self.bytes.len();
        self.bytes.extend_from_slice(name)?;
        let end = self.bytes.len();
        self.spans.push(IndexSpan { start, end })?;
        Ok(())
    }
}
