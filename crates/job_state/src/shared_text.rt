//! A text with many owners.
ghost use Rattle.std.specs.Prelude.{◌≡◌, ◌↔◌, IfOk, IfErr, IsTrue};

use line_text::Text;
use std::alloc::{AllocError, AllocFailed, Global};
use std::marker::Model;
use std::sync::Arc;

/// A text with many owners, who don't copy it: a tenancy, its jobs, its journal and its receipts
/// share one netlist. Its value is the list of the text's bytes.
#[derive(Drop)]
pub struct SharedText {
    text: Arc<Text>,
}

impl Model for SharedText {
    ghost use Rattle.std.specs.Prelude.{List, ℕ};
    ghost use Rattle.std.specs.Arc.{arc_value};

    ghost Value = { List ℕ };

    ghost view = { λ a. arc_value a.text };
}

impl SharedText {
    /// Makes a text shared. If memory runs out, the text comes back.
    pub fn new(alloc: Global, text: Text) -> Result<Self, AllocFailed<Text>>
        ensures ok { IfOk result (λ shared. shared ≡ text) }
        ensures err { IfErr result (λ failed. failed.value ≡ text) }
    {
        Ok(SharedText {
            text: Arc::new(alloc, text)?,
        })
    }

    /// The text's bytes.
    pub fn as_bytes(&self) -> &[u8]
        ensures { result.now ≡ self.now }
    {
        self.text.as_bytes()
    }

    /// Returns whether both texts have the same bytes.
    pub fn same(&self, other: &SharedText) -> bool
        ensures { IsTrue result ↔ (self.now ≡ other.now) }
    {
        self.text.same(&other.text)
    }
}

impl Clone for SharedText {
    ghost is_clone = { λ text copy. copy ≡ text };

    /// Returns one more owner. Copies nothing; fails only if the number of owners overflows.
    fn clone(&self) -> Result<Self, AllocError> {
        Ok(SharedText {
            text: self.text.clone()?,
        })
    }
}
