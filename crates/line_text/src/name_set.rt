//! Names, each once, in the order in which they first appear.
ghost use Rattle.std.specs.Prelude.{◌≡◌, ◌<◌, ◌≤◌, [], not, length, slice_get, Some, IfOk, IsTrue};
ghost use Rattle.line_text.specs.Names.{has_name, number_of, with_name, with_names};
ghost use Rattle.line_text.specs.Words.{texts};

use indexmap::IndexSet;
use std::alloc::{AllocError, Global};
use std::marker::Model;

/// Up to this number, comparing with each name is faster than hashing.
const FEW: usize = 4;

/// Different names, numbered from 0 in the order in which they were added. Its value is the list of
/// the names.
#[derive(Drop)]
pub struct NameSet<'t> {
    names: IndexSet<&'t [u8]>,
}

impl<'t> Model for NameSet<'t> {
    ghost use Rattle.std.specs.Prelude.{List, ℕ};
    ghost use Rattle.line_text.specs.Words.{texts};

    ghost Value = { List (List ℕ) };

    ghost view = { λ s. texts s.names.keys };
}

impl<'t> NameSet<'t> {
    /// An empty set.
    pub fn new(alloc: Global) -> Self
        ensures { result ≡ [] }
    {
        NameSet {
            names: IndexSet::new(alloc),
        }
    }

    /// The number of names.
    pub fn len(&self) -> usize
        ensures { result ≡ length self.now }
    {
        self.names.len()
    }

    /// The name with this number.
    pub fn name(&self, number: usize) -> &'t [u8]
        requires { number < length self.now }
        ensures { slice_get self.now number ≡ Some result.now }
    {
        self.names.as_slice()[number]
    }

    /// Whether the set has the name.
    pub fn contains(&self, name: &[u8]) -> bool
        ensures { result ≡ has_name self.now name.now }
    {
        if self.names.len() <= FEW {
            return is_among(self.names.as_slice(), name);
        }
        self.names.contains(&name)
    }

    /// The number of the name, or the number of names if the set doesn't have it.
    pub fn number(&self, name: &[u8]) -> usize
        ensures number { result ≡ number_of self.now name.now }
        ensures within { result ≤ length self.now }
        ensures named { IsTrue (has_name self.now name.now) → result < length self.now }
    {
        self.names.get_index_of(&name).unwrap_or(self.names.len())
    }

    /// Adds the name, and returns whether it was new.
    pub fn add(&mut self, name: &'t [u8]) -> Result<bool, AllocError>
        ensures new { IfOk result (λ new. new ≡ not (has_name self.old name.now)) }
        ensures names { IfOk result (λ _. self.new ≡ with_name self.old name.now) }
    {
        Ok(self.names.insert(name)?)
    }

    /// Adds the name if it is new, and returns its number.
    pub fn add_numbered(&mut self, name: &'t [u8]) -> Result<usize, AllocError>
        ensures number { IfOk result (λ number. number ≡ number_of self.old name.now) }
        ensures names { IfOk result (λ _. self.new ≡ with_name self.old name.now) }
        ensures within { IfOk result (λ number. number < length self.new) }
    {
        let (number, _) = self.names.insert_full(name)?;
        Ok(number)
    }

    /// Adds those of the names that are new, in order.
    pub fn add_all(&mut self, names: &[&'t [u8]]) -> Result<(), AllocError>
        ensures { IfOk result (λ _. self.new ≡ with_names self.old (texts names.now)) }
    {
        for name in names {
            self.add(name)?;
        }
        Ok(())
    }
}

/// Whether the name is one of these.
fn is_among(names: &[&[u8]], name: &[u8]) -> bool
    ensures { result ≡ has_name (texts names.now) name.now }
{
    for other in names {
        if name == *other {
            return true;
        }
    }
    false
}
