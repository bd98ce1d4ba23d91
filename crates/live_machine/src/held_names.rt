//! The names that are held.
ghost use Rattle.std.specs.Prelude.{◌≡◌, ◌==◌, ◌++◌, ◌∷◌, [], Some, length, position, slice_get, IfErr, OnErr, OnOk, is_ok, option_copied, option_map, if◌then◌else◌};
ghost use Rattle.std.specs.Str.{bytes_eq};
ghost use Rattle.live_machine.specs.Held.{are_at_rest, HearsOf, IsSaidBy, IsSaidText, TakesLostOf, TakesOf, held_of, text_of, without_name};
ghost use Rattle.live_machine.specs.declared.held.OpenText.TheVariants.{NoText};

use crate::held::{Hold, OpenText, TooManyItems};
use crate::item_lines::ItemLines;
use backlog::Turn;
use std::alloc::{AllocError, AllocFailed, Global};
use std::marker::Model;

/// The names that are held, in the order in which they were held first.
#[derive(Drop)]
pub(crate) struct HeldNames {
    holds: Vec<Hold>,
}

impl Model for HeldNames {
    ghost use Rattle.std.specs.Prelude.{List};
    ghost use Rattle.live_machine.specs.Held.{Held};

    ghost Value = { List Held };

    ghost view = { λ names. names.holds.items };
}

impl HeldNames {
    /// No name is held. Takes no memory.
    pub(crate) fn new(alloc: Global) -> Self
        ensures { result ≡ [] }
    {
        HeldNames {
            holds: Vec::new(alloc),
        }
    }

    /// Whether no name is held.
    pub(crate) fn is_empty(&self) -> bool
        ensures { result ≡ (length self.now == 0) }
    {
        self.holds.is_empty()
    }

    /// The number of names that are held.
    pub(crate) fn len(&self) -> usize
        ensures { result ≡ length self.now }
    {
        self.holds.len()
    }

    /// Whether no held name has an item.
    pub(crate) fn are_at_rest(&self) -> bool
        ensures { result ≡ are_at_rest self.now }
    {
        are_at_rest(self.holds.as_slice())
    }

    /// What is held of a name, if it is.
    pub(crate) fn get(&self, name: &[u8]) -> Option<&Hold>
        ensures { option_copied result ≡ held_of self.now name.now }
    {
        match place_of(self.holds.as_slice(), name) {
            Some(place) => Some(&self.holds[place]),
            None => None,
        }
    }

    /// The name at that place.
    pub(crate) fn name_at(&self, place: usize) -> Option<&[u8]>
        ensures { option_copied result ≡ option_map (λ h. h.name) (slice_get self.now place) }
    {
        if place < self.holds.len() {
            Some(self.holds[place].name())
        } else {
            None
        }
    }

    /// One more name is held, by that `wait`.
    ///
    /// # Errors
    /// `AllocError` if memory runs out. Nothing changes then.
    pub(crate) fn add(
        &mut self,
        alloc: Global,
        name: &[u8],
        id: u32,
        wait: &[u8],
    ) -> Result<(), AllocError>
        requires { IsSaidBy name.now wait.now }
        ensures ok { OnOk result
            (self.new ≡ self.old ++ record {
              name = name.now;
              id = id;
              items = Some (wait.now ∷ []) ∷ [];
              text = NoText;
            } ∷ []) }
        ensures err { OnErr result (self.new ≡ self.old) }
    {
        let hold = Hold::new(alloc, name, id, wait)?;
        match self.push(hold) {
            Ok(()) => Ok(()),
            Err(_) => Err(AllocError),
        }
    }

    /// One more name is held.
    ///
    /// # Errors
    /// What was to be held, if memory runs out. Nothing changes then.
    pub(crate) fn push(&mut self, hold: Hold) -> Result<(), AllocFailed<Hold>>
        ensures names { self.new ≡ (if is_ok result then self.old ++ hold ∷ [] else self.old) }
        ensures refused { IfErr result (λ refused. refused.value ≡ hold) }
    {
        self.holds.push(hold)
    }

    /// A line of the name comes, and waits if the name is held.
    ///
    /// # Errors
    /// `TooManyItems` if no more items of the name can be counted. Nothing changes then.
    pub(crate) fn hear(&mut self, name: &[u8], line: &[u8]) -> Result<(), TooManyItems>
        requires { IsSaidBy name.now line.now }
        ensures ok { OnOk result
            (HearsOf (held_of self.old name.now) self.old line.now self.new) }
        ensures err { OnErr result (self.new ≡ self.old) }
    {
        match place_of(self.holds.as_slice(), name) {
            Some(place) => self.holds[place].hear(line),
            None => Ok(()),
        }
    }

    /// Takes the first item of the name.
    pub(crate) fn take(&mut self, name: &[u8]) -> Turn<ItemLines>
        ensures { TakesOf (held_of self.old name.now) self.old result self.new }
    {
        match place_of(self.holds.as_slice(), name) {
            Some(place) => self.holds[place].take(),
            None => Turn::Nothing,
        }
    }

    /// Takes the items of the name that were lost and come next. Returns their number.
    pub(crate) fn take_lost(&mut self, name: &[u8]) -> u64
        ensures { TakesLostOf (held_of self.old name.now) self.old result self.new }
    {
        match place_of(self.holds.as_slice(), name) {
            Some(place) => self.holds[place].take_lost(),
            None => 0,
        }
    }

    /// The name is held no longer. Returns the text in which it was.
    pub(crate) fn remove(&mut self, name: &[u8]) -> OpenText
        ensures names { self.new ≡ without_name self.old name.now }
        ensures text { result ≡ text_of (held_of self.old name.now) }
        ensures said { IsSaidText name.now result }
    {
        let text = take_text(self.holds.as_mut_slice(), name);
        forget(&mut self.holds, name);
        text
    }
}

/// Whether none of them has an item.
fn are_at_rest(holds: &[Hold]) -> bool
    ensures { result ≡ are_at_rest holds.now }
{
    holds.iter().all(|hold| !hold.has_items())
}

/// The place of the first that holds the name.
fn place_of(holds: &[Hold], name: &[u8]) -> Option<usize>
    ensures { result ≡ position (λ h. bytes_eq h.name name.now) holds.now }
{
    holds.iter().position(|hold| hold.name() == name)
}

/// Takes the text in which the name is.
fn take_text(holds: &mut [Hold], name: &[u8]) -> OpenText
    ensures names { without_name holds.new name.now ≡ without_name holds.old name.now }
    ensures text { result ≡ text_of (held_of holds.old name.now) }
    ensures said { IsSaidText name.now result }
{
    match place_of(holds, name) {
        Some(place) => holds[place].take_text(),
        None => OpenText::NoText,
    }
}

/// Removes all that hold the name.
fn forget(holds: &mut Vec<Hold>, name: &[u8])
    ensures { holds.new.items ≡ without_name holds.old.items name.now }
{
    holds.retain(|hold| hold.name() != name);
}
