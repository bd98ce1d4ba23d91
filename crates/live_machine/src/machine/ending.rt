//! How a machine begins to work, and how it ends.
ghost use Rattle.std.specs.Prelude.{◌≡◌, [], length, true, IfOk, OnOk};
ghost use Rattle.std.specs.List.{flat_map};
ghost use Rattle.live_machine.specs.Prelude.{state_in};
ghost use Rattle.live_machine.specs.Held.{are_at_rest};
ghost use Rattle.live_machine.specs.Parts.{EndsMachine, IsReady, lost_texts, machine_of};

use crate::held_names::HeldNames;
use crate::machine::Machine;
use crate::made_lines::lost_text;
use crate::stop::Stop;
use std::alloc::{AllocError, Global};

impl Machine<'_> {
    /// Notes all tenancies that have a step to take, as after a log was served again.
    ///
    /// # Errors
    /// Why the machine stops. It takes no call after that but `close`.
    pub fn find_steps(&mut self) -> Result<(), Stop>
        ensures server { self.new.server ≡ self.old.server }
        ensures held { self.new.held ≡ self.old.held }
    {
        for place in 0..self.server.lines().live().service().admissions() {
            if self.server.lines().live().service().has_step(place + 1) {
                self.agenda.mark(place + 1)?;
            }
        }
        Ok(())
    }

    /// The number of bytes that are to be kept.
    pub fn to_keep(&self) -> usize
        ensures { result ≡ length (machine_of self.now).log }
    {
        self.server.to_keep()
    }

    /// The number of bytes that are to be told.
    pub fn to_tell(&self) -> usize
        ensures { result ≡ length (machine_of self.now).told }
    {
        self.server.to_tell()
    }

    /// How many tenancies may have a step to take.
    pub fn steps_to_take(&self) -> usize {
        self.agenda.len()
    }

    /// Whether nothing that a name said waits for its turn, but for the beginning of a text that
    /// was lost.
    pub fn is_at_rest(&self) -> bool
        ensures { result ≡ are_at_rest (machine_of self.now).held }
    {
        self.held.are_at_rest()
    }

    /// Ends the machine at the input's end, and returns what is to be told last: a name that is
    /// held still is told that memory ran out, and a text that has no end is refused. What was not
    /// drained is lost.
    ///
    /// # Errors
    /// `NoMemory` if it runs out of memory.
    pub fn end(self) -> Result<Vec<u8>, Stop>
        requires { IsReady self }
        ensures { IfOk result (λ reply. EndsMachine (state_in self.entry.server.lines)
            self.entry.held reply.items) }
    {
        let Machine {
            alloc,
            server,
            held,
            agenda,
        } = self;
        let lost = lost_of(alloc, &held);
        drop((held, agenda));
        match lost {
            Ok(lost) => server.end(lost),
            Err(error) => {
                server.close();
                Err(Stop::from(error))
            }
        }
    }

    /// Ends the machine. What is to be kept or told is lost.
    pub fn close(self) {
        let Machine {
            alloc: _,
            server,
            held,
            agenda,
        } = self;
        drop((held, agenda));
        server.close();
    }
}

/// What held names are told for an item that was lost.
fn lost_of(alloc: Global, held: &HeldNames) -> Result<Vec<u8>, AllocError>
    ensures { IfOk result (λ text. text.items ≡ lost_texts held.now) }
{
    let mut text = Vec::new(alloc);
    for place in 0..held.len() {
        if let Some(name) = held.name_at(place) {
            let lost = lost_text(alloc, name)?;
            text.extend_from_slice(lost.as_slice())?;
        }
    }
    Ok(text)
}
