//! The answers to the sessions, after they and the workers have ended.
ghost use Rattle.std.specs.Prelude.{◌≡◌, true, length, map, IfOk, OnOk};
ghost use Rattle.script_threads.specs.Prelude.{section_of};
ghost use Rattle.script_threads.specs.Parts.{Adds, AreParts, Finishes};

use crate::part::Part;
use crate::refusals::first_served_late;
use crate::unserved::Unserved;
use script_text::SessionReplies;
use service_core::Service;
use settling::{Cause, settle};
use shared_core::{Begun, Core, Share};
use std::alloc::{AllocError, Global};
use std::sync::ledger::Ledger;
use transcripts::Transcript;

/// The answers to each name's session, and the transcripts of the sessions that ran.
#[derive(Drop)]
struct Parted<'t, C: Begun> {
    sections: Vec<SessionReplies<'t>>,
    transcripts: Vec<Transcript<C>>,
}

/// Settles the answers to the sessions that ran, by the transcripts. Returns the service, and the
/// answers to each name's session. They aren't settled if a command is served after one that found
/// its journal full.
pub(crate) fn finish<'t, C: Begun, P: Ledger>(
    alloc: Global,
    core: Core<C, P>,
    parts: Vec<Part<'t, C>>,
    shares: Vec<Share<P>>,
) -> Result<(Service, Vec<SessionReplies<'t>>), Unserved>
    requires { C.stay ≡ true }
    ensures ok { IfOk result (λ r. Finishes C.begun parts.entry.items (map section_of r.1.items)
        r.0) }
    ensures even { IfOk result (λ r. length (r.0).histories ≡ length C.begun.histories) }
{
    let Parted {
        sections,
        transcripts,
    } = part_all(alloc, parts)?;
    if let Some(id) = first_served_late(&transcripts) {
        return Err(Unserved::NotSettled(Cause::NotFull { id }));
    }
    match settle(core, transcripts, shares) {
        Ok(settled) => Ok((settled.into_service(), sections)),
        Err(not_settled) => Err(Unserved::NotSettled(not_settled.cause)),
    }
}

/// Separates the answers from the transcripts.
fn part_all<'t, C: Begun>(
    alloc: Global,
    parts: Vec<Part<'t, C>>,
) -> Result<Parted<'t, C>, AllocError>
    ensures { IfOk result (λ parted.
        AreParts (C.stay ≡ true) parts.entry.items (map section_of parted.sections.items)
        parted.transcripts.items) }
{
    let mut parted = Parted {
        sections: Vec::new(alloc),
        transcripts: Vec::new(alloc),
    };
    for part in parts {
        parted.add(part)?;
    }
    Ok(parted)
}

impl<'t, C: Begun> Parted<'t, C> {
    /// Adds the answers to a session, and its transcript, if it ran.
    fn add(&mut self, part: Part<'t, C>) -> Result<(), AllocError>
        ensures { OnOk result (Adds (C.stay ≡ true) part.entry
            (map section_of self.old.sections.items) self.old.transcripts.items
            (map section_of self.new.sections.items) self.new.transcripts.items) }
    {
        let Part {
            said,
            id: _,
            text,
            transcript,
        } = part;
        if let Some(transcript) = transcript {
            self.transcripts.push(transcript)?;
        }
        self.sections.push(SessionReplies {
            name: said.name,
            text,
        })?;
        Ok(())
    }
}
