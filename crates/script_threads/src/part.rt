//! The answers to one name's session.
ghost use Rattle.std.specs.Prelude.{◌≡◌, ◌++◌, false, IfOk, IfSome, OnOk};
ghost use Rattle.script_threads.specs.Prelude.{said_by, sink_text, session_refusal_text};
ghost use Rattle.script_threads.specs.Seats.{asked_by};
ghost use Rattle.script_threads.specs.Sessions.{asked_in, evicted_refusal};

use job_queue::Pass;
use line_text::{MemorySink, MemorySource};
use script_text::SessionInput;
use session_threads::{Context, run_session};
use sessions::{SessionLine, SessionRefusal, read_items, write_session_refusal};
use shared_core::{Begun, Lease};
use std::alloc::{AllocError, AllocGlobal, Global};
use std::marker::Model;
use std::sync::Wait;
use std::sync::ledger::Ledger;
use transcripts::{SessionEnd, Transcript};
use worker_pool::Pool;

/// The answers to a name's session, and the transcript of a session that ran.
#[derive(Drop)]
pub(crate) struct Part<'t, C: Begun> {
    pub(crate) said: SessionInput<'t>,
    pub(crate) id: u32,
    pub(crate) text: Vec<u8>,
    pub(crate) transcript: Option<Transcript<C>>,
}

impl<'t, C: Begun> Model for Part<'t, C> {
    ghost use Rattle.std.specs.Prelude.{◌≡◌, true};
    ghost use Rattle.script_threads.specs.Sessions.{IsPart, PartState};

    ghost Value = { PartState };

    ghost view = { λ p. record { name = p.said.name.now; input = p.said.input.items; id = p.id; text = p.text.items; transcript = p.transcript } };

    ghost invariant = { λ p. IsPart (C.stay ≡ true) (record {
      name = p.said.name.now;
      input = p.said.input.items;
      id = p.id;
      text = p.text.items;
      transcript = p.transcript;
    }) };
}

/// Runs the session of a live tenancy, from its beginning to its end. None if memory ran out for
/// its text.
pub(crate) fn run_part<'t, C: Begun, P: Ledger, R: Wait + AllocGlobal>(
    pool: Pool<'_, R, C, P>,
    pass: Pass,
    said: SessionInput<'t>,
    lease: Lease<C>,
) -> Option<Part<'t, C>>
    requires of { pass.of ≡ pool.ready.now }
    requires new { lease.made ≡ 0 }
    ensures { IfSome result (λ part. asked_in part ≡ asked_by (said_by said.entry) lease.id) }
{
    let id = lease.id();
    let mut reader = MemorySource::new(said.input.as_slice());
    let mut writer = MemorySink::new(pool.rt.alloc());
    let context = Context {
        rt: pool.rt,
        shared: pool.shared,
        ready: pool.ready,
    };
    let transcript = run_session(context, pass, lease, &mut reader, &mut writer);
    if transcript.end() == Some(SessionEnd::Ended) {
        return Some(Part {
            said,
            id,
            text: writer.into_bytes(),
            transcript: Some(transcript),
        });
    }
    None
}

/// The part of a name that isn't live: each item is answered its own refusal, or that the tenancy
/// is evicted.
pub(crate) fn evicted_part<'t, C: Begun>(
    alloc: Global,
    said: SessionInput<'t>,
    id: u32,
) -> Result<Part<'t, C>, AllocError>
    ensures { IfOk result (λ part. asked_in part
        ≡ record (asked_by (said_by said.entry) id) { live = false }) }
{
    let items = read_items(alloc, said.input.as_slice())?;
    let mut text = MemorySink::new(alloc);
    for item in items {
        tell(&mut text, refusal_of(item))?;
    }
    Ok(Part {
        said,
        id,
        text: text.into_bytes(),
        transcript: None,
    })
}

/// Appends the line of a refusal.
fn tell(text: &mut MemorySink, refusal: SessionRefusal) -> Result<(), AllocError>
    ensures { OnOk result (sink_text text.new ≡ sink_text text.old
        ++ session_refusal_text refusal) }
{
    write_session_refusal(text, refusal).or(Err(AllocError))
}

/// Why an item isn't served if the tenancy isn't live.
fn refusal_of(item: SessionLine) -> SessionRefusal
    ensures { result ≡ evicted_refusal item }
{
    match item {
        SessionLine::Refused(refusal) => refusal,
        _ => SessionRefusal::Evicted,
    }
}
