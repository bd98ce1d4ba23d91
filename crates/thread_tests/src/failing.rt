//! Sessions whose reader or writer fails at one of its calls. The commands that were read by then
//! are asked and keep their receipts, and what was written is a beginning of the replies.
ghost use Rattle.std.specs.Prelude.{◌≡◌, ◌≤◌, false};

use crate::seats::{Speaker, a_speaker};
use fixtures::{STRIDE, ShortSink, ShortSource};
use job_queue::Ready;
use session_threads::{Context, run_session};
use shared_core::{Begun, Core, Shared};
use std::alloc::AllocGlobal;
use std::sync::Wait;
use std::sync::ledger::Ledger;
use tenant_slot::StateName;
use transcripts::{SessionEnd, Transcript};

/// What a session says: two commands.
const SAID: &str = "\
upload
.model t
.inputs a b
.outputs f
.names a b f
11 1
.
pack
";

/// The offsets at which its commands end: none, the first, both.
const COMMAND_ENDS: [usize; 3] = [0, 59, 64];

/// The replies.
const TOLD: &[u8] = b"ok Loaded\nok Packing\n";

/// The offsets at which the replies end: none, the first, both.
const REPLY_ENDS: [usize; 3] = [0, 10, 21];

/// At which call a device fails.
#[derive(Clone, Copy)]
enum Failing {
    /// The read of that number, counted from 1.
    Read(u64),
    /// The first write after this number of bytes.
    Write(usize),
}

/// How a session is to end.
#[derive(Clone, Copy)]
struct Ending {
    end: SessionEnd,
    /// The number of its commands that the core was asked. Their receipts are kept.
    commands: u32,
    /// The number of bytes of the replies that were written.
    written: usize,
}

impl Ending {
    /// The tenancy's state at the end.
    fn state(self) -> StateName {
        match self.commands {
            0 => StateName::Empty,
            1 => StateName::Loaded,
            _ => StateName::Packing,
        }
    }

    /// Whether the transcript and what was written are as this says.
    fn is_of<C: Begun>(self, transcript: &Transcript<C>, written: &[u8]) -> bool {
        transcript.end() == Some(self.end)
            && transcript.items().len() == self.commands as usize
            && transcript.no_memory() == 0
            && Some(written) == TOLD.get(..self.written)
    }

    /// Whether the core was asked these commands and no other.
    fn is_in<C: Begun, P: Ledger>(self, core: &Core<C, P>, id: u32) -> bool {
        core.state(id) == Some(self.state())
            && core.entry(id, self.commands).is_none()
            && (self.commands == 0 || core.entry(id, self.commands - 1).is_some())
    }
}

impl Failing {
    /// How a session is to end. A command is asked once all of it was read, whether or not its
    /// reply can be written.
    fn ending(self) -> Ending {
        match self {
            Failing::Read(number) => {
                let read = STRIDE.saturating_mul(number.saturating_sub(1) as usize);
                let commands = count_within(&COMMAND_ENDS, read);
                Ending {
                    end: SessionEnd::ReaderFailed,
                    commands: commands as u32,
                    written: REPLY_ENDS[commands],
                }
            }
            Failing::Write(room) => Ending {
                end: SessionEnd::WriterFailed,
                commands: (count_within(&REPLY_ENDS, room) as u32 + 1).min(2),
                written: room,
            },
        }
    }

    /// The number of the read that fails. No session makes 2^32 reads.
    fn reads(self) -> u64 {
        match self {
            Failing::Read(number) => number,
            Failing::Write(_) => 1 << 32,
        }
    }

    /// The number of bytes that can be written.
    fn room(self) -> usize {
        match self {
            Failing::Read(_) => TOLD.len(),
            Failing::Write(room) => room,
        }
    }
}

/// The number of the last two offsets that are at most that great.
fn count_within(places: &[usize; 3], far: usize) -> usize
    ensures { result ≤ 2 }
{
    if far < places[1] {
        0
    } else if far < places[2] {
        1
    } else {
        2
    }
}

/// Runs a session over failing devices. Returns whether it ended as it should.
fn ends_over<C: Begun, P: Ledger, R: Wait + AllocGlobal>(
    rt: &R,
    shared: &Shared<C, P>,
    ready: &Ready,
    speaker: Speaker<C>,
    failing: Failing,
) -> bool
    requires { (speaker.pass.of ≡ ready.now) × (speaker.lease.made ≡ 0) }
{
    let Speaker { pass, lease, input } = speaker;
    let mut reader = ShortSource::new(input.as_bytes(), failing.reads());
    let mut writer = ShortSink::new(rt.alloc(), failing.room());
    let context = Context { rt, shared, ready };
    let transcript = run_session(context, pass, lease, &mut reader, &mut writer);
    let is_so = failing.ending().is_of(&transcript, writer.as_bytes());
    drop(transcript);
    drop(writer);
    is_so
}

/// Runs the session of that tenancy, with a queue of its own. Returns whether it ended as it
/// should.
fn session_ends<C: Begun, P: Ledger, R: Wait + AllocGlobal>(
    rt: &R,
    shared: &Shared<C, P>,
    id: u32,
    failing: Failing,
) -> bool {
    match Ready::new(rt.alloc(), 1, 1) {
        Ok((ready, seats, mut passes)) => {
            drop(seats);
            let speaker = a_speaker(&mut *shared.core.lock(rt), &ready, &mut passes, id, SAID);
            drop(passes);
            let is_so = match speaker {
                Some(speaker) => ends_over(rt, shared, &ready, speaker, failing),
                None => false,
            };
            drop(ready);
            is_so
        }
        Err(_) => false,
    }
}

/// Whether the session of a new tenancy ends as it should, and leaves the core as it should.
fn ends_so<C: Begun, P: Ledger, R: Wait + AllocGlobal>(
    rt: &R,
    shared: &Shared<C, P>,
    failing: Failing,
) -> bool
    requires { C.stay ≡ false }
{
    let id = match shared.core.lock(rt).admit(1) {
        Ok((id, _)) => id,
        Err(_) => 0,
    };
    session_ends(rt, shared, id, failing) && is_left(&mut *shared.core.lock(rt), id, failing)
}

/// Whether the core is left as it should be. Evicts the tenancy.
fn is_left<C: Begun, P: Ledger>(core: &mut Core<C, P>, id: u32, failing: Failing) -> bool
    requires { C.stay ≡ false }
{
    failing.ending().is_in(core, id) && core.evict(id) == Ok(())
}

/// Whether sessions end as they should if a read fails: each read in turn, and the one after the
/// last byte.
fn reads_end_so<C: Begun, P: Ledger, R: Wait + AllocGlobal>(rt: &R, shared: &Shared<C, P>) -> bool
    requires { C.stay ≡ false }
{
    let mut are_so = true;
    for number in 1..12u64 {
        are_so &= ends_so(rt, shared, Failing::Read(number));
    }
    are_so
}

/// Whether sessions end as they should if a write fails: after each number of bytes in turn.
fn writes_end_so<C: Begun, P: Ledger, R: Wait + AllocGlobal>(rt: &R, shared: &Shared<C, P>) -> bool
    requires { C.stay ≡ false }
{
    let mut are_so = true;
    for room in 0..TOLD.len() {
        are_so &= ends_so(rt, shared, Failing::Write(room));
    }
    are_so
}

/// Whether sessions end as they should, whichever call fails. The core has no tenancies.
pub(crate) fn all_end_so<C: Begun, P: Ledger, R: Wait + AllocGlobal>(
    rt: &R,
    shared: &Shared<C, P>,
) -> bool
    requires { C.stay ≡ false }
{
    reads_end_so(rt, shared) && writes_end_so(rt, shared)
}
