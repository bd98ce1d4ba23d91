//! What a session that waits finds under the lock.
ghost use Rattle.std.specs.Prelude.{◌≡◌, MatchOption};
ghost use Rattle.session_threads.specs.Prelude.{AreAlone, Wait};
ghost use Rattle.session_threads.specs.Told.{AnswersItem, NotesBy};
ghost use Rattle.session_threads.specs.Waiting.{Waits, found_in};

use shared_core::{Begun, Core};
use std::sync::ledger::Ledger;
use tenant_slot::Command;
use transcripts::Transcript;

/// The state of a tenancy's job.
#[derive(Clone, Copy, PartialEq, Eq)]
enum Found {
    /// No step will follow: the tenancy isn't live, no job of it runs, or its journal is full.
    Ended,
    /// There is a step to take, and its number is nobody's: memory ran out for the step, or for the
    /// number in the queue.
    GivenUp,
    /// A step is out, or its number was pushed.
    Goes,
}

/// The state of that tenancy's job.
fn find<C: Begun, P: Ledger>(core: &mut Core<C, P>, id: u32) -> Found
    ensures found { result ≡ found_in core.old id }
    ensures same { core.new ≡ core.old }
    ensures alone { AreAlone core.old.service }
{
    if core.idle(id) {
        return Found::Ended;
    }
    match core.mark_ready(id) {
        Some(slot) => {
            let _holder = core.unmark_number(slot);
            Found::GivenUp
        }
        None => Found::Goes,
    }
}

/// One turn of a wait. If no step of the transcript's tenancy will follow, the core is asked its
/// status, and the turn returns whether that has an answer in the transcript. If there is a step to
/// take whose number is nobody's, the wait is counted as one that ran out of memory, and the turn
/// returns false. None if the wait goes on.
pub(crate) fn wait_turn<C: Begun, P: Ledger>(
    core: &mut Core<C, P>,
    transcript: &mut Transcript<C>,
) -> Option<bool>
    ensures turn { Waits transcript.old core.old result core.new transcript.new }
    ensures told { MatchOption result (transcript.new ≡ transcript.old)
        (λ has. NotesBy (AnswersItem transcript.old.id Wait) transcript.old has transcript.new) }
{
    match find(core, transcript.id()) {
        Found::Ended => Some(transcript.enter(core, Command::Status)),
        Found::GivenUp => {
            transcript.count_no_memory();
            Some(false)
        }
        Found::Goes => None,
    }
}
