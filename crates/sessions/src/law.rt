ghost use Rattle.std.specs.Prelude.{◌≡◌, ◌⊎◌, false, List, [], ◌∷◌, ℕ, Ok, Some};
ghost use Rattle.sessions.specs.Prelude.{replies_to, start, Device, takeable_in, Call, Run, Admit, ServiceState, empty_service, live_of, live_width, strip_on};
ghost use Rattle.sessions.specs.declared.line.SessionLine.{SessionLine};
ghost use Rattle.sessions.specs.declared.steps.StepOutcome.{StepOutcome};
ghost use Rattle.sessions.specs.declared.steps.StepOutcome.TheVariants.{NoMemory, Unfit};
ghost use Rattle.sessions.specs.declared.told.Answer.{Answer};
ghost use Rattle.sessions.specs.EndToEnd.{LineIsToldAlone, alone_after};
ghost use Rattle.sessions.specs.Fitting.{FitsOwnDevice};
ghost use Rattle.sessions.specs.SessionAnswer.{Asks};
ghost use Rattle.sessions.specs.Steps.{Waits};
ghost use Rattle.sessions.specs.WholeSession.{Turn, Turns, events_in, heard_by, session_text, text_of_turns};

/// A session, end to end. Whatever calls were made of a device's core before, in any order, with
/// jobs out for any time, a line is answered the text that the service for a single user replies
/// after the tenancy's own events. A wait is answered what that service replies to `status` after
/// those events and the steps that the wait has made.
pub fn end_to_end()
    ensures { (device : Device) (before calls : List Call) (old new : ServiceState) (id : ℕ)
        (line : SessionLine) (answer : Answer) → Run (empty_service device) before old →
        Asks id line calls answer → Run old calls new →
        LineIsToldAlone device old id before calls line answer }
{}

/// A whole session, end to end. While it goes on, others may make any calls of the core except the
/// commands and the eviction of this tenancy: admit and evict, ask commands of other tenancies, and
/// take, step, put and give back any job, this tenancy's too. The bytes that the session writes are
/// one text: the replies of the service for a single user to the tenancy's events, in order. This
/// holds in a core with one tenancy, from its admission on, and in any core, from any moment on.
pub fn whole_session()
    ensures one { (device : Device) (width offset : ℕ) (old new : ServiceState)
        (turns : List Turn) → Run (empty_service device) (Admit width (Ok (1, offset)) ∷ []) old →
        Turns 1 old turns new →
        text_of_turns turns ≡ session_text (heard_by 1 turns)
        (replies_to (start device.arch (strip_on device width)) (events_in (heard_by 1 turns))) }
    ensures any { (device : Device) (before : List Call) (old new : ServiceState) (id width : ℕ)
        (turns : List Turn) → Run (empty_service device) before old →
        live_width old.histories id ≡ Some width → Turns id old turns new →
        text_of_turns turns ≡ session_text (heard_by id turns)
        (replies_to (alone_after device width id before) (events_in (heard_by id turns))) }
{}

/// When the steps of a wait end. If memory didn't run out and the graph is that of the job's
/// device, there is no step to take. So no job of the tenancy runs, its next step is out, the
/// journal is full, or the tenancy isn't live.
pub fn wait_ends()
    ensures { (old new : ServiceState) (id : ℕ) (steps : List Call) (last : StepOutcome) →
        Waits id steps last → Run old steps new → (last ≡ NoMemory)
        ⊎ ((last ≡ Unfit) ⊎ (takeable_in (live_of new.histories id) ≡ false)) }
{}

/// Whatever calls were made of the core before, the device's own graph has a window for each job
/// that the core gives out, at the offset that the strip of its tenancy has then.
pub fn fits_own_device()
    ensures { FitsOwnDevice }
{}
