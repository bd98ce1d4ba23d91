ghost use Rattle.std.specs.Prelude.{◌≡◌, ◌⊎◌, ◌++◌, ◌∷◌, [], List, Option, length, ℕ, false, All, IfSome, Some, slice_get};
ghost use Rattle.std.specs.List.{Contains};
ghost use Rattle.script_threads.specs.Prelude.{MAX_ENTRIES, JobState, takeable_in, GiveBack, Device, journal_of, live_of, entry_of, Parts as Script, RunReplies, Noted, JournalFull, ItemAnswer, Note, Follows, Stays};
ghost use Rattle.script_threads.specs.OneRun.{IsOneRun, calls_of};
ghost use Rattle.script_threads.specs.Served.{IsServedOnThreads};
ghost use Rattle.script_threads.specs.Turns.{receipts_told};

/// With workers as without, all calls of a script are one run of the core from the empty device on.
/// Each tenancy is served as if it were alone, with exactly the commands that its session and the
/// operator's lines asked.
pub fn one_run()
    ensures { (device : Device) (script : Script) (answered : RunReplies)
        (is : IsServedOnThreads device script answered) →
        IsOneRun device (calls_of is) is.last }
{}

/// What the threads leave goes on from what they were given. It is of the same device and
/// tenancies; the same tenancies are live, their strips are at the same offsets, and the entries
/// that were in a journal are the first that are in it now.
pub fn threads_go_on()
    ensures { (device : Device) (script : Script) (answered : RunReplies)
        (is : IsServedOnThreads device script answered) →
        Follows is.service is.settled × Stays is.service is.settled }
{}

/// The journals confirm the answers to the sessions: each receipt is of its tenancy, and is the
/// entry at its place.
pub fn receipts_stand()
    ensures { (device : Device) (script : Script) (answered : RunReplies)
        (is : IsServedOnThreads device script answered) →
        All (λ c. IfSome c.told (λ told. All (λ r. (r.id ≡ c.id)
        × (slice_get (journal_of is.settled c.id) r.place ≡ Some (entry_of r)))
        (receipts_told told))) is.ran.conversations }
{}

/// If a command is not served, then the answer says that the journal is full, it is full from then
/// on, and no later command of the session is served.
pub fn full_stays()
    ensures { (device : Device) (script : Script) (answered : RunReplies)
        (is : IsServedOnThreads device script answered) →
        All (λ c. IfSome c.told (λ told. (before after : List (Option ItemAnswer)) (n : Noted) →
        told ≡ before ++ Some (Note n) ∷ after → (n.cause ≡ JournalFull)
        × (length (journal_of is.settled c.id) ≡ MAX_ENTRIES) × (receipts_told after ≡ [])))
        is.ran.conversations }
{}

/// When the operator's other lines are served, no tenancy has a step to take, unless memory ran out
/// for its job.
pub fn none_is_left()
    ensures { (device : Device) (script : Script) (answered : RunReplies)
        (is : IsServedOnThreads device script answered) (id : ℕ) →
        (takeable_in (live_of (is.rested).histories id) ≡ false)
        ⊎ ((job : JobState) × (job.step.id ≡ id) × Contains (is.left).calls (GiveBack job)) }
{}
