//! The law of workers.
ghost use Rattle.std.specs.Prelude.{◌≡◌, ℕ, List, Option, false, true};
ghost use Rattle.live_machine.specs.Prelude.{JobState, Step, Happens, GiveBack, ServiceState, LiveState, asked_of, Operates, Says, AnswersLine};
ghost use Rattle.service_core.specs.Run.Call.{Take};
ghost use Rattle.live_machine.specs.Machine.{is_busy, is_by_hand};
ghost use Rattle.live_machine.specs.Workers.{IsHome, IsLeftAlone, NeedNotWait, all_here, nomemory_reply, without_workers};

/// What workers have is no part of the live service that others see.
pub fn workers_law()
    // Each line is answered as if no worker had a step, but one that makes steps by hand, and a
    // `wait` that couldn't be answered yet.
    ensures line { (old new : LiveState) (number : ℕ) (line reply : List ℕ) →
        is_by_hand (asked_of line) ≡ false → NeedNotWait (without_workers old) (asked_of line) line →
        AnswersLine old number line reply new → AnswersLine (without_workers old) number line reply
        (without_workers new) }
    // So is each line of a name whose job's next step no worker has, a `wait` too.
    ensures said { (old new : LiveState) (number : ℕ) (line reply name said : List ℕ) →
        asked_of line ≡ Says name said → IsHome old name →
        AnswersLine old number line reply new → AnswersLine (without_workers old) number line reply
        (without_workers new) }
    // So is a line that makes steps of such a job.
    ensures steps { (old new : LiveState) (number count : ℕ) (line reply name : List ℕ) →
        asked_of line ≡ Operates (Step name count) → IsHome old name →
        AnswersLine old number line reply new → AnswersLine (without_workers old) number line reply
        (without_workers new) }
    // So is a line that makes one step of a job whose step can be taken.
    ensures step { (old new : LiveState) (number : ℕ) (line reply name : List ℕ) →
        asked_of line ≡ Operates (Step name 1) → is_busy old name ≡ true →
        AnswersLine old number line reply new → AnswersLine (without_workers old) number line reply
        (without_workers new) }
    // If the reply is that memory ran out, nothing changes.
    ensures nomemory { (old new : LiveState) (number : ℕ) (line reply name : List ℕ) →
        asked_of line ≡ Operates (Step name 1) → reply ≡ nomemory_reply name →
        AnswersLine old number line reply new → without_workers new ≡ without_workers old }
    // That a worker takes a step, or gives it back, changes nothing either.
    ensures taken { (old new : ServiceState) (id : ℕ) (job : Option JobState) →
        Happens old (Take id job) new → all_here new ≡ all_here old }
    ensures given { (old new : ServiceState) (job : JobState) →
        Happens old (GiveBack job) new → all_here new ≡ all_here old }
    // The device, the plan, the journals, and which tenancies are live are those of the service.
    ensures alone { (service : ServiceState) → IsLeftAlone service (all_here service) }
{}
