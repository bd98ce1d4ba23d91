//! The laws of the machine.
ghost use Rattle.std.specs.Prelude.{◌≡◌, ◌≢◌, ◌++◌, [], ℕ, List, Some, None, is_some, true, false};
ghost use Rattle.live_machine.specs.Prelude.{AreAnswered, AnswersLine, LiveState, asked_of, Says, last_id, live_of};
ghost use Rattle.live_machine.specs.Account.{IsAccount};
ghost use Rattle.live_machine.specs.Held.{Held, held_of};
ghost use Rattle.live_machine.specs.Machine.{Call, Happens, MachineState, Run, Serves, begins_with, must_wait};
ghost use Rattle.live_machine.specs.Machine.Call.{Line};
ghost use Rattle.live_machine.specs.Turn.{replies_of, served_lines};

/// Whatever calls are made of a machine, there is an account of them.
pub fn machine_law()
    ensures account { (begun : LiveState) (first : ℕ) (calls : List Call) (now : MachineState) →
        Run (begins_with begun first) calls now → IsAccount begun first calls now }
    // All lines that were served are those of a live service without workers, and so are all
    // replies.
    ensures answered { (begun : LiveState) (first : ℕ) (calls : List Call) (now : MachineState)
        (a : IsAccount begun first calls now) → AreAnswered AnswersLine begun first
        (served_lines (a.taken ++ a.rest)) (replies_of (a.taken ++ a.rest)) now.live }
    // What a held name said is served in the tenancy in which it was said: the name has it still,
    // and it is live.
    ensures tenancy { (begun : LiveState) (first : ℕ) (calls : List Call) (now : MachineState)
        (name : List ℕ) (h : Held) → Run (begins_with begun first) calls now →
        held_of now.held name ≡ Some h → h.items ≢ [] →
        (h.id ≡ last_id now.live.stage.names name)
        × (is_some (live_of now.live.stage.service.histories h.id) ≡ true) }
    // A line of a name that is not held is served at once, unless it is a `wait` that must wait.
    ensures at_once { (old new : MachineState) (name said line : List ℕ) →
        asked_of line ≡ Says name said → held_of old.held name ≡ None →
        must_wait old.live name line ≡ false → Happens old (Line line) new → Serves old line new }
{}
