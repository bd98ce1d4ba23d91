//! What is kept and told at each moment, with workers.
ghost use Rattle.std.specs.Prelude.{take, ℕ, List};
ghost use Rattle.live_promises.specs.Prelude.{Event, LiveState, Call, MachineState, Run, begins_with, IsCut, events_of};
ghost use Rattle.live_promises.specs.Moments.{IsBackedByTurns};

use live_machine::machine_law;

/// With workers, at each moment, whenever the program is ended: what was told is a beginning of
/// what some turns tell, which were kept before, and which are a day of the live service.
pub fn moments_promises()
    ensures { (begun : LiveState) (first : ℕ) (calls : List Call) (now : MachineState)
        (events : List Event) (n : ℕ) → Run (begins_with begun first) calls now →
        IsCut (events_of calls) events → IsBackedByTurns begun first (take n events) }
{
    machine_law();
}
