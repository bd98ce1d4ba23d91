//! The law.
ghost use Rattle.std.specs.Prelude.{◌++◌, ℕ, List};
ghost use Rattle.live_promises.specs.Prelude.{AreAnswered, AnswersLine, begins, LiveState, IsAccount, Call, MachineState, Run, begins_with, replies_of, served_lines, Device};
ghost use Rattle.live_promises.specs.Told.{IsToldLive};

use live_input::served_law;
use live_lines::live_law;
use live_machine::machine_law;
use service_core::headline;
use sessions::end_to_end;

/// If lines are answered one after another, from an empty device on, then each act is answered as
/// that of a script is, each tenancy is alone, and each name has the replies to its own lines.
pub fn live_promises()
    ensures { (device : Device) (lines : List (List ℕ)) (text : List ℕ) (last : LiveState) →
        AreAnswered AnswersLine (begins device) 1 lines text last →
        IsToldLive device lines text last }
{
    headline();
    end_to_end();
    served_law();
    live_law();
}

/// With workers it is the same: whatever calls are made of a machine over an empty device, there is
/// an account of them, and the lines that were served, those of workers among them, are answered as
/// those of a script are.
pub fn machine_promises()
    ensures { (device : Device) (calls : List Call) (now : MachineState) →
        Run (begins_with (begins device) 1) calls now →
        (a : IsAccount (begins device) 1 calls now) × IsToldLive device
        (served_lines (a.taken ++ a.rest)) (replies_of (a.taken ++ a.rest)) now.live }
{
    machine_law();
    live_promises();
}
