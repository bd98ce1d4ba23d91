//! How the files relate to the service.
ghost use Rattle.std.specs.Prelude.{◌≡◌, ℕ, Ok};
ghost use Rattle.one_user.specs.Prelude.{arch_of, Arch, Circuit, State};
ghost use Rattle.one_user.specs.declared.device.Request.{Request};
ghost use Rattle.one_user.specs.declared.least.DevicePlan.{DevicePlan};
ghost use Rattle.one_user.specs.Tracks.{places_for};
ghost use Rattle.one_user.specs.declared.outcome.Files.{Files};
ghost use Rattle.one_user.specs.declared.outcome.FlowOutcome.TheVariants.{Routed};
ghost use Rattle.one_user.specs.Outcomes.{Task, outcome_of};
ghost use Rattle.one_user.specs.Service.{AreTold, HasRouted};

/// A tenancy that has the netlist routed in this way gets the files that a run here returns.
pub fn same_files()
    ensures { (task : Task) (files : Files) (state : State) → outcome_of task ≡ Routed files →
        HasRouted task state → AreTold files state }
{}

/// The blocks of a netlist have the same places with each number of tracks.
pub fn places_for_all_tracks()
    ensures { (plan : DevicePlan) (request : Request) (tracks others : ℕ) (arch other : Arch)
        (circuit : Circuit) → arch_of plan.text.now tracks ≡ Ok arch →
        arch_of plan.text.now others ≡ Ok other →
        places_for plan other request circuit ≡ places_for plan arch request circuit }
{}
