//! The law.
ghost use Rattle.std.specs.Prelude.{◌≡◌, List};
ghost use Rattle.tenant_slot.specs.declared.command.Command.TheVariants.{Withdraw};
ghost use Rattle.tenant_slot.specs.declared.event.Event.{Event};
ghost use Rattle.tenant_slot.specs.declared.event.Event.TheVariants.{Command as Asked};
ghost use Rattle.tenant_slot.specs.SingleUser.{State, replies_to, start, state_after, step};
ghost use Rattle.standing_law.specs.Standing.{AreSame, ChangesNothing, HasRoom, StandAlike, Withdraws};

/// Two states of a tenancy that stand alike have the same replies from then on, as long as their
/// journals have room: whatever events came before, in whatever number. An event that changes
/// nothing, as a refusal or a request for a file, may be left out. After a `withdraw` a tenancy
/// stands as one that was just admitted.
pub fn stands_law()
    ensures goes_on { (s t : State) (one other : List Event) → StandAlike s t →
        AreSame s one t other → (replies_to s one ≡ replies_to t other)
        × StandAlike (state_after s one) (state_after t other) }
    ensures left_out { (s t : State) (event : Event) → StandAlike s t → ChangesNothing s event →
        StandAlike (step s event).0 t }
    ensures void { (s : State) → Withdraws s → HasRoom s →
        StandAlike (step s (Asked Withdraw)).0 (start s.arch s.strip) }
    ensures same { (s : State) → StandAlike s s }
{}
