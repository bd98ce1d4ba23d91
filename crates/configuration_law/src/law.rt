//! The law.
ghost use Rattle.blif.specs.declared.circuit.Circuit.{Circuit};
ghost use Rattle.configuration.specs.Configuration.{configuration_of};
ghost use Rattle.configuration.specs.Things.{ShareNothing};
ghost use Rattle.grid.specs.Sizes.{IsStripSize};
ghost use Rattle.implements.specs.Implements.{Implements};
ghost use Rattle.implements.specs.Layouts.{Layout};
ghost use Rattle.line_text.specs.Lines.{JoinedLine};
ghost use Rattle.service_core.specs.Run.{Call, Run};
ghost use Rattle.service_core.specs.Service.{ServiceState, empty_service, strip_on};
ghost use Rattle.service_core.specs.declared.device.Device.{Device};
ghost use Rattle.std.specs.Prelude.{◌≡◌, ◌≢◌, ℕ, List, Some};
ghost use Rattle.strips.specs.Plan.{strip_of};
ghost use Rattle.strips.specs.declared.placed_strip.PlacedStrip.{PlacedStrip};

/// Whatever calls were made, let two tenancies have these strips, and let a layout on each strip
/// implement a circuit. At the strips' offsets the configurations of the two layouts name no common
/// pin, wire, pad or place of a basic logic element. So loading one tenancy's configuration changes
/// no line of another's. `routed_implements` says that the files of a routed tenancy are such a
/// layout.
pub fn configurations_apart()
    ensures { (device : Device) (calls : List Call) (state : ServiceState) →
        Run (empty_service device) calls state → (id other : ℕ) (strip its : PlacedStrip)
        → id ≢ other →
        strip_of state.plan.strips id ≡ Some strip → strip_of state.plan.strips other ≡ Some its →
        IsStripSize (strip_on device strip.width) → IsStripSize (strip_on device its.width) →
        (lines others : List JoinedLine) (circuit other_circuit : Circuit)
        (layout other_layout : Layout) →
        Implements circuit device.arch (strip_on device strip.width) layout →
        Implements other_circuit device.arch (strip_on device its.width) other_layout →
        ShareNothing strip.offset
        (configuration_of lines circuit device.arch (strip_on device strip.width) layout)
        its.offset (configuration_of others other_circuit device.arch
        (strip_on device its.width) other_layout) }
{}
