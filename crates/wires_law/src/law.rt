//! The law.
ghost use Rattle.std.specs.Prelude.{List};
ghost use Rattle.service_core.specs.declared.device.Device.{Device};
ghost use Rattle.service_core.specs.Run.{Call, Run};
ghost use Rattle.service_core.specs.Service.{ServiceState, empty_service};
ghost use Rattle.wires_law.specs.Untouched.{AreUntouched};

/// Whatever calls were made, not even a switch that is set wrongly can lead from one tenancy's
/// wires to another's.
pub fn no_switch_joins()
    ensures { (device : Device) (calls : List Call) (state : ServiceState) →
        Run (empty_service device) calls state → AreUntouched device state }
{}
