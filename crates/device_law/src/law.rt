//! The laws.
ghost use Rattle.std.specs.Prelude.{List};
ghost use Rattle.device_law.specs.Prelude.{Device, IsDevice, Call, Run, ServiceState, empty_service};
ghost use Rattle.device_law.specs.OwnersBack.{AreExactlyRead, AreOwnersReadBack};
ghost use Rattle.device_law.specs.ReadBack.{IsListReadBack};
ghost use Rattle.device_law.specs.Shown.{AreOnDevice, IsOutputRead};

use layout_law::routed_implements;
use strip_place::laws_of_passes;

/// Reading what the service prints for `op list` is reading its live tenancies, one after another,
/// whatever was read before and comes after.
pub fn list_is_read()
    ensures { IsListReadBack }
{}

/// Reading what the service prints for `op owners` is reading each node with its owner, one after
/// another, whatever was read before and comes after. If the device has all of them, and they are
/// in node order, then what is read is exactly that list.
pub fn owners_are_read()
    ensures each { AreOwnersReadBack }
    ensures exactly { AreExactlyRead }
{}

/// Whatever calls were made, the device has each wire, pin and pad that a tenancy owns, and it is
/// in the tenancy's strip.
pub fn owners_are_on_device()
    ensures { (device : Device) (known : IsDevice device) (calls : List Call)
        (state : ServiceState) → Run (empty_service device) calls state →
        AreOnDevice device known state }
{
    routed_implements();
    laws_of_passes();
}

/// What `fpgad_desk report` counts over is what the service printed last. What is read of the
/// output of a script is the live tenancies at its last `op list` and the owners at its last
/// `op owners`, and the tenancies are those that are live at the end, each with its strip. The
/// output is refused only if no such list, or no such owners, follow the last change.
pub fn output_is_read()
    ensures { IsOutputRead }
{
    routed_implements();
    laws_of_passes();
}
