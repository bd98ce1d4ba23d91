//! The device that a tool reads from what the service printed.
ghost use Rattle.std.specs.Prelude.{Ok, IfErr, IfOk};
ghost use Rattle.desk_replies.specs.Prelude.{Gives, device_in};
ghost use Rattle.desk_replies.specs.Pictured.{IsRefusedText};

use desk_common::Outcome;
use device_lines::{DeviceError, DeviceSize, ListedDevice, read_device};
use std::alloc::Global;

/// The device of that size which a text prints. Fails with the first fault of the text, or if
/// memory runs out.
pub(crate) fn device_in(
    alloc: Global,
    size: DeviceSize,
    text: &[u8],
) -> Result<ListedDevice<'_>, Outcome>
    ensures read { IfOk result (λ device. Gives (device_in size text.now) (Ok device)) }
    ensures refused { IfErr result (IsRefusedText size text.now) }
{
    match read_device(alloc, size, text) {
        Ok(device) => Ok(device),
        Err(DeviceError::NoMemory) => Err(Outcome::NoMemory),
        Err(DeviceError::Fault(fault)) => Err(Outcome::ReplyRefused(fault)),
    }
}
