//! A channel, as JSON.
ghost use Rattle.std.specs.Prelude.{◌≡◌, ◌++◌, OnOk};
ghost use Rattle.desk_circuits.specs.Channels.{channel_json};
ghost use Rattle.desk_circuits.specs.Prelude.{json_tokens};

use device_report::{ChannelUse, channel_word};
use json_text::{JsonPen, Scalar};
use std::alloc::AllocError;

/// Writes a channel: its kind, its place, and the number of its wires that are used.
pub fn write_channel(pen: &mut JsonPen, channel: ChannelUse) -> Result<(), AllocError>
    ensures { OnOk result (pen.new ≡ pen.old ++ json_tokens (channel_json channel)) }
{
    pen.object(&[
        ("kind", Scalar::Text(channel_word(channel.direction))),
        ("x", Scalar::Number(channel.x as u64)),
        ("y", Scalar::Number(channel.y as u64)),
        ("wires", Scalar::Number(channel.wires as u64)),
    ])
}
