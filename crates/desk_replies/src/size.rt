//! The size of a device, as the tools take it.
ghost use Rattle.std.specs.Prelude.{IfOk, OnErr};
ghost use Rattle.desk_replies.specs.Asked.{IsDeviceAskedFor};

use desk_common::{COLUMNS, DEVICE, NO_DEVICE, ROWS, TRACKS};
use device_lines::DeviceSize;
use option_words::{Given, OptionWord, Takes};

pub(crate) const PADS: OptionWord = OptionWord {
    name: "pads",
    value_name: "P",
    help: "Pads at each end of a column, 1 to 8: the architecture's io_rat",
    takes: Takes::Number(1, 8),
    default: Some("2"),
};

/// The options with a device's size.
pub(crate) const SIZES: &[OptionWord] = &[TRACKS, COLUMNS, ROWS, DEVICE, PADS];

/// The size that the options give, or why they are refused.
pub fn size_of(given: &Given<'_>) -> Result<DeviceSize, &'static str>
    ensures asked { IfOk result (IsDeviceAskedFor given.now) }
    ensures refused { OnErr result ((size : DeviceSize) → IsDeviceAskedFor given.now size → ⊥) }
{
    let columns = given.number("columns")?;
    let rows = given.number("rows")?;
    let tracks = given.number("tracks")?;
    DeviceSize::new(columns, rows, tracks, given.number("pads")?).ok_or(NO_DEVICE)
}
