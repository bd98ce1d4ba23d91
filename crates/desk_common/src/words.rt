//! Options that several tools take.
ghost use Rattle.std.specs.Prelude.{ℕ, Option, IfOk, OnErr};
ghost use Rattle.desk_common.specs.Numbers.{IsNumberIn};

use option_words::{Given, OptionWord, Takes};

/// Why numbers are refused that are not the sizes of a device.
pub const NO_DEVICE: &str = "a size is out of range";

/// An option that is given or not. Each one has a name and a help of its own.
pub const FLAG: OptionWord = OptionWord {
    name: "",
    value_name: "",
    help: "",
    takes: Takes::Nothing,
    default: None,
};

/// An option with the path of a file.
pub const FILE: OptionWord = OptionWord {
    value_name: "FILE",
    takes: Takes::Text,
    ..FLAG
};

/// A text that is given without a name of an option.
pub const ALONE: OptionWord = OptionWord {
    takes: Takes::Alone,
    ..FLAG
};

/// The architecture.
pub const ARCH: OptionWord = OptionWord {
    name: "arch",
    value_name: "FILE",
    help: "The architecture",
    takes: Takes::GivenText,
    default: None,
};

/// The tracks of each channel.
pub const TRACKS: OptionWord = OptionWord {
    name: "tracks",
    value_name: "W",
    help: "Tracks of each channel, 1 to 64",
    takes: Takes::Number(1, 64),
    default: Some("2"),
};

/// The tracks of each channel, without a number of their own.
pub const GIVEN_TRACKS: OptionWord = OptionWord {
    default: None,
    ..TRACKS
};

/// The columns of a device.
pub const COLUMNS: OptionWord = OptionWord {
    name: "columns",
    value_name: "NX",
    help: "Columns of the device, 1 to 256",
    takes: Takes::Number(1, 256),
    default: Some("9"),
};

/// The rows of a device.
pub const ROWS: OptionWord = OptionWord {
    name: "rows",
    value_name: "NY",
    help: "Rows of the device, 1 to 64",
    takes: Takes::Number(1, 64),
    default: Some("1"),
};

/// The seed of a placement.
pub const SEED: OptionWord = OptionWord {
    name: "seed",
    value_name: "S",
    help: "Seed of the placement's random numbers, 0 to 18446744073709551615",
    takes: Takes::Long,
    default: Some("1"),
};

/// The effort of a placement.
pub const EFFORT: OptionWord = OptionWord {
    name: "effort",
    value_name: "E",
    help: "Effort of the placement, 0 to 100: more is slower and usually better",
    takes: Takes::Number(0, 100),
    default: Some("50"),
};

/// The folder in which a tool writes.
pub const FOLDER: OptionWord = OptionWord {
    name: "folder",
    value_name: "FOLDER",
    help: "The folder for the files; it is created if it does not exist",
    ..ALONE
};

/// The value of an option with a number, if it is given.
pub fn number_in(given: &Given<'_>, name: &str) -> Result<Option<u32>, &'static str>
    ensures asked { IfOk result (IsNumberIn given.now name.now) }
    ensures refused { OnErr result ((number : Option ℕ) →
        IsNumberIn given.now name.now number → ⊥) }
{
    match given.text(name) {
        Some(_) => Ok(Some(given.number(name)?)),
        None => Ok(None),
    }
}
