//! Why an input is refused.
use line_text::TextError;
use std::fmt;

/// What is wrong with a line of the input.
#[derive(Clone, Copy, PartialEq, Eq)]
pub enum DeviceFault {
    /// The first line is not `== op`.
    NoSection,
    /// The line isn't one of the operator's replies.
    UnknownLine,
    /// A line of `op list` with a bad number, name or state, or with a strip that isn't within the
    /// device.
    BadTenancy,
    /// Two strips with no unused column between them.
    NotParted,
    /// A line of `op owners` that names no wire, pin or pad, or no owner.
    BadOwner,
    /// A wire, pin or pad that the device does not have.
    NotThere,
    /// A wire, pin or pad that does not come after the previous one in node order.
    OutOfOrder,
    /// An owner that isn't in `op list`.
    NotListed,
    /// A wire, pin or pad outside its owner's strip.
    OutsideStrip,
    /// The input ends before all lines of `op owners` came.
    Unfinished,
    /// Tenancies are live, and no line of `op list` follows the last change of the device.
    NoList,
    /// No `op owners` follows the last change of the device.
    NoOwners,
}

impl DeviceFault {
    /// The fault in words.
    fn text(self) -> &'static str {
        match self {
            DeviceFault::NoSection =>
                "the input does not begin with the operator's section, `== op`",
            DeviceFault::UnknownLine => "not a reply to the operator",
            DeviceFault::BadTenancy => {
                "not a tenancy on a device with these --columns: ID NAME OFFSET WIDTH STATE"
            }
            DeviceFault::NotParted =>
                "there is no unused column between this strip and an earlier one",
            DeviceFault::BadOwner => "not an owned wire, pin or pad: NODE owner ID",
            DeviceFault::NotThere => {
                "a device of these --columns, --rows, --tracks and --pads has no such wire, pin or pad"
            }
            DeviceFault::OutOfOrder => "it is not in node order",
            DeviceFault::NotListed => "the last `op list` has no tenancy with this id",
            DeviceFault::OutsideStrip => "it is outside its owner's strip",
            DeviceFault::Unfinished => "the input ends before the last owner",
            DeviceFault::NoList => {
                "no `op list` follows this line: end the script with `op list` and `op owners`"
            }
            DeviceFault::NoOwners => {
                "no `op owners` follows this line: end the script with `op list` and `op owners`"
            }
        }
    }
}

/// The first line that is refused, counted from 1.
#[derive(Clone, Copy)]
pub struct InputFault {
    pub fault: DeviceFault,
    pub line: usize,
}

impl fmt::Display for InputFault {
    fn fmt<W: fmt::Write>(&self, f: &mut fmt::Formatter<W>) -> fmt::Result {
        let line = self.line;
        let text = self.fault.text();
        write!(f, "line {line}: {text}")
    }
}

/// Why no device was read.
pub type DeviceError = TextError<InputFault>;
