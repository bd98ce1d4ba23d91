//! Names and texts that can't be written in a script.
ghost use Rattle.std.specs.Prelude.{◌≡◌, ◌<◌, ◌^◌, length};
ghost use Rattle.tenancy_script.specs.Faults.{text_fault};

use line_text::{MAX_TEXT, split_line};
use sessions::{is_point, without_cr};
use std::fmt;

/// Why a tenancy has no script. Lines are counted from 1.
#[derive(Clone, Copy, PartialEq, Eq)]
pub enum ScriptFault {
    /// The name isn't 1 to 32 letters, digits and `_`.
    BadName,
    /// That line is only `.`, which would end the upload.
    PointAlone(usize),
    /// With that line the text has more bytes than the service takes: 1,048,576.
    TextTooLong(usize),
}

impl fmt::Display for ScriptFault {
    fn fmt<W: fmt::Write>(&self, f: &mut fmt::Formatter<W>) -> fmt::Result {
        match self {
            ScriptFault::BadName => write!(f, "a name is 1 to 32 letters, digits and `_`"),
            ScriptFault::PointAlone(line) => {
                write!(
                    f,
                    "line {line}: a line `.` would end the upload, and the lines after it would be commands"
                )
            }
            ScriptFault::TextTooLong(line) => write!(
                f,
                "line {line}: the text is longer than 1048576 bytes"
            ),
        }
    }
}

/// The first line of a text that can't be uploaded, with its fault.
pub(crate) fn text_fault(text: &[u8]) -> Option<ScriptFault>
    requires { length text.now < 2 ^ 63 }
    ensures { result ≡ text_fault text.now }
{
    let mut rest = text;
    let mut number = 1;
    let mut room = MAX_TEXT;
    while !rest.is_empty() {
        let (line, after) = split_line(rest);
        let line = without_cr(line);
        if is_point(line) {
            return Some(ScriptFault::PointAlone(number));
        }
        if line.len() >= room {
            return Some(ScriptFault::TextTooLong(number));
        }
        room -= line.len() + 1;
        number += 1;
        rest = after;
    }
    None
}
