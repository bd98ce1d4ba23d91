//! Which replies to the operator change the device.
ghost use Rattle.std.specs.Prelude.{◌≡◌};
ghost use Rattle.device_lines.specs.Lines.{change_by, change_in};

use crate::words::{after_text, first_number};
use line_text::{decimal_u32, is_word};

/// What a reply to the operator, other than a list, does to strips and owners.
#[derive(Clone, Copy, PartialEq, Eq)]
pub(crate) enum Change {
    /// A tenancy was admitted: `ok ID OFFSET`.
    Admission,
    /// A tenancy was evicted: `ok`.
    Eviction,
    /// A strip was moved, or a step finished a job: `ok OFFSET`, `finished`.
    Other,
}

/// The change that a reply reports; `None` if strips and owners stay as they are.
pub(crate) fn change_of(line: &[u8]) -> Option<Change>
    ensures { result ≡ change_in line.now }
{
    if is_word(line, "ok") {
        return Some(Change::Eviction);
    }
    if is_word(line, "finished") {
        return Some(Change::Other);
    }
    let (_, rest) = first_number(after_text(b"ok ", line)?)?;
    change_by(rest)
}

/// The change that a reply `ok NUMBER` reports, by the bytes after the number.
fn change_by(rest: &[u8]) -> Option<Change>
    ensures { result ≡ change_by rest.now }
{
    if rest.is_empty() {
        return Some(Change::Other);
    }
    decimal_u32(after_text(b" ", rest)?)?;
    Some(Change::Admission)
}
