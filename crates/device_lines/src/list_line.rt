//! The lines of `op list`.
ghost use Rattle.std.specs.Prelude.{◌≡◌, ◌+◌, ◌≤◌, length, true, option_map};
ghost use Rattle.std.specs.Char.{is_ascii_alphabetic};
ghost use Rattle.std.specs.List.{list_all};
ghost use Rattle.device_lines.specs.Prelude.{MAX_COLUMNS};
ghost use Rattle.device_lines.specs.Lines.{is_name, is_name_byte, is_on_device, is_state, listed_in, listed_of};

use crate::size::DeviceSize;
use crate::tenancy::Tenancy;
use crate::words::{number_field, word_field};

/// The greatest length of a name.
const LONGEST_NAME: usize = 32;

/// Reads a line of `op list`: `ID NAME OFFSET WIDTH STATE`. `None` if the line has another form, or
/// the strip isn't within this device.
pub(crate) fn read_tenancy(size: DeviceSize, line: &[u8]) -> Option<Tenancy<'_>>
    ensures { option_map listed_of result ≡ listed_in size line.now }
{
    let (id, rest) = number_field(line)?;
    let (name, rest) = word_field(rest)?;
    let (offset, rest) = number_field(rest)?;
    let (width, state) = number_field(rest)?;
    if !is_name(name) {
        return None;
    }
    if !is_state(state) {
        return None;
    }
    if !is_on_device(size, offset, width) {
        return None;
    }
    Some(Tenancy {
        id,
        name,
        offset,
        width,
        state,
    })
}

/// Returns whether a strip of that width at that offset is within the device.
fn is_on_device(size: DeviceSize, offset: u32, width: u32) -> bool
    ensures exact { result ≡ is_on_device size offset width }
    ensures largest { result ≡ true → offset + width ≤ MAX_COLUMNS }
{
    width >= 1 && width <= size.columns && offset <= size.columns - width
}

/// Returns whether these are 1 to 32 letters, digits and `_`.
fn is_name(word: &[u8]) -> bool
    ensures exact { result ≡ is_name word.now }
    ensures short { result ≡ true → length word.now ≤ 32 }
{
    !word.is_empty() && word.len() <= LONGEST_NAME && are_name_bytes(word)
}

fn are_name_bytes(word: &[u8]) -> bool
    ensures { result ≡ list_all is_name_byte word.now }
{
    word.iter().all(|byte| is_name_byte(*byte))
}

fn is_name_byte(byte: u8) -> bool
    ensures { result ≡ is_name_byte byte }
{
    byte.is_ascii_alphanumeric() || byte == b'_'
}

/// Returns whether these are letters.
fn is_state(word: &[u8]) -> bool
    ensures { result ≡ is_state word.now }
{
    !word.is_empty() && are_letters(word)
}

fn are_letters(word: &[u8]) -> bool
    ensures { result ≡ list_all is_ascii_alphabetic word.now }
{
    word.iter().all(|byte| byte.is_ascii_alphabetic())
}
