//! The segment line: pairs of a key and a value.
ghost use Rattle.std.specs.Prelude.{◌≡◌, nat_eq, Some};
ghost use Rattle.std.specs.Option.{option_eq};
ghost use Rattle.line_text.specs.Decimal.{millionths_of};
ghost use Rattle.arch_file.specs.Values.{one};
ghost use Rattle.arch_file.specs.Readings.{FindsLeast};
ghost use Rattle.arch_file.specs.Segment.{are_ones, is_one, segment_faults, values_under};

use crate::fault::{ArchFaultKind, ArchKeyword};
use crate::values::ONE;
use line_text::{Line, is_word, millionths};

/// Whether the word is the decimal 1.
fn is_number_one(word: &[u8]) -> bool
    ensures { result ≡ option_eq nat_eq (millionths_of word.now) (Some one) }
{
    match millionths(word) {
        None => false,
        Some(value) => value == ONE,
    }
}

/// Whether the line has exactly one value for the key, and that is 1.
fn is_one(line: &Line<'_, '_>, key: &str) -> bool
    ensures { result ≡ is_one (values_under key.now line.now.words) }
{
    let words = line.words();
    let mut is_found = false;
    for pair in 0..words.len() / 2 {
        if is_word(words[2 * pair], key) {
            if is_found {
                return false;
            }
            if !is_number_one(words[2 * pair + 1]) {
                return false;
            }
            is_found = true;
        }
    }
    is_found
}

/// Whether each of the four keys that must be 1 is 1.
fn are_ones(line: &Line<'_, '_>) -> bool
    ensures { result ≡ are_ones line.now.words }
{
    is_one(line, "frequency:")
        && is_one(line, "length:")
        && is_one(line, "Frac_cb:")
        && is_one(line, "Frac_sb:")
}

/// Checks the line after `segment`; `is_second` says that another `segment` line came before.
#[tactic(auto, unfolding(crate::specs::Segment::segment_faults))]
pub(crate) fn check_segment(line: &Line<'_, '_>, is_second: bool) -> Result<(), ArchFaultKind>
    ensures { FindsLeast (segment_faults is_second line.now.words) result }
{
    if line.words().len() % 2 == 1 {
        return Err(ArchFaultKind::BadNumber);
    }
    if is_second || !are_ones(line) {
        return Err(ArchFaultKind::NotProfile(ArchKeyword::Segment));
    }
    Ok(())
}
