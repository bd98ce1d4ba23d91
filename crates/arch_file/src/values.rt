//! Reads the values after the keywords.
ghost use Rattle.std.specs.Prelude.{◌≡◌, ◌<◌, ◌≤◌, IfOk, Some, false};
ghost use Rattle.std.specs.Option.{option_map_or};
ghost use Rattle.arch_file.specs.declared.arch.TheConstants.{MAX_TRACKS};
ghost use Rattle.arch_file.specs.Readings.{Finds};
ghost use Rattle.arch_file.specs.Values.{decimal_faults, decimal_in, is_fc_type, is_fractional_word, is_subset, one_faults, reach, whole_faults, whole_in, width_faults, word_faults};
ghost use Rattle.arch_file.specs.FcTypes.{is_fractional_type};
ghost use Rattle.arch_file.specs.Words.{only_word};

use crate::fault::{ArchFaultKind, ArchKeyword};
use crate::words::only_word;
use line_text::{Line, is_word, millionths, whole_number};

/// 1, in millionths.
pub(crate) const ONE: u64 = 1_000_000;

/// How the numbers of tracks are given.
#[derive(Clone, Copy)]
pub(crate) enum FcType {
    /// As a number of tracks.
    Absolute,
    /// As a fraction of all tracks.
    Fractional,
}

/// The line's words as one whole number.
fn whole_in(line: &Line<'_, '_>) -> Option<u32>
    ensures { result ≡ whole_in line.now.words }
{
    whole_number(only_word(line)?)
}

/// The line's words as one decimal, in millionths.
fn decimal_in(line: &Line<'_, '_>) -> Option<u64>
    ensures { result ≡ decimal_in line.now.words }
{
    millionths(only_word(line)?)
}

/// The line's whole number, which must be from 1 to the limit.
pub(crate) fn whole_up_to(line: &Line<'_, '_>, limit: u32) -> Result<u32, ArchFaultKind>
    ensures faults { Finds (whole_faults limit (whole_in line.now.words)) result }
    ensures value { IfOk result (λ number. whole_in line.now.words ≡ Some number) }
    ensures low { IfOk result (λ number. 1 ≤ number) }
    ensures high { IfOk result (λ number. number ≤ limit) }
{
    let number = whole_in(line).ok_or(ArchFaultKind::BadNumber)?;
    if number == 0 {
        return Err(ArchFaultKind::BadNumber);
    }
    if number > limit {
        return Err(ArchFaultKind::OverLimit);
    }
    Ok(number)
}

/// The line's decimal, in millionths.
pub(crate) fn decimal(line: &Line<'_, '_>) -> Result<u64, ArchFaultKind>
    ensures faults { Finds (decimal_faults (decimal_in line.now.words)) result }
    ensures value { IfOk result (λ number. decimal_in line.now.words ≡ Some number) }
{
    decimal_in(line).ok_or(ArchFaultKind::BadNumber)
}

/// Checks that the line is one decimal and that it is 1.
pub(crate) fn check_one(keyword: ArchKeyword, line: &Line<'_, '_>) -> Result<(), ArchFaultKind>
    ensures { Finds (one_faults keyword (decimal_in line.now.words)) result }
{
    if decimal(line)? == ONE {
        Ok(())
    } else {
        Err(ArchFaultKind::NotProfile(keyword))
    }
}

/// Checks that the line gives all channels the width 1.
pub(crate) fn check_width(keyword: ArchKeyword, line: &Line<'_, '_>) -> Result<(), ArchFaultKind>
    ensures { Finds (width_faults keyword line.now.words) result }
{
    let (kind, rest) = line.split_first().ok_or(ArchFaultKind::BadNumber)?;
    if is_word(kind, "uniform") {
        check_one(keyword, &rest)
    } else {
        Err(ArchFaultKind::NotProfile(keyword))
    }
}

/// The line's way of giving numbers of tracks.
pub(crate) fn fc_type(line: &Line<'_, '_>) -> Result<FcType, ArchFaultKind>
    ensures faults { Finds (word_faults ArchKeyword.FcType is_fc_type (only_word line.now.words))
        result }
    ensures value { IfOk result (λ meant.
        is_fractional_type meant ≡ option_map_or is_fractional_word (only_word line.now.words)
        false) }
{
    let word = only_word(line).ok_or(ArchFaultKind::BadNumber)?;
    if is_word(word, "absolute") {
        return Ok(FcType::Absolute);
    }
    if is_word(word, "fractional") {
        return Ok(FcType::Fractional);
    }
    Err(ArchFaultKind::NotProfile(ArchKeyword::FcType))
}

/// Checks that the line names the one kind of switch block.
pub(crate) fn check_switch_block(line: &Line<'_, '_>) -> Result<(), ArchFaultKind>
    ensures { Finds (word_faults ArchKeyword.SwitchBlockType is_subset (only_word line.now.words))
        result }
{
    let word = only_word(line).ok_or(ArchFaultKind::BadNumber)?;
    if is_word(word, "subset") {
        Ok(())
    } else {
        Err(ArchFaultKind::NotProfile(ArchKeyword::SwitchBlockType))
    }
}

/// The number of tracks that a pin reaches, out of this many tracks.
pub(crate) fn reach(meant: FcType, value: u64, tracks: u32) -> u32
    requires few { 1 ≤ tracks }
    requires many { tracks ≤ MAX_TRACKS }
    ensures value { result ≡ reach (is_fractional_type meant) value tracks }
    ensures low { 1 ≤ result }
    ensures high { result ≤ tracks }
{
    let all = u64::from(tracks);
    let wanted = match meant {
        FcType::Absolute => value / ONE,
        FcType::Fractional => value.min(ONE) * all / ONE,
    };
    wanted.max(1).min(all) as u32
}
