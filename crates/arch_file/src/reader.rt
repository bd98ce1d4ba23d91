//! Reads the text of an architecture.
ghost use Rattle.std.specs.Prelude.{◌≤◌, IfOk};
ghost use Rattle.arch_file.specs.declared.arch.TheConstants.{MAX_TRACKS};
ghost use Rattle.line_text.specs.LineOrder.{RisesFrom};
ghost use Rattle.line_text.specs.TextErrors.{Gives};
ghost use Rattle.arch_file.specs.Arch.{IsArch, arch_of};
ghost use Rattle.arch_file.specs.Draft.{ReadsAll};

use crate::arch::Arch;
use crate::draft::{Draft, at_line};
use crate::fault::{ArchError, ArchFault, ArchFaultKind};
use line_text::{Lines, MAX_TEXT, logical_lines};
use std::alloc::Global;

/// Reads all lines, whose numbers increase. Fails with the least fault of the first line that has
/// one.
fn read_lines(alloc: Global, lines: &Lines<'_>) -> Result<Draft, ArchError>
    requires { RisesFrom 1 lines.now }
    ensures { ReadsAll lines.now result }
{
    let mut draft = Draft::new(alloc);
    for place in 0..lines.len() {
        let line = lines.line(place);
        if let Err(refusal) = draft.read(&line) {
            return Err(at_line(refusal, line.number()));
        }
    }
    Ok(draft)
}

/// The architecture that a text describes, for a device with this many tracks in each channel, or
/// the text's least fault. The format is that of the VPR and T-VPack User's Manual 4.30. Of lines
/// of resistances, capacitances, times and switches only the first word is read.
#[tactic(auto, unfolding(crate::specs::Arch::arch_of))]
pub fn read_arch(alloc: Global, text: &[u8], tracks: u32) -> Result<Arch, ArchError>
    requires few { 1 ≤ tracks }
    requires many { tracks ≤ MAX_TRACKS }
    ensures gives { Gives (arch_of text.now tracks) result }
    ensures lawful { IfOk result IsArch }
{
    if text.len() > MAX_TEXT {
        return Err(ArchError::Fault(ArchFault {
            line: 0,
            kind: ArchFaultKind::OverLimit,
        }));
    }
    let lines = match logical_lines(alloc, text) {
        Ok(lines) => lines,
        Err(error) => return Err(error.told_as()),
    };
    let draft = read_lines(alloc, &lines)?;
    match draft.finish(tracks) {
        Ok(arch) => Ok(arch),
        Err(kind) => Err(ArchError::Fault(ArchFault { line: 0, kind })),
    }
}
