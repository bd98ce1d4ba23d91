//! Routing a netlist whose pads have the places of a pin file.
ghost use Rattle.std.specs.Prelude.{◌≡◌, ℕ, Ok, IfOk};
ghost use Rattle.desk_netlists.specs.Jobs.{IsPinnedEnd, IsRunByFile};
ghost use Rattle.desk_netlists.specs.Prelude.{Placed, pins_in, pins_read};

use crate::pin_words::{tell_file_fault, tell_pin_fault, tell_too_long};
use crate::refusals::told_unfit;
use crate::route::{MAX_READ, told_arch};
use crate::route_job::RouteJob;
use crate::route_wishes::Tracks;
use crate::silence::Silence;
use arch_file::ArchError;
use desk_common::{FileRole, FileTexts, Outcome};
use line_text::{MAX_TEXT, Sink};
use one_user::{PinnedEnd, Run, least_pinned, run_pinned};
use pin_file::{PinFileError, PinLine, read_pins};
use std::alloc::Global;

/// Reads the pin file of that path, and routes the netlist with its pins.
pub(crate) fn run_with_pins<F: FileTexts + AllocGlobal, E: Sink>(
    files: &F,
    job: RouteJob<'_>,
    path: &str,
    teller: &mut E,
) -> Result<Run, Outcome>
    ensures { IfOk result (IsRunByFile (F.text files.now path.now) job.entry
        job.entry.wishes.tracks) }
{
    let text = files.read_text(FileRole::Pins, path, MAX_READ, teller)?;
    let ended = match pins_in(files.alloc(), path, text.as_slice(), teller) {
        Ok(pins) => {
            let end = end_with(files.alloc(), job, &pins, teller);
            run_of(files.alloc(), job, path, &pins, end, teller)
        }
        Err(outcome) => Err(outcome),
    };
    drop(text);
    ended
}

/// The pins of a file. Writes what is wrong with it.
fn pins_in<'t, E: Sink>(
    alloc: Global,
    path: &str,
    text: &'t [u8],
    teller: &mut E,
) -> Result<Vec<PinLine<'t>>, Outcome>
    ensures { IfOk result (λ pins. pins_in text.now ≡ Ok (pins_read pins.items)) }
{
    if text.len() > MAX_TEXT {
        let _ = tell_too_long(teller, path);
        return Err(Outcome::PinsRefused);
    }
    match read_pins(alloc, text) {
        Ok(pins) => Ok(pins),
        Err(PinFileError::NoMemory) => Err(Outcome::NoMemory),
        Err(PinFileError::Fault(fault)) => {
            let _ = tell_file_fault(teller, path, fault);
            Err(Outcome::PinsRefused)
        }
    }
}

/// Places and routes the netlist with the number of tracks that is asked for, or else with the
/// least.
fn end_with<E: Sink>(
    alloc: Global,
    job: RouteJob<'_>,
    pins: &[PinLine<'_>],
    teller: &mut E,
) -> Result<PinnedEnd, ArchError>
    ensures { IfOk result (IsPinnedEnd job.entry (pins_read pins.now) job.entry.wishes.tracks) }
{
    match job.wishes.tracks {
        Some(Tracks { number, .. }) => run_pinned(alloc, job.plan(), number, job.request, pins),
        None if job.wishes.is_told => least_pinned(alloc, job.plan(), job.request, pins, teller),
        None => least_pinned(alloc, job.plan(), job.request, pins, &mut Silence),
    }
}

/// The run of a netlist with pins, if there is one. Writes why there is none.
fn run_of<E: Sink>(
    alloc: Global,
    job: RouteJob<'_>,
    path: &str,
    pins: &[PinLine<'_>],
    end: Result<PinnedEnd, ArchError>,
    teller: &mut E,
) -> Result<Run, Outcome>
    ensures { IfOk result (λ run. (tracks : ℕ) × (end ≡ Ok (Placed tracks run))) }
{
    match end {
        Ok(PinnedEnd::Placed { run, .. }) => Ok(run),
        Ok(PinnedEnd::NeverRouted) => Err(Outcome::Unrouted),
        Ok(PinnedEnd::Refused(refusal)) => {
            Err(told_unfit(alloc, job.wishes, job.arch, job.request, refusal, teller))
        }
        Ok(PinnedEnd::NotPinned(fault)) => {
            let _ = tell_pin_fault(teller, path, pins, job.size, fault);
            Err(Outcome::PinsRefused)
        }
        Err(error) => Err(told_arch(error, job.wishes, teller)),
    }
}
