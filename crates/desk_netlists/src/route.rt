//! The tool that routes one netlist on a device of its own.
ghost use Rattle.std.specs.Prelude.{◌≡◌, IfOk, IfSome, IsSomeAnd};
ghost use Rattle.desk_netlists.specs.Prelude.{IsBeginning};
ghost use Rattle.desk_netlists.specs.Jobs.{IsDone, IsFreeRun, IsRouted, IsTrial};
ghost use Rattle.desk_netlists.specs.Written.{AreExtras, AreWritten, IsRoutedOf};

use crate::extra_files::write_extra_files;
use crate::json_summary::print_object;
use crate::overuse::tell_overuse;
use crate::pinned_route::run_with_pins;
use crate::refusals::told_unfit;
use crate::route_job::RouteJob;
use crate::route_size::{Sized, size_for};
use crate::route_wishes::{RouteForm, RouteWishes, Tracks};
use crate::routed_table::{Routed, print_routed};
use crate::saved_files::{save_files, save_left, stem_of};
use crate::silence::Silence;
use arch_file::ArchError;
use desk_circuits::warn_of_netlist;
use desk_common::{
    FileOutputs, FileRole, FileTexts, Outcome, ResultFile, tell_reply, write_arch_fault,
};
use line_text::{MAX_TEXT, Sink, Text, TextError};
use one_user::{
    Figures, Files as Results, FlowOutcome as End, Least, Request, Run, Unrouted, least_tracks,
    run_with,
};
use std::alloc::Global;
use strip_files::StripTexts;
use tenant_slot::{Ending, Reply, SharedText, StateName, Status};

/// The most bytes of a text that are read: one more than it may have.
pub(crate) const MAX_READ: u64 = MAX_TEXT as u64 + 1;

/// Routes a netlist, writes its files, and prints what they use.
pub fn run<F: FileTexts + AllocGlobal, O: FileOutputs, W: Sink, E: Sink>(
    files: &F,
    outputs: &mut O,
    wishes: RouteWishes<'_>,
    writer: &mut W,
    teller: &mut E,
    is_terminal: bool,
) -> Result<(), Outcome>
    ensures { IfOk result (λ _. IsDone (F.text files.now) wishes.entry (O.written outputs.old)
        (O.written outputs.new)) }
{
    let arch = files.read_text(FileRole::Architecture, wishes.arch, MAX_READ, teller)?;
    let mut told = wishes;
    told.is_told |= is_terminal;
    let outcome = run_with_arch(files, outputs, told, arch.as_slice(), writer, teller);
    drop(arch);
    tell_stale_files(outputs, wishes, &outcome, teller);
    outcome
}

/// Writes to the teller which files are left from an earlier run, if a run that ended so wrote none
/// in their place.
fn tell_stale_files<O: FileOutputs, E: Sink>(
    outputs: &O,
    wishes: RouteWishes<'_>,
    outcome: &Result<(), Outcome>,
    teller: &mut E,
) {
    let Err(ended) = outcome else {
        return;
    };
    if let Outcome::NetlistRefused | Outcome::PinsRefused | Outcome::ArchRefused(_) = ended {
        outputs.tell_stale(result_file(wishes, "net"), teller);
        outputs.tell_stale(result_file(wishes, "place"), teller);
    }
    if let Outcome::Unrouted
    | Outcome::NetlistRefused
    | Outcome::PinsRefused
    | Outcome::ArchRefused(_) = ended
    {
        outputs.tell_stale(result_file(wishes, "route"), teller);
        outputs.tell_stale(result_file(wishes, "svg"), teller);
        outputs.tell_stale(result_file(wishes, "html"), teller);
        outputs.tell_stale(result_file(wishes, "configuration"), teller);
    }
}

/// Routes a netlist on devices of that architecture.
fn run_with_arch<'x, F: FileTexts + AllocGlobal, O: FileOutputs, W: Sink, E: Sink>(
    files: &F,
    outputs: &mut O,
    wishes: RouteWishes<'x>,
    arch: &'x [u8],
    writer: &mut W,
    teller: &mut E,
) -> Result<(), Outcome>
    ensures { IfOk result (λ _.
        IsBeginning (F.text files.now wishes.entry.arch.now) MAX_READ arch.now →
        IsDone (F.text files.now) wishes.entry (O.written outputs.old) (O.written outputs.new)) }
{
    let netlist = netlist_of(files, wishes, teller)?;
    let request = request_of(wishes, &netlist);
    let outcome = match size_for(files.alloc(), wishes.size, arch, request) {
        Ok(Sized::Size(size)) => {
            let job = RouteJob {
                wishes,
                name: stem_of(wishes.netlist),
                arch,
                request,
                size,
            };
            run_job(files, outputs, job, writer, teller)
        }
        Ok(Sized::Refused(refusal)) => {
            Err(told_unfit(files.alloc(), wishes, arch, request, refusal, teller))
        }
        Err(error) => Err(told_arch(error, wishes, teller)),
    };
    drop(netlist);
    outcome
}

/// What is asked for: a netlist, with the seed and the effort of the wishes.
fn request_of<'a>(wishes: RouteWishes<'_>, netlist: &'a SharedText) -> Request<'a>
    ensures netlist { result.netlist ≡ netlist.entry }
    ensures seed { result.seed ≡ wishes.entry.seed }
    ensures effort { result.effort ≡ wishes.entry.effort }
{
    Request {
        netlist,
        seed: wishes.seed,
        effort: wishes.effort,
    }
}

/// Routes a netlist on a device of that size.
fn run_job<F: FileTexts + AllocGlobal, O: FileOutputs, W: Sink, E: Sink>(
    files: &F,
    outputs: &mut O,
    job: RouteJob<'_>,
    writer: &mut W,
    teller: &mut E,
) -> Result<(), Outcome>
    ensures { IfOk result (λ _. IsRouted (F.text files.now) job.entry.wishes job.entry
        (O.written outputs.old) (O.written outputs.new)) }
{
    let run = match job.wishes.pins {
        Some(path) => run_with_pins(files, job, path, teller)?,
        None => run_without_pins(files.alloc(), job, teller)?,
    };
    write_run(files.alloc(), outputs, job, run, writer, teller)
}

/// Routes a netlist whose pads have no given places.
fn run_without_pins<E: Sink>(
    alloc: Global,
    job: RouteJob<'_>,
    teller: &mut E,
) -> Result<Run, Outcome>
    ensures { IfOk result (IsFreeRun job.entry job.entry.wishes.tracks) }
{
    let trial = if job.wishes.is_told {
        trial_with(alloc, job, teller)
    } else {
        trial_with(alloc, job, &mut Silence)
    };
    match trial {
        Ok(Trial::Decided(run)) => {
            if is_given_up(&run.outcome) {
                tell_overuse(alloc, job, teller);
            }
            Ok(run)
        }
        Ok(Trial::NeverRouted) => Err(Outcome::Unrouted),
        Err(error) => Err(told_arch(error, job.wishes, teller)),
    }
}

/// Returns whether the routing was given up after its last iteration.
fn is_given_up(outcome: &End) -> bool {
    match outcome {
        End::Unrouted(left) => matches!(left.ending, Ending::GaveUp),
        End::Routed(_) | End::Refused(_) => false,
    }
}

/// Writes what is wrong with the architecture, and returns how the errand ended.
pub(crate) fn told_arch<E: Sink>(
    error: ArchError,
    wishes: RouteWishes<'_>,
    teller: &mut E,
) -> Outcome {
    match error {
        TextError::NoMemory => Outcome::NoMemory,
        TextError::Fault(fault) => {
            let _ = write_arch_fault(teller, wishes.arch, fault);
            Outcome::ArchRefused(fault)
        }
    }
}

/// The file of that kind.
fn result_file<'a>(wishes: RouteWishes<'a>, kind: &'static str) -> ResultFile<'a> {
    ResultFile {
        folder: wishes.folder,
        name: stem_of(wishes.netlist),
        kind,
    }
}

/// The result of trying one or several numbers of tracks.
#[derive(Drop)]
enum Trial {
    /// The run with the number that is asked for, or else with the least with which the netlist is
    /// routed or refused.
    Decided(Run),
    /// The netlist was left unrouted with each number that a channel may have.
    NeverRouted,
}

impl Trial {
    ghost use Rattle.std.specs.Prelude.{None};
    ghost use Rattle.one_user.specs.Tracks.{IsLeast};
    ghost use Rattle.desk_netlists.specs.Jobs.{IsTrial, plan_of};
    ghost use Rattle.desk_netlists.specs.declared.route_job.RouteJob.{RouteJob};

    /// The result of a search for the least number.
    fn of_least(least: Least) -> Self
        ensures { (job : RouteJob) → IsLeast (plan_of job) job.request least →
            IsTrial job None result }
    {
        match least {
            Least::Routed { run, .. } => Trial::Decided(run),
            Least::Refused(run) => Trial::Decided(run),
            Least::Unrouted => Trial::NeverRouted,
        }
    }
}

/// Reads the netlist that is to be routed, and writes warnings of it.
fn netlist_of<F: FileTexts + AllocGlobal, E: Sink>(
    files: &F,
    wishes: RouteWishes<'_>,
    teller: &mut E,
) -> Result<SharedText, Outcome>
    ensures { IfOk result (IsBeginning (F.text files.now wishes.entry.netlist.now) MAX_READ) }
{
    let netlist = files.read_text(FileRole::Netlist, wishes.netlist, MAX_READ, teller)?;
    warn_of_netlist(files.alloc(), netlist.as_slice(), teller);
    match SharedText::new(files.alloc(), Text::new(netlist)) {
        Ok(netlist) => Ok(netlist),
        Err(refused) => {
            drop(refused);
            Err(Outcome::NoMemory)
        }
    }
}

/// Runs the netlist with the number of tracks that is asked for, or else with one number after
/// another until it is routed or refused.
fn trial_with<E: Sink>(alloc: Global, job: RouteJob<'_>, teller: &mut E) -> Result<Trial, ArchError>
    ensures { IfOk result (IsTrial job.entry job.entry.wishes.tracks) }
{
    match job.wishes.tracks {
        Some(Tracks { number, .. }) => {
            let run = run_with(alloc, job.plan(), number, job.request, teller)?;
            Ok(Trial::Decided(run))
        }
        None => {
            let least = least_tracks(alloc, job.plan(), job.request, teller)?;
            Ok(Trial::of_least(least))
        }
    }
}

/// Writes the result of a run.
fn write_run<O: FileOutputs, W: Sink, E: Sink>(
    alloc: Global,
    outputs: &mut O,
    job: RouteJob<'_>,
    run: Run,
    writer: &mut W,
    teller: &mut E,
) -> Result<(), Outcome>
    ensures { IfOk result (λ _. AreWritten job.entry run.outcome (O.written outputs.old)
        (O.written outputs.new)) }
{
    let Run { outcome, figures } = run;
    match outcome {
        End::Routed(files) => {
            let written = match save_files(outputs, job, &files, teller) {
                Ok(()) => {
                    let routed = routed_of(job, &files, figures);
                    write_routed(alloc, outputs, job, routed, writer, teller)
                }
                Err(outcome) => Err(outcome),
            };
            drop(files);
            written
        }
        End::Unrouted(left) => {
            let saved = save_left(outputs, job, &left, teller);
            let outcome = told_unrouted(alloc, left, teller);
            saved?;
            Err(outcome)
        }
        End::Refused(refusal) => {
            Err(told_unfit(alloc, job.wishes, job.arch, job.request, refusal, teller))
        }
    }
}

/// The netlist that was routed, if it is known what it uses.
fn routed_of<'a>(
    job: RouteJob<'a>,
    files: &'a Results,
    figures: Option<Figures>,
) -> Option<Routed<'a>>
    ensures { IfSome result (IsRoutedOf job.entry files.now) }
{
    let figures = figures?;
    Some(Routed {
        name: job.name,
        netlist: job.request.netlist.as_bytes(),
        arch: job.arch,
        texts: StripTexts {
            net: files.net.as_bytes(),
            place: files.places.as_bytes(),
            route: files.routes.as_bytes(),
        },
        size: job.size,
        figures,
    })
}

/// Prints what a netlist uses that was routed, and writes the files beside the three.
fn write_routed<O: FileOutputs, W: Sink, E: Sink>(
    alloc: Global,
    outputs: &mut O,
    job: RouteJob<'_>,
    routed: Option<Routed<'_>>,
    writer: &mut W,
    teller: &mut E,
) -> Result<(), Outcome>
    ensures { IfOk result (λ _. IsSomeAnd routed.entry (λ routed. AreExtras job.entry routed
        (O.written outputs.old) (O.written outputs.new))) }
{
    let Some(routed) = routed else {
        return Err(Outcome::NoMemory);
    };
    print_summary(alloc, job.wishes, routed, writer)?;
    write_extra_files(alloc, outputs, job, routed, writer, teller)
}

/// Prints what a netlist uses, in the form that is asked for.
fn print_summary<W: Sink>(
    alloc: Global,
    wishes: RouteWishes<'_>,
    routed: Routed<'_>,
    writer: &mut W,
) -> Result<(), Outcome> {
    match wishes.form {
        RouteForm::Json => print_object(alloc, wishes, routed, writer),
        _ => print_routed(alloc, wishes, routed, writer).or(Err(Outcome::OutputFailed)),
    }
}

/// Writes how a routing ended without routes, as the service would reply, and returns how the
/// errand ended.
fn told_unrouted<E: Sink>(alloc: Global, left: Unrouted, teller: &mut E) -> Outcome {
    let Unrouted {
        ending,
        net,
        places,
    } = left;
    drop(net);
    drop(places);
    let reply = Reply::Status(Status {
        state: StateName::Unrouted,
        steps: 0,
        ending: Some(ending),
    });
    tell_reply(alloc, reply, teller);
    Outcome::Unrouted
}
