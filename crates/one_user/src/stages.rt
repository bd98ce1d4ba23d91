//! The stages of a run; each hands on to the next.
ghost use Rattle.std.specs.Prelude.{◌≡◌, ◌<◌, IfOk, IfSome, IsSome, None, OnOk, Some};
ghost use Rattle.one_user.specs.Prelude.{MAX_ENTRIES, Command as Asked, answer_to, circuit_in, after_event};
ghost use Rattle.tenant_slot.specs.declared.command.Command.{Command};
ghost use Rattle.one_user.specs.declared.outcome.FlowOutcome.{FlowOutcome};
ghost use Rattle.one_user.specs.Figures.{HasFigures};
ghost use Rattle.one_user.specs.Outcomes.{files_of, outcome_of, task_on};
ghost use Rattle.one_user.specs.Steps.{IsReadyToPack, IsReadyToPlace, IsReadyToRoute, IsReadyToUpload, HasFiles, IsLeft, ending_in, refusal_in, task_in, text_in};

use crate::device::Request;
use crate::figures::{PackedCounts, figures_of, packed_counts};
use crate::outcome::{Files, FlowOutcome, Run, Unrouted};
use crate::steps::make_steps;
use line_text::Sink;
use std::alloc::AllocError;
use strips::Window;
use tenant_slot::{
    Command, Ending, NotAnswered, Refusal, Reply, SharedText, Slot, StateName, Status,
};

/// Loads the netlist, and then goes on to packing.
pub(crate) fn upload<W: Sink>(
    slot: &mut Slot,
    window: &Window<'_>,
    request: Request<'_>,
    teller: &mut W,
) -> Result<Run, AllocError>
    requires { IsReadyToUpload slot.old window.now request.effort }
    ensures outcome { IfOk result (λ run.
        run.outcome ≡ outcome_of
        (task_on window.now request.entry.netlist.now request.entry.seed request.entry.effort)) }
    ensures figures { IfOk result (λ run.
        IfSome run.figures (HasFigures
        (task_on window.now request.entry.netlist.now request.entry.seed request.entry.effort))) }
{
    let netlist = request.netlist.clone()?;
    match ask(slot, Command::Upload(netlist))? {
        Some(refusal) => return Ok(refused_run(refusal)),
        None => {}
    }
    pack(slot, window, request, teller)
}

/// Packs the netlist, and then goes on to placing.
fn pack<W: Sink>(
    slot: &mut Slot,
    window: &Window<'_>,
    request: Request<'_>,
    teller: &mut W,
) -> Result<Run, AllocError>
    requires { IsReadyToPack (task_in slot.old.state request.seed request.effort) slot.old
        window.now }
    ensures outcome { IfOk result (λ run.
        run.outcome ≡ outcome_of (task_in slot.old.state request.entry.seed request.entry.effort)) }
    ensures figures { IfOk result (λ run.
        IfSome run.figures (HasFigures
        (task_in slot.old.state request.entry.seed request.entry.effort))) }
{
    match ask(slot, Command::Pack)? {
        Some(refusal) => return Ok(refused_run(refusal)),
        None => {}
    }
    let last = make_steps(slot, window, teller)?;
    place(slot, window, request, packed_counts(last.progress), teller)
}

/// Places the packed netlist, and then goes on to routing.
fn place<W: Sink>(
    slot: &mut Slot,
    window: &Window<'_>,
    request: Request<'_>,
    packed: PackedCounts,
    teller: &mut W,
) -> Result<Run, AllocError>
    requires { IsReadyToPlace (task_in slot.old.state request.seed request.effort) slot.old
        window.now packed }
    ensures outcome { IfOk result (λ run.
        run.outcome ≡ outcome_of (task_in slot.old.state request.entry.seed request.entry.effort)) }
    ensures figures { IfOk result (λ run.
        IfSome run.figures (HasFigures
        (task_in slot.old.state request.entry.seed request.entry.effort))) }
{
    let command = Command::Place {
        seed: request.seed,
        effort: request.effort,
    };
    match ask(slot, command)? {
        Some(refusal) => return Ok(refused_run(refusal)),
        None => {}
    }
    let _last = make_steps(slot, window, teller)?;
    route(slot, window, packed, teller)
}

/// Routes the placed netlist.
fn route<W: Sink>(
    slot: &mut Slot,
    window: &Window<'_>,
    packed: PackedCounts,
    teller: &mut W,
) -> Result<Run, AllocError>
    requires { IsReadyToRoute (task_in slot.old.state slot.old.state.seed slot.old.state.effort)
        slot.old window.now packed }
    ensures outcome { IfOk result (λ run.
        run.outcome ≡ outcome_of
        (task_in slot.old.state slot.old.state.seed slot.old.state.effort)) }
    ensures figures { IfOk result (λ run.
        IfSome run.figures (HasFigures
        (task_in slot.old.state slot.old.state.seed slot.old.state.effort))) }
{
    match ask(slot, Command::Route)? {
        Some(refusal) => return Ok(refused_run(refusal)),
        None => {}
    }
    let last = make_steps(slot, window, teller)?;
    match slot.state() {
        StateName::Routed => {
            let figures = figures_of(window, packed, slot.routed_resources(), last.number);
            Ok(Run {
                outcome: FlowOutcome::Routed(files_of(slot)?),
                figures: Some(figures),
            })
        }
        _ => Ok(Run {
            outcome: FlowOutcome::Unrouted(unrouted_of(slot)?),
            figures: None,
        }),
    }
}

/// The run of a netlist that is refused.
pub(crate) fn refused_run(refusal: Refusal) -> Run
    ensures { result ≡ record { outcome = FlowOutcome.Refused refusal; figures = None } }
{
    Run {
        outcome: FlowOutcome::Refused(refusal),
        figures: None,
    }
}

/// Serves a command, and returns why it is refused, if it is.
pub(crate) fn ask(slot: &mut Slot, command: Command) -> Result<Option<Refusal>, AllocError>
    requires { slot.old.state.entries < MAX_ENTRIES }
    ensures reply { IfOk result (λ refusal.
        refusal ≡ refusal_in (answer_to slot.old.state (Asked command)).1) }
    ensures slot { OnOk result (slot.new ≡ after_event slot.old (Asked command)) }
{
    let reply = slot.command(&command);
    drop(command);
    match reply {
        Ok(Reply::Refused(refusal)) => Ok(Some(refusal)),
        Ok(_) => Ok(None),
        Err(NotAnswered::NoMemory) => Err(AllocError),
        Err(NotAnswered::JournalFull) => unreachable!(),
    }
}

/// The files of the routed netlist.
fn files_of(slot: &Slot) -> Result<Files, AllocError>
    requires { HasFiles slot.now.state }
    ensures { IfOk result (λ files.
        IfOk (circuit_in slot.now.state)
        (λ circuit. files ≡ files_of
        (task_in slot.now.state slot.now.state.seed slot.now.state.effort) circuit)) }
{
    Ok(Files {
        net: file_of(slot, Command::Net)?,
        places: file_of(slot, Command::PlaceFile)?,
        routes: file_of(slot, Command::RouteFile)?,
    })
}

/// What there is of a netlist that was left without routes.
fn unrouted_of(slot: &Slot) -> Result<Unrouted, AllocError>
    requires room { slot.now.state.entries < MAX_ENTRIES }
    requires ending { IsSome (ending_in (answer_to slot.now.state (Asked Command.Status)).1) }
    requires net { IsSome (text_in (answer_to slot.now.state (Asked Command.Net)).1) }
    requires places { IsSome (text_in (answer_to slot.now.state (Asked Command.PlaceFile)).1) }
    ensures { IfOk result (IsLeft slot.now.state) }
{
    Ok(Unrouted {
        ending: ending_of(slot)?,
        net: file_of(slot, Command::Net)?,
        places: file_of(slot, Command::PlaceFile)?,
    })
}

/// The file in the reply to a command.
fn file_of(slot: &Slot, command: Command) -> Result<SharedText, AllocError>
    requires room { slot.now.state.entries < MAX_ENTRIES }
    requires file { IsSome (text_in (answer_to slot.now.state (Asked command)).1) }
    ensures { IfOk result (λ text. text_in (answer_to slot.now.state (Asked command)).1
        ≡ Some text) }
{
    let answer = slot.answer(&command);
    drop(command);
    match answer {
        Ok(answer) => {
            let text = text_in(answer.reply());
            drop(answer);
            text
        }
        Err(NotAnswered::NoMemory) => Err(AllocError),
        Err(NotAnswered::JournalFull) => unreachable!(),
    }
}

/// The text of a file.
fn text_in(reply: &Reply) -> Result<SharedText, AllocError>
    requires { IsSome (text_in reply.now) }
    ensures { IfOk result (λ text. text_in reply.now ≡ Some text) }
{
    match reply {
        Reply::File { text, .. } => text.clone(),
        _ => unreachable!(),
    }
}

/// How the routing ended without routes.
fn ending_of(slot: &Slot) -> Result<Ending, AllocError>
    requires room { slot.now.state.entries < MAX_ENTRIES }
    requires ending { IsSome (ending_in (answer_to slot.now.state (Asked Command.Status)).1) }
    ensures { IfOk result (λ ending.
        ending_in (answer_to slot.now.state (Asked Command.Status)).1 ≡ Some ending) }
{
    let command = Command::Status;
    let answer = slot.answer(&command);
    drop(command);
    match answer {
        Ok(answer) => {
            let ending = ending_in(answer.reply());
            drop(answer);
            ending
        }
        Err(NotAnswered::NoMemory) => Err(AllocError),
        Err(NotAnswered::JournalFull) => unreachable!(),
    }
}

/// The ending in a status.
fn ending_in(reply: &Reply) -> Result<Ending, AllocError>
    requires { IsSome (ending_in reply.now) }
    ensures { IfOk result (λ ending. ending_in reply.now ≡ Some ending) }
{
    match reply {
        Reply::Status(
            Status {
                ending: Some(ending),
                ..
            },
        ) => ending.clone(),
        _ => unreachable!(),
    }
}
