//! The thread that serves: it alone has the machine, the log and the output.
ghost use Rattle.std.specs.Prelude.{◌≡◌, [], true, IfOk, OnErr, OnOk};
ghost use Rattle.live_threads.specs.Prelude.{kept_of, are_at_rest, IsReady, machine_of};
ghost use Rattle.live_threads.specs.Serving.{HasStopped, IsServed};
ghost use Rattle.live_threads.specs.Taken.{ClosesTexts, EndsServing, IsDrained, StopsClosing, TakesLines, cut_lines};

use crate::crew::{Crew, Site};
use crate::fault::Fault;
use crate::letters::InputEnd;
use crate::mailbox::News;
use crate::outlet::Outlet;
use crate::steps::{give_orders, put_steps};
use crate::watch::Watch;
use dialogue::FailedDevice;
use line_feed::MAX_FED_LINE;
use line_text::split_line;
use live_machine::{MOST_TOLD, Machine};
use live_run::Outcome;
use rtrb::Consumer;
use std::alloc::AllocGlobal;
use std::io::Eprint;
use std::sync::Wait;

/// How many texts of lines a reader may be ahead.
pub(crate) const MOST_AHEAD: usize = 16;

/// The most bytes that are kept back until there is something to tell.
const MOST_KEPT_BACK: usize = 1_048_576;

/// What a service does after a round.
#[derive(Clone, Copy, PartialEq, Eq)]
enum Next {
    /// More of a held name may be served.
    GoesOn,
    /// A name waits for its job.
    Waits,
    /// No name waits.
    Rests,
}

/// Serves with that machine until the input has ended and no name waits.
pub(crate) fn serve_machine<R: Wait + AllocGlobal + Eprint, O: Outlet>(
    site: Site<'_, R>,
    lines: &mut Consumer<Vec<u8>>,
    machine: Machine<'_>,
    outlet: &mut O,
) -> Outcome
    requires { IsReady machine }
    ensures { TakesLines lines.old lines.new (λ heard. EndsServing (machine_of machine.entry)
        (O.view outlet.old) heard (O.view outlet.new) result) }
{
    let Site { rt, crew, .. } = site;
    let mut watch = Watch::new(rt.alloc(), site.text_limit);
    let mut machine = machine;
    match serve_rounds(rt, crew, lines, &mut machine, outlet, &mut watch) {
        Ok(()) => end_service(machine, outlet),
        Err(fault) => {
            machine.close();
            fault.outcome()
        }
    }
}

/// Serves round by round, until the input has ended and no name waits. Warns when the service is
/// nearly full.
///
/// # Errors
/// Why the service stops before. The machine takes no call after that but `close`.
fn serve_rounds<R: Wait + AllocGlobal + Eprint, O: Outlet>(
    rt: &R,
    crew: &Crew,
    lines: &mut Consumer<Vec<u8>>,
    machine: &mut Machine<'_>,
    outlet: &mut O,
    watch: &mut Watch,
) -> Result<(), Fault>
    requires ready { IsReady machine.old }
    ensures ready { OnOk result (IsReady machine.new) }
    ensures served { OnOk result (TakesLines lines.old lines.new (λ heard.
        IsServed (machine_of machine.old) (O.view outlet.old) heard
        (machine_of machine.new) (O.view outlet.new))) }
    ensures rests { OnOk result (are_at_rest (machine_of machine.new).held ≡ true) }
    ensures stopped { OnErr result (TakesLines lines.old lines.new (λ heard.
        HasStopped (machine_of machine.old) (O.view outlet.old) heard (O.view outlet.new))) }
{
    let mut has_ended = false;
    let mut next = Next::GoesOn;
    for _ in rt.forever() {
        watch.look(rt, machine.lines());
        let News { steps, end } = crew.mailbox.take_news(rt, next != Next::GoesOn);
        put_steps(rt, crew, machine, steps)?;
        next = serve_round(rt, crew, lines, machine, outlet)?;
        has_ended = note_end(has_ended, end)?;
        if is_over(has_ended, next) {
            return Ok(());
        }
    }
    unreachable!()
}

/// Whether the input has ended.
///
/// # Errors
/// Why it ended before its end.
fn note_end(has_ended: bool, end: Option<InputEnd>) -> Result<bool, Fault> {
    match end {
        None => Ok(has_ended),
        Some(InputEnd::Done) => Ok(true),
        Some(InputEnd::Failed) => Err(Fault::Device(FailedDevice::Input)),
        Some(InputEnd::NoMemory) => Err(Fault::NoMemory),
    }
}

/// Whether nothing is left to serve.
fn is_over(has_ended: bool, next: Next) -> bool
    ensures { result ≡ true → next ≡ Next.Rests }
{
    has_ended && next == Next::Rests
}

/// Serves the lines that have come and a turn of a held name, and has workers make the steps that
/// can be made.
fn serve_round<R: Wait, O: Outlet>(
    rt: &R,
    crew: &Crew,
    lines: &mut Consumer<Vec<u8>>,
    machine: &mut Machine<'_>,
    outlet: &mut O,
) -> Result<Next, Fault>
    requires ready { IsReady machine.old }
    ensures ready { OnOk result (IsReady machine.new) }
    ensures served { OnOk result (TakesLines lines.old lines.new (λ heard.
        IsServed (machine_of machine.old) (O.view outlet.old) heard
        (machine_of machine.new) (O.view outlet.new))) }
    ensures rests { IfOk result (λ next. next ≡ Next.Rests →
        are_at_rest (machine_of machine.new).held ≡ true) }
    ensures stopped { OnErr result (TakesLines lines.old lines.new (λ heard.
        HasStopped (machine_of machine.old) (O.view outlet.old) heard (O.view outlet.new))) }
{
    let had_lines = serve_lines(rt, crew, lines, machine, outlet)?;
    // Then no name has a turn before that is told.
    let is_full = machine.to_tell() > MOST_TOLD;
    let has_more = machine.turn()?;
    give_orders(rt, crew, machine)?;
    deliver_due(machine, outlet, had_lines)?;
    Ok(next_of(machine, has_more || is_full))
}

/// What a service does after a round, if more of a held name may be served, or not.
fn next_of(machine: &Machine<'_>, has_more: bool) -> Next
    ensures { result ≡ Next.Rests → are_at_rest (machine_of machine.now).held ≡ true }
{
    if has_more {
        return Next::GoesOn;
    }
    if machine.is_at_rest() {
        return Next::Rests;
    }
    Next::Waits
}

/// Keeps and tells what there is, if lines have come, there is something to tell, or much to keep.
fn deliver_due<O: Outlet>(
    machine: &mut Machine<'_>,
    outlet: &mut O,
    had_lines: bool,
) -> Result<(), Fault>
    requires ready { IsReady machine.old }
    ensures ready { OnOk result (IsReady machine.new) }
    ensures served { OnOk result (IsServed (machine_of machine.old) (O.view outlet.old) []
        (machine_of machine.new) (O.view outlet.new)) }
    ensures stopped { OnErr result (HasStopped (machine_of machine.old) (O.view outlet.old) []
        (O.view outlet.new)) }
{
    if had_lines || machine.to_tell() > 0 || machine.to_keep() > MOST_KEPT_BACK {
        return deliver(machine, outlet);
    }
    Ok(())
}

/// Serves the lines that have come. Returns whether there were some.
fn serve_lines<R: Wait, O: Outlet>(
    rt: &R,
    crew: &Crew,
    lines: &mut Consumer<Vec<u8>>,
    machine: &mut Machine<'_>,
    outlet: &mut O,
) -> Result<bool, Fault>
    requires ready { IsReady machine.old }
    ensures ready { OnOk result (IsReady machine.new) }
    ensures served { OnOk result (TakesLines lines.old lines.new (λ heard.
        IsServed (machine_of machine.old) (O.view outlet.old) heard
        (machine_of machine.new) (O.view outlet.new))) }
    ensures stopped { OnErr result (TakesLines lines.old lines.new (λ heard.
        HasStopped (machine_of machine.old) (O.view outlet.old) heard (O.view outlet.new))) }
{
    for count in 0..MOST_AHEAD {
        let Ok(batch) = lines.pop() else {
            return Ok(count > 0);
        };
        crew.mailbox.note_room(rt);
        let served = serve_batch(machine, outlet, batch.as_slice());
        drop(batch);
        served?;
    }
    Ok(true)
}

/// Serves lines, each ended by LF.
fn serve_batch<O: Outlet>(
    machine: &mut Machine<'_>,
    outlet: &mut O,
    batch: &[u8],
) -> Result<(), Fault>
    requires ready { IsReady machine.old }
    ensures ready { OnOk result (IsReady machine.new) }
    ensures served { OnOk result (IsServed (machine_of machine.old) (O.view outlet.old)
        (cut_lines batch.now) (machine_of machine.new) (O.view outlet.new)) }
    ensures stopped { OnErr result (HasStopped (machine_of machine.old) (O.view outlet.old)
        (cut_lines batch.now) (O.view outlet.new)) }
{
    let mut rest = batch;
    while !rest.is_empty() {
        let (line, after) = split_line(rest);
        machine.line(cut_line(line))?;
        if machine.to_tell() > MOST_TOLD {
            deliver(machine, outlet)?;
        }
        rest = after;
    }
    Ok(())
}

/// The bytes that are kept of a line.
fn cut_line(line: &[u8]) -> &[u8]
    ensures { result.now ≡ kept_of line.now }
{
    match line.get(..MAX_FED_LINE) {
        Some(cut) => cut,
        None => line,
    }
}

/// Keeps what is to be kept, and then tells what is to be told.
fn deliver<O: Outlet>(machine: &mut Machine<'_>, outlet: &mut O) -> Result<(), Fault>
    requires ready { IsReady machine.old }
    ensures ready { OnOk result (IsReady machine.new) }
    ensures served { OnOk result (IsServed (machine_of machine.old) (O.view outlet.old) []
        (machine_of machine.new) (O.view outlet.new)) }
    ensures drained { OnOk result (IsDrained (machine_of machine.new)) }
    ensures held { OnOk result ((machine_of machine.new).held ≡ (machine_of machine.old).held) }
    ensures stopped { OnErr result (HasStopped (machine_of machine.old) (O.view outlet.old) []
        (O.view outlet.new)) }
{
    let (log, told) = machine.drain();
    outlet.keep(log.as_slice())?;
    outlet.tell(told.as_slice())?;
    Ok(())
}

/// Ends a service whose input has ended. Without a log each text that is open is refused; with one
/// it stays open, for a service that goes on from the log.
fn end_service<O: Outlet>(machine: Machine<'_>, outlet: &mut O) -> Outcome
    requires ready { IsReady machine }
    requires rests { are_at_rest (machine_of machine).held ≡ true }
    ensures { EndsServing (machine_of machine.entry) (O.view outlet.old) [] (O.view outlet.new)
        result }
{
    let mut machine = machine;
    if let Err(fault) = deliver(&mut machine, outlet) {
        machine.close();
        return fault.outcome();
    }
    if outlet.has_log() {
        machine.close();
        return Outcome::Done;
    }
    match close_texts(machine, outlet) {
        Ok(()) => Outcome::Done,
        Err(fault) => fault.outcome(),
    }
}

/// Refuses each text that is open.
fn close_texts<O: Outlet>(machine: Machine<'_>, outlet: &mut O) -> Result<(), Fault>
    requires { IsReady machine }
    ensures closed { OnOk result (ClosesTexts (machine_of machine.entry) (O.view outlet.old)
        (O.view outlet.new)) }
    ensures stopped { OnErr result (StopsClosing (machine_of machine.entry) (O.view outlet.old)
        (O.view outlet.new)) }
{
    let reply = machine.end()?;
    outlet.tell(reply.as_slice())?;
    Ok(())
}
