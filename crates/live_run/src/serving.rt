//! The service, from an architecture to the end of its input.
ghost use Rattle.std.specs.Prelude.{◌≡◌, is_some, Option, ℕ, MatchResult};
ghost use Rattle.live_run.specs.Prelude.{IsArch, IsDevice, IsConversation, AnswersLine, begins, is_ready, state_in};
ghost use Rattle.live_run.specs.Runs.{ClosesAs, Runs, RunsFrom, past_of};

use crate::options::CommandLine;
use crate::outcome::Outcome;
use crate::ready::say_ready;
use crate::retelling::retell;
use crate::watched::Watched;
use arch_file::{ArchError, read_arch};
use dialogue::Dialogue;
use line_feed::LineFeed;
use line_service::{ConversationEnd, converse};
use line_text::Source;
use live_input::LiveLines;
use service_core::{Device, Service};
use sessions::device_graph;
use std::alloc::AllocError;
use std::io::Eprint;
use std::sync::Wait;

/// Serves the lines of a dialogue as they come, over a device of that architecture. If there is a
/// log, its lines are served before: the replies to those after the command line's line `told` are
/// written, the others are dropped. Texts that are open at the input's end then stay open for a run
/// that goes on from the log. Without a log each such text is refused.
pub fn serve<H: Wait + AllocGlobal + Eprint, P: Source + Drop, D: Dialogue>(
    rt: &H,
    line: &CommandLine<'_>,
    architecture: &[u8],
    past: Option<P>,
    dialogue: &mut D,
) -> Outcome
    ensures { Runs line.now.options architecture.now (is_some past) (past_of P.remaining past)
        line.now.told (D.view dialogue.old) (D.view dialogue.new) result }
{
    match read_arch(rt.alloc(), architecture, line.options.tracks) {
        Ok(arch) => {
            let device = line.options.device(arch);
            match serve_device(rt, line, device, past, dialogue) {
                Ok(outcome) => outcome,
                Err(_) => Outcome::NoMemory,
            }
        }
        Err(ArchError::Fault(fault)) => Outcome::ArchRefused(fault),
        Err(ArchError::NoMemory) => Outcome::NoMemory,
    }
}

/// Serves the lines on that device.
fn serve_device<H: Wait + AllocGlobal + Eprint, P: Source + Drop, D: Dialogue>(
    rt: &H,
    line: &CommandLine<'_>,
    device: Device,
    past: Option<P>,
    dialogue: &mut D,
) -> Result<Outcome, AllocError>
    requires { IsDevice device }
    ensures { MatchResult result
        (λ outcome. RunsFrom (begins device) (is_some past) (past_of P.remaining past)
        line.now.told (D.view dialogue.old) (D.view dialogue.new) outcome)
        (λ _. D.view dialogue.new ≡ D.view dialogue.old) }
{
    let graph = device_graph(rt.alloc(), &device)?;
    let core = Service::new(rt.alloc(), device)?;
    let mut watched = Watched::new(rt, line.options.text_limit(), &graph, core);
    let outcome = serve_past(rt, line, &mut watched, past, dialogue);
    watched.close();
    Ok(outcome)
}

/// Serves the lines of the log, if there is one, and then those of the dialogue. Between them it
/// says that it is ready, if that is wanted.
fn serve_past<H: Wait + AllocGlobal + Eprint, P: Source + Drop, D: Dialogue>(
    rt: &H,
    line: &CommandLine<'_>,
    watched: &mut Watched<'_, '_, H>,
    past: Option<P>,
    dialogue: &mut D,
) -> Outcome
    requires { is_ready watched.old.lines }
    ensures { RunsFrom (state_in watched.old.lines) (is_some past) (past_of P.remaining past)
        line.now.told (D.view dialogue.old) (D.view dialogue.new) result }
{
    let mut number = 1;
    match past {
        Some(past) => match retell(
            rt,
            &mut watched.lines,
            past,
            line.told,
            dialogue,
            &mut number,
        ) {
            Ok(()) => {
                say_ready(rt, line.ready);
                Outcome::of(talk(rt, watched, dialogue, &mut number))
            }
            Err(outcome) => outcome,
        },
        None => {
            say_ready(rt, line.ready);
            match talk(rt, watched, dialogue, &mut number) {
                ConversationEnd::Done => close_texts(&mut watched.lines, dialogue),
                end => Outcome::of(end),
            }
        }
    }
}

/// Serves the lines of a dialogue, up to the input's end. Warns when the service is nearly full.
fn talk<H: Wait + AllocGlobal + Eprint, D: Dialogue>(
    rt: &H,
    watched: &mut Watched<'_, '_, H>,
    dialogue: &mut D,
    number: &mut u64,
) -> ConversationEnd
    requires { is_ready watched.old.lines }
    ensures ready { result ≡ ConversationEnd.Done → is_ready watched.new.lines }
    ensures conversation { IsConversation AnswersLine (state_in watched.old.lines) number.old
        (D.view dialogue.old) (D.view dialogue.new) result (state_in watched.new.lines) number.new }
{
    match LineFeed::new(rt.alloc()) {
        Ok(mut feed) => converse(rt, watched, &mut feed, dialogue, number),
        Err(_) => ConversationEnd::NoMemory,
    }
}

/// Refuses each text that is open.
fn close_texts<D: Dialogue>(lines: &mut LiveLines<'_>, dialogue: &mut D) -> Outcome
    requires { is_ready lines.old }
    ensures { ClosesAs (state_in lines.old) (D.view dialogue.old) (D.view dialogue.new) result }
{
    let Ok(reply) = lines.end() else {
        return Outcome::NoMemory;
    };
    match dialogue.write(reply.as_slice()) {
        Ok(()) => Outcome::Done,
        Err(fault) => Outcome::Stopped(fault),
    }
}
