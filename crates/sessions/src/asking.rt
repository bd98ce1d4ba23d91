ghost use Rattle.sessions.specs.Prelude.{Writes};
ghost use Rattle.sessions.specs.SessionAnswer.{IsAnswer};
ghost use Rattle.sessions.specs.SessionText.{answer_text};

use crate::line::SessionLine;
use crate::steps::{StepOutcome, run_steps};
use crate::told::{Answer, write_answer};
use line_text::{Failed, Sink};
use service_core::{NotServed, Service};
use strips::DeviceGraph;
use tenant_slot::Command;

/// Asks the core what a session's line asks, for the tenancy of that id, and writes the answer. If
/// the writer fails, the answer is still returned, and the writer has taken a beginning of its
/// text. On the device's own graph a wait leaves no step undone, unless memory runs out.
pub fn answer<W: Sink>(
    core: &mut Service,
    graph: &DeviceGraph,
    id: u32,
    line: SessionLine,
    writer: &mut W,
) -> (Answer, Result<(), Failed>)
    ensures answered { IsAnswer graph.now core.old id line result.0 core.new }
    ensures written { Writes W.contents W.has_failed writer.old writer.new (answer_text result.0)
        result.1 }
{
    let answer = ask(core, graph, id, line);
    let written = write_answer(writer, &answer);
    (answer, written)
}

/// Asks the core what the line asks, for the tenancy of that id.
fn ask(core: &mut Service, graph: &DeviceGraph, id: u32, line: SessionLine) -> Answer
    ensures { IsAnswer graph.now core.old id line result core.new }
{
    match line {
        SessionLine::Blank => Answer::Nothing,
        SessionLine::Refused(refusal) => Answer::Refused(refusal),
        SessionLine::Command(command) => Answer::Served(core.tenant(id, command)),
        SessionLine::Wait => match run_steps(core, graph, id) {
            StepOutcome::NoMemory => Answer::Served(Err(NotServed::NoMemory)),
            _ => Answer::Served(core.tenant(id, Command::Status)),
        },
    }
}
