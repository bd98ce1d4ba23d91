//! Lines of the operator, one after another.
ghost use Rattle.std.specs.Prelude.{◌≡◌, length, map, OnOk};
ghost use Rattle.script_threads.specs.Prelude.{sink_text, named_operator};
ghost use Rattle.script_threads.specs.Lines.{Replies, RepliesEach, stage};

use line_text::MemorySink;
use operator::{HeldJobs, Operator};
use script_text::OperatorLine;
use service_core::Service;
use std::alloc::{AllocError, Global};
use strips::DeviceGraph;

/// Serves lines of the operator over a graph, one after another, and appends the answers. Jobs that
/// are held at their end are given back.
pub(crate) fn serve_lines<'t>(
    alloc: Global,
    graph: &DeviceGraph,
    operator: &mut Operator<'t>,
    core: &mut Service,
    lines: Vec<OperatorLine<&'t [u8]>>,
    reply: &mut MemorySink,
) -> Result<(), AllocError>
    requires { length operator.old ≡ length core.old.histories }
    ensures replies { OnOk result (Replies graph.now operator.old core.old
        (map named_operator lines.entry.items) (sink_text reply.old) (sink_text reply.new)
        operator.new
        core.new) }
    ensures even { OnOk result (length operator.new ≡ length core.new.histories) }
{
    let mut jobs = HeldJobs::new(alloc);
    let served = serve_each(graph, operator, core, &mut jobs, lines, reply);
    jobs.give_back(core);
    served
}

/// Serves each of the lines.
fn serve_each<'t, 'g>(
    graph: &'g DeviceGraph,
    operator: &mut Operator<'t>,
    core: &mut Service,
    jobs: &mut HeldJobs<'g>,
    lines: Vec<OperatorLine<&'t [u8]>>,
    reply: &mut MemorySink,
) -> Result<(), AllocError>
    requires { length operator.old ≡ length core.old.histories }
    ensures { OnOk result (RepliesEach (stage graph.now operator.old jobs.old core.old)
        (map named_operator lines.entry.items) (sink_text reply.old) (sink_text reply.new)
        (stage graph.now operator.new jobs.new core.new)) }
{
    for line in lines {
        operator.serve(core, graph, jobs, line, reply)?;
    }
    Ok(())
}
