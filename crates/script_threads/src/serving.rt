//! A whole script.
ghost use Rattle.std.specs.Prelude.{◌≡◌, ◌≤◌, [], length, map, IfOk};
ghost use Rattle.script_threads.specs.Prelude.{MAX_WORKERS, sink_text, section_of, named_operator, AreApart, parts_of, said_by, IsDevice};
ghost use Rattle.script_threads.specs.Served.{IsServedFrom, IsServedOnThreads, RunsOn};

use crate::left_jobs::end_jobs;
use crate::operator_lines::serve_lines;
use crate::running::run_sessions;
use crate::setup::Setup;
use crate::unserved::Unserved;
use line_text::MemorySink;
use operator::Operator;
use script_text::{OperatorLine, RunReplies, SessionInput, SessionReplies, ThreadedScript};
use service_core::{Device, Service};
use sessions::device_graph;
use std::alloc::AllocGlobal;
use std::marker::Brand;
use std::sync::Wait;
use std::sync::ledger::Blank;
use std::thread::Threads;
use std::time::Clock;

/// Serves a script of sessions of different names with this number of workers, at most 16, from an
/// empty device.
pub fn serve_on_threads<'t, R: Threads + Wait + Clock + AllocGlobal + Sync>(
    rt: &R,
    workers: u32,
    device: Device,
    script: ThreadedScript<'t>,
) -> Result<RunReplies<'t>, Unserved>
    requires workers { workers ≤ MAX_WORKERS }
    requires apart { AreApart (map said_by script.sessions.items) }
    requires device { IsDevice device }
    ensures ok { IfOk result (λ answered.
        IsServedOnThreads device (parts_of script.entry) answered) }
{
    let graph = device_graph(rt.alloc(), &device)?;
    let setup = Setup {
        rt,
        workers,
        graph: &graph,
    };
    let service = Service::new(rt.alloc(), device)?;
    serve_script(&setup, service, script)
}

/// Serves a script by a service without tenancies.
fn serve_script<'t, R: Threads + Wait + Clock + AllocGlobal + Sync>(
    setup: &Setup<'_, R>,
    service: Service,
    script: ThreadedScript<'t>,
) -> Result<RunReplies<'t>, Unserved>
    requires apart { AreApart (map said_by script.sessions.items) }
    requires unused { service.histories ≡ [] }
    ensures ok { IfOk result (λ answered.
        IsServedFrom setup.now.graph.now service (parts_of script.entry)
        (map section_of answered.sections.items) answered.operator.items) }
{
    let ThreadedScript {
        ahead,
        sessions,
        rest,
    } = script;
    let alloc = setup.rt.alloc();
    let graph = setup.graph;
    let mut core = service;
    let mut operator = Operator::new(alloc);
    let mut reply = MemorySink::new(alloc);
    serve_lines(alloc, graph, &mut operator, &mut core, ahead, &mut reply)?;
    let sections = serve_sessions(setup, &mut operator, core, sessions, rest, &mut reply)?;
    Ok(RunReplies {
        operator: reply.into_bytes(),
        sections,
    })
}

/// Runs each name's session, ends the jobs that are left, and serves the operator's other lines.
/// Returns the answers to the sessions.
fn serve_sessions<'t, R: Threads + Wait + Clock + AllocGlobal + Sync>(
    setup: &Setup<'_, R>,
    operator: &mut Operator<'t>,
    service: Service,
    sessions: Vec<SessionInput<'t>>,
    rest: Vec<OperatorLine<&'t [u8]>>,
    reply: &mut MemorySink,
) -> Result<Vec<SessionReplies<'t>>, Unserved>
    requires apart { AreApart (map said_by sessions.items) }
    requires even { length operator.old ≡ length service.histories }
    ensures ok { IfOk result (λ sections.
        RunsOn setup.now.graph.now operator.old service (map said_by sessions.entry.items)
        (map named_operator rest.entry.items) (map section_of sections.items) (sink_text
        reply.old)
        (sink_text reply.new)) }
{
    let commands = Blank::new(65_536);
    let puts = Blank::new(17);
    let (mut core, sections) = run_sessions::<Brand, Brand, R>(
        setup, operator, service, commands, puts, sessions,
    )?;
    end_jobs(setup.graph, &mut core);
    let alloc = setup.rt.alloc();
    serve_lines(alloc, setup.graph, operator, &mut core, rest, reply)?;
    Ok(sections)
}
