//! A script that is served in order, without workers.
ghost use Rattle.std.specs.Prelude.{◌≡◌, ◌<◌, ◌^◌, [], Ok, length, IfErr, IfOk, OnOk};
ghost use Rattle.fpgad_run.specs.Prelude.{IsArch, run_text, named_act};
ghost use Rattle.fpgad_run.specs.Ends.{Replies};
ghost use Rattle.fpgad_run.specs.Program.{IsReplies, start_of};

use crate::inputs::{Architecture, Texts};
use crate::options::Options;
use crate::outcome::Outcome;
use crate::sections::Sections;
use arch_file::{Arch, read_arch};
use line_text::MemorySink;
use operator::{HeldJobs, Operator};
use script_text::{Act, RunReplies, Script, read_script};
use service_core::{Service, headline};
use sessions::{device_graph, end_to_end};
use std::alloc::{AllocError, Global};
use strips::DeviceGraph;

/// The answers to a script, or why there are none.
pub(crate) fn replies<'t>(
    alloc: Global,
    options: &Options,
    architecture: Architecture<'t>,
    input: &'t [u8],
) -> Result<RunReplies<'t>, Outcome>
    requires { length input.now < 2 ^ 63 }
    ensures settled { IfErr result (λ outcome. outcome ≡ Outcome.NotSettled → ⊥) }
    ensures replies { Replies (IsReplies options.now
        (start_of options.now.tracks architecture.entry input.now))
        (start_of options.now.tracks architecture.entry input.now) result }
{
    let Some(texts) = Texts::new(architecture, input) else {
        return Err(Outcome::ArchUnreadable);
    };
    let arch = read_arch(alloc, texts.architecture, options.tracks)?;
    let script = read_script(alloc, texts.script, texts.number)?;
    Ok(serve(alloc, options, arch, script)?)
}

/// Serves a script in order, from an empty device.
fn serve<'t>(
    alloc: Global,
    options: &Options,
    arch: Arch,
    script: Script<'t>,
) -> Result<RunReplies<'t>, AllocError>
    requires { IsArch arch }
    ensures { IfOk result (λ replies.
        IsReplies options.now (Ok (arch, script.entry)) (run_text replies)) }
{
    let device = options.device(arch);
    let graph = device_graph(alloc, &device)?;
    let core = Service::new(alloc, device)?;
    let mut running = Running::new(alloc, &graph, core);
    match running.serve_all(script) {
        Ok(()) => running.into_replies(),
        Err(error) => {
            drop(running.end());
            Err(error)
        }
    }
}

/// A script that runs: the device's graph, the core, the operator's names and jobs, and the answers
/// so far.
struct Running<'t, 'g> {
    graph: &'g DeviceGraph,
    core: Service,
    operator: Operator<'t>,
    jobs: HeldJobs<'g>,
    operator_text: MemorySink,
    sections: Sections<'t>,
}

impl<'t, 'g> Running<'t, 'g> {
    ghost use Rattle.arch_file.specs.declared.arch.Arch.{Arch};
    ghost use Rattle.service_core.specs.Service.{empty_service};
    ghost use Rattle.sessions.specs.Fitting.{own_graph};
    ghost use Rattle.fpgad_run.specs.declared.options.Options.{Options};
    ghost use Rattle.fpgad_run.specs.Program.{device_of};
    ghost use Rattle.fpgad_run.specs.Told.{Begins, IsEven, Serves, told_so_far};

    fn new(alloc: Global, graph: &'g DeviceGraph, core: Service) -> Self
        requires { core.histories ≡ [] }
        ensures { Begins graph.now core result }
    {
        Running {
            graph,
            core,
            operator: Operator::new(alloc),
            jobs: HeldJobs::new(alloc),
            operator_text: MemorySink::new(alloc),
            sections: Sections::new(alloc),
        }
    }

    /// Serves all acts of a script, in order.
    fn serve_all(&mut self, script: Script<'t>) -> Result<(), AllocError>
        requires { Begins self.old.graph.now self.old.core self.old }
        ensures told { (options : Options) (arch : Arch) →
            self.old.core ≡ empty_service (device_of options arch) →
            self.old.graph.now ≡ own_graph (device_of options arch) →
            OnOk result (IsReplies options (Ok (arch, script.entry)) (told_so_far self.new)) }
        ensures even { OnOk result (IsEven self.new) }
    {
        for act in script.into_acts() {
            self.serve(act)?;
        }
        headline();
        end_to_end();
        Ok(())
    }

    /// Ends the service. Returns the answers to the script.
    fn into_replies(self) -> Result<RunReplies<'t>, AllocError>
        requires { IsEven self }
        ensures { IfOk result (λ replies. run_text replies ≡ told_so_far self.entry) }
    {
        let (operator, sections) = self.end();
        match sections.into_replies() {
            Ok(sections) => Ok(RunReplies {
                operator: operator.into_bytes(),
                sections,
            }),
            Err(error) => {
                drop(operator);
                Err(error)
            }
        }
    }

    /// Ends the service. Returns the answers to the operator and to each session. Jobs that are
    /// still out are given back.
    fn end(self) -> (MemorySink, Sections<'t>)
        ensures { (result.0 ≡ self.entry.operator_text) × (result.1 ≡ self.entry.sections) }
    {
        let Running {
            graph: _,
            mut core,
            operator,
            jobs,
            operator_text,
            sections,
        } = self;
        jobs.give_back(&mut core);
        drop(core);
        drop(operator);
        (operator_text, sections)
    }

    /// Answers one act: the operator's text or the name's section gets its reply.
    fn serve(&mut self, act: Act<&'t [u8]>) -> Result<(), AllocError>
        requires { IsEven self.old }
        ensures { OnOk result (Serves self.old (named_act act.entry) self.new) }
    {
        match act {
            Act::Operator(line) => {
                self.operator.serve(
                    &mut self.core,
                    self.graph,
                    &mut self.jobs,
                    line,
                    &mut self.operator_text,
                )
            }
            Act::Session(name, line) => {
                let id = self.operator.last_id(name);
                self.sections
                    .answer(&mut self.core, self.graph, name, id, line)
            }
        }
    }
}
