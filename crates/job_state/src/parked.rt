//! A job as its slot keeps it.
ghost use Rattle.std.specs.Prelude.{◌≡◌, ◌≤◌, All, AllPairs, IfOk, Ok, false, true};
ghost use Rattle.job_state.specs.Prelude.{MAX_NETS, packed_of, packing_steps, Resource, IsEarlier, has, is_there};
ghost use Rattle.job_state.specs.declared.sources.JobKind.{JobKind};
ghost use Rattle.job_state.specs.declared.work.Work.{Work};
ghost use Rattle.job_state.specs.Beginnings.{CanPack, CanPlace, CanRoute};
ghost use Rattle.job_state.specs.Ends.{IsEndOf, IsOfNets};
ghost use Rattle.job_state.specs.Held.{HasFewSteps};
ghost use Rattle.job_state.specs.Job.{IsFinished, first_step, is_over};
ghost use Rattle.job_state.specs.RoutedSet.{resources_of};
ghost use Rattle.job_state.specs.JobValue.{circuit_in, end_value, is_whole, job_value, pass_count, placing_at};

use crate::ending::RoutingEnd;
use crate::held::pads_of;
use crate::job::AnyJob;
use crate::packing::PackingJob;
use crate::routing::RoutingJob;
use crate::sources::Sources;
use crate::stage::{Begun, Stage};
use crate::step::JobStep;
use crate::work::Work;
use arch_file::SharedArch;
use blif::SharedCircuit;
use cluster::{Packed, Packing, SharedPacked};
use rr_graph::Resource;
use std::alloc::{AllocError, Global};
use std::marker::Model;
use strip_place::{Placing, laws_of_passes};

/// A job as its slot keeps it, before a step or finished. It may be dropped. Its value is the step
/// that it has to make, numbered one past the last if the job is finished, and whether that step
/// was made already.
#[derive(Drop)]
pub struct Parked {
    pub(crate) step: JobStep,
    pub(crate) work: Box<Work>,
    pub(crate) made: bool,
}

impl Model for Parked {
    ghost use Rattle.job_state.specs.Job.{JobState};
    ghost use Rattle.job_state.specs.Held.{HasMade, steps_made};

    ghost Value = { JobState };

    ghost view = { λ p. record { step = p.step; made = p.made } };

    ghost invariant = { λ p. HasMade p.step p.work.value (steps_made p.step p.made) };
}

impl Parked {
    /// Starts a packing of the netlist's circuit, before its first step. Each BLE must fit into a
    /// cluster alone. Fails with [`AllocError`] if memory runs out.
    pub fn pack(
        alloc: Global,
        id: u32,
        generation: u32,
        sources: Sources,
        circuit: &SharedCircuit,
    ) -> Result<Self, AllocError>
        requires { CanPack sources circuit.now }
        ensures job { IfOk result (λ job. job ≡ first_step id generation sources) }
        ensures going { IfOk result (λ job. is_over job ≡ false) }
    {
        packs_in_few_steps(circuit, &sources.arch);
        let packing = Packing::start(alloc, circuit, &sources.arch)?;
        let work = Work::Packing(PackingJob::new(alloc, packing));
        Parked::begin(alloc, id, generation, sources, work)
    }

    /// Starts a placing of what a finished packing of the same netlist has made, before its first
    /// pass: each block is on the place that the sources keep for it, or on the least free place of
    /// its kind. Fails with [`AllocError`] if memory runs out.
    pub fn place(
        alloc: Global,
        id: u32,
        generation: u32,
        sources: Sources,
        packing: &Parked,
    ) -> Result<Self, AllocError>
        requires { CanPlace sources packing.now }
        ensures job { IfOk result (λ job. job ≡ first_step id generation sources) }
        ensures going { IfOk result (λ job. is_over job ≡ false) }
    {
        laws_of_passes();
        let placing = Placing::start(
            alloc,
            packing.shared_packed(),
            sources.strip,
            &sources.kept,
            sources.seed,
            sources.effort,
        )?;
        Parked::begin(alloc, id, generation, sources, Work::Placing(placing))
    }

    /// Starts a routing of what a finished placing of the same netlist, kept places, seed and
    /// effort has made, before its first iteration. It builds no graph. Fails with [`AllocError`]
    /// if memory runs out.
    pub fn route(
        alloc: Global,
        id: u32,
        generation: u32,
        sources: Sources,
        placing: &Parked,
    ) -> Result<Self, AllocError>
        requires { CanRoute sources placing.now }
        ensures job { IfOk result (λ job. job ≡ first_step id generation sources) }
        ensures going { IfOk result (λ job. is_over job ≡ false) }
    {
        match routing_of(alloc, &sources, placing) {
            Ok(routing) => Parked::begin(alloc, id, generation, sources, Work::Routing(routing)),
            Err(error) => {
                drop(sources);
                Err(error)
            }
        }
    }

    /// A job before its first step.
    fn begin(
        alloc: Global,
        id: u32,
        generation: u32,
        sources: Sources,
        work: Work,
    ) -> Result<Self, AllocError>
        requires value { job_value sources 0 ≡ Ok work }
        requires more { is_whole work ≡ false }
        requires few { HasFewSteps sources }
        ensures job { IfOk result (λ job. job ≡ first_step id generation sources) }
        ensures going { IfOk result (λ job. is_over job ≡ false) }
    {
        let step = JobStep {
            id,
            generation,
            number: 1,
            sources,
        };
        match Box::new(alloc, work) {
            Ok(work) => Ok(Parked {
                step,
                work,
                made: false,
            }),
            Err(error) => {
                drop(step);
                Err(error.into())
            }
        }
    }

    /// Takes the job out, to make its next step. Takes no memory.
    pub fn leave(self) -> AnyJob
        requires { is_over self ≡ false }
        ensures { result ≡ self }
    {
        let Parked { step, work, made } = self;
        AnyJob { step, work, made }
    }

    /// What a finished packing has made.
    pub fn packed(&self) -> &Packed
        requires { IsFinished JobKind.Packing self.now }
        ensures value { end_value self.now.step.sources ≡ Ok (Work.Packed result.now) }
        ensures exact { IfOk (circuit_in self.now.step.sources)
            (λ circuit. result.now ≡ packed_of circuit self.now.step.sources.arch) }
    {
        self.shared_packed().packed()
    }

    /// The shared handle of what a finished packing has made.
    fn shared_packed(&self) -> &SharedPacked
        requires { IsFinished JobKind.Packing self.now }
        ensures value { end_value self.now.step.sources ≡ Ok (Work.Packed result.now) }
        ensures exact { IfOk (circuit_in self.now.step.sources)
            (λ circuit. result.now ≡ packed_of circuit self.now.step.sources.arch) }
    {
        match &*self.work {
            Work::Packed(packed) => packed,
            _ => unreachable!(),
        }
    }

    /// What a finished placing has made.
    pub fn placing(&self) -> &Placing
        requires { IsFinished JobKind.Placing self.now }
        ensures value { end_value self.now.step.sources ≡ Ok (Work.Placed result.now) }
        ensures exact { IfOk (circuit_in self.now.step.sources)
            (λ circuit. result.now
            ≡ placing_at self.now.step.sources circuit (pass_count self.now.step.sources.strip)) }
    {
        match &*self.work {
            Work::Placed(placing) => placing,
            _ => unreachable!(),
        }
    }

    /// How a finished routing ended, by the numbers of the packed circuit's nets.
    pub fn routing_end(&self) -> RoutingEnd<'_>
        requires { IsFinished JobKind.Routing self.now }
        ensures value { IsEndOf self.now.step.sources result }
        ensures nets { IfOk (circuit_in self.now.step.sources)
            (λ circuit. IsOfNets (packed_of circuit self.now.step.sources.arch) result) }
    {
        match &*self.work {
            Work::Routed(listed) => RoutingEnd::Routed(listed.routes()),
            Work::GaveUp => RoutingEnd::GaveUp,
            Work::NoPath(net) => RoutingEnd::NoPath(*net),
            _ => unreachable!(),
        }
    }

    /// What the circuit of a finished routing occupies of its strip, in node order: the pins and
    /// wires of its routes and the pads of its blocks, each once. Empty if the routing ended
    /// without routes.
    pub fn resources(&self) -> &[Resource]
        requires { IsFinished JobKind.Routing self.now }
        ensures order { AllPairs IsEarlier result.now }
        ensures exact { (r : Resource) → has result.now r
            ≡ has (resources_of self.now.step.sources) r }
        ensures there { All (λ r. is_there self.now.step.sources.arch self.now.step.sources.strip r
            ≡ true) result.now }
    {
        match &*self.work {
            Work::Routed(listed) => listed.resources(),
            _ => &[],
        }
    }
}

/// A routing of what a finished placing of the same netlist, kept places, seed and effort has made,
/// before its first iteration.
fn routing_of(alloc: Global, sources: &Sources, placing: &Parked) -> Result<RoutingJob, AllocError>
    requires { CanRoute sources.now placing.now }
    ensures { IfOk result (λ routing. job_value sources.now 0 ≡ Ok (Work.Routing routing)) }
{
    let placing = placing.placing();
    let shared = sources.arch.clone()?;
    let pads = pads_of(alloc, placing)?;
    let packed = placing.shared_packed().clone()?;
    let places = placing.places(alloc)?;
    Ok(RoutingJob::new(
        alloc,
        shared,
        placing.strip(),
        pads,
        Stage::Begun(Begun { packed, places }),
    ))
}

/// A packing makes at most 8,192 steps: a step makes a cluster of at least one BLE, and a circuit
/// has at most 8,192 BLEs.
#[tactic(auto, using(crate::proofs::FewSteps::few_steps))]
fn packs_in_few_steps(circuit: &SharedCircuit, arch: &SharedArch)
    ensures { packing_steps circuit.now arch.now ≤ MAX_NETS }
{
    circuit.laws();
    arch.laws();
}
