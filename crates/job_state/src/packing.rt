//! A packing under way, as its job keeps it.
ghost use Rattle.std.specs.Prelude.{◌≡◌, ◌+◌, IfErr, IfOk, length};
ghost use Rattle.job_state.specs.Prelude.{packed_of};
ghost use Rattle.job_state.specs.declared.progress.Progress.{Progress};
ghost use Rattle.job_state.specs.declared.work.Work.{Work};
ghost use Rattle.job_state.specs.Progress.{IsProgress};
ghost use Rattle.job_state.specs.Steps.{packing_after};
ghost use Rattle.job_state.specs.Unshared.{before_last};

use crate::progress::Progress;
use crate::work::Work;
use blif::Circuit;
use cluster::{PackEnd, Packed, Packing, SharedPacked};
use std::alloc::Global;
use std::marker::Model;

/// What a packing has made.
#[derive(Drop)]
enum Made {
    /// Some of its clusters.
    Growing(Packing),
    /// All of them, but memory ran out when they were to be shared.
    Whole(Packed),
}

/// A packing under way. Its value is the packing. If its last step ran out of memory to share what
/// it made, the value is the packing before that step, and the next try only shares it.
#[derive(Drop)]
pub(crate) struct PackingJob {
    alloc: Global,
    made: Made,
}

impl Model for PackingJob {
    ghost use Rattle.cluster.specs.Clusters.{PackingUnderWay};
    ghost use Rattle.job_state.specs.Unshared.{packing_made, IsExact};

    ghost Value = { PackingUnderWay };

    ghost view = { λ p. packing_made p.made };

    ghost invariant = { λ p. IsExact p.made };
}

impl PackingJob {
    /// Starts a job from that packing, whose result will be shared through this allocator.
    pub(crate) fn new(alloc: Global, packing: Packing) -> Self
        ensures { result ≡ packing }
    {
        PackingJob {
            alloc,
            made: Made::Growing(packing),
        }
    }

    /// Its progress: the numbers of tables and latches of its circuit.
    pub(crate) fn progress(&self) -> Progress
        ensures { IsProgress (Work.Packing self.now) result }
    {
        match &self.made {
            Made::Growing(packing) => progress_of(packing.circuit().circuit()),
            Made::Whole(packed) => progress_of(packed.circuit()),
        }
    }

    /// Makes one more cluster. If memory runs out, the packing comes back as it was.
    pub(crate) fn next(self) -> Result<Work, PackingJob>
        ensures made { IfOk result (λ work.
            work ≡ packing_after self.circuit self.arch (self.made + 1)) }
        ensures back { IfErr result (λ back. back ≡ self) }
    {
        let PackingJob { alloc, made } = self;
        match made {
            Made::Growing(packing) => match packing.next() {
                Ok(PackEnd::More(packing)) => Ok(Work::Packing(PackingJob::new(alloc, packing))),
                Ok(PackEnd::Last(packed)) => share_packing(alloc, packed),
                Err(packing) => Err(PackingJob::new(alloc, packing)),
            },
            Made::Whole(packed) => share_packing(alloc, packed),
        }
    }
}

/// The numbers of tables and latches of a circuit, as progress.
fn progress_of(circuit: &Circuit) -> Progress
    ensures { result ≡ Progress.Packing (length circuit.now.tables) (length circuit.now.latches) }
{
    Progress::Packing {
        tables: circuit.tables.len(),
        latches: circuit.latches.as_slice().len(),
    }
}

/// Shares a whole packing. If memory runs out, it counts as the packing before its last step.
fn share_packing(alloc: Global, packed: Packed) -> Result<Work, PackingJob>
    requires { packed ≡ packed_of packed.circuit packed.arch }
    ensures whole { IfOk result (λ work. work ≡ Work.Packed packed) }
    ensures back { IfErr result (λ back. back ≡ before_last packed) }
{
    match SharedPacked::new(alloc, packed) {
        Ok(packed) => Ok(Work::Packed(packed)),
        Err(refused) => Err(PackingJob {
            alloc,
            made: Made::Whole(refused.value),
        }),
    }
}
