//! Which step of which job.
use crate::sources::Sources;

/// Which step of which job: the tenancy's id, the tenancy's generation when the job began, and the
/// step's number within the job, from 1.
#[derive(Drop)]
pub struct JobStep {
    pub id: u32,
    pub generation: u32,
    pub number: u32,
    pub sources: Sources,
}
