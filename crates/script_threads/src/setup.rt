//! What a script is served with.
ghost use Rattle.std.specs.Prelude.{◌≤◌};
ghost use Rattle.script_threads.specs.Prelude.{MAX_WORKERS};

use strips::DeviceGraph;

/// What a script is served with: the threads' runtime, the number of workers, at most 16, and the
/// graph of the whole device.
#[derive(Drop)]
pub(crate) struct Setup<'s, R> {
    pub(crate) rt: &'s R,
    pub(crate) workers: u32,
    pub(crate) graph: &'s DeviceGraph,
    ghost few: { workers ≤ MAX_WORKERS },
}
