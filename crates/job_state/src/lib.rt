//! Jobs: long work of a tenancy, which leaves its slot, is stepped anywhere, and comes back late,
//! stale or never.
//!
//! - [`Sources`] are what a job is computed from: its kind, the architecture, the strip's size, the
//!   netlist, the places that are kept for blocks, seed and effort.
//! - [`AnyJob`] has a step to make. [`AnyJob::step`] makes it, without a lock and without its slot,
//!   through a window of the strip's size at any offset. It returns a [`Done`], or, if memory runs
//!   out, a [`Back`] with the job unchanged. Each of the three has the job's tenancy, generation,
//!   step number and sources.
//! - [`Parked`] is a job as its slot keeps it, running or finished; it alone may be dropped. The
//!   others must be spent: by a step, by a call that takes them, or by `park`. A [`Done`] step has
//!   its [`Progress`]. A finished job has its result. A placing starts from a finished packing, and
//!   a routing from a finished placing; these are only lent.
//! - [`list_resources`] and [`pads_of`] list what a routed circuit occupies of its strip, for those
//!   who route without a job.
//!
//! What a job carries is a function of its sources: `job_value` of `specs/JobValue.antt` gives it
//! after any number of steps. Each type keeps this as an invariant: a job has its value after the
//! steps before its own, a `Done` has the value after its own step too, and the job wasn't over
//! before. So no contract of a caller needs to say what a job has made, and a finished job has made
//! its sources' `end_value`.
#![tactic(auto)]

mod ending;
mod held;
mod job;
mod packing;
mod parked;
mod progress;
mod routed;
mod routing;
mod shared_text;
mod sources;
mod stage;
mod step;
mod work;

pub use ending::RoutingEnd;
pub use held::{list_resources, pads_of};
pub use job::{AnyJob, Back, Done};
pub use parked::Parked;
pub use progress::Progress;
pub use shared_text::SharedText;
pub use sources::{JobKind, Sources};
pub use step::JobStep;
