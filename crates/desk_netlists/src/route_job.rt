//! What is routed, and on which device.
ghost use Rattle.std.specs.Prelude.{◌≤◌};
ghost use Rattle.desk_netlists.specs.Prelude.{MAX_EFFORT};

use crate::route_wishes::{GivenSize, RouteWishes};
use one_user::{DevicePlan, Request};

/// A netlist that is routed on a device of that size.
#[derive(Clone, Copy)]
pub struct RouteJob<'a> {
    pub(crate) wishes: RouteWishes<'a>,
    /// The name of its files.
    pub(crate) name: &'a str,
    /// The text of the architecture.
    pub(crate) arch: &'a [u8],
    pub(crate) request: Request<'a>,
    pub(crate) size: GivenSize,
    ghost effort_lawful: { request.effort ≤ MAX_EFFORT },
}

impl<'a> RouteJob<'a> {
    ghost use Rattle.std.specs.Prelude.{◌≡◌};
    ghost use Rattle.desk_netlists.specs.Jobs.{plan_of};

    /// The device that it is routed on.
    pub(crate) fn plan(self) -> DevicePlan<'a>
        ensures { result ≡ plan_of self.entry }
    {
        DevicePlan {
            text: self.arch,
            columns: self.size.columns,
            rows: self.size.rows,
        }
    }
}
