//! How the failure of a routing is reported.
ghost use Rattle.std.specs.Prelude.{◌≡◌, [], IfOk, slice_get};
ghost use Rattle.std.specs.Option.{option_map_or};
ghost use Rattle.tenant_slot.specs.Prelude.{block_nets, net_name};
ghost use Rattle.tenant_slot.specs.Results.{ending_of};

use crate::failure::RoutingFailure;
use crate::reply::Ending;
use cluster::Packed;
use job_state::SharedText;
use line_text::Text;
use std::alloc::{AllocError, Global};
use vpr_files::net_name;

/// How a routing of a packed netlist ended, with the name of the net if one has no path.
pub(crate) fn told_ending(
    alloc: Global,
    packed: &Packed,
    failure: RoutingFailure,
) -> Result<Ending, AllocError>
    ensures { IfOk result (λ ending. ending ≡ ending_of packed.now failure) }
{
    match failure {
        RoutingFailure::GaveUp => Ok(Ending::GaveUp),
        RoutingFailure::NoPath(net) => {
            let name = Text::from_slice(alloc, block_net_name(packed, net))?;
            Ok(Ending::NoPath(SharedText::new(alloc, name)?))
        }
    }
}

/// The name of a net between blocks; empty if there is no such net.
fn block_net_name(packed: &Packed, net: u32) -> &[u8]
    ensures { result.now ≡ option_map_or (λ found. net_name packed.now.circuit found.net)
        (slice_get (block_nets packed.now) net) [] }
{
    if (net as usize) < packed.net_count() {
        net_name(packed.circuit(), packed.net(net as usize).net)
    } else {
        &[]
    }
}
