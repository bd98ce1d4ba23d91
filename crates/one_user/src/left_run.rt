//! What there is of a netlist that is placed, and whose routing ended without routes.
ghost use Rattle.std.specs.Prelude.{◌≡◌, [], IfOk, slice_get};
ghost use Rattle.one_user.specs.Prelude.{block_nets, net_name, ending_of, net_text_of, place_text_of, places_by_block};
ghost use Rattle.std.specs.Option.{option_map_or};
ghost use Rattle.tenant_slot.specs.declared.failure.RoutingFailure.TheVariants.{NoPath as FailedNet};
ghost use Rattle.one_user.specs.Pinned.{IsEnding, IsLeftBy};
ghost use Rattle.one_user.specs.RoutingEnds.{IsOver, IsRoutes};

use crate::outcome::{FlowOutcome, Run, Unrouted};
use cluster::Packed;
use line_text::Text;
use pathfinder::IterEnd;
use std::alloc::{AllocError, Global};
use strip_place::Placing;
use tenant_slot::{Ending, SharedText, net_file, place_file};

/// The run of placed blocks whose routing ended so, without routes.
pub(crate) fn run_left(alloc: Global, placing: &Placing, end: &IterEnd) -> Result<Run, AllocError>
    requires over { IsOver end.now }
    requires without { IsRoutes end.now → ⊥ }
    ensures { IfOk result (IsLeftBy placing.now end.now) }
{
    let ending = ending_after(alloc, placing.packed(), end)?;
    let left = left_with(alloc, placing, ending)?;
    Ok(Run {
        outcome: FlowOutcome::Unrouted(left),
        figures: None,
    })
}

/// The two files of placed blocks, with how their routing ended.
fn left_with(alloc: Global, placing: &Placing, ending: Ending) -> Result<Unrouted, AllocError>
    ensures { IfOk result (λ left. left ≡ record {
      ending = ending;
      net = net_text_of placing.now.packed;
      places = place_text_of placing.now.strip placing.now.packed (places_by_block placing.now);
    }) }
{
    Ok(Unrouted {
        net: net_file(alloc, placing.packed())?,
        places: place_file(alloc, placing)?,
        ending,
    })
}

/// How a routing without routes ended, as a reply has it.
fn ending_after(alloc: Global, packed: &Packed, end: &IterEnd) -> Result<Ending, AllocError>
    requires over { IsOver end.now }
    requires without { IsRoutes end.now → ⊥ }
    ensures { IfOk result (IsEnding packed.now end.now) }
{
    match end {
        IterEnd::GaveUp(_) => Ok(Ending::GaveUp),
        IterEnd::NoPath(net) => no_path(alloc, packed, *net),
        IterEnd::Again(_) | IterEnd::Done(_) => unreachable!(),
    }
}

/// The ending of a routing in which a net, by its number between blocks, has no path.
fn no_path(alloc: Global, packed: &Packed, net: usize) -> Result<Ending, AllocError>
    ensures { IfOk result (λ ending. ending ≡ ending_of packed.now (FailedNet net)) }
{
    let name = Text::from_slice(alloc, block_net_name(packed, net))?;
    Ok(Ending::NoPath(SharedText::new(alloc, name)?))
}

/// The name of a net between blocks; empty if there is no such net.
fn block_net_name(packed: &Packed, net: usize) -> &[u8]
    ensures { result.now ≡ option_map_or (λ found. net_name packed.now.circuit found.net)
        (slice_get (block_nets packed.now) net) [] }
{
    if net >= packed.net_count() {
        return &[];
    }
    let number = packed.net(net).net as usize;
    let names = &packed.circuit().nets;
    if number < names.len() {
        names.name(number)
    } else {
        &[]
    }
}
