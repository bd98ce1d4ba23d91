//! The texts of a tenancy's files, each with as many owners as ask for it.
ghost use Rattle.std.specs.Prelude.{◌≡◌, ℕ, List, IfOk, Some, length};
ghost use Rattle.tenant_slot.specs.Prelude.{block_nets, places_by_block, net_text_of, place_text_of, route_text_of};

use cluster::Packed;
use job_state::SharedText;
use line_text::{MemorySink, Sink, Text};
use pathfinder::Routes;
use std::alloc::{AllocError, Global};
use strip_place::Placing;
use vpr_files::{net_text, place_text, route_text};

/// The `.net` file of a packed netlist.
pub fn net_file(alloc: Global, packed: &Packed) -> Result<SharedText, AllocError>
    ensures { IfOk result (λ text. text ≡ net_text_of packed.now) }
{
    let mut sink = MemorySink::new(alloc);
    if net_text(packed, &mut sink).is_err() {
        return Err(AllocError);
    }
    share(alloc, sink)
}

/// The `.place` file of a placed netlist.
pub fn place_file(alloc: Global, placing: &Placing) -> Result<SharedText, AllocError>
    ensures { IfOk result (λ text. text
        ≡ place_text_of placing.now.strip placing.now.packed (places_by_block placing.now)) }
{
    let mut sink = MemorySink::new(alloc);
    if place_text(placing, &mut sink).is_err() {
        return Err(AllocError);
    }
    share(alloc, sink)
}

/// The `.route` file of a placed netlist with these routes, one for each net.
pub fn route_file(
    alloc: Global,
    placing: &Placing,
    routes: &Routes,
) -> Result<SharedText, AllocError>
    requires { length routes.now ≡ length (block_nets placing.now.packed) }
    ensures { IfOk result (λ text. text
        ≡ route_text_of placing.now.strip placing.now.packed (places_by_block placing.now)
        routes.now) }
{
    let mut sink = MemorySink::new(alloc);
    if route_text(placing, routes, &mut sink).is_err() {
        return Err(AllocError);
    }
    share(alloc, sink)
}

/// The text that was written.
fn share(alloc: Global, sink: MemorySink) -> Result<SharedText, AllocError>
    ensures { (bytes : List ℕ) → ⟦<MemorySink as Sink>⟧.contents sink ≡ Some bytes →
        IfOk result (λ text. text ≡ bytes) }
{
    match SharedText::new(alloc, Text::new(sink.into_bytes())) {
        Ok(text) => Ok(text),
        Err(failed) => {
            drop(failed);
            Err(AllocError)
        }
    }
}
