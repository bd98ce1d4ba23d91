//! The list of what a routed circuit occupies of its strip.
ghost use Rattle.std.specs.Prelude.{◌≡◌, ◌++◌, ◌<◌, IfOk, [], length, slice_index_or};
ghost use Rattle.std.specs.Option.{option_to_list};
ghost use Rattle.job_state.specs.Prelude.{resource_of, places_by_block};
ghost use Rattle.job_state.specs.RoutedCircuits.{AreThere, IsInOrder, ListsAll, pad_of, pads_of};
ghost use Rattle.job_state.specs.Gathered.{on_path, on_tree, on_trees};

use cluster::Block;
use grid::{Place, laws_of_places};
use pathfinder::Routes;
use rr_graph::{Node, Resource, ResourceKind};
use std::alloc::{AllocError, Global};
use strip_place::Placing;

/// Adds the pad of a block, if the block is on one.
fn add_pad(mut pads: Vec<Resource>, block: Block, place: Place) -> Result<Vec<Resource>, AllocError>
    ensures { IfOk result (λ new. new.items ≡ pads.items ++ pad_of block place) }
{
    match block {
        Block::InputPad(_) | Block::OutputPad(_) => pads.push(Resource {
            x: place.x,
            kind: ResourceKind::Pad,
            y: place.y,
            n: place.subblock,
        })?,
        Block::Cluster(_) => {}
    }
    Ok(pads)
}

/// Lists the pads of a placing's blocks, by the numbers of the blocks. Fails with [`AllocError`] if
/// memory runs out.
pub fn pads_of(alloc: Global, placing: &Placing) -> Result<Vec<Resource>, AllocError>
    ensures exact { IfOk result (λ pads.
        pads.items ≡ pads_of placing.now.packed (places_by_block placing.now)) }
    ensures there { IfOk result (λ pads.
        AreThere (record { arch = placing.now.packed.arch; strip = placing.now.strip })
        pads.items) }
{
    placing.laws();
    laws_of_places();
    let _strip = placing.strip();
    let mut pads = Vec::new(alloc);
    for block in 0..placing.packed().block_count() {
        pads = add_pad(pads, placing.packed().block(block), placing.place_of(block))?;
    }
    Ok(pads)
}

/// Adds the pin or the wire of a node, if the node is one.
fn add_node(mut list: Vec<Resource>, node: Node) -> Result<Vec<Resource>, AllocError>
    ensures { IfOk result (λ new. new.items ≡ list.items ++ option_to_list (resource_of node)) }
{
    if let Some(resource) = Resource::of(node) {
        list.push(resource)?;
    }
    Ok(list)
}

/// Adds the pins and wires on a path.
fn add_path(mut list: Vec<Resource>, path: &[Node]) -> Result<Vec<Resource>, AllocError>
    ensures { IfOk result (λ new. new.items ≡ list.items ++ on_path path.now) }
{
    for node in path {
        list = add_node(list, *node)?;
    }
    Ok(list)
}

/// Adds the pins and wires of a net's tree.
fn add_tree(
    mut list: Vec<Resource>,
    routes: &Routes,
    net: usize,
) -> Result<Vec<Resource>, AllocError>
    requires { net < length routes.now }
    ensures { IfOk result (λ new. new.items
        ≡ list.items ++ on_tree (slice_index_or routes.now net [])) }
{
    for number in 0..routes.path_count(net) {
        list = add_path(list, routes.path(net, number))?;
    }
    Ok(list)
}

/// The pins and wires of all trees, in the order of the trees.
fn on_trees(alloc: Global, routes: &Routes) -> Result<Vec<Resource>, AllocError>
    ensures { IfOk result (λ list. list.items ≡ on_trees routes.now) }
{
    let mut list = Vec::new(alloc);
    for net in 0..routes.len() {
        list = add_tree(list, routes, net)?;
    }
    Ok(list)
}

/// Copies sorted resources without repetitions.
fn each_once(alloc: Global, sorted: &[Resource]) -> Result<Vec<Resource>, AllocError>
    requires { IsInOrder sorted.now }
    ensures { IfOk result (λ list. ListsAll sorted.now list.items) }
{
    let mut list = Vec::new(alloc);
    for index in 0..sorted.len() {
        if index == 0 || sorted[index - 1].is_before(sorted[index]) {
            list.push(sorted[index])?;
        }
    }
    Ok(list)
}

/// Lists the pins and wires of the routes, and these pads, in node order, each once. Fails with
/// [`AllocError`] if memory runs out.
pub fn list_resources(
    alloc: Global,
    routes: &Routes,
    pads: &[Resource],
) -> Result<Vec<Resource>, AllocError>
    ensures { IfOk result (λ list. ListsAll (on_trees routes.now ++ pads.now) list.items) }
{
    let mut all = on_trees(alloc, routes)?;
    all.extend_from_slice(pads)?;
    all.sort_unstable();
    each_once(alloc, all.as_slice())
}
