//! The planes of a strip's routing graph, one for each track.
//!
//! In a strip's fabric the switch blocks keep the track, so a path never leaves the track of its
//! first wire. [`planes_law`] says that the routing graph consists of planes, one for each track,
//! as the crate `plane_search` takes them: the wires of the track, with the source of a net and its
//! output pins before them, and with the input pins and the sink after them.
//!
//! A node's place in its plane is told by its column, its kind and its row, so all planes have the
//! same places, in node order. A [`Layout`] has tables by place and by difference of places. It is
//! made once for a graph: a [`KeptLayout`] keeps it for later graphs with the same architecture and
//! strip. A [`PriceTable`] has the prices of wires at costs that change, and a [`PricedGraph`] is a
//! graph with all these. [`NetPlanes`] are the planes at current costs, from a net's starts towards
//! a sink, and a [`NetSearch`] finds the least path through them. Costs come from a trait,
//! [`NodeCosts`]; nothing here knows negotiation.
#![tactic(auto)]

mod aheads;
mod arrival_rows;
mod bound_rows;
mod bounded_planes;
mod bounds;
mod costs;
mod distances;
mod ends;
mod input_sides;
mod kept_layout;
mod known_rivals;
mod labels;
mod laws;
mod layout;
mod made_layout;
mod net_ends;
mod net_planes;
mod net_search;
mod net_starts;
mod net_tables;
mod pin_bounds;
mod pin_rows;
mod pins;
mod plane_place;
mod price_table;
mod priced_graph;
mod quest;
mod rival_bounds;
mod rivals;
mod shape;
mod shaped_graph;
mod shown;
mod side;
mod side_bounds;
mod side_places;
mod steps;
mod strip_planes;
mod untold_prices;
mod wire_bounds;

pub use bounded_planes::BoundedPlanes;
pub use bounds::Bounds;
pub use costs::NodeCosts;
pub use kept_layout::KeptLayout;
pub use labels::labels_law;
pub use laws::{paths_law, planes_law, sides_law, ways_law};
pub use layout::Layout;
pub use net_planes::NetPlanes;
pub use net_search::{NetSearch, Wanted};
pub use net_starts::{NetStarts, StartWire};
pub use net_tables::NetTables;
pub use pins::PinAt;
pub use price_table::PriceTable;
pub use priced_graph::PricedGraph;
pub use rivals::{Head, heads_law, starts_law};
pub use shape::Shape;
