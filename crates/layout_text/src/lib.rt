//! The three result files as the printing of a layout.
//!
//! `net_text`, `place_text` and `route_text` of `specs/LayoutText.antt` print a `Layout` of
//! `implements`. `printed_results`: the `.net`, `.place` and `.route` files of a packed, placed and
//! routed circuit are the printing of its layout. So what is proved of the layout is what the files
//! say.
#![tactic(auto)]

mod law;

pub use law::printed_results;
