//! A page: one HTML file that shows texts, with nothing from outside.
//!
//! The page is a fixed text, the [`viewer`], around the texts that it shows, each an [`PageItem`].
//! Its script reads the texts out of hidden elements, and builds what it shows from them as text
//! alone.
//!
//! [`write_page`] writes exactly the viewer's head, the items and the viewer's tail, [`write_item`]
//! one item, and each byte of an item as [`write_shown`] does. [`texts_are_inert`] is the law that
//! nothing in such a text is markup: whatever names and lines the items have, no element, attribute
//! or script begins or ends in them. What the viewer's script does is not proved; `bench/page`
//! tries it in a browser.
#![tactic(auto)]

mod fixed_text;
mod law;
mod page;
mod shown;

pub use fixed_text::viewer;
pub use law::texts_are_inert;
pub use page::{PageItem, Viewer, write_item, write_page};
pub use shown::write_shown;
