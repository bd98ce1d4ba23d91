//! How full the device is, from what the service's program printed for `op list` and `op owners`,
//! as [`device_lines::read_device`] reads it.
//!
//! A [`Report`] has for each tenancy how many of its strip's blocks, pads and wires are used; for
//! the device how many columns are used, are guard columns and are free, the widest strip that
//! would be admitted now, and the ten fullest channels. [`write_report`] writes it to a
//! [`line_text::Sink`], in small pieces, so the sink should have a buffer. Only a routed tenancy
//! owns anything, so `-` is written for what another one uses.
//!
//! It is proved that each number is the count over what was read, that the widest strip is the
//! widest that fits by the service's own rule, that the channels are the first ten of all, the
//! fuller one first, and that what is written is the text of these.
#![tactic(auto)]

mod channels;
mod columns;
mod report;
mod tenancies;
mod text;
mod widest;

pub use channels::{ChannelDirection, ChannelUse, MAX_SHOWN};
pub use columns::{ColumnUse, is_beside_any, is_used};
pub use report::Report;
pub use tenancies::{ResourceUse, TenancyUse};
pub use text::{channel_word, used_part, write_channel, write_report};
pub use widest::{Room, is_apart_from_all};
