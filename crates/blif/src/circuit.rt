//! The meaning of a netlist.

use crate::latches::Latches;
use crate::net_names::NetNames;
use crate::nets::Nets;
use crate::tables::Tables;
use line_text::Text;

/// The largest number of nets of a circuit.
pub const MAX_NETS: usize = 8192;

/// A circuit of lookup tables and latches (Berkeley Logic Interchange Format). Nets are numbered
/// from 0 in the order in which they first appear; tables and latches are in the order of their
/// lines.
#[derive(Drop)]
pub struct Circuit {
    /// The model's name.
    pub model: Text,
    /// The names of the nets, each once.
    pub nets: NetNames,
    /// The nets that are driven from outside.
    pub inputs: Nets,
    /// The nets that are read outside.
    pub outputs: Nets,
    pub tables: Tables,
    pub latches: Latches,
}
