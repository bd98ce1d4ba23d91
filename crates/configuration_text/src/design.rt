//! What a configuration is made of.

use arch_file::Arch;
use blif::Circuit;
use grid::Strip;
use layouts::Layout;
use line_text::Lines;

/// A layout of a circuit, with the lines of the netlist that the circuit was read from.
#[derive(Clone, Copy)]
pub struct Design<'a> {
    pub netlist: &'a Lines<'a>,
    pub circuit: &'a Circuit,
    pub arch: &'a Arch,
    pub strip: Strip,
    pub layout: &'a Layout,
}
