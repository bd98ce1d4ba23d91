//! What the words are about.
use arch_file::Arch;
use blif::Circuit;
use layouts::Layout;

/// A layout with its circuit and its architecture, and the rows of its strip.
#[derive(Clone, Copy)]
pub struct Subject<'a> {
    pub circuit: &'a Circuit,
    pub arch: &'a Arch,
    pub layout: &'a Layout,
    pub rows: u32,
}
