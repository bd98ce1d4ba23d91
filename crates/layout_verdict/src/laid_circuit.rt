//! A circuit with its layout.
use arch_file::Arch;
use blif::Circuit;
use grid::Strip;
use layouts::Layout;

/// A circuit and its layout, on a strip of an architecture.
#[derive(Drop)]
pub struct LaidCircuit {
    pub arch: Arch,
    pub circuit: Circuit,
    pub strip: Strip,
    pub layout: Layout,
}
