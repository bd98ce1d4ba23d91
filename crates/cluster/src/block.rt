//! Blocks, and the nets between them.

/// A block of a packed circuit.
#[derive(Clone, Copy, PartialEq, Eq)]
pub enum Block {
    /// The pad of this net of the circuit, an input.
    InputPad(u32),
    /// The pad of this net of the circuit, an output.
    OutputPad(u32),
    /// The cluster with this number.
    Cluster(u32),
}

/// The kind of a block: a pad of an input, a pad of an output, or a cluster.
#[derive(Clone, Copy, PartialEq, Eq, PartialOrd, Ord)]
pub enum BlockKind {
    InputPad,
    OutputPad,
    Cluster,
}

/// Identifies a block, whatever its number: its kind and its name. No two blocks of a packed
/// circuit have the same key.
#[derive(Clone, Copy, PartialEq, Eq, PartialOrd, Ord)]
pub struct BlockKey<'a> {
    pub kind: BlockKind,
    /// The name; for an output pad without the `out:`, since the kind already distinguishes it.
    pub name: &'a [u8],
}

/// A net between blocks.
#[derive(Clone, Copy)]
pub struct BlockNet<'a> {
    /// Its number in the circuit.
    pub net: u32,
    /// The block that drives it.
    pub driver: u32,
    /// The other blocks that read it, in order.
    pub readers: &'a [u32],
    /// Whether it controls a latch, and so uses the global network.
    pub global: bool,
}
