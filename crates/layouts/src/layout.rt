//! A layout.
ghost use Rattle.std.specs.Prelude.{◌≡◌};

use crate::block::LaidBlock;
use crate::net::LaidNet;
use std::marker::Model;

/// The nets on the global network, the blocks, by number, and the nets between them, by number.
#[derive(Drop)]
pub struct Layout {
    globals: Vec<u32>,
    blocks: Vec<LaidBlock>,
    nets: Vec<LaidNet>,
}

impl Model for Layout {
    ghost use Rattle.implements.specs.Layouts.{Layout as LayoutValue};

    ghost Value = { LayoutValue };

    ghost view = { λ l. record {
      globals = l.globals.items;
      blocks = l.blocks.items;
      nets = l.nets.items;
    } };
}

impl Layout {
    /// The layout of these parts. Takes no memory.
    pub fn new(globals: Vec<u32>, blocks: Vec<LaidBlock>, nets: Vec<LaidNet>) -> Self
        ensures { result ≡ record {
          globals = globals.items;
          blocks = blocks.items;
          nets = nets.items;
        } }
    {
        Layout {
            globals,
            blocks,
            nets,
        }
    }

    /// The nets on the global network, by their numbers in the circuit.
    pub fn globals(&self) -> &[u32]
        ensures { result.now ≡ self.now.globals }
    {
        self.globals.as_slice()
    }

    /// The blocks, by number.
    pub fn blocks(&self) -> &[LaidBlock]
        ensures { result.now ≡ self.now.blocks }
    {
        self.blocks.as_slice()
    }

    /// The nets between blocks, by number, which differs from their numbers in the circuit.
    pub fn nets(&self) -> &[LaidNet]
        ensures { result.now ≡ self.now.nets }
    {
        self.nets.as_slice()
    }
}
