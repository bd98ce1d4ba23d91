//! A block of a layout.
ghost use Rattle.std.specs.Prelude.{◌≡◌};
ghost use Rattle.pathfinder.specs.Terminals.{sink_at, source_at, terminal_number};

use crate::ble::LaidBle;
use cluster::Block;
use grid::Place;
use rr_graph::{Node, NodeKind};
use std::marker::Model;

/// A block on its place: a cluster with the net on each of its pins and its BLEs, or a pad.
#[derive(Drop)]
pub struct LaidBlock {
    block: Block,
    pins: Vec<Option<u32>>,
    bles: Vec<LaidBle>,
    place: Place,
}

impl Model for LaidBlock {
    ghost use Rattle.implements.specs.Layouts.{LaidBlock as BlockValue};

    ghost Value = { BlockValue };

    ghost view = { λ b. record {
      block = b.block;
      pins = b.pins.items;
      bles = b.bles.items;
      place = b.place;
    } };
}

impl LaidBlock {
    /// The block of these parts. Takes no memory.
    pub fn new(block: Block, pins: Vec<Option<u32>>, bles: Vec<LaidBle>, place: Place) -> Self
        ensures { result ≡ record {
          block = block;
          pins = pins.items;
          bles = bles.items;
          place = place;
        } }
    {
        LaidBlock {
            block,
            pins,
            bles,
            place,
        }
    }

    /// Which block it is: the pad of an input or of an output, or the cluster with a number.
    pub fn block(&self) -> Block
        ensures { result ≡ self.now.block }
    {
        self.block
    }

    /// The net on each pin, by the pin's number; `None` if the pin is open. A pad has no pins.
    pub fn pins(&self) -> &[Option<u32>]
        ensures { result.now ≡ self.now.pins }
    {
        self.pins.as_slice()
    }

    /// Its BLEs, in order.
    pub fn bles(&self) -> &[LaidBle]
        ensures { result.now ≡ self.now.bles }
    {
        self.bles.as_slice()
    }

    /// Its place on the strip.
    pub fn place(&self) -> Place
        ensures { result ≡ self.now.place }
    {
        self.place
    }
    /// The node at which the block drives a net.
    pub fn source(&self) -> Node
        ensures { result ≡ source_at self.now.block self.now.place }
    {
        self.terminal(NodeKind::Source, 1)
    }

    /// The node at which the block reads nets.
    pub fn sink(&self) -> Node
        ensures { result ≡ sink_at self.now.block self.now.place }
    {
        self.terminal(NodeKind::Sink, 0)
    }

    /// The block's source or sink, for the pins of that class. A pad has one for itself.
    fn terminal(&self, kind: NodeKind, class: u32) -> Node
        ensures { result ≡ record {
          x = self.now.place.x;
          kind = kind;
          y = self.now.place.y;
          n = terminal_number self.now.block self.now.place class;
        } }
    {
        Node {
            x: self.place.x,
            kind,
            y: self.place.y,
            n: match self.block {
                Block::Cluster(_) => class,
                Block::InputPad(_) | Block::OutputPad(_) => self.place.subblock,
            },
        }
    }
}
