//! The drawing of the nodes of a route: lines for adjoining wires, and lines from pins to wires.
ghost use Rattle.std.specs.Prelude.{◌-◌, ◌+◌, ◌≤◌};
ghost use Rattle.arch_file.specs.declared.arch.TheConstants.{MAX_PINS};
ghost use Rattle.grid.specs.declared.TheConstants.{MAX_COLUMNS};

use crate::plan::Plan;
use picture_lines::Direction;
use rr_graph::{Node, NodeKind};
use strip_files::RouteNode;

/// Wires of one track in one channel, each beside the next one.
#[derive(Clone, Copy)]
pub(crate) struct Run {
    pub(crate) direction: Direction,
    /// The channel: its row if it is horizontal, otherwise its column.
    pub(crate) channel: u32,
    pub(crate) track: u32,
    /// The least column, or row, of a wire.
    pub(crate) first: u32,
    /// The largest.
    pub(crate) last: u32,
    ghost channel_small: { channel ≤ MAX_COLUMNS },
    ghost track_small: { track ≤ MAX_PINS - 1 },
    ghost first_small: { first ≤ last },
    ghost last_small: { last ≤ MAX_COLUMNS },
}

impl Run {
    /// The run of one wire; `None` if the node isn't a wire.
    fn of(read: RouteNode) -> Option<Run> {
        let Node { x, kind, y, n } = read.node;
        let (direction, channel, along) = match kind {
            NodeKind::ChanX => (Direction::Across, y, x),
            NodeKind::ChanY => (Direction::Up, x, y),
            _ => return None,
        };
        Some(Run {
            direction,
            channel,
            track: n,
            first: along,
            last: along,
        })
    }

    /// These wires and that one; `None` if it adjoins neither end and isn't one of them.
    fn with(self, wire: Run) -> Option<Run> {
        let adjoins = wire.first <= self.last + 1 && self.first <= wire.last + 1;
        let same = self.direction == wire.direction && self.channel == wire.channel;
        if !adjoins || !same || self.track != wire.track {
            return None;
        }
        Some(Run {
            direction: self.direction,
            channel: self.channel,
            track: self.track,
            first: self.first.min(wire.first),
            last: self.last.max(wire.last),
        })
    }

    /// The number of wires.
    pub(crate) fn count(self) -> u32
        ensures { result ≤ MAX_COLUMNS + 1 }
    {
        self.last - self.first + 1
    }
}

/// A line from a wire to a pin, from its end at the wire.
#[derive(Clone, Copy)]
pub(crate) struct Stub {
    pub(crate) x: u32,
    pub(crate) y: u32,
    /// The command for its direction.
    pub(crate) command: &'static str,
    pub(crate) length: u32,
}

/// What ends at a node.
#[derive(Clone, Copy)]
pub(crate) struct Step {
    /// The run that grows no more.
    pub(crate) run: Option<Run>,
    /// The line between this node and the previous one, if one is a pin and the other a wire beside
    /// it.
    pub(crate) stub: Option<Stub>,
}

/// A way along the nodes of a route.
#[derive(Clone, Copy)]
pub(crate) struct Walk {
    plan: Plan,
    run: Option<Run>,
    before: Option<RouteNode>,
}

impl Walk {
    /// Before the first node.
    pub(crate) fn new(plan: Plan) -> Self {
        Walk {
            plan,
            run: None,
            before: None,
        }
    }

    /// Moves on to a node.
    pub(crate) fn step(&mut self, read: RouteNode) -> Step {
        let stub = match self.before {
            Some(before) => stub_between(self.plan, before, read),
            None => None,
        };
        self.before = Some(read);
        let run = self.wire(Run::of(read));
        Step { run, stub }
    }

    /// Moves on to a wire, or to a node that isn't one, and returns the run that grows no more.
    fn wire(&mut self, wire: Option<Run>) -> Option<Run> {
        if let (Some(run), Some(wire)) = (self.run, wire)
            && let Some(longer) = run.with(wire)
        {
            self.run = Some(longer);
            return None;
        }
        let done = self.run;
        self.run = wire;
        done
    }

    /// The run at the end.
    pub(crate) fn rest(&self) -> Option<Run> {
        self.run
    }
}

/// The line between two nodes of a route, if one is a pin and the other a wire.
fn stub_between(plan: Plan, before: RouteNode, read: RouteNode) -> Option<Stub> {
    match (before.node.kind, read.node.kind) {
        (NodeKind::Opin, NodeKind::ChanX | NodeKind::ChanY) => stub_of(plan, before, read),
        (NodeKind::ChanX | NodeKind::ChanY, NodeKind::Ipin) => stub_of(plan, read, before),
        _ => None,
    }
}

/// The line from a wire to a pin; `None` if the wire's channel is not beside the pin's block.
fn stub_of(plan: Plan, pin: RouteNode, wire: RouteNode) -> Option<Stub> {
    if pin.node.y == 0 || pin.node.y > plan.size.rows {
        return pad_stub(plan, pin, wire);
    }
    let offset = 1 + pin.node.n % (plan.lattice.block - 1);
    match wire.node.kind {
        NodeKind::ChanX if wire.node.x == pin.node.x => {
            vertical_stub(
                plan,
                plan.lattice.start(pin.node.x) + offset,
                pin.node.y,
                wire,
            )
        }
        NodeKind::ChanY if wire.node.y == pin.node.y => {
            level(
                plan,
                plan.lattice.start(pin.node.y) + offset,
                pin.node.x,
                wire,
            )
        }
        _ => None,
    }
}

/// The line from a wire to a pad.
fn pad_stub(plan: Plan, pin: RouteNode, wire: RouteNode) -> Option<Stub> {
    if wire.node.kind != NodeKind::ChanX || wire.node.x != pin.node.x {
        return None;
    }
    let middle = plan.pad_start(pin.node.x, pin.node.n) + plan.pad_width() / 2;
    vertical_stub(plan, middle, pin.node.y, wire)
}

/// The vertical line at that column from a wire of a horizontal channel to the block in that row.
fn vertical_stub(plan: Plan, x: u32, row: u32, wire: RouteNode) -> Option<Stub> {
    let (command, length) = reach(plan, row, wire.node.y, wire.node.n, "v-", "v")?;
    Some(Stub {
        x,
        y: plan.lattice.track(wire.node.y, wire.node.n),
        command,
        length,
    })
}

/// The horizontal line at that height from a wire of a vertical channel to the block in that
/// column.
fn level(plan: Plan, y: u32, column: u32, wire: RouteNode) -> Option<Stub> {
    let (command, length) = reach(plan, column, wire.node.x, wire.node.n, "h-", "h")?;
    Some(Stub {
        x: plan.lattice.track(wire.node.x, wire.node.n),
        y,
        command,
        length,
    })
}

/// The direction and length from a track of a channel to the block `place`: back if the channel is
/// right of or above the block, on if it is left of or below it; `None` if it isn't beside the
/// block.
fn reach(
    plan: Plan,
    place: u32,
    channel: u32,
    track: u32,
    back: &'static str,
    on: &'static str,
) -> Option<(&'static str, u32)>
    requires channel { channel ≤ MAX_COLUMNS }
    requires track { track ≤ MAX_PINS - 1 }
{
    if channel == place {
        Some((back, track + 1))
    } else if channel + 1 == place {
        Some((on, plan.lattice.channel.saturating_sub(track + 1)))
    } else {
        None
    }
}
