//! What is wrong with a layout.
use rr_graph::Node;

/// What is wrong with the paths of a net.
#[derive(Clone, Copy)]
pub enum RouteFault {
    /// The strip doesn't have this node.
    NoNode(Node),
    /// A path leads from the first node to the second, and no edge of the strip does.
    NoEdge(Node, Node),
    /// A path leads from this node into the net's source.
    IntoSource(Node),
    /// Paths lead from the first and from the second node to the third.
    TwoWays(Node, Node, Node),
    /// The net's source isn't on a path.
    NoSource,
    /// The paths don't lead from the net's source to this node.
    NotReached(Node),
    /// No output pin is on a path.
    NoPin,
    /// Two output pins are on paths.
    TwoPins(Node, Node),
    /// This sink of the net isn't on a path.
    NoSink(Node),
    /// Paths lead on from this sink of the net.
    LeadsOn(Node),
    /// The paths end at this node, and it isn't a sink of the net.
    EndsAt(Node),
    /// A net without sinks has a path with this node.
    NotEmpty(Node),
}

/// What is wrong with the entry of a net between blocks.
#[derive(Clone, Copy)]
pub enum EntryFault {
    /// No block drives the net.
    NoDriver,
    /// Two blocks drive the net.
    TwoDrivers(usize, usize),
    /// This block drives the net, and the blocks that are listed with the net aren't those at which
    /// it is wanted.
    Listed(usize),
    /// This block drives the net, and the paths aren't the net's tree.
    Paths(usize, RouteFault),
}

/// What is wrong with the nets between blocks.
#[derive(Clone, Copy)]
pub enum NetFault {
    /// The entry with this number has a fault.
    Entry(usize, EntryFault),
    /// More nets use this node than it can carry.
    Overused(Node),
}

/// What is wrong with a BLE.
#[derive(Clone, Copy)]
pub enum BleFault {
    /// It has more inputs than a table.
    TooManyInputs,
    /// No net comes to the input with this number.
    NoInput(usize),
    /// No net comes to its clock pin.
    NoClock,
    /// Its output pin doesn't carry what it drives.
    WrongOutput,
}

/// What is wrong with a block by itself.
#[derive(Clone, Copy)]
pub enum BlockFault {
    /// The strip has no such place for it.
    NoPlace,
    /// It has more BLEs than there is room for.
    TooManyBles,
    /// The BLE with this number has a fault.
    Ble(usize, BleFault),
}

/// What is wrong with the nets that a BLE receives, against the nets that it should receive.
#[derive(Clone, Copy)]
pub enum ReadFault {
    /// It doesn't receive this net, and should.
    Lacks(u32),
    /// It receives this net, and shouldn't.
    Extra(u32),
    /// It receives this net at two of its inputs.
    Twice(u32),
}

/// Why a BLE holds no table and no latch: it is not a table of the circuit, nor a latch, nor a
/// table with the latch that alone reads it. The numbers are those of tables and latches in the
/// circuit.
#[derive(Clone, Copy)]
pub enum HoldFault {
    /// No table and no latch drives the net that the BLE drives.
    NotDriven,
    /// The BLE drives what this table drives, and it has a clock.
    Clocked(usize),
    /// The BLE drives what this table drives, and doesn't receive just what the table reads.
    Table(usize, ReadFault),
    /// The BLE drives what this latch drives, and its clock isn't the latch's control.
    WrongClock(usize),
    /// The BLE drives what this latch drives, and doesn't receive just the latch's data, which no
    /// table drives.
    Latch(usize, ReadFault),
    /// A table drives the data of a latch (first the table, then the latch). The BLE drives what
    /// the latch drives; it doesn't receive just the latch's data, nor just what the table reads.
    Pair(usize, usize, ReadFault),
    /// The BLE is a table with a latch (first the table, then the latch), and not the latch alone
    /// reads what the table drives.
    ReadElsewhere(usize, usize),
}

/// Which BLE of a layout it is: the number of its block, and its own number in the block.
#[derive(Clone, Copy)]
pub struct BleNumber {
    pub block: usize,
    pub ble: usize,
}

/// What is wrong with a layout.
#[derive(Clone, Copy)]
pub enum Wrong {
    /// The block with this number has a fault by itself.
    Block(usize, BlockFault),
    /// These two blocks have one place.
    SamePlace(usize, usize),
    /// The input pads aren't the circuit's inputs, in order.
    Inputs,
    /// The output pads aren't the circuit's outputs, in order.
    Outputs,
    /// This net is on the global network, and controls no latch.
    NotGlobal(u32),
    /// The control of the latch with this number isn't on the global network.
    LeftOut(usize),
    /// These two entries are of one net.
    SameNet(usize, usize),
    /// At the block with this number a net is wanted that has no entry.
    NoEntry(usize),
    /// The circuit drives this net twice, or doesn't have it. No circuit that is read from a
    /// netlist does so.
    Unlawful(u32),
    /// This BLE holds no table and no latch.
    Ble(BleNumber, HoldFault),
    /// Two BLEs hold the table with this number.
    TableTwice(usize, BleNumber, BleNumber),
    /// No BLE holds the table with this number.
    NoTable(usize),
    /// Two BLEs hold the latch with this number.
    LatchTwice(usize, BleNumber, BleNumber),
    /// No BLE holds the latch with this number.
    NoLatch(usize),
    /// The nets between blocks have a fault.
    Net(NetFault),
}
