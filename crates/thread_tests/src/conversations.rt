//! Four sessions, each of which packs, places and routes a circuit on a device of one row and two
//! tracks, and asks for its files; and the replies that each has alone, which follow from the
//! formats of the files.

/// What a session says, and the replies that it has alone.
#[derive(Clone, Copy)]
pub(crate) struct Conversation {
    /// The columns of its strip.
    pub(crate) width: u32,
    pub(crate) said: &'static str,
    pub(crate) told: &'static str,
}

/// The number of pins, wires and pads that the four circuits own in the end.
pub(crate) const OWNED: usize = 38;

/// The four sessions.
pub(crate) const FOUR: [Conversation; 4] = [LOGIC, LATCH_AND_OUTPUT, LATCH_ALONE, EMPTY];

/// A table with two inputs.
const LOGIC: Conversation = Conversation {
    width: 1,
    said: "\
upload
.model t
.inputs a b
.outputs f
.names a b f
11 1
.end
.
pack
wait
place 5 0
wait
route
wait
net
placefile
routefile
",
    told: "\
ok Loaded
ok Packing
status Packed 0
ok Placing
status Placed 0
ok Routing
status Routed 0
text net 119
.input a
pinlist: a

.input b
pinlist: b

.output out:f
pinlist: f

.clb f
pinlist: a b f open
subblock: f 0 1 2 open

text place 203
Netlist file: t.net Architecture file: device.arch
Array size: 1 x 1 logic blocks

#block name x y subblk block number
#---------- - - ------ ------------
a 1 0 0 #0
b 1 0 1 #1
out:f 1 2 0 #2
f 1 1 0 #3
text route 391
Array size: 1 x 1 logic blocks.

Routing:

Net 0 (a)

SOURCE (1,0) Pad: 0
OPIN (1,0) Pad: 0
CHANX (1,0) Track: 1
CHANY (0,1) Track: 1
IPIN (1,1) Pin: 1
SINK (1,1) Class: 0

Net 1 (b)

SOURCE (1,0) Pad: 1
OPIN (1,0) Pad: 1
CHANX (1,0) Track: 0
IPIN (1,1) Pin: 0
SINK (1,1) Class: 0

Net 2 (f)

SOURCE (1,1) Class: 1
OPIN (1,1) Pin: 2
CHANX (1,1) Track: 0
IPIN (1,2) Pad: 0
SINK (1,2) Pad: 0

",
};

/// A table that a latch and an output read.
const LATCH_AND_OUTPUT: Conversation = Conversation {
    width: 2,
    said: "\
upload
.model r
.inputs a c
.outputs q f
.names a f
1 1
.latch f q re c 0
.
pack
wait
place 5 0
wait
route
wait
net
placefile
routefile
",
    told: "\
ok Loaded
ok Packing
status Packed 0
ok Placing
status Placed 0
ok Routing
status Routed 0
text net 213
.global c

.input a
pinlist: a

.input c
pinlist: c

.output out:q
pinlist: q

.output out:f
pinlist: f

.clb f
pinlist: a open f open
subblock: f 0 open 2 open

.clb q
pinlist: f open q c
subblock: q 0 open 2 3

text place 229
Netlist file: r.net Architecture file: device.arch
Array size: 2 x 1 logic blocks

#block name x y subblk block number
#---------- - - ------ ------------
a 1 0 0 #0
c 1 0 1 #1
out:q 1 2 0 #2
out:f 1 2 1 #3
f 1 1 0 #4
q 2 1 0 #5
text route 553
Array size: 2 x 1 logic blocks.

Routing:

Net 0 (a)

SOURCE (1,0) Pad: 0
OPIN (1,0) Pad: 0
CHANX (1,0) Track: 0
IPIN (1,1) Pin: 0
SINK (1,1) Class: 0

Net 1 (c): global net connecting:

Block c (#1) at (1,0).
Block q (#5) at (2,1).

Net 2 (f)

SOURCE (1,1) Class: 1
OPIN (1,1) Pin: 2
CHANX (1,1) Track: 1
IPIN (1,2) Pad: 1
SINK (1,2) Pad: 1
CHANX (1,1) Track: 1
CHANY (1,1) Track: 1
IPIN (2,1) Pin: 1
SINK (2,1) Class: 0

Net 3 (q)

SOURCE (2,1) Class: 1
OPIN (2,1) Pin: 2
CHANX (2,1) Track: 0
CHANX (1,1) Track: 0
IPIN (1,2) Pad: 0
SINK (1,2) Pad: 0

",
};

/// A table that a latch alone reads.
const LATCH_ALONE: Conversation = Conversation {
    width: 1,
    said: "\
upload
.model r
.inputs a c
.outputs q
.names a f
1 1
.latch f q re c 0
.
pack
wait
place 5 0
wait
route
wait
net
placefile
routefile
",
    told: "\
ok Loaded
ok Packing
status Packed 0
ok Placing
status Placed 0
ok Routing
status Routed 0
text net 130
.global c

.input a
pinlist: a

.input c
pinlist: c

.output out:q
pinlist: q

.clb q
pinlist: a open q c
subblock: q 0 open 2 3

text place 203
Netlist file: r.net Architecture file: device.arch
Array size: 1 x 1 logic blocks

#block name x y subblk block number
#---------- - - ------ ------------
a 1 0 0 #0
c 1 0 1 #1
out:q 1 2 0 #2
q 1 1 0 #3
text route 343
Array size: 1 x 1 logic blocks.

Routing:

Net 0 (a)

SOURCE (1,0) Pad: 0
OPIN (1,0) Pad: 0
CHANX (1,0) Track: 0
IPIN (1,1) Pin: 0
SINK (1,1) Class: 0

Net 1 (c): global net connecting:

Block c (#1) at (1,0).
Block q (#3) at (1,1).

Net 2 (q)

SOURCE (1,1) Class: 1
OPIN (1,1) Pin: 2
CHANX (1,1) Track: 0
IPIN (1,2) Pad: 0
SINK (1,2) Pad: 0

",
};

/// An empty circuit.
const EMPTY: Conversation = Conversation {
    width: 1,
    said: "\
upload
.model e
.end
.
pack
wait
place 5 0
wait
route
wait
net
placefile
routefile
",
    told: "\
ok Loaded
ok Packing
status Packed 0
ok Placing
status Placed 0
ok Routing
status Routed 0
text net 0
text place 155
Netlist file: e.net Architecture file: device.arch
Array size: 1 x 1 logic blocks

#block name x y subblk block number
#---------- - - ------ ------------
text route 43
Array size: 1 x 1 logic blocks.

Routing:

",
};
