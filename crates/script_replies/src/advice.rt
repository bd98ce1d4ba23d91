//! What refusals mean, in words.

/// What a refusal or a failed routing means, and what may be done.
#[derive(Clone, Copy)]
pub enum Advice {
    Operator(OperatorAdvice),
    Tenant(TenantAdvice),
    State(StateAdvice),
    Netlist(NetlistAdvice),
    Session(SessionAdvice),
    Routing(RoutingAdvice),
}

impl Advice {
    /// The advice in words.
    pub fn words(self) -> &'static str {
        match self {
            Advice::Operator(advice) => advice.words(),
            Advice::Tenant(advice) => advice.words(),
            Advice::State(advice) => advice.words(),
            Advice::Netlist(advice) => advice.words(),
            Advice::Session(advice) => advice.words(),
            Advice::Routing(advice) => advice.words(),
        }
    }
}

/// The operator's refusals 1 to 7, and the outcomes of a step.
#[derive(Clone, Copy)]
pub enum OperatorAdvice {
    NoMemory,
    NoRoom,
    TooManyStrips,
    BadWidth,
    NoSuchTenancy,
    IdsSpent,
    NameInUse,
    StepLacksMemory,
    JournalFull,
}

impl OperatorAdvice {
    /// The advice in words.
    pub fn words(self) -> &'static str {
        match self {
            OperatorAdvice::NoMemory => { "out of memory; nothing has changed: try again" }
            OperatorAdvice::NoRoom => {
                "there are not enough adjacent free columns with a free column on each side: ask for a narrower strip, evict or move a tenancy, or use more --columns"
            }
            OperatorAdvice::TooManyStrips => {
                "there are 64 tenancies, the most that a device can have: evict one"
            }
            OperatorAdvice::BadWidth => { "a width is a number from 1 to --columns" }
            OperatorAdvice::NoSuchTenancy => {
                "there is no tenancy with this name: it was never admitted, its admission was refused, or it was evicted"
            }
            OperatorAdvice::IdsSpent => {
                "65,535 tenancies have been admitted, the most in one run: start a new run"
            }
            OperatorAdvice::NameInUse => {
                "a tenancy already has this name: choose another name, or evict it first"
            }
            OperatorAdvice::StepLacksMemory => {
                "out of memory during the step; the job has been given back: try again"
            }
            OperatorAdvice::JournalFull => {
                "the tenancy's journal is full (65,536 entries), so its commands are refused: evict it and admit it again"
            }
        }
    }
}

/// A tenant's refusals 1 to 7, except the netlist's faults and the wrong states.
#[derive(Clone, Copy)]
pub enum TenantAdvice {
    NoMemory,
    JournalFull,
    CannotPack,
    TooFewBlocks,
    TooFewPads,
    BadEffort,
}

impl TenantAdvice {
    /// The advice in words.
    pub fn words(self) -> &'static str {
        match self {
            TenantAdvice::NoMemory => { "out of memory; nothing has changed: try again" }
            TenantAdvice::JournalFull => {
                "the tenancy's journal is full (65,536 entries), so its commands are refused: evict it and admit it again"
            }
            TenantAdvice::CannotPack => {
                "this BLE has more input nets than a block has input pins: use smaller tables in synthesis (abc -lut), or more pins of class 0"
            }
            TenantAdvice::TooFewBlocks => {
                "the strip has fewer logic blocks (the first number) than the netlist needs (the second): use a wider strip, more --rows, or bigger clusters"
            }
            TenantAdvice::TooFewPads => {
                "the strip has fewer pads (the first number) than the netlist needs (the second): use a wider strip, or fewer ports"
            }
            TenantAdvice::BadEffort => { "an effort is a number from 0 to 100" }
        }
    }
}

/// The states in which a command is refused.
#[derive(Clone, Copy)]
pub enum StateAdvice {
    Empty,
    Loaded,
    Packed,
    Placed,
    Routed,
    Unrouted,
    /// Packing, Placing or Routing.
    Running,
}

impl StateAdvice {
    /// The advice in words.
    pub fn words(self) -> &'static str {
        match self {
            StateAdvice::Empty => {
                "there is no netlist: `upload` one first; if the upload was refused, correct the netlist"
            }
            StateAdvice::Loaded => {
                "the netlist is not packed yet: `pack` first, or `change` to another netlist"
            }
            StateAdvice::Packed => {
                "the netlist is packed but not placed yet: `place` first, or `change` to another netlist"
            }
            StateAdvice::Placed => {
                "the netlist is placed but not routed yet: `route` first, or `change` to another netlist"
            }
            StateAdvice::Routed => {
                "the netlist is already routed: `place` again before another `route`, or `change` to another netlist"
            }
            StateAdvice::Unrouted => {
                "routing found no routes for this placement: `place` again, and then `route`"
            }
            StateAdvice::Running => "a job is running: `wait` for it first, or `cancel` it",
        }
    }
}

/// A session's refusals 1 to 4.
#[derive(Clone, Copy)]
pub enum SessionAdvice {
    UnknownCommand,
    BadNumber,
    UnfinishedUpload,
    Evicted,
}

impl SessionAdvice {
    /// The advice in words.
    pub fn words(self) -> &'static str {
        match self {
            SessionAdvice::UnknownCommand => {
                "an unknown command, too many words, or a line longer than 4,096 bytes"
            }
            SessionAdvice::BadNumber => { "`place SEED EFFORT` takes exactly two decimal numbers" }
            SessionAdvice::UnfinishedUpload => {
                "no line `.` ends the text, so all lines after it belong to it"
            }
            SessionAdvice::Evicted => {
                "there is no tenancy with this name: it was never admitted, its admission was refused, or it was evicted"
            }
        }
    }
}

/// How a routing without routes ended.
#[derive(Clone, Copy)]
pub enum RoutingAdvice {
    GaveUp,
    NoPath,
}

impl RoutingAdvice {
    /// The advice in words.
    pub fn words(self) -> &'static str {
        match self {
            RoutingAdvice::GaveUp => {
                "after 30 iterations, several nets still use the same wire: place again with another seed or more effort, or use a wider strip or more --tracks"
            }
            RoutingAdvice::NoPath => {
                "there is no path from this net's driver to one of its sinks, even without the other nets: raise Fc_output or Fc_input, or use more --tracks"
            }
        }
    }
}

/// The usual causes of a netlist's faults 1 to 12.
#[derive(Clone, Copy)]
pub enum NetlistAdvice {
    Unknown,
    BadCover,
    MixedCover,
    TooWide,
    TwoDrivers,
    Undriven,
    RepeatedOutput,
    BadLatch,
    NoModel,
    OverLimit,
    NotAscii,
    LineTooLong,
}

impl NetlistAdvice {
    /// The advice in words.
    pub fn words(self) -> &'static str {
        match self {
            NetlistAdvice::Unknown => {
                "a line that this service does not support, such as .subckt, .gate, .attr, a second .model, or text after .end: use synth -flatten and abc -lut, and write_blif without -gates, -attr, -param, -cname, -conn"
            }
            NetlistAdvice::BadCover => {
                "a row of a table does not have one character for each input, or has characters other than 0, 1 and -: write the file with write_blif"
            }
            NetlistAdvice::MixedCover => {
                "a table has rows with output 0 and rows with output 1: keep only one kind"
            }
            NetlistAdvice::TooWide => {
                "a table has more inputs than subblock_lut_size: use abc -lut with that number"
            }
            NetlistAdvice::TwoDrivers => {
                "this net has two drivers: two assignments, or an input port that is also driven inside the module"
            }
            NetlistAdvice::Undriven => {
                "nothing drives this net: use setundef -undriven -zero; for $false, $true or $undef use write_blif without -impltf"
            }
            NetlistAdvice::RepeatedOutput => "this net is listed twice in .outputs: list it once",
            NetlistAdvice::BadLatch => {
                "a latch with an unknown type or initial value: use dfflegalize -cell $_DFF_P_ 01"
            }
            NetlistAdvice::NoModel => {
                "the first line is not .model, or the netlist is empty: check whether synthesis succeeded"
            }
            NetlistAdvice::OverLimit => {
                "more than 8,192 nets, or a text larger than 1 MiB (line 0): use a smaller module"
            }
            NetlistAdvice::NotAscii =>
                "letters with accents, or curly quotes: use plain ASCII names",
            NetlistAdvice::LineTooLong =>
                "a joined line is longer than 262,144 bytes: use write_blif, which breaks long lines",
        }
    }
}
