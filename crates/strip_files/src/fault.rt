//! Why a file is refused.
use line_text::TextError;
use std::fmt;

/// Which of the three files.
#[derive(Clone, Copy, PartialEq, Eq)]
pub enum File {
    Net,
    Place,
    Route,
}

/// What is wrong with a line.
#[derive(Clone, Copy, PartialEq, Eq)]
pub enum Fault {
    /// The line isn't one of those that may be there.
    UnknownLine,
    /// A malformed size, or one above 256 columns or 64 rows.
    BadSize,
    /// A size different from the `.place` file's.
    OtherSize,
    /// A block's line with malformed numbers.
    BadBlock,
    /// A block different from the `.net` file's with that number.
    OtherBlock,
    /// A block, a net or a node that does not follow the previous one, by its number.
    OutOfOrder,
    /// A net's line with a malformed number or name.
    BadNet,
    /// A node's line with malformed words or numbers.
    BadNode,
    /// A place, pin or wire that the strip does not have.
    NotThere,
    /// More blocks or nets than a tenancy may have.
    OverLimit,
    /// The file ends before it is complete.
    Unfinished,
    /// A size different from that of the strip.
    OtherStrip,
    /// A block that the `.place` file does not have, or has with another name.
    OtherPlaced,
    /// A name that no net of the netlist has.
    UnknownNet,
    /// A BLE's line with malformed words.
    BadElement,
    /// The line of a block of a global net, with a malformed number.
    BadListed,
    /// A path before this line whose last node is not a sink.
    OpenPath,
    /// A node to which no edge leads from the node before, or at which no path of the net begins.
    NoStep,
    /// A net with the name of an earlier one.
    RepeatedNet,
    /// A net on a pin that the `.route` file does not have.
    NoRoute,
    /// A net whose route does not lead between just the blocks that have it on a pin.
    OtherEnds,
    /// A source of a logic block that is not of class 1, or a sink that is not of class 0.
    WrongClass,
    /// A net whose route leads to a node in two ways.
    TwoWays,
    /// A net whose route has two output pins.
    TwoPins,
    /// A net whose route has a wire or a pin of an earlier net's.
    SharedNode,
    /// A line different from the one that the service writes of what was read.
    OtherText,
}

impl Fault {
    /// The fault in words.
    fn text(self) -> &'static str {
        match self {
            Fault::UnknownLine => "this line is not allowed here",
            Fault::BadSize => "not a size: 1 to 256 columns and 1 to 64 rows",
            Fault::OtherSize => "not the size of the .place file",
            Fault::BadBlock => "not a block's line: NAME COLUMN ROW PAD #NUMBER",
            Fault::OtherBlock => "the .net file has another block with this number",
            Fault::OutOfOrder => "its number is not the next one",
            Fault::BadNet => "not a net's line: Net NUMBER (NAME)",
            Fault::BadNode => "not a node's line: KIND (COLUMN,ROW) WORD NUMBER",
            Fault::NotThere => "the strip has no such location",
            Fault::OverLimit => "more blocks or nets than a tenancy may have",
            Fault::Unfinished => "the file ends too early",
            Fault::OtherStrip => "not the size of the strip",
            Fault::OtherPlaced => "the .place file has another block of that number, or none",
            Fault::UnknownNet => "the netlist has no net of that name",
            Fault::BadElement => "not a BLE's line: subblock: NAME INPUT .. OUTPUT CLOCK",
            Fault::BadListed => "not a block's line: Block NAME (#NUMBER) at (COLUMN,ROW).",
            Fault::OpenPath => "the path before it ends at no sink",
            Fault::NoStep => "no edge leads here from the node before, and no path begins here",
            Fault::RepeatedNet => "an earlier net has this name",
            Fault::NoRoute => "the .route file has no net of that name",
            Fault::OtherEnds =>
                "its route does not join just the blocks that have this net on a pin",
            Fault::WrongClass =>
                "its route has a SOURCE of another class than 1, or a SINK of another class than 0",
            Fault::TwoWays => "its route leads to one node in two ways",
            Fault::TwoPins => "its route has two output pins",
            Fault::SharedNode => "its route has a wire or a pin of an earlier net",
            Fault::OtherText =>
                "not what the service writes of this layout: a name, number, place or blank differs",
        }
    }
}

/// The first line of a file that is refused, counted from 1.
#[derive(Clone, Copy, PartialEq, Eq)]
pub struct FileFault {
    pub file: File,
    pub line: usize,
    pub fault: Fault,
}

impl fmt::Display for FileFault {
    fn fmt<W: fmt::Write>(&self, f: &mut fmt::Formatter<W>) -> fmt::Result {
        let file = match self.file {
            File::Net => ".net",
            File::Place => ".place",
            File::Route => ".route",
        };
        let line = self.line;
        let text = self.fault.text();
        write!(f, "{file} line {line}: {text}")
    }
}

/// The error of a line as the error of a file.
pub(crate) fn in_file(error: TextError<Fault>, file: File, line: usize) -> TextError<FileFault> {
    match error {
        TextError::NoMemory => TextError::NoMemory,
        TextError::Fault(fault) => TextError::Fault(FileFault { file, line, fault }),
    }
}
