//! Why there is no layout to read.
use std::fmt;
use strip_files::FileFault;

/// Why a netlist or its files are refused.
#[derive(Clone, Copy, PartialEq, Eq)]
pub enum LayoutFault {
    /// The netlist has a net called `open`, the word for a pin without a net.
    NetCalledOpen,
    /// A line of a file.
    Line(FileFault),
}

impl From<FileFault> for LayoutFault {
    fn from(fault: FileFault) -> Self {
        LayoutFault::Line(fault)
    }
}

impl fmt::Display for LayoutFault {
    fn fmt<W: fmt::Write>(&self, f: &mut fmt::Formatter<W>) -> fmt::Result {
        match self {
            LayoutFault::NetCalledOpen => write!(
                f,
                "the netlist has a net called `open`, the word of the .net file for a pin without a net"
            ),
            LayoutFault::Line(fault) => write!(f, "{fault}"),
        }
    }
}
