//! How an errand ended.
ghost use Rattle.std.specs.Prelude.{◌≡◌};
ghost use Rattle.desk_common.specs.Outcomes.{done_so, lines_so, read_so, status_of, written_so};

use crate::paths::FileRole;
use arch_file::ArchFault;
use device_lines::InputFault;
use layout_files::LayoutFault;
use line_text::{Failed, ReadError};
use std::alloc::AllocError;
use std::fmt;
use strip_files::FileFault;
use tenancy_script::ScriptFault;

/// How an errand ended.
#[derive(Clone, Copy)]
pub enum Outcome {
    /// All is written.
    Done,
    InputFailed,
    OutputFailed,
    /// No script can contain the netlist.
    TextRefused(ScriptFault),
    /// The input isn't what the service printed for such a device.
    ReplyRefused(InputFault),
    /// That file can't be read, or nothing can be written into the folder.
    FileFailed(FileRole),
    /// That many lines of a script were refused.
    LinesRefused(usize),
    /// That line of a script is faulty.
    ScriptRefused(usize),
    /// That line of what the service printed isn't a reply to the script.
    RepliesRefused(usize),
    ArchRefused(ArchFault),
    /// The device file has a fault. The cause is written to standard error.
    DeviceRefused,
    /// The netlist has a fault, or doesn't fit a cluster or the device. The cause is written to
    /// standard error.
    NetlistRefused,
    /// A pin file has a fault, or a pin can't be met. The cause is written to standard error.
    PinsRefused,
    /// The netlist is left without routes. The cause is written to standard error.
    Unrouted,
    /// A file isn't one that the service wrote for a tenancy.
    StripRefused(FileFault),
    /// The three files are the print of no layout of the netlist.
    LayoutRefused(LayoutFault),
    /// The three files are a layout that does not implement the netlist. The cause is written to
    /// standard error.
    OtherCircuit,
    /// No net has the name.
    NoNet,
    /// A log is that of another service, or was changed. The cause is written to standard error.
    LogDiffers,
    NoMemory,
}

impl Outcome {
    /// The status that the program ends with.
    pub fn status(&self) -> u8
        ensures { result ≡ status_of self.now }
    {
        match self {
            Outcome::Done => 0,
            Outcome::InputFailed | Outcome::OutputFailed | Outcome::FileFailed(_) => 1,
            Outcome::LinesRefused(_) | Outcome::LayoutRefused(_) | Outcome::OtherCircuit => 1,
            Outcome::DeviceRefused => 2,
            Outcome::NoMemory => 4,
            _ => 3,
        }
    }

    /// How an errand ended whose input can't be read.
    pub fn of_reading(error: ReadError) -> Self
        ensures { result ≡ read_so error }
    {
        match error {
            ReadError::NoMemory => Outcome::NoMemory,
            ReadError::Failed => Outcome::InputFailed,
        }
    }

    /// How an errand ended that was done, or failed so.
    pub fn of(done: Result<(), Outcome>) -> Self
        ensures { result ≡ done_so done }
    {
        match done {
            Ok(()) => Outcome::Done,
            Err(outcome) => outcome,
        }
    }

    /// How an errand ended that was done while that many lines were refused, or failed so.
    pub fn of_lines(refused: Result<usize, Outcome>) -> Self
        ensures { result ≡ lines_so refused }
    {
        match refused {
            Ok(0) => Outcome::Done,
            Ok(lines) => Outcome::LinesRefused(lines),
            Err(ended) => ended,
        }
    }

    /// How an errand ended whose writing ended so.
    pub fn of_writing(written: Result<(), Failed>) -> Self
        ensures { result ≡ written_so written }
    {
        match written {
            Ok(()) => Outcome::Done,
            Err(_) => Outcome::OutputFailed,
        }
    }
}

impl From<AllocError> for Outcome {
    ghost use Rattle.std.specs.Prelude.{◌≡◌};
    ghost use Rattle.desk_common.specs.declared.outcome.Outcome.TheVariants.{NoMemory};

    ghost from_gives = { λ _ outcome. outcome ≡ NoMemory };

    fn from(_error: AllocError) -> Self {
        Outcome::NoMemory
    }
}

/// The message for standard error, without its line's end.
impl fmt::Display for Outcome {
    fn fmt<W: fmt::Write>(&self, f: &mut fmt::Formatter<W>) -> fmt::Result {
        match self {
            Outcome::Done => write!(f, ""),
            Outcome::InputFailed => write!(f, "input: cannot be read: is it a folder?"),
            Outcome::OutputFailed => write!(f, "output: failed"),
            Outcome::TextRefused(fault) => write!(f, "{fault}"),
            Outcome::ReplyRefused(fault) => write!(f, "{fault}"),
            Outcome::FileFailed(role) => write!(f, "{role}: failed"),
            Outcome::LinesRefused(1) => write!(f, "1 line is refused"),
            Outcome::LinesRefused(lines) => write!(f, "{lines} lines are refused"),
            Outcome::ScriptRefused(line) => write!(f, "script: line {line}"),
            Outcome::RepliesRefused(line) => write!(
                f,
                "line {line}: does not match the script; if fpgad was given --arch, give it here too"
            ),
            Outcome::ArchRefused(fault) => write!(f, "arch: {fault}"),
            Outcome::DeviceRefused => write!(f, "device file: refused"),
            Outcome::NetlistRefused => write!(f, "netlist: refused"),
            Outcome::PinsRefused => write!(f, "pins: refused"),
            Outcome::Unrouted => write!(f, "netlist: not routed"),
            Outcome::StripRefused(fault) => write!(f, "{fault}"),
            Outcome::LayoutRefused(fault) => write!(f, "{fault}"),
            Outcome::OtherCircuit => write!(f, "the files do not implement the netlist"),
            Outcome::NoNet => write!(f, "there is no net with this name"),
            Outcome::LogDiffers => write!(f, "log: refused"),
            Outcome::NoMemory => write!(f, "out of memory"),
        }
    }
}
