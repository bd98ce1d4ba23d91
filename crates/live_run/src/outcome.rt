//! How a service ended.
ghost use Rattle.std.specs.Prelude.{◌≡◌};
ghost use Rattle.live_run.specs.Outcomes.{outcome_of, status_of};

use crate::differing::LogDifference;
use arch_file::ArchFault;
use dialogue::FailedDevice;
use line_service::ConversationEnd;
use line_text::ReadError;
use std::fmt;

/// How a live service ended.
#[derive(Clone, Copy, PartialEq, Eq)]
pub enum Outcome {
    /// The input ended, and all its lines are answered.
    Done,
    /// The architecture's file can't be read.
    ArchUnreadable,
    ArchRefused(ArchFault),
    /// The log's file can't be opened or read.
    LogUnreadable,
    /// The log does not begin with the line that names the options of this run, or what it has
    /// after that was changed.
    LogDiffers(LogDifference),
    /// The log's file is the standard input, output or error, too.
    LogIsStream,
    /// That device failed.
    Stopped(FailedDevice),
    /// The log and the input have 2^64 lines or more.
    TooManyLines,
    /// Another service uses the log.
    LogInUse,
    /// Memory ran out for the program's own tables, or for a reply.
    NoMemory,
}

impl Outcome {
    /// The status of a program that ends so.
    pub fn status(&self) -> u8
        ensures { result ≡ status_of self.now }
    {
        match self {
            Outcome::Done => 0,
            Outcome::LogDiffers(_) | Outcome::LogIsStream => 2,
            Outcome::NoMemory => 4,
            Outcome::ArchUnreadable
            | Outcome::ArchRefused(_)
            | Outcome::LogUnreadable
            | Outcome::LogInUse
            | Outcome::Stopped(_)
            | Outcome::TooManyLines => 1,
        }
    }

    /// How a service ends whose conversation ended so.
    pub fn of(end: ConversationEnd) -> Self
        ensures { result ≡ outcome_of end }
    {
        match end {
            ConversationEnd::Done => Outcome::Done,
            ConversationEnd::Stopped(fault) => Outcome::Stopped(fault),
            ConversationEnd::TooManyLines => Outcome::TooManyLines,
            ConversationEnd::NoMemory => Outcome::NoMemory,
        }
    }
}

/// The message for standard error, without its line's end.
impl fmt::Display for Outcome {
    fn fmt<W: fmt::Write>(&self, f: &mut fmt::Formatter<W>) -> fmt::Result {
        match self {
            Outcome::Done => write!(f, ""),
            Outcome::ArchUnreadable => write!(f, "arch: unreadable"),
            Outcome::ArchRefused(fault) => write!(f, "arch: {fault}"),
            Outcome::LogUnreadable => write!(f, "log: unreadable"),
            Outcome::LogInUse => write!(f, "log: another service uses it"),
            Outcome::LogDiffers(difference) => write!(f, "{difference}"),
            Outcome::LogIsStream => write!(f, "log: it is standard input, output or error too"),
            Outcome::Stopped(FailedDevice::Input) => write!(f, "input: failed"),
            Outcome::Stopped(FailedDevice::Log) => write!(f, "log: failed"),
            Outcome::Stopped(FailedDevice::Output) => write!(f, "output: failed"),
            Outcome::TooManyLines => write!(f, "input: too many lines"),
            Outcome::NoMemory => write!(f, "memory"),
        }
    }
}

/// A log that can't be read.
impl From<ReadError> for Outcome {
    ghost use Rattle.std.specs.Prelude.{◌≡◌};
    ghost use Rattle.live_run.specs.Outcomes.{unread_log};

    ghost from_gives = { λ error outcome. outcome ≡ unread_log error };

    fn from(error: ReadError) -> Self {
        match error {
            ReadError::Failed => Outcome::LogUnreadable,
            ReadError::NoMemory => Outcome::NoMemory,
        }
    }
}
