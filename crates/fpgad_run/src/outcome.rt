ghost use Rattle.std.specs.Prelude.{◌≡◌};
ghost use Rattle.std.specs.Process.{exit_status};
ghost use Rattle.fpgad_run.specs.Outcomes.{status_of};

use arch_file::{ArchError, ArchFault};
use script_text::ScriptError;
use script_threads::Unserved;
use std::alloc::AllocError;
use std::fmt;
use std::process::ExitCode;

/// How a run of a script ended.
#[derive(Clone, Copy, PartialEq, Eq)]
pub enum Outcome {
    /// All replies are written.
    Done,
    /// The architecture's file can't be read.
    ArchUnreadable,
    ArchRefused(ArchFault),
    InputFailed,
    OutputFailed,
    /// A line of the script is faulty; the number is that of the first such line.
    ScriptFault(usize),
    /// Memory ran out for the program's own tables, or for a thread.
    NoMemory,
    /// The answers to the sessions are not what the journals say.
    NotSettled,
}

impl Outcome {
    /// The status that the program ends with.
    pub fn status(&self) -> u8
        ensures { result ≡ status_of self.now }
    {
        match self {
            Outcome::Done => 0,
            Outcome::ArchUnreadable
            | Outcome::ArchRefused(_)
            | Outcome::InputFailed
            | Outcome::OutputFailed => 1,
            Outcome::ScriptFault(_) => 3,
            Outcome::NoMemory => 4,
            Outcome::NotSettled => 5,
        }
    }

    /// The status as an exit code.
    pub fn exit_code(&self) -> ExitCode
        ensures { exit_status result ≡ status_of self.now }
    {
        ExitCode::from(self.status())
    }
}

/// The message for standard error, without its line's end.
impl fmt::Display for Outcome {
    ghost use Rattle.std.specs.Prelude.{Some};
    ghost use Rattle.fpgad_run.specs.Outcomes.{message_of};

    ghost output = { λ outcome. Some (message_of outcome) };

    fn fmt<W: fmt::Write>(&self, f: &mut fmt::Formatter<W>) -> fmt::Result {
        match self {
            Outcome::Done => write!(f, ""),
            Outcome::ArchUnreadable => write!(f, "arch: unreadable"),
            Outcome::ArchRefused(fault) => write!(f, "arch: {fault}"),
            Outcome::InputFailed => write!(f, "input: failed"),
            Outcome::OutputFailed => write!(f, "output: failed"),
            Outcome::ScriptFault(line) => write!(f, "script: line {line}"),
            Outcome::NoMemory => write!(f, "memory"),
            Outcome::NotSettled => write!(f, "settle"),
        }
    }
}

impl From<AllocError> for Outcome {
    ghost use Rattle.std.specs.Prelude.{◌≡◌};
    ghost use Rattle.fpgad_run.specs.declared.outcome.Outcome.TheVariants.{NoMemory};

    ghost from_gives = { λ _ outcome. outcome ≡ NoMemory };

    fn from(_error: AllocError) -> Self {
        Outcome::NoMemory
    }
}

/// Why there is no architecture.
impl From<ArchError> for Outcome {
    ghost use Rattle.std.specs.Prelude.{◌≡◌};
    ghost use Rattle.fpgad_run.specs.Outcomes.{refused_arch};

    ghost from_gives = { λ error outcome. outcome ≡ refused_arch error };

    fn from(error: ArchError) -> Self {
        match error {
            ArchError::Fault(fault) => Outcome::ArchRefused(fault),
            ArchError::NoMemory => Outcome::NoMemory,
        }
    }
}

/// Why there is no script.
impl From<ScriptError> for Outcome {
    ghost use Rattle.std.specs.Prelude.{◌≡◌};
    ghost use Rattle.fpgad_run.specs.Outcomes.{refused_script};

    ghost from_gives = { λ error outcome. outcome ≡ refused_script error };

    fn from(error: ScriptError) -> Self {
        match error {
            ScriptError::Fault(line) => Outcome::ScriptFault(line),
            ScriptError::NoMemory => Outcome::NoMemory,
        }
    }
}

/// Why a script isn't served on threads.
impl From<Unserved> for Outcome {
    ghost use Rattle.std.specs.Prelude.{◌≡◌};
    ghost use Rattle.fpgad_run.specs.Outcomes.{outcome_of_unserved};

    ghost from_gives = { λ error outcome. outcome ≡ outcome_of_unserved error };

    fn from(error: Unserved) -> Self {
        match error {
            Unserved::NoMemory => Outcome::NoMemory,
            Unserved::NotSettled(_) => Outcome::NotSettled,
        }
    }
}
