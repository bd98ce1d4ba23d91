//! A tenant's commands.
ghost use Rattle.std.specs.Prelude.{◌≡◌, ◌↔◌, IsTrue};

use job_state::SharedText;
use std::alloc::AllocError;

/// A tenant's command.
#[derive(Drop)]
pub enum Command {
    /// Loads a first netlist, in the state Empty.
    Upload(SharedText),
    /// Loads another netlist, in any other state. A running job is given up.
    Change(SharedText),
    /// Packs the netlist, in the state Loaded.
    Pack,
    /// Places the packed netlist, in the states Packed, Placed, Routed and Unrouted. Old places and
    /// routes are given up. The effort is at most 100.
    Place { seed: u64, effort: u32 },
    /// Routes the placed netlist, in the state Placed.
    Route,
    /// Gives up the running job, in the states in which one runs.
    Cancel,
    /// Gives up everything and returns to the state Empty, from any other state.
    Withdraw,
    /// Asks for the state, which stays.
    Status,
    /// Asks for the packed netlist's `.net` file, in the state Packed and all that follow it.
    Net,
    /// Asks for the placed netlist's `.place` file, in the states Placed, Routing, Routed and
    /// Unrouted.
    PlaceFile,
    /// Asks for the routed netlist's `.route` file, in the state Routed.
    RouteFile,
}

impl Clone for Command {
    ghost is_clone = { λ command copy. copy ≡ command };

    fn clone(&self) -> Result<Self, AllocError> {
        match self {
            Command::Upload(text) => Ok(Command::Upload(text.clone()?)),
            Command::Change(text) => Ok(Command::Change(text.clone()?)),
            Command::Pack => Ok(Command::Pack),
            Command::Place { seed, effort } => Ok(Command::Place {
                seed: *seed,
                effort: *effort,
            }),
            Command::Route => Ok(Command::Route),
            Command::Cancel => Ok(Command::Cancel),
            Command::Withdraw => Ok(Command::Withdraw),
            Command::Status => Ok(Command::Status),
            Command::Net => Ok(Command::Net),
            Command::PlaceFile => Ok(Command::PlaceFile),
            Command::RouteFile => Ok(Command::RouteFile),
        }
    }
}

impl Command {
    /// Returns whether both are one command, with equal text or numbers.
    pub fn same(&self, other: &Command) -> bool
        ensures { IsTrue result ↔ (self.now ≡ other.now) }
    {
        match (self, other) {
            (Command::Upload(text), Command::Upload(same)) => text.same(same),
            (Command::Change(text), Command::Change(same)) => text.same(same),
            (Command::Pack, Command::Pack) => true,
            (
                Command::Place { seed, effort },
                Command::Place {
                    seed: same,
                    effort: level,
                },
            ) => seed == same && effort == level,
            (Command::Route, Command::Route) => true,
            (Command::Cancel, Command::Cancel) => true,
            (Command::Withdraw, Command::Withdraw) => true,
            (Command::Status, Command::Status) => true,
            (Command::Net, Command::Net) => true,
            (Command::PlaceFile, Command::PlaceFile) => true,
            (Command::RouteFile, Command::RouteFile) => true,
            _ => false,
        }
    }
}
