//! The replies to commands and steps.
ghost use Rattle.std.specs.Prelude.{◌≡◌, ◌↔◌, IsTrue};
ghost use Rattle.tenant_slot.specs.SingleUser.{is_lawful};
ghost use Rattle.tenant_slot.specs.Names.{file_text, refusal_number, refusal_text, state_text};

use crate::command::Command;
use crate::faults::same_faults;
use blif::BlifFault;
use job_state::SharedText;
use std::alloc::AllocError;

/// The name of a state of one tenancy.
#[derive(Clone, Copy, PartialEq, Eq)]
pub enum StateName {
    Empty,
    Loaded,
    Packing,
    Packed,
    Placing,
    Placed,
    Routing,
    Routed,
    Unrouted,
}

impl StateName {
    /// The name in replies.
    pub fn name(self) -> &'static str
        ensures { result.now ≡ state_text self }
    {
        match self {
            StateName::Empty => "Empty",
            StateName::Loaded => "Loaded",
            StateName::Packing => "Packing",
            StateName::Packed => "Packed",
            StateName::Placing => "Placing",
            StateName::Placed => "Placed",
            StateName::Routing => "Routing",
            StateName::Routed => "Routed",
            StateName::Unrouted => "Unrouted",
        }
    }

    /// Returns whether a command is lawful in this state.
    pub fn admits(self, command: &Command) -> bool
        ensures { result ≡ is_lawful self command.now }
    {
        match (self, command) {
            (StateName::Empty, Command::Upload(_)) => true,
            (_, Command::Upload(_)) => false,
            (StateName::Empty, Command::Change(_) | Command::Withdraw) => false,
            (_, Command::Change(_) | Command::Withdraw) => true,
            (StateName::Loaded, Command::Pack) => true,
            (_, Command::Pack) => false,
            (
                StateName::Packed | StateName::Placed | StateName::Routed | StateName::Unrouted,
                Command::Place { .. },
            ) => true,
            (_, Command::Place { .. }) => false,
            (StateName::Placed, Command::Route) => true,
            (_, Command::Route) => false,
            (StateName::Packing | StateName::Placing | StateName::Routing, Command::Cancel) => true,
            (_, Command::Cancel) => false,
            (_, Command::Status) => true,
            (StateName::Empty | StateName::Loaded | StateName::Packing, Command::Net) => false,
            (_, Command::Net) => true,
            (
                StateName::Placed | StateName::Routing | StateName::Routed | StateName::Unrouted,
                Command::PlaceFile,
            ) => true,
            (_, Command::PlaceFile) => false,
            (StateName::Routed, Command::RouteFile) => true,
            (_, Command::RouteFile) => false,
        }
    }
}

/// How a routing ended without routes.
#[derive(Drop)]
pub enum Ending {
    /// After the last iteration, some node is used by more nets than its capacity.
    GaveUp,
    /// The net of this name has no path to one of its readers.
    NoPath(SharedText),
}

impl Ending {
    /// Returns whether both are one ending, of one net.
    pub fn same(&self, other: &Ending) -> bool
        ensures { IsTrue result ↔ (self.now ≡ other.now) }
    {
        match (self, other) {
            (Ending::GaveUp, Ending::GaveUp) => true,
            (Ending::NoPath(net), Ending::NoPath(same)) => net.same(same),
            _ => false,
        }
    }
}

impl Clone for Ending {
    ghost is_clone = { λ ending copy. copy ≡ ending };

    fn clone(&self) -> Result<Self, AllocError> {
        match self {
            Ending::GaveUp => Ok(Ending::GaveUp),
            Ending::NoPath(net) => Ok(Ending::NoPath(net.clone()?)),
        }
    }
}

/// The reply to `status`.
#[derive(Drop)]
pub struct Status {
    pub state: StateName,
    /// The number of steps that the running job has made, 0 if none runs.
    pub steps: u32,
    /// How the routing ended, only in the state Unrouted.
    pub ending: Option<Ending>,
}

impl Status {
    /// Returns whether both are equal.
    pub fn same(&self, other: &Status) -> bool
        ensures { IsTrue result ↔ (self.now ≡ other.now) }
    {
        self.state == other.state
            && self.steps == other.steps
            && match (&self.ending, &other.ending) {
                (None, None) => true,
                (Some(ending), Some(same)) => ending.same(same),
                _ => false,
            }
    }
}

impl Clone for Status {
    ghost is_clone = { λ status copy. copy ≡ status };

    fn clone(&self) -> Result<Self, AllocError> {
        let ending = match &self.ending {
            Some(ending) => Some(ending.clone()?),
            None => None,
        };
        Ok(Status {
            state: self.state,
            steps: self.steps,
            ending,
        })
    }
}

/// The places of which a strip has too few for a packed netlist.
#[derive(Clone, Copy, PartialEq, Eq)]
pub enum Misfit {
    /// Places for logic blocks.
    Blocks { have: usize, need: usize },
    /// Places for pads.
    Pads { have: usize, need: usize },
}

/// Why a command is refused. The state stays, and the refusal is an entry of the journal.
#[derive(Drop)]
pub enum Refusal {
    /// The command isn't lawful in this state.
    WrongState(StateName),
    /// The netlist has this fault.
    BadBlif(BlifFault),
    /// The logic element of this number, the least such, fits into no cluster.
    CannotPack(u32),
    /// The strip has too few places for the packed netlist. Places for logic blocks are checked
    /// first.
    DoesNotFit(Misfit),
    /// The effort of a placing is above 100.
    BadEffort,
}

impl Refusal {
    /// The refusal's number in replies. The refusals are checked in the order 3, 4, 5, 7, 6.
    pub fn number(&self) -> u32
        ensures { result ≡ refusal_number self.now }
    {
        match self {
            Refusal::WrongState(_) => 3,
            Refusal::BadBlif(_) => 4,
            Refusal::CannotPack(_) => 5,
            Refusal::DoesNotFit(_) => 6,
            Refusal::BadEffort => 7,
        }
    }

    /// The refusal's name in replies.
    pub fn name(&self) -> &'static str
        ensures { result.now ≡ refusal_text self.now }
    {
        match self {
            Refusal::WrongState(_) => "WrongState",
            Refusal::BadBlif(_) => "BadBlif",
            Refusal::CannotPack(_) => "CannotPack",
            Refusal::DoesNotFit(_) => "DoesNotFit",
            Refusal::BadEffort => "BadEffort",
        }
    }
}

impl Refusal {
    /// Returns whether both are one refusal, for one reason.
    pub fn same(&self, other: &Refusal) -> bool
        ensures { IsTrue result ↔ (self.now ≡ other.now) }
    {
        match (self, other) {
            (Refusal::WrongState(state), Refusal::WrongState(same)) => state == same,
            (Refusal::BadBlif(fault), Refusal::BadBlif(same)) => same_faults(fault, same),
            (Refusal::CannotPack(ble), Refusal::CannotPack(same)) => ble == same,
            (Refusal::DoesNotFit(misfit), Refusal::DoesNotFit(same)) => misfit == same,
            (Refusal::BadEffort, Refusal::BadEffort) => true,
            _ => false,
        }
    }
}

impl Clone for Refusal {
    ghost is_clone = { λ refusal copy. copy ≡ refusal };

    fn clone(&self) -> Result<Self, AllocError> {
        match self {
            Refusal::WrongState(state) => Ok(Refusal::WrongState(*state)),
            Refusal::BadBlif(fault) => Ok(Refusal::BadBlif(fault.clone()?)),
            Refusal::CannotPack(ble) => Ok(Refusal::CannotPack(*ble)),
            Refusal::DoesNotFit(misfit) => Ok(Refusal::DoesNotFit(*misfit)),
            Refusal::BadEffort => Ok(Refusal::BadEffort),
        }
    }
}

/// The kind of a result file.
#[derive(Clone, Copy, PartialEq, Eq)]
pub enum FileKind {
    /// The packed netlist.
    Net,
    /// The places of its blocks.
    Place,
    /// The routes of its nets.
    Route,
}

impl FileKind {
    /// The name in replies.
    pub fn name(self) -> &'static str
        ensures { result.now ≡ file_text self }
    {
        match self {
            FileKind::Net => "net",
            FileKind::Place => "place",
            FileKind::Route => "route",
        }
    }
}

/// The reply to a step that was made.
#[derive(Clone, Copy, PartialEq, Eq)]
pub enum StepReply {
    /// The job goes on.
    Advanced,
    /// It was the job's last step.
    Finished,
    /// It isn't the running job's next step, and changes nothing.
    Stale,
}

/// The reply to a command or a step.
#[derive(Drop)]
pub enum Reply {
    /// The command was accepted, and resulted in this state.
    Accepted(StateName),
    Status(Status),
    /// A result file, whole.
    File { kind: FileKind, text: SharedText },
    Refused(Refusal),
    Step(StepReply),
}

impl Reply {
    /// Returns whether both are one reply, with equal text.
    pub fn same(&self, other: &Reply) -> bool
        ensures { IsTrue result ↔ (self.now ≡ other.now) }
    {
        match (self, other) {
            (Reply::Accepted(state), Reply::Accepted(same)) => state == same,
            (Reply::Status(status), Reply::Status(same)) => status.same(same),
            (
                Reply::File { kind, text },
                Reply::File {
                    kind: same,
                    text: bytes,
                },
            ) => { kind == same && text.same(bytes) }
            (Reply::Refused(refusal), Reply::Refused(same)) => refusal.same(same),
            (Reply::Step(reply), Reply::Step(same)) => reply == same,
            _ => false,
        }
    }
}

impl Clone for Reply {
    ghost is_clone = { λ reply copy. copy ≡ reply };

    fn clone(&self) -> Result<Self, AllocError> {
        match self {
            Reply::Accepted(state) => Ok(Reply::Accepted(*state)),
            Reply::Status(status) => Ok(Reply::Status(status.clone()?)),
            Reply::File { kind, text } => Ok(Reply::File {
                kind: *kind,
                text: text.clone()?,
            }),
            Reply::Refused(refusal) => Ok(Reply::Refused(refusal.clone()?)),
            Reply::Step(reply) => Ok(Reply::Step(*reply)),
        }
    }
}
