//! The answer to each command.
ghost use Rattle.std.specs.Prelude.{◌≡◌, option_and_then, IfOk};
ghost use Rattle.tenant_slot.specs.Prelude.{AreKeptOn};
ghost use Rattle.tenant_slot.specs.Answer.{Answers, IsAsked};
ghost use Rattle.tenant_slot.specs.Results.{ending_told};
ghost use Rattle.tenant_slot.specs.SingleUser.{circuit_in, with_kept_places};

use crate::answer::PreparedReply;
use crate::beginning::Beginning;
use crate::command::Command;
use crate::content::Content;
use crate::ending::told_ending;
use crate::not_served::NotAnswered;
use crate::reply::{Ending, Reply, StateName, Status};
use crate::slot::Slot;
use crate::standing::Change;
use job_state::{RoutingEnd, SharedText};
use std::alloc::AllocError;
use strip_place::Kept;

impl Slot {
    /// The answer to a lawful command.
    pub(super) fn serve(&self, command: &Command) -> Result<PreparedReply, NotAnswered>
        requires { IsAsked self.now command.now }
        ensures { Answers self.now command.now result }
    {
        let lut_size = self.arch.arch().lut_size;
        match command {
            Command::Upload(text) => PreparedReply::load(self.alloc, lut_size, text, None),
            Command::Change(text) => self.change(text),
            Command::Pack => self.pack(),
            Command::Place { seed, effort } => self.place(*seed, *effort),
            Command::Route => self.route(),
            Command::Cancel => {
                let reply = Reply::Accepted(self.standing.content.name());
                Ok(PreparedReply::with_change(lut_size, Change::Stop, reply))
            }
            Command::Withdraw => {
                let reply = Reply::Accepted(StateName::Empty);
                Ok(PreparedReply::with_change(lut_size, Change::Empty, reply))
            }
            Command::Status => self.status(),
            Command::Net => {
                let packing = self.standing.content.packing();
                PreparedReply::net(self.alloc, lut_size, packing.packed())
            }
            Command::PlaceFile => {
                let placing = self.standing.content.placing();
                PreparedReply::place_file(self.alloc, lut_size, placing.placing())
            }
            Command::RouteFile => self.route_file(),
        }
    }

    fn change(&self, text: &SharedText) -> Result<PreparedReply, NotAnswered>
        requires { IsAsked self.now (Command.Change text.now) }
        ensures { Answers self.now (Command.Change text.now) result }
    {
        let lut_size = self.arch.arch().lut_size;
        let kept = self.kept_next()?;
        PreparedReply::load(self.alloc, lut_size, text, Some(kept))
    }

    /// The places that a change keeps: the current ones, or, if there are none, those that were
    /// kept before.
    fn kept_next(&self) -> Result<Kept, AllocError>
        ensures exact { IfOk result (λ kept. kept ≡ (with_kept_places self.now.state).kept) }
        ensures lawful { IfOk result (λ kept. AreKeptOn self.now.state.strip kept) }
    {
        match &self.standing.content {
            Content::Placed(_, _, placing) => placing.placing().to_kept_places(self.alloc),
            Content::Routed(_, _, placing, _) => placing.placing().to_kept_places(self.alloc),
            Content::Unrouted(_, _, placing, _) => placing.placing().to_kept_places(self.alloc),
            Content::Empty | Content::Loaded(_) | Content::Packed(..) => self.standing.kept.clone(),
        }
    }

    fn pack(&self) -> Result<PreparedReply, NotAnswered>
        requires { IsAsked self.now Command.Pack }
        ensures { Answers self.now Command.Pack result }
    {
        let job = Beginning {
            alloc: self.alloc,
            id: self.id,
            generation: self.standing.generation + 1,
            arch: &self.arch,
            strip: self.strip,
            netlist: self.standing.content.netlist(),
            kept: &self.standing.kept,
        };
        PreparedReply::pack(&job)
    }

    fn place(&self, seed: u64, effort: u32) -> Result<PreparedReply, NotAnswered>
        requires { IsAsked self.now (Command.Place seed effort) }
        ensures { Answers self.now (Command.Place seed effort) result }
    {
        let job = Beginning {
            alloc: self.alloc,
            id: self.id,
            generation: self.standing.generation + 1,
            arch: &self.arch,
            strip: self.strip,
            netlist: self.standing.content.netlist(),
            kept: &self.standing.kept,
        };
        let packing = self.standing.content.packing();
        PreparedReply::place(&job, packing, seed, effort)
    }

    fn route(&self) -> Result<PreparedReply, NotAnswered>
        requires { IsAsked self.now Command.Route }
        ensures { Answers self.now Command.Route result }
    {
        let job = Beginning {
            alloc: self.alloc,
            id: self.id,
            generation: self.standing.generation + 1,
            arch: &self.arch,
            strip: self.strip,
            netlist: self.standing.content.netlist(),
            kept: &self.standing.kept,
        };
        let placing = self.standing.content.placing();
        let (seed, effort) = (self.standing.seed, self.standing.effort);
        PreparedReply::route(&job, placing, seed, effort)
    }

    fn status(&self) -> Result<PreparedReply, NotAnswered>
        requires { IsAsked self.now Command.Status }
        ensures { Answers self.now Command.Status result }
    {
        let lut_size = self.arch.arch().lut_size;
        let state = self.state();
        let steps = self.standing.steps;
        let ending = self.ending()?;
        let reply = Reply::Status(Status {
            state,
            steps,
            ending,
        });
        Ok(PreparedReply::without_change(lut_size, reply))
    }

    /// How a routing without routes ended.
    fn ending(&self) -> Result<Option<Ending>, AllocError>
        ensures { IfOk result (λ ending.
            ending ≡ option_and_then (ending_told (circuit_in self.now.state) self.now.state.arch)
            self.now.state.ending) }
    {
        let content = &self.standing.content;
        match content.failure() {
            Some(failure) => {
                let packed = content.packing().packed();
                Ok(Some(told_ending(self.alloc, packed, failure)?))
            }
            None => Ok(None),
        }
    }

    fn route_file(&self) -> Result<PreparedReply, NotAnswered>
        requires { IsAsked self.now Command.RouteFile }
        ensures { Answers self.now Command.RouteFile result }
    {
        let lut_size = self.arch.arch().lut_size;
        match &self.standing.content {
            Content::Routed(_, _, placing, routing) => match routing.routing_end() {
                RoutingEnd::Routed(routes) => {
                    PreparedReply::route_file(self.alloc, lut_size, placing.placing(), routes)
                }
                RoutingEnd::GaveUp | RoutingEnd::NoPath(_) => unreachable!(),
            },
            _ => unreachable!(),
        }
    }
}
