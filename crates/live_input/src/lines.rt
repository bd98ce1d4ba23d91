//! A live service that answers lines.
ghost use Rattle.std.specs.Prelude.{◌≡◌, [], IfOk, OnOk};

use job_state::{AnyJob, Back};
use line_service::Answers;
use line_text::MemorySink;
use live_lines::{Live, Said};
use operator::Operator;
use service_core::Service;
use std::alloc::{AllocError, Global};
use strips::DeviceGraph;

/// A live service that answers lines.
pub struct LiveLines<'g> {
    alloc: Global,
    live: Live<'g>,
}

impl<'g> LiveLines<'g> {
    ghost use Rattle.service_core.specs.Calls.{IsGivenBack, IsTaken};
    ghost use Rattle.service_core.specs.Run.{Run};
    ghost use Rattle.operator.specs.HeldJobs.{give_backs};
    ghost use Rattle.live_lines.specs.Live.{with_service};
    ghost use Rattle.live_lines.specs.Said.{IsEven, texts_of};
    ghost use Rattle.live_input.specs.Serving.{ClosesTexts, begins_on, is_ready, state_in};

    /// A service that has taken no line. The core must have admitted no tenancy.
    pub fn new(alloc: Global, graph: &'g DeviceGraph, core: Service) -> Self
        requires { core.histories ≡ [] }
        ensures ready { is_ready result }
        ensures state { state_in result ≡ begins_on core graph.now }
    {
        LiveLines {
            alloc,
            live: Live::new(alloc, graph, core),
        }
    }

    /// What it is, for what can be asked of it between lines.
    pub fn live(&self) -> &Live<'g>
        ensures { result.now ≡ self.now.live }
    {
        &self.live
    }

    /// Takes the next step of that tenancy's job, if there is one to take.
    pub fn take_job(&mut self, id: u32) -> Option<AnyJob>
        requires ready { is_ready self.old }
        ensures ready { is_ready self.new }
        ensures taken { IsTaken (state_in self.old).stage.service id result
            (state_in self.new).stage.service }
        ensures rest { state_in self.new
            ≡ with_service (state_in self.old) (state_in self.new).stage.service }
    {
        self.live.take_job(id)
    }

    /// Gives a job back that was taken. It can be taken again if it is the next step of its
    /// tenancy's running job, and is dropped if not.
    pub fn give_back(&mut self, back: Back)
        requires ready { is_ready self.old }
        ensures ready { is_ready self.new }
        ensures given { IsGivenBack (state_in self.old).stage.service back
            (state_in self.new).stage.service }
        ensures rest { state_in self.new
            ≡ with_service (state_in self.old) (state_in self.new).stage.service }
    {
        self.live.give_back(back);
    }

    /// Ends the input: returns the replies to the names whose text has no end.
    ///
    /// # Errors
    /// `AllocError` if it runs out of memory.
    pub fn end(&mut self) -> Result<Vec<u8>, AllocError>
        requires { is_ready self.old }
        ensures { IfOk result (λ reply. ClosesTexts (state_in self.old) reply.items) }
    {
        let mut reply = MemorySink::new(self.alloc);
        match self.live.end(&mut reply) {
            Ok(()) => Ok(reply.into_bytes()),
            Err(_) => Err(AllocError),
        }
    }

    /// Takes the service apart. Jobs that the operator holds are given back first, the last one
    /// first.
    pub fn into_parts(self) -> (Service, Operator<'static>, Said)
        ensures core { Run (state_in self.entry).stage.service
            (give_backs (state_in self.entry).stage.jobs) result.0 }
        ensures names { result.1 ≡ (state_in self.entry).stage.names }
        ensures texts { texts_of result.2 ≡ (state_in self.entry).texts }
        ensures even { is_ready self.entry → IsEven result.2 }
    {
        let LiveLines { alloc: _, live } = self;
        live.into_parts()
    }

    /// Ends the service. Jobs that the operator holds are given back first.
    pub fn close(self) {
        let LiveLines { alloc: _, live } = self;
        live.close();
    }
}

impl Answers for LiveLines<'_> {
    ghost use Rattle.live_input.specs.Serving.{AnswersLine, is_ready, state_in};

    ghost is_ready = { λ lines. is_ready lines };

    ghost answers = { λ old number line reply new.
        AnswersLine (state_in old) number line reply (state_in new) };

    fn answer(&mut self, number: u64, line: &[u8]) -> Result<Vec<u8>, AllocError> {
        let mut reply = MemorySink::new(self.alloc);
        match self.live.take_line(&mut reply, number, line) {
            Ok(()) => Ok(reply.into_bytes()),
            Err(_) => Err(AllocError),
        }
    }
}
