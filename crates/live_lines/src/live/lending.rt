//! What a live service lends to those who make its steps.
ghost use Rattle.std.specs.Prelude.{◌≡◌, is_some};
ghost use Rattle.live_lines.specs.Prelude.{IsGivenBack, IsTaken};
ghost use Rattle.live_lines.specs.Live.{IsSteady, state_of, with_service};

use crate::live::Live;
use job_state::{AnyJob, Back};
use operator::Operator;
use service_core::Service;

impl Live<'_> {
    /// The core.
    pub fn service(&self) -> &Service
        ensures { result.now ≡ (state_of self.now).stage.service }
    {
        &self.core
    }

    /// The names of all ids.
    pub fn names(&self) -> &Operator<'static>
        ensures { result.now ≡ (state_of self.now).stage.names }
    {
        &self.operator
    }

    /// Whether that name's session is in a text.
    pub fn is_in_text(&self, name: &[u8]) -> bool
        requires { IsSteady self.now }
        ensures { result ≡ is_some ((state_of self.now).texts name.now) }
    {
        self.said.is_in_text(name)
    }

    /// Takes the next step of that tenancy's job, if there is one to take. No line has to ask for
    /// it.
    pub fn take_job(&mut self, id: u32) -> Option<AnyJob>
        requires steady { IsSteady self.old }
        ensures steady { IsSteady self.new }
        ensures taken { IsTaken (state_of self.old).stage.service id result
            (state_of self.new).stage.service }
        ensures rest { state_of self.new
            ≡ with_service (state_of self.old) (state_of self.new).stage.service }
    {
        self.core.take(id)
    }

    /// Gives a job back that was taken. It can be taken again if it is the next step of its
    /// tenancy's running job, and is dropped if not.
    pub fn give_back(&mut self, back: Back)
        requires steady { IsSteady self.old }
        ensures steady { IsSteady self.new }
        ensures given { IsGivenBack (state_of self.old).stage.service back
            (state_of self.new).stage.service }
        ensures rest { state_of self.new
            ≡ with_service (state_of self.old) (state_of self.new).stage.service }
    {
        self.core.give_back(back);
    }
}
