//! The machine.
ghost use Rattle.std.specs.Prelude.{◌≡◌, ◌∷◌, ◌++◌, [], Some, false, true, IfSome, OnOk};
ghost use Rattle.live_machine.specs.Prelude.{Evict, named_operator, asked_of as what_asks, Operates, is_ready, state_in};
ghost use Rattle.live_machine.specs.Workers.{without_workers};
ghost use Rattle.live_machine.specs.Held.{IsSaidBy, has_items, held_of};
ghost use Rattle.live_machine.specs.Machine.{Happens, HearsAsked, HearsFree, HearsName, Holds, IsLine, begins_with, must_wait};
ghost use Rattle.live_machine.specs.Machine.Call.{Line};
ghost use Rattle.live_machine.specs.Parts.{HearsHolding, IsReady, machine_of};

mod ending;
mod holding;
mod steps;

use crate::agenda::Agenda;
use crate::held_names::HeldNames;
use crate::server::LineServer;
use crate::stop::Stop;
use live_input::LiveLines;
use live_lines::{LineRequest, asked_of};
use script_text::OperatorLine;
use std::alloc::Global;
pub use steps::{MOST_TOLD, StepEnd};

/// A live service whose jobs are stepped by workers. Lines of its input come by [`Machine::line`],
/// and steps that workers made by [`Machine::put`]. What is to be kept and what is to be told is
/// taken by [`Machine::drain`].
pub struct Machine<'g> {
    alloc: Global,
    server: LineServer<'g>,
    held: HeldNames,
    agenda: Agenda,
}

impl<'g> Machine<'g> {
    /// A machine over that live service, whose next line has that number.
    pub fn new(alloc: Global, lines: LiveLines<'g>, next: u64) -> Self
        requires { is_ready lines }
        ensures ready { IsReady result }
        ensures begins { machine_of result ≡ begins_with (without_workers (state_in lines.entry)) next }
    {
        Machine {
            alloc,
            server: LineServer::new(alloc, lines, next),
            held: HeldNames::new(alloc),
            agenda: Agenda::new(alloc),
        }
    }

    /// The live service.
    pub fn lines(&self) -> &LiveLines<'g>
        ensures { result.now ≡ self.now.server.lines }
    {
        self.server.lines()
    }

    /// Takes a line of a name.
    fn hear(&mut self, name: &[u8], line: &[u8]) -> Result<(), Stop>
        requires said { IsSaidBy name.now line.now }
        requires ready { IsReady self.old }
        ensures ready { OnOk result (IsReady self.new) }
        ensures hears { OnOk result (HearsName (held_of (self.old.held) name.now) name.now
            line.now (machine_of self.old) (machine_of self.new)) }
    {
        match self.held.get(name) {
            None => self.hear_free(name, line),
            Some(hold) => {
                if hold.calls_off(line) {
                    return self.call_off(name, line);
                }
                let has_items = hold.has_items();
                self.hear_held(name, line, has_items)
            }
        }
    }

    /// Takes a line of a name that isn't held.
    fn hear_free(&mut self, name: &[u8], line: &[u8]) -> Result<(), Stop>
        requires said { IsSaidBy name.now line.now }
        requires ready { IsReady self.old }
        ensures ready { OnOk result (IsReady self.new) }
        ensures hears { OnOk result (HearsFree (must_wait (machine_of self.old).live
            name.now line.now) name.now line.now (machine_of self.old)
            (machine_of self.new)) }
    {
        if self.server.must_wait(name, line) {
            return self.hold(name, line);
        }
        self.server.serve_said(name, line)
    }

    /// Holds a name for its `wait`.
    fn hold(&mut self, name: &[u8], line: &[u8]) -> Result<(), Stop>
        requires said { IsSaidBy name.now line.now }
        requires ready { IsReady self.old }
        ensures ready { OnOk result (IsReady self.new) }
        ensures holds { OnOk result (Holds name.now line.now (machine_of self.old)
            (machine_of self.new)) }
    {
        let id = self.server.last_id(name);
        self.agenda.forget(id);
        match self.held.add(self.alloc, name, id, line) {
            Ok(()) => Ok(()),
            Err(_) => self.server.tell_lost(name),
        }
    }

    /// Serves all that is held of a name, and then a line of it that ends its `wait`.
    fn call_off(&mut self, name: &[u8], line: &[u8]) -> Result<(), Stop>
        requires said { IsSaidBy name.now line.now }
        requires ready { IsReady self.old }
        ensures ready { OnOk result (IsReady self.new) }
        ensures hears { OnOk result (HearsHolding true (held_of (self.old.held) name.now)
            name.now line.now (machine_of self.old) (machine_of self.new)) }
    {
        self.end_hold(name)?;
        self.server.serve_said(name, line)
    }

    /// Holds a line of a held name, which has items or none.
    fn hear_held(&mut self, name: &[u8], line: &[u8], had_items: bool) -> Result<(), Stop>
        requires said { IsSaidBy name.now line.now }
        requires ready { IsReady self.old }
        requires items { IfSome (held_of (self.old.held) name.now)
            (λ h. had_items ≡ has_items h.items) }
        ensures ready { OnOk result (IsReady self.new) }
        ensures hears { OnOk result (HearsHolding false (held_of (self.old.held) name.now)
            name.now line.now (machine_of self.old) (machine_of self.new)) }
    {
        self.held.hear(name, line)?;
        if had_items {
            return Ok(());
        }
        self.end_hold(name)
    }

    /// Serves an eviction, and all that is held of the name.
    fn evict(&mut self, name: &[u8], line: &[u8]) -> Result<(), Stop>
        requires is_line { IsLine line.now }
        requires asks { what_asks line.now ≡ Operates (Evict name.now) }
        requires ready { IsReady self.old }
        ensures ready { OnOk result (IsReady self.new) }
        ensures hears { OnOk result (HearsAsked (what_asks line.now) line.now
            (machine_of self.old) (machine_of self.new)) }
    {
        self.agenda.forget(self.server.last_id(name));
        self.server.serve(line)?;
        self.end_hold(name)
    }

    /// Serves a line of the operator. One that makes steps by hand has no form: workers make them.
    fn operate(&mut self, asked: OperatorLine<&[u8]>, line: &[u8]) -> Result<(), Stop>
        requires is_line { IsLine line.now }
        requires asks { what_asks line.now ≡ Operates (named_operator asked) }
        requires ready { IsReady self.old }
        ensures ready { OnOk result (IsReady self.new) }
        ensures hears { OnOk result (HearsAsked (what_asks line.now) line.now
            (machine_of self.old) (machine_of self.new)) }
    {
        match asked {
            OperatorLine::Evict(name) => self.evict(name, line),
            OperatorLine::Step(_, _) | OperatorLine::Take(_) | OperatorLine::Put(_) => {
                self.server.serve_formless(line)
            }
            _ => self.server.serve(line),
        }
    }

    /// Takes a line of the input as it is read: without LF, and cut to the bytes that are kept of
    /// it.
    ///
    /// # Errors
    /// Why the machine stops. It takes no call after that but `close`.
    pub fn line(&mut self, line: &[u8]) -> Result<(), Stop>
        requires is_line { IsLine line.now }
        requires ready { IsReady self.old }
        ensures ready { OnOk result (IsReady self.new) }
        ensures happens { OnOk result (Happens (machine_of self.old) (Line line.now)
            (machine_of self.new)) }
    {
        match asked_of(self.alloc, line)? {
            LineRequest::Says(_, name, _) => {
                self.hear(name, line)?;
                self.mark(name)
            }
            LineRequest::Operates(asked) => self.operate(asked, line),
            LineRequest::Nothing
            | LineRequest::NoForm
            | LineRequest::Echoes(_)
            | LineRequest::Figures => self.server.serve(line),
        }
    }
}
