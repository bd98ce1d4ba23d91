//! What a machine does with what a held name has said.
ghost use Rattle.std.specs.Prelude.{◌≡◌, ◌&&◌, IfOk, IfSome, OnOk};
ghost use Rattle.live_machine.specs.Held.{begins_with_wait, has_items, held_of, is_lost_text};
ghost use Rattle.live_machine.specs.Machine.{EndsHold, is_busy};
ghost use Rattle.live_machine.specs.Parts.{AreServed, FreesDone, FreesHeld, HasTurn, IsGivenUp, IsReady, ServesNext, ServesOne, has_wait, machine_of};

use crate::held::OpenText;
use crate::machine::Machine;
use crate::stop::Stop;
use backlog::Turn;

impl Machine<'_> {
    /// Serves the first item that is held of a name. Returns whether there was one.
    fn serve_item(&mut self, name: &[u8]) -> Result<bool, Stop>
        requires ready { IsReady self.old }
        ensures ready { OnOk result (IsReady self.new) }
        ensures serves { IfOk result (λ went. ServesOne went
            (held_of (self.old.held) name.now) name.now
            (machine_of self.old) (machine_of self.new)) }
    {
        match self.held.take(name) {
            Turn::Item(lines) => {
                self.server.serve_lines(name, lines.as_bytes())?;
                Ok(true)
            }
            Turn::Lost => {
                self.server.tell_lost(name)?;
                Ok(true)
            }
            Turn::Nothing => Ok(false),
        }
    }

    /// Serves all items of a name that were lost and come next, or else its first item. Returns
    /// whether there was one.
    fn serve_next(&mut self, name: &[u8]) -> Result<bool, Stop>
        requires ready { IsReady self.old }
        ensures ready { OnOk result (IsReady self.new) }
        ensures serves { IfOk result (λ went. ServesNext went
            (held_of (self.old.held) name.now) name.now
            (machine_of self.old) (machine_of self.new)) }
    {
        let lost = self.held.take_lost(name);
        if lost == 0 {
            return self.serve_item(name);
        }
        self.server.tell_lost_items(name, lost)?;
        Ok(true)
    }

    /// Serves all items that are held of a name.
    fn serve_items(&mut self, name: &[u8]) -> Result<(), Stop>
        requires ready { IsReady self.old }
        ensures ready { OnOk result (IsReady self.new) }
        ensures serves { OnOk result (AreServed (held_of (self.old.held) name.now) name.now
            (machine_of self.old) (machine_of self.new)) }
    {
        while self.serve_next(name)? {}
        Ok(())
    }

    /// Frees a held name without items, and serves the lines of its text. If that text was lost,
    /// the name is held up to its end.
    fn free(&mut self, name: &[u8]) -> Result<(), Stop>
        requires ready { IsReady self.old }
        ensures ready { OnOk result (IsReady self.new) }
        ensures frees { OnOk result (FreesHeld (held_of (self.old.held) name.now)
            (machine_of self.old) (machine_of self.new)) }
    {
        if self.has_lost_text(name) {
            return Ok(());
        }
        match self.held.remove(name) {
            OpenText::Begun(lines) => self.server.serve_lines(name, lines.as_bytes()),
            OpenText::NoText | OpenText::Lost => Ok(()),
        }
    }

    /// Whether that name is held, and in a text that was lost.
    fn has_lost_text(&self, name: &[u8]) -> bool
        ensures { IfSome (held_of (self.now.held) name.now) (λ h. result ≡ is_lost_text h.text) }
    {
        match self.held.get(name) {
            Some(hold) => hold.has_lost_text(),
            None => false,
        }
    }

    /// Serves all that is held of a name, if it is held.
    pub(super) fn end_hold(&mut self, name: &[u8]) -> Result<(), Stop>
        requires ready { IsReady self.old }
        ensures ready { OnOk result (IsReady self.new) }
        ensures ends { OnOk result (EndsHold (held_of (self.old.held) name.now)
            (machine_of self.old) (machine_of self.new)) }
    {
        if self.held.get(name).is_none() {
            return Ok(());
        }
        self.serve_items(name)?;
        self.free(name)
    }

    /// Frees a held name that has no items left.
    fn free_if_done(&mut self, name: &[u8]) -> Result<(), Stop>
        requires ready { IsReady self.old }
        ensures ready { OnOk result (IsReady self.new) }
        ensures frees { OnOk result (FreesDone (held_of (self.old.held) name.now)
            (machine_of self.old) (machine_of self.new)) }
    {
        if self.has_items(name) {
            return Ok(());
        }
        self.free(name)
    }

    /// Whether that name is held, and has items.
    pub(super) fn has_items(&self, name: &[u8]) -> bool
        ensures { IfSome (held_of (self.now.held) name.now) (λ h. result ≡ has_items h.items) }
    {
        match self.held.get(name) {
            Some(hold) => hold.has_items(),
            None => false,
        }
    }

    /// Whether the first item of that name is a `wait` that can't be answered yet.
    pub(super) fn is_waiting(&self, name: &[u8]) -> bool
        ensures { IfSome (held_of (self.now.held) name.now)
            (λ h. result ≡ begins_with_wait h.items && is_busy (machine_of self.now).live name.now) }
    {
        match self.held.get(name) {
            Some(hold) => hold.is_waiting() && self.server.is_busy(name),
            None => true,
        }
    }

    /// Serves the first item of a held name, unless it must wait. Returns whether it was served.
    pub(super) fn serve_first(&mut self, name: &[u8]) -> Result<bool, Stop>
        requires ready { IsReady self.old }
        ensures ready { OnOk result (IsReady self.new) }
        ensures turn { IfOk result (λ went. HasTurn went name.now
            (machine_of self.old) (machine_of self.new)) }
    {
        if self.is_waiting(name) || !self.serve_item(name)? {
            return Ok(false);
        }
        self.free_if_done(name)?;
        Ok(true)
    }

    /// Gives up the `wait` for which a name is held: its job runs out of memory. Returns whether it
    /// had one.
    pub(super) fn give_up(&mut self, name: &[u8]) -> Result<bool, Stop>
        requires ready { IsReady self.old }
        ensures ready { OnOk result (IsReady self.new) }
        ensures turn { IfOk result (λ went. IsGivenUp went name.now
            (machine_of self.old) (machine_of self.new)) }
    {
        if !self.has_wait(name) {
            return Ok(false);
        }
        drop(self.held.take(name));
        self.server.tell_lost(name)?;
        self.free_if_done(name)?;
        Ok(true)
    }

    /// Whether that name is held for a `wait`.
    pub(super) fn has_wait(&self, name: &[u8]) -> bool
        ensures { result ≡ has_wait (held_of (self.now.held) name.now) }
    {
        match self.held.get(name) {
            Some(hold) => hold.is_waiting(),
            None => false,
        }
    }
}
