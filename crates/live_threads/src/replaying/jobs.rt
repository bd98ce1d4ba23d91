//! The jobs that workers have while a log is served again.
ghost use Rattle.std.specs.Prelude.{◌≡◌, true, OnOk};
ghost use Rattle.live_threads.specs.Prelude.{is_ready, state_in, IsHome, without_workers};

use crate::letters::{Order, StepLetter, StepOrder};
use crate::replaying::Replayed;
use live_machine::{is_home, workers_law};
use std::alloc::{AllocError, AllocGlobal};
use std::sync::Wait;

impl<R: Wait + AllocGlobal> Replayed<'_, R> {
    /// Has a worker make the next step of that name's job, if there is one to make.
    pub(super) fn order_step(&mut self, name: &[u8]) -> Result<(), AllocError>
        requires ready { is_ready self.old.lines }
        ensures ready { OnOk result (is_ready self.new.lines) }
        ensures same { OnOk result (without_workers (state_in self.new.lines)
            ≡ without_workers (state_in self.old.lines)) }
        ensures next { self.new.next ≡ self.old.next }
        ensures taken { self.new.taken ≡ self.old.taken }
    {
        workers_law();
        let id = self.lines.live().names().last_id(name);
        let Some(job) = self.lines.take_job(id) else {
            return Ok(());
        };
        let offset = self.lines.live().service().offset(id);
        let order = StepOrder::new(job, offset);
        self.out.push(id)?;
        self.site.crew.order(self.site.rt, Order::Make(order))
    }

    /// Waits until no worker has the next step of that name's job. A job that the operator holds is
    /// not waited for.
    pub(super) fn await_home(&mut self, name: &[u8])
        requires ready { is_ready self.old.lines }
        ensures ready { is_ready self.new.lines }
        ensures home { self.old.taken ≡ 0 → IsHome (state_in self.new.lines) name.now }
        ensures same { without_workers (state_in self.new.lines)
            ≡ without_workers (state_in self.old.lines) }
        ensures next { self.new.next ≡ self.old.next }
        ensures taken { self.new.taken ≡ self.old.taken }
    {
        for _ in self.site.rt.forever() {
            if self.is_job_home(name) {
                return;
            }
            let letters = self.site.crew.mailbox.take_steps(self.site.rt);
            self.take_home(letters);
        }
        unreachable!()
    }

    /// No worker has the next step of that name's job. The live service knows it while the operator
    /// has taken no job: he has one as workers have it.
    fn is_job_home(&self, name: &[u8]) -> bool
        ensures { self.now.taken ≡ 0 → result ≡ true → IsHome (state_in self.now.lines) name.now }
    {
        if self.taken > 0 {
            return !self.out.contains(&self.lines.live().names().last_id(name));
        }
        is_home(&self.lines, name)
    }

    /// Waits until all jobs are home.
    pub(super) fn await_jobs(&mut self)
        requires ready { is_ready self.old.lines }
        ensures ready { is_ready self.new.lines }
        ensures same { without_workers (state_in self.new.lines)
            ≡ without_workers (state_in self.old.lines) }
        ensures next { self.new.next ≡ self.old.next }
        ensures taken { self.new.taken ≡ self.old.taken }
    {
        for _ in self.site.rt.forever() {
            if self.out.is_empty() {
                return;
            }
            let letters = self.site.crew.mailbox.take_steps(self.site.rt);
            self.take_home(letters);
        }
        unreachable!()
    }

    /// Takes the jobs home whose steps were made.
    fn take_home(&mut self, letters: Vec<StepLetter>)
        requires ready { is_ready self.old.lines }
        ensures ready { is_ready self.new.lines }
        ensures same { without_workers (state_in self.new.lines)
            ≡ without_workers (state_in self.old.lines) }
        ensures next { self.new.next ≡ self.old.next }
        ensures taken { self.new.taken ≡ self.old.taken }
    {
        for letter in letters {
            self.give_back(letter);
        }
    }

    /// Gives a job back.
    fn give_back(&mut self, letter: StepLetter)
        requires ready { is_ready self.old.lines }
        ensures ready { is_ready self.new.lines }
        ensures same { without_workers (state_in self.new.lines)
            ≡ without_workers (state_in self.old.lines) }
        ensures next { self.new.next ≡ self.old.next }
        ensures taken { self.new.taken ≡ self.old.taken }
    {
        workers_law();
        let back = match letter {
            StepLetter::Made(made) => made.into_done().into_back(),
            StepLetter::NoMemory(job) => job.into_back(),
            StepLetter::Paused(_) => return,
        };
        let id = back.id();
        self.lines.give_back(back);
        if let Some(place) = self.out.iter().position(|out| *out == id) {
            self.out.swap_remove(place);
        }
    }
}
