//! The steps that workers make of a machine's jobs.
ghost use Rattle.std.specs.Prelude.{◌≡◌, [], OnOk};
ghost use Rattle.live_threads.specs.Prelude.{View, IsReady, machine_of};
ghost use Rattle.live_threads.specs.Serving.{IsServed};

use crate::crew::Crew;
use crate::fault::Fault;
use crate::letters::{Order, StepLetter, StepOrder};
use live_machine::{Machine, StepEnd};
use std::sync::Wait;

/// Puts what workers did.
pub(crate) fn put_steps<R: Wait>(
    rt: &R,
    crew: &Crew,
    machine: &mut Machine<'_>,
    steps: Vec<StepLetter>,
) -> Result<(), Fault>
    requires ready { IsReady machine.old }
    ensures ready { OnOk result (IsReady machine.new) }
    ensures served { OnOk result ((view : View) →
        IsServed (machine_of machine.old) view [] (machine_of machine.new) view) }
{
    for letter in steps {
        put_step(rt, crew, machine, letter)?;
    }
    Ok(())
}

/// Puts what a worker did. If memory ran out for a step, a worker pauses before it is made again.
fn put_step<R: Wait>(
    rt: &R,
    crew: &Crew,
    machine: &mut Machine<'_>,
    letter: StepLetter,
) -> Result<(), Fault>
    requires ready { IsReady machine.old }
    ensures ready { OnOk result (IsReady machine.new) }
    ensures served { OnOk result ((view : View) →
        IsServed (machine_of machine.old) view [] (machine_of machine.new) view) }
{
    if let Some((id, tries)) = put_letter(machine, letter)? {
        crew.order(rt, Order::Pause(id, tries))?;
    }
    Ok(())
}

/// Puts what a worker did. Returns the tenancy for whose step memory ran out, and how many times in
/// a row.
fn put_letter(machine: &mut Machine<'_>, letter: StepLetter) -> Result<Option<(u32, u32)>, Fault>
    requires ready { IsReady machine.old }
    ensures ready { OnOk result (IsReady machine.new) }
    ensures served { OnOk result ((view : View) →
        IsServed (machine_of machine.old) view [] (machine_of machine.new) view) }
{
    match letter {
        StepLetter::Made(made) => {
            let done = made.into_done();
            let id = done.id();
            Ok(lack_of(id, machine.put(done)?))
        }
        StepLetter::NoMemory(job) => {
            let back = job.into_back();
            let id = back.id();
            Ok(lack_of(id, machine.give_back(back)?))
        }
        StepLetter::Paused(id) => {
            machine.retry(id)?;
            Ok(None)
        }
    }
}

/// The tenancy for whose step memory ran out, and how many times in a row, if it did.
fn lack_of(id: u32, end: StepEnd) -> Option<(u32, u32)> {
    match end {
        StepEnd::Again(tries) => Some((id, tries)),
        StepEnd::Made | StepEnd::Dropped | StepEnd::GivenUp => None,
    }
}

/// Has workers make the steps that can be made.
pub(crate) fn give_orders<R: Wait>(
    rt: &R,
    crew: &Crew,
    machine: &mut Machine<'_>,
) -> Result<(), Fault>
    requires ready { IsReady machine.old }
    ensures ready { IsReady machine.new }
    ensures same { machine_of machine.new ≡ machine_of machine.old }
{
    let count = machine.steps_to_take();
    if count == 0 {
        return Ok(());
    }
    let mut waiting = crew.orders.open(rt);
    let mut given = 0usize;
    for _ in 0..count {
        let Some(job) = machine.take() else {
            break;
        };
        let offset = machine.lines().live().service().offset(job.id());
        waiting.put(Order::Make(StepOrder::new(job, offset)))?;
        given = given.saturating_add(1);
    }
    drop(waiting);
    crew.orders.wake(given);
    Ok(())
}
