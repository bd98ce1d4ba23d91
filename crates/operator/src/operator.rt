ghost use Rattle.std.specs.Prelude.{◌≡◌, ◌+◌, ◌<◌, ◌∷◌, ◌++◌, ◌↔◌, [], length, vec_capacity, vec_len, option_copied, IsTrue, OnErr, OnOk};
ghost use Rattle.operator.specs.OperatorText.{last_id, list_text, name_of};
ghost use Rattle.operator.specs.Prelude.{spare};
ghost use Rattle.operator.specs.Held.{sink_text};
ghost use Rattle.operator.specs.Ids.{AreLastIds, newest_first};
ghost use Rattle.operator.specs.Operators.{Steps, TriesSome};

use crate::held_jobs::HeldJobs;
use crate::owners::push_owners;
use crate::reply::{
    push_admitted, push_evicted, push_listed, push_moved, push_outcome, push_refused, push_taken,
};
use indexmap::IndexMap;
use line_text::MemorySink;
use script_text::OperatorLine;
use service_core::Service;
use sessions::make_step;
use std::alloc::{AllocError, Global};
use std::marker::Model;
use strips::DeviceGraph;

/// The operator: names for ids, with at most one live tenancy a name. Its value is the names of all
/// ids, newest first; the oldest has id 1.
#[derive(Drop)]
pub struct Operator<'t> {
    ids: IndexMap<&'t [u8], u32>,
    admitted: Vec<&'t [u8]>,
}

impl<'t> Model for Operator<'t> {
    ghost use Rattle.std.specs.Prelude.{List, ℕ};
    ghost use Rattle.operator.specs.Ids.{AreLastIds, newest_first};

    ghost Value = { List (List ℕ) };

    ghost view = { λ o. newest_first o.admitted.items };

    ghost invariant = { λ o. AreLastIds o.ids.entries (newest_first o.admitted.items) };
}

impl<'t> Operator<'t> {
    ghost use Rattle.operator.specs.Operators.{AdmissionStands, Admits, Answers, Stands};

    /// Returns an operator who has named no tenancy. Takes no memory.
    pub fn new(alloc: Global) -> Self
        ensures { result ≡ [] }
    {
        Operator {
            ids: IndexMap::new(alloc),
            admitted: Vec::new(alloc),
        }
    }

    /// The name of an id. None if it was not given.
    pub fn name_of(&self, id: u32) -> Option<&'t [u8]>
        ensures { option_copied result ≡ name_of self.now id }
    {
        if id == 0 {
            return None;
        }
        self.admitted.get(id as usize - 1).copied()
    }

    /// The last id that the name was given, or 0.
    pub fn last_id(&self, name: &[u8]) -> u32
        ensures { result ≡ last_id self.now name.now }
    {
        match self.ids.get(&name) {
            Some(id) => *id,
            None => 0,
        }
    }

    /// Returns whether the names are those of all tenancies that the core has admitted.
    pub fn is_of(&self, core: &Service) -> bool
        ensures { IsTrue result ↔ (length self.now ≡ length core.now.histories) }
    {
        self.admitted.len() == core.admissions() as usize
    }

    /// Executes a line of the operator, makes steps on the device's graph, and appends the reply.
    /// The device's own graph fits each job. If memory runs out, the line had no effect, or it took
    /// effect but its reply is missing or cut short; of several steps, only some may have been
    /// made. Even then each tenancy has its name.
    pub fn serve<'g>(
        &mut self,
        core: &mut Service,
        graph: &'g DeviceGraph,
        jobs: &mut HeldJobs<'g>,
        line: OperatorLine<&'t [u8]>,
        reply: &mut MemorySink,
    ) -> Result<(), AllocError>
        requires { length self.old ≡ length core.old.histories }
        ensures told { OnOk result (Answers graph.now self.old jobs.old core.old line.entry
            (sink_text reply.old) (sink_text reply.new) self.new jobs.new core.new) }
        ensures stands { OnErr result (Stands graph.now self.old jobs.old core.old line.entry
            self.new jobs.new core.new) }
    {
        match line {
            OperatorLine::Admit(name, width) => self.admit(core, name, width, reply),
            OperatorLine::Evict(name) => {
                let answer = core.evict(self.last_id(name));
                push_evicted(reply, &answer)
            }
            OperatorLine::Move(name, offset) => {
                let answer = core.move_strip(self.last_id(name), offset);
                push_moved(reply, offset, &answer)
            }
            OperatorLine::List => self.list(core, reply),
            OperatorLine::Owners => {
                let owners = core.owners()?;
                push_owners(reply, core.rows(), owners.as_slice())
            }
            OperatorLine::Step(name, count) => step(core, graph, self.last_id(name), count, reply),
            OperatorLine::Take(name) => {
                let number = jobs.take(core, graph, self.last_id(name))?;
                push_taken(reply, number)
            }
            OperatorLine::Put(number) => {
                let outcome = jobs.put(core, number);
                push_outcome(reply, outcome)
            }
        }
    }

    /// Admits a tenancy under that name, unless the name is in use. Memory for the name is reserved
    /// first, so that no tenancy is without one.
    fn admit(
        &mut self,
        core: &mut Service,
        name: &'t [u8],
        width: u32,
        reply: &mut MemorySink,
    ) -> Result<(), AllocError>
        requires { length self.old ≡ length core.old.histories }
        ensures told { OnOk result (Admits self.old core.old name.now width (sink_text reply.old)
            (sink_text reply.new) self.new core.new) }
        ensures stands { OnErr result (AdmissionStands self.old core.old name.now width self.new
            core.new) }
    {
        if core.state(self.last_id(name)).is_some() {
            return push_refused(reply, 7, "NameInUse");
        }
        self.ids.reserve(1)?;
        self.admitted.reserve(1)?;
        let answer = core.admit(width);
        match &answer {
            Ok((id, _)) => {
                note(&mut self.ids, &mut self.admitted, name, *id);
                push_admitted(reply, &answer)
            }
            Err(_) => push_admitted(reply, &answer),
        }
    }

    /// Appends one line for each live tenancy, by id.
    fn list(&self, core: &Service, reply: &mut MemorySink) -> Result<(), AllocError>
        requires { length self.now ≡ length core.now.histories }
        ensures { OnOk result (sink_text reply.new ≡ sink_text reply.old
            ++ list_text core.now self.now) }
    {
        let names = self.admitted.as_slice();
        for place in 0..core.admissions() {
            push_listed(reply, core, place + 1, names[place as usize])?;
        }
        Ok(())
    }
}

/// Records the next id and its name. There must be space for both.
fn note<'t>(
    ids: &mut IndexMap<&'t [u8], u32>,
    admitted: &mut Vec<&'t [u8]>,
    name: &'t [u8],
    id: u32,
)
    requires room { 0 < spare ids.old }
    requires place { vec_len admitted.old < vec_capacity admitted.old }
    requires next { id ≡ length (newest_first admitted.old.items) + 1 }
    requires last { AreLastIds ids.old.entries (newest_first admitted.old.items) }
    ensures names { newest_first admitted.new.items ≡ name.now ∷ newest_first admitted.old.items }
    ensures last { AreLastIds ids.new.entries (newest_first admitted.new.items) }
{
    ids.insert(name, id).unwrap();
    admitted.push(name).unwrap();
}

/// Tries the next step of a tenancy's job `count` times, and appends the outcome of each as a line.
fn step(
    core: &mut Service,
    graph: &DeviceGraph,
    id: u32,
    count: u32,
    reply: &mut MemorySink,
) -> Result<(), AllocError>
    ensures told { OnOk result (Steps graph.now core.old id count (sink_text reply.old) (sink_text
        reply.new)
        core.new) }
    ensures stands { OnErr result (TriesSome graph.now core.old id count core.new) }
{
    for number in 0..count {
        let outcome = make_step(core, graph, id);
        push_outcome(reply, outcome)?;
    }
    Ok(())
}
