//! The sessions of a script, run on threads beside the workers.
ghost use Rattle.std.specs.Prelude.{◌≡◌, ◌+◌, true, length, map, IfOk};
ghost use Rattle.script_threads.specs.Prelude.{MAX_WORKERS, MAX_ADMISSIONS, section_of, AreApart, said_by};
ghost use Rattle.script_threads.specs.Served.{Ran};

use crate::crowd::run_crowd;
use crate::finish::finish;
use crate::seated::{seat_all, shares};
use crate::setup::Setup;
use crate::unserved::Unserved;
use job_queue::Ready;
use operator::Operator;
use script_text::{SessionInput, SessionReplies};
use service_core::Service;
use shared_core::{Begun, Core, Shared};
use std::alloc::AllocGlobal;
use std::sync::Wait;
use std::sync::ledger::{Blank, Ledger};
use std::thread::Threads;
use std::time::Clock;
use worker_pool::Pool;

/// Runs each name's session over the service, whose core has these ledgers. Settles the answers.
pub(crate) fn run_sessions<
    't,
    C: Begun + Send + Sync,
    P: Ledger + Send + Sync,
    R: Threads + Wait + Clock + AllocGlobal + Sync,
>(
    setup: &Setup<'_, R>,
    operator: &Operator<'t>,
    service: Service,
    commands: Blank,
    puts: Blank,
    sessions: Vec<SessionInput<'t>>,
) -> Result<(Service, Vec<SessionReplies<'t>>), Unserved>
    requires apart { AreApart (map said_by sessions.items) }
    requires commands { (commands.name ≡ C.name) × (commands.parts ≡ C.parts)
        × (commands.parts ≡ MAX_ADMISSIONS + 1) }
    requires puts { (puts.name ≡ P.name) × (puts.parts ≡ P.parts) × (puts.parts ≡ MAX_WORKERS + 1) }
    requires begun { C.begun ≡ service }
    requires stay { C.stay ≡ true }
    ensures ran { IfOk result (λ r. Ran operator.now service (map said_by sessions.entry.items)
        (map section_of r.1.items) r.0) }
    ensures even { IfOk result (λ r. length (r.0).histories ≡ length service.histories) }
{
    let alloc = setup.rt.alloc();
    let Ok(mut core) = Core::<C, P>::over(alloc, service, commands, puts) else {
        return Err(Unserved::NoMemory);
    };
    let shares = shares(alloc, &mut core, setup.workers)?;
    let seated = seat_all(alloc, operator, &mut core, sessions)?;
    let (ready, seats, passes) = Ready::new(alloc, shares.len(), seated.len())?;
    let shared = Shared::new(core);
    let pool = Pool {
        rt: setup.rt,
        shared: &shared,
        ready: &ready,
        graph: setup.graph,
    };
    let ran = run_crowd(pool, (seats, shares), (passes, seated));
    let core = shared.into_core();
    let Some((parts, shares)) = ran else {
        return Err(Unserved::NoMemory);
    };
    finish(alloc, core, parts, shares)
}
