//! Sessions, each with its tenancy's lease if that is live.
ghost use Rattle.std.specs.Prelude.{◌≡◌, ◌≤◌, false, map, IfOk};
ghost use Rattle.script_threads.specs.Prelude.{MAX_WORKERS, last_id, AreApart, said_by, is_leased};
ghost use Rattle.script_threads.specs.Seats.{AreFree, GivesOneLease};
ghost use Rattle.script_threads.specs.Sessions.{asked_of};

use operator::Operator;
use script_text::SessionInput;
use shared_core::{Begun, Core, Lease, Share};
use std::alloc::{AllocError, Global};
use std::marker::Model;
use std::sync::ledger::Ledger;

/// What a name's session says, the last tenancy of the name, and its lease, if it is live.
#[derive(Drop)]
pub(crate) struct Seated<'t, C: Begun> {
    pub(crate) said: SessionInput<'t>,
    pub(crate) id: u32,
    pub(crate) lease: Option<Lease<C>>,
}

impl<'t, C: Begun> Model for Seated<'t, C> {
    ghost use Rattle.std.specs.Prelude.{is_some};
    ghost use Rattle.script_threads.specs.Seats.{HasLease};
    ghost use Rattle.script_threads.specs.Sessions.{Asked};

    ghost Value = { Asked };

    ghost view = { λ s. record { name = s.said.name.now; input = s.said.input.items; id = s.id; live = is_some s.lease } };

    ghost invariant = { λ s. HasLease s.id s.lease };
}

/// Seats each name's session, if no lease was given before.
pub(crate) fn seat_all<'t, C: Begun, P: Ledger>(
    alloc: Global,
    operator: &Operator<'t>,
    core: &mut Core<C, P>,
    sessions: Vec<SessionInput<'t>>,
) -> Result<Vec<Seated<'t, C>>, AllocError>
    requires apart { AreApart (map said_by sessions.items) }
    requires free { AreFree core.old.marks }
    ensures service { core.new.service ≡ core.old.service }
    ensures seats { IfOk result (λ seats.
        seats.items ≡ map (asked_of operator.now core.old.service.histories)
        (map said_by sessions.entry.items)) }
{
    let mut seats = Vec::new(alloc);
    for said in sessions {
        let seated = seat(operator, core, said);
        seats.push(seated)?;
    }
    Ok(seats)
}

/// Seats a name's session, whose tenancy's lease wasn't given before.
fn seat<'t, C: Begun, P: Ledger>(
    operator: &Operator<'t>,
    core: &mut Core<C, P>,
    said: SessionInput<'t>,
) -> Seated<'t, C>
    requires free { is_leased core.old.marks (last_id operator.now said.name.now) ≡ false }
    ensures service { core.new.service ≡ core.old.service }
    ensures seat { result ≡ asked_of operator.now core.old.service.histories (said_by said.entry) }
    ensures leased { GivesOneLease core.old.marks (last_id operator.now said.entry.name.now)
        core.new.marks }
{
    let id = operator.last_id(said.name);
    let lease = core.lease(id);
    Seated { said, id, lease }
}

/// A share for each worker, of the 16 shares that there are.
pub(crate) fn shares<C: Begun, P: Ledger>(
    alloc: Global,
    core: &mut Core<C, P>,
    workers: u32,
) -> Result<Vec<Share<P>>, AllocError>
    requires workers { workers ≤ MAX_WORKERS }
    requires none { core.old.shares ≡ 0 }
    ensures service { core.new.service ≡ core.old.service }
    ensures marks { core.new.marks ≡ core.old.marks }
{
    let mut shares = Vec::new(alloc);
    for _worker in 0..workers {
        let Some(share) = core.share() else {
            unreachable!()
        };
        shares.push(share)?;
    }
    Ok(shares)
}
