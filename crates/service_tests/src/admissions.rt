//! Tenancies that come and go, and answers to a tenant's command.
use crate::cores::{new_core, text};
use fixtures::AND;
use service_core::{NotServed, NoteCause, OpRefusal, Receipt, Service};
use std::alloc::Global;
use tenant_slot::{Command, Reply, SharedText, StateName};

/// Whether two tenancies are admitted to nine columns, and a third once the first has gone.
fn come_and_go(core: &mut Service) -> bool {
    core.admit(4) == Ok((1, 0))
        && core.admit(3) == Ok((2, 5))
        && core.admissions() == 2
        && core.rows() == 1
        && core.width(2) == Some(3)
        && core.state(2) == Some(StateName::Empty)
        && core.admit(2) == Err(OpRefusal::NoRoom)
        && core.evict(1) == Ok(())
        && core.offset(1) == None
        && core.admit(2) == Ok((3, 0))
}

/// Whether a receipt reports the second tenancy's first command.
fn is_told(alloc: Global, core: &mut Service) -> bool {
    match text(alloc, AND) {
        Some(text) => is_told_of(core, text),
        None => false,
    }
}

fn is_told_of(core: &mut Service, text: SharedText) -> bool {
    match core.tenant(2, Command::Upload(text)) {
        Ok(receipt) => is_first(receipt),
        Err(_) => false,
    }
}

fn is_first(receipt: Receipt) -> bool {
    let is_so = receipt.id() == 2
        && receipt.place() == 0
        && matches!(receipt.command(), Command::Upload(_))
        && matches!(receipt.reply(), Reply::Accepted(StateName::Loaded));
    drop(receipt);
    is_so
}

/// Whether it is noted that the first tenancy isn't live.
fn is_gone(core: &mut Service) -> bool {
    match core.tenant(1, Command::Status) {
        Ok(receipt) => {
            drop(receipt);
            false
        }
        Err(refusal) => is_noted(refusal),
    }
}

fn is_noted(refusal: NotServed) -> bool {
    let is_named = refusal.number() == 5 && refusal.name() == "NoSuchTenancy";
    match refusal {
        NotServed::NoSuchTenancy(note) => {
            is_named && note.id() == 1 && note.cause() == NoteCause::NoSuchTenancy
        }
        _ => false,
    }
}

fn all_is_so(alloc: Global) -> bool {
    match new_core(alloc, 9) {
        Some(mut core) => {
            let is_so = come_and_go(&mut core) && is_told(alloc, &mut core) && is_gone(&mut core);
            drop(core);
            is_so
        }
        None => false,
    }
}

#[test]
fn a_tenancy_comes_and_goes(rt: HostRuntime) {
    assert!(rt; all_is_so(rt.alloc()));
}

/// Whether each id of 16 bits except 0 is given once, to tenancies that come and go, and no id
/// after these, whether or not a strip would fit.
fn spends_all_ids(core: &mut Service) -> bool {
    for id in 1..65_536 {
        if core.admit(1) != Ok((id, 0)) || (id < 65_535 && core.evict(id) != Ok(())) {
            return false;
        }
    }
    core.admit(1) == Err(OpRefusal::IdsSpent)
        && core.evict(65_535) == Ok(())
        && core.admit(1) == Err(OpRefusal::IdsSpent)
        && core.admissions() == 65_535
}

fn all_are_spent(alloc: Global) -> bool {
    match new_core(alloc, 1) {
        Some(mut core) => {
            let is_so = spends_all_ids(&mut core);
            drop(core);
            is_so
        }
        None => false,
    }
}

#[test]
fn ids_are_spent(rt: HostRuntime) {
    assert!(rt; all_are_spent(rt.alloc()));
}
