//! The names and numbers that replies are printed with.
use service_core::OpRefusal;
use tenant_slot::{FileKind, NotAnswered, Refusal, StateName};

fn are_named() -> bool {
    StateName::Packing.name() == "Packing"
        && FileKind::Net.name() == "net"
        && NotAnswered::JournalFull.number() == 2
        && NotAnswered::NoMemory.name() == "NoMemory"
        && OpRefusal::NoRoom.number() == 2
        && OpRefusal::NoRoom.name() == "NoRoom"
}

fn is_refusal_named() -> bool {
    let refusal = Refusal::CannotPack(0);
    let is_so = refusal.number() == 5 && refusal.name() == "CannotPack";
    drop(refusal);
    is_so
}

#[test]
fn names(rt: HostRuntime) {
    assert!(rt; are_named() && is_refusal_named());
}
