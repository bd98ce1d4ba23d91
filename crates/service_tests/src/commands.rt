//! Commands and replies are compared with their copies.
use crate::cores::text;
use fixtures::AND;
use std::alloc::Global;
use tenant_slot::{Command, Refusal, Reply, SharedText, StateName};

/// A table with three inputs and an output.
const THREE_INPUTS: &str = "\
.model m
.inputs a b c
.outputs f
.names a b c f
111 1
";

/// Whether a text is equal for each of its owners.
fn is_shared(shared: &SharedText) -> bool {
    match shared.clone() {
        Ok(copy) => copy.as_bytes() == AND.as_bytes(),
        Err(_) => false,
    }
}

/// Whether an upload equals its copy and nothing else.
fn compares_commands(one: SharedText, other: SharedText, changed: SharedText) -> bool {
    let upload = Command::Upload(one);
    let another = Command::Upload(other);
    let change = Command::Change(changed);
    let is_so = is_copied(&upload) && !upload.same(&another) && !upload.same(&change);
    drop(upload);
    drop(another);
    drop(change);
    is_so
}

fn is_copied(command: &Command) -> bool {
    match command.clone() {
        Ok(copy) => {
            let is_so = command.same(&copy);
            drop(copy);
            is_so
        }
        Err(_) => false,
    }
}

fn compares_texts(alloc: Global) -> bool {
    match (
        text(alloc, AND),
        text(alloc, THREE_INPUTS),
        text(alloc, AND),
    ) {
        (Some(one), Some(other), Some(changed)) => {
            is_shared(&one) && compares_commands(one, other, changed)
        }
        _ => false,
    }
}

/// Whether a refusal equals its copy and nothing else.
fn compares_replies() -> bool {
    let reply = Reply::Refused(Refusal::WrongState(StateName::Packed));
    let other = Reply::Refused(Refusal::WrongState(StateName::Empty));
    let accepted = Reply::Accepted(StateName::Packed);
    let is_so = is_same_as_copy(&reply) && !reply.same(&other) && !reply.same(&accepted);
    drop(reply);
    drop(other);
    drop(accepted);
    is_so
}

fn is_same_as_copy(reply: &Reply) -> bool {
    match reply.clone() {
        Ok(copy) => {
            let is_so = reply.same(&copy);
            drop(copy);
            is_so
        }
        Err(_) => false,
    }
}

#[test]
fn commands_and_replies_are_compared(rt: HostRuntime) {
    assert!(rt; compares_texts(rt.alloc()));
    assert!(rt; compares_replies());
}
