//! The texts of a journal: the bytes that they take, and where one is found again.
ghost use Rattle.std.specs.Prelude.{◌≡◌, ◌<◌, ◌^◌, IfOk, length};
ghost use Rattle.service_core.specs.Texts.{AddsBytes, bytes_of, command_texts, ending_texts, refusal_texts, reply_texts};

use crate::entry::Entry;
use std::alloc::AllocError;
use tenant_slot::{Command, Ending, FileKind, Refusal, Reply, SharedText, Status};

/// The bytes of a command's text.
pub(crate) fn command_bytes(command: &Command) -> u64
    ensures exact { result ≡ bytes_of (command_texts command.now) }
    ensures few { result < 2 ^ 63 }
{
    match command {
        Command::Upload(text) | Command::Change(text) => length_of(text),
        _ => 0,
    }
}

/// The bytes of a reply's text.
fn reply_bytes(reply: &Reply) -> u64
    ensures exact { result ≡ bytes_of (reply_texts reply.now) }
    ensures few { result < 2 ^ 63 }
{
    match reply {
        Reply::File { text, .. } => length_of(text),
        Reply::Status(status) => status_bytes(status),
        Reply::Refused(refusal) => refusal_bytes(refusal),
        _ => 0,
    }
}

/// The number of bytes of a text.
fn length_of(text: &SharedText) -> u64
    ensures exact { result ≡ length text.now }
    ensures few { result < 2 ^ 63 }
{
    text.as_bytes().len() as u64
}

/// The bytes of the net's name in a status.
fn status_bytes(status: &Status) -> u64
    ensures exact { result ≡ bytes_of (ending_texts status.now.ending) }
    ensures few { result < 2 ^ 63 }
{
    match &status.ending {
        Some(Ending::NoPath(net)) => length_of(net),
        _ => 0,
    }
}

/// The bytes of the net's name in a refusal.
fn refusal_bytes(refusal: &Refusal) -> u64
    ensures exact { result ≡ bytes_of (refusal_texts refusal.now) }
    ensures few { result < 2 ^ 63 }
{
    match refusal {
        Refusal::BadBlif(fault) => match fault.net() {
            Some(net) => net.as_bytes().len() as u64,
            None => 0,
        },
        _ => 0,
    }
}

/// The reply as a journal is to keep it, and the bytes that its text adds: none if the journal has
/// that reply at that index, of which the text gets one more owner.
pub(crate) fn kept_reply(
    journal: &[Entry],
    index: u32,
    reply: &Reply,
) -> Result<(Reply, u64), AllocError>
    ensures same { IfOk result (λ kept. kept.0 ≡ reply.now) }
    ensures adds { IfOk result (λ kept. AddsBytes journal.now reply.now kept.1) }
    ensures few { IfOk result (λ kept. kept.1 < 2 ^ 63) }
{
    if let Some(entry) = journal.get(index as usize) {
        if entry.reply.same(reply) {
            return Ok((entry.reply.clone()?, 0));
        }
    }
    Ok((reply.clone()?, reply_bytes(reply)))
}

/// Where a journal's last file of each kind and its last status are: the same text may come again.
/// Only a hint: what is found there is compared.
#[derive(Clone, Copy)]
pub(crate) struct LastTexts {
    net: u32,
    place: u32,
    route: u32,
    status: u32,
}

impl LastTexts {
    /// The index of no entry.
    const NOWHERE: u32 = u32::MAX;

    /// The hint of an empty journal.
    pub(crate) fn none() -> Self {
        LastTexts {
            net: Self::NOWHERE,
            place: Self::NOWHERE,
            route: Self::NOWHERE,
            status: Self::NOWHERE,
        }
    }

    /// The index of the last reply of the same kind. No entry has it if the reply's text can't be
    /// shared.
    pub(crate) fn index_for(&self, reply: &Reply) -> u32 {
        match reply {
            Reply::File { kind, .. } => match kind {
                FileKind::Net => self.net,
                FileKind::Place => self.place,
                FileKind::Route => self.route,
            },
            Reply::Status(_) => self.status,
            _ => Self::NOWHERE,
        }
    }

    /// Notes that the entry of that index has the reply.
    pub(crate) fn note(&mut self, reply: &Reply, index: u32) {
        match reply {
            Reply::File { kind, .. } => match kind {
                FileKind::Net => self.net = index,
                FileKind::Place => self.place = index,
                FileKind::Route => self.route = index,
            },
            Reply::Status(_) => self.status = index,
            _ => {}
        }
    }
}
