//! Receipts against the journals.
ghost use Rattle.std.specs.Prelude.{◌≡◌, ◌↔◌, IsTrue, MatchBool, MatchOption, All, ℕ, true};
ghost use Rattle.shared_core.specs.CoreState.{is_leased};
ghost use Rattle.transcripts.specs.Transcripts.{receipts_of};
ghost use Rattle.settling.specs.Settling.{IsBorneOut, IsFirstBad, LacksLease, claims_in, claims_of, entry_of, has_id};

use service_core::{Entry, Receipt};
use shared_core::{Begun, Core};
use std::sync::ledger::Ledger;
use tenant_slot::Event;
use transcripts::{ItemAnswer, Transcript};

/// The id and the place of a receipt.
pub(crate) type At = (u32, u32);

/// Whether one of the transcripts is of that tenancy.
fn has_id<C: Begun>(transcripts: &[Transcript<C>], id: u32) -> bool
    ensures { result ≡ has_id transcripts.now id }
{
    for i in 0..transcripts.len() {
        if transcripts[i].id() == id {
            return true;
        }
    }
    false
}

/// Whether each lease that was given has its transcript.
pub(crate) fn has_each_lease<C: Begun, P: Ledger>(
    core: &Core<C, P>,
    transcripts: &[Transcript<C>],
) -> bool
    ensures { MatchBool result ((id : ℕ) → is_leased core.now.marks id ≡ true →
        has_id transcripts.now id ≡ true) (LacksLease core.now transcripts.now) }
{
    for index in 0..core.admissions() {
        if core.is_leased(index + 1) && !has_id(transcripts, index + 1) {
            return false;
        }
    }
    true
}

/// Whether the entry is the one that the receipt reports.
fn agrees(entry: &Entry, receipt: &Receipt) -> bool
    ensures { IsTrue result ↔ (entry.now ≡ entry_of receipt.now) }
{
    match &entry.event {
        Event::Command(command) => {
            command.same(receipt.command()) && entry.reply.same(receipt.reply())
        }
        Event::Advance(_) => false,
    }
}

/// Whether a receipt of that tenancy's transcript is the entry that its lease made, at a place that
/// isn't below that one.
fn is_borne_out<C: Begun, P: Ledger>(
    core: &Core<C, P>,
    id: u32,
    repeated: bool,
    least: u64,
    receipt: &Receipt,
) -> bool
    ensures { IsTrue result ↔ IsBorneOut core.now
        (record { id = id; repeated = repeated; least = least; receipt = receipt.now }) }
{
    if receipt.id() != id || repeated || (receipt.place() as u64) < least {
        return false;
    }
    if !core.is_marked(receipt.id(), receipt.place()) {
        return false;
    }
    match core.entry(receipt.id(), receipt.place()) {
        Some(entry) => agrees(entry, receipt),
        None => false,
    }
}

/// The first receipt of a transcript that isn't confirmed.
fn mismatch_in<C: Begun, P: Ledger>(
    core: &Core<C, P>,
    transcript: &Transcript<C>,
    repeated: bool,
) -> Option<At>
    ensures { MatchOption result
        (All (IsBorneOut core.now)
        (claims_in transcript.now.id repeated 0 (receipts_of transcript.now.items)))
        (λ at. IsFirstBad core.now
        (claims_in transcript.now.id repeated 0 (receipts_of transcript.now.items)) at.0 at.1) }
{
    let id = transcript.id();
    let items = transcript.items();
    let mut least = 0;
    for j in 0..items.len() {
        let ItemAnswer::Receipt(receipt) = &items[j].place else {
            continue;
        };
        if !is_borne_out(core, id, repeated, least, receipt) {
            return Some((receipt.id(), receipt.place()));
        }
        least = receipt.place() as u64 + 1;
    }
    None
}

/// The first receipt of all transcripts that isn't confirmed.
pub(crate) fn first_mismatch<C: Begun, P: Ledger>(
    core: &Core<C, P>,
    transcripts: &[Transcript<C>],
) -> Option<At>
    ensures { MatchOption result
        (All (IsBorneOut core.now) (claims_of transcripts.now))
        (λ at. IsFirstBad core.now (claims_of transcripts.now) at.0 at.1) }
{
    for i in 0..transcripts.len() {
        let transcript = &transcripts[i];
        let repeated = has_id(&transcripts[..i], transcript.id());
        if let Some(at) = mismatch_in(core, transcript, repeated) {
            return Some(at);
        }
    }
    None
}
