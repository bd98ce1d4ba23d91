//! Whether the journals are full of which a transcript says so.
ghost use Rattle.std.specs.Prelude.{◌≡◌, ℕ, All, MatchBool, MatchOption, Some, slice_get};
ghost use Rattle.settling.specs.Settling.{IsFullIfTold, IsToldInVain, TellsFull};
ghost use Rattle.transcripts.specs.declared.item.Item.{Item as Told};

use service_core::NoteCause;
use shared_core::{Begun, Core};
use std::sync::ledger::Ledger;
use tenant_slot::MAX_ENTRIES;
use transcripts::{Item, ItemAnswer, Transcript};

/// Whether the answer to an item says that the journal is full.
fn tells_full(item: &Item) -> bool
    ensures { MatchBool result (TellsFull item.now) (TellsFull item.now → ⊥) }
{
    match &item.place {
        ItemAnswer::Note(note) => matches!(note.cause(), NoteCause::JournalFull),
        _ => false,
    }
}

/// Whether the answer to one of the items says so.
fn is_told_full(items: &[Item]) -> bool
    ensures { MatchBool result
        ((i : ℕ) × (item : Told) × (slice_get items.now i ≡ Some item) × TellsFull item)
        (All (λ item. TellsFull item → ⊥) items.now) }
{
    for i in 0..items.len() {
        if tells_full(&items[i]) {
            return true;
        }
    }
    false
}

/// Whether the journal of a transcript's tenancy is full, if the transcript says so.
fn is_full_if_told<C: Begun, P: Ledger>(core: &Core<C, P>, transcript: &Transcript<C>) -> bool
    ensures { MatchBool result (IsFullIfTold core.now.service transcript.now)
        (IsFullIfTold core.now.service transcript.now → ⊥) }
{
    if !is_told_full(transcript.items()) {
        return true;
    }
    core.entry(transcript.id(), MAX_ENTRIES - 1).is_some()
}

/// A tenancy whose transcript says that its journal is full, and whose journal is not. None if
/// there is no such.
pub(crate) fn first_not_full<C: Begun, P: Ledger>(
    core: &Core<C, P>,
    transcripts: &[Transcript<C>],
) -> Option<u32>
    ensures { MatchOption result (All (IsFullIfTold core.now.service) transcripts.now)
        (λ id. IsToldInVain core.now.service transcripts.now id) }
{
    for i in 0..transcripts.len() {
        let transcript = &transcripts[i];
        if !is_full_if_told(core, transcript) {
            return Some(transcript.id());
        }
    }
    None
}
