//! Commands that are served after one that is not.
ghost use Rattle.std.specs.Prelude.{◌≡◌, ◌&&◌, ◌||◌, ⊤, All, MatchOption, false};
ghost use Rattle.script_threads.specs.Refusals.{NoneLate, is_note, is_receipt, places_in, served_late};

use shared_core::Begun;
use transcripts::{Item, ItemAnswer, Transcript};

/// Whether an item's command is served although one before it was not.
fn is_late(item: &Item, is_refused: bool) -> bool
    ensures { result ≡ (is_receipt item.now.place && is_refused) }
{
    match &item.place {
        ItemAnswer::Receipt(_) => is_refused,
        _ => false,
    }
}

/// Whether an item's command is not served, or one before it was not.
fn is_refused_by(item: &Item, is_refused: bool) -> bool
    ensures { result ≡ (is_note item.now.place || is_refused) }
{
    match &item.place {
        ItemAnswer::Note(_) => true,
        _ => is_refused,
    }
}

/// Whether a command of these items is served after one that is not.
fn is_served_late(items: &[Item]) -> bool
    ensures { result ≡ served_late false (places_in items.now) }
{
    let mut is_refused = false;
    for i in 0..items.len() {
        let item = &items[i];
        if is_late(item, is_refused) {
            return true;
        }
        is_refused = is_refused_by(item, is_refused);
    }
    false
}

/// A tenancy of which a command was served after one that was not. `None` if there is no such.
pub(crate) fn first_served_late<C: Begun>(transcripts: &[Transcript<C>]) -> Option<u32>
    ensures { MatchOption result (All NoneLate transcripts.now) (λ id. ⊤) }
{
    for i in 0..transcripts.len() {
        let transcript = &transcripts[i];
        if is_served_late(transcript.items()) {
            return Some(transcript.id());
        }
    }
    None
}
