//! Writes a session's answers.
ghost use Rattle.std.specs.Prelude.{◌≡◌, option_copied};
ghost use Rattle.session_threads.specs.Prelude.{Writes};
ghost use Rattle.session_threads.specs.Told.{last_place as last_place_of, place_text, told_text};

use line_text::{Failed, Sink};
use sessions::{write_no_memory, write_note, write_reply, write_session_refusal};
use transcripts::{Item, ItemAnswer};

/// Writes the answer to an item. Without an answer it ran out of memory.
pub fn write_told<W: Sink>(writer: &mut W, told: Option<&ItemAnswer>) -> Result<(), Failed>
    ensures { Writes W.contents W.has_failed writer.old writer.new
        (told_text (option_copied told.entry)) result }
{
    match told {
        Some(place) => write_place(writer, place),
        None => write_no_memory(writer),
    }
}

/// Writes the answer to an item that has one.
fn write_place<W: Sink>(writer: &mut W, place: &ItemAnswer) -> Result<(), Failed>
    ensures { Writes W.contents W.has_failed writer.old writer.new (place_text place.now) result }
{
    match place {
        ItemAnswer::Receipt(receipt) => write_reply(writer, receipt.reply()),
        ItemAnswer::Note(note) => write_note(writer, note.cause()),
        ItemAnswer::Refused(refusal) => write_session_refusal(writer, *refusal),
    }
}

/// The answer to the last item that has one.
pub(crate) fn last_place(items: &[Item]) -> Option<&ItemAnswer>
    ensures { option_copied result ≡ last_place_of items.now }
{
    match items {
        [.., item] => Some(&item.place),
        [] => None,
    }
}
