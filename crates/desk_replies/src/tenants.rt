//! What each name asked for and was answered: a file of its lines.
ghost use Rattle.std.specs.Prelude.{◌≡◌, ◌++◌, IfOk, MatchResult};
ghost use Rattle.std.specs.List.{flat_map};
ghost use Rattle.desk_replies.specs.Prelude.{AreAdded, told_text};
ghost use Rattle.desk_replies.specs.Saved.{line_at, lines_at, replies_file, replies_files};

use desk_common::{FileOutputs, NewFile, Outcome, ResultFile};
use line_text::{MemorySink, Sink};
use printed_replies::Replies;
use script_replies::{ToldLine, write_told};
use std::alloc::{AllocError, Global};

/// Writes of each name its lines with their replies into the folder, as `NAME.replies`.
pub(crate) fn save_replies<O: FileOutputs, E: Sink>(
    alloc: Global,
    outputs: &mut O,
    folder: &str,
    replies: &Replies<'_, '_>,
    told: &[ToldLine<'_>],
    teller: &mut E,
) -> Result<(), Outcome>
    ensures { IfOk result (λ _. AreAdded (O.written outputs.old) (O.written outputs.new)
        (replies_files folder.now told.now replies.now)) }
{
    let names = replies.names();
    for number in 0..names.len() {
        let own = own_text(alloc, replies.places_of(number), told);
        save_name(outputs, folder, names.name(number), own, teller)?;
    }
    Ok(())
}

/// Writes the file of a name's lines with that text, unless memory ran out for it.
fn save_name<O: FileOutputs, E: Sink>(
    outputs: &mut O,
    folder: &str,
    name: &[u8],
    own: Result<Vec<u8>, AllocError>,
    teller: &mut E,
) -> Result<(), Outcome>
    ensures { IfOk result (λ _. MatchResult own (λ lines. AreAdded (O.written outputs.old)
        (O.written outputs.new) (replies_file folder.now name.now lines.items)) (λ _. ⊥)) }
{
    let Ok(lines) = own else {
        return Err(Outcome::NoMemory);
    };
    save_text(outputs, folder, name, lines.as_slice(), teller)
}

/// Writes the file of a name's lines.
fn save_text<O: FileOutputs, E: Sink>(
    outputs: &mut O,
    folder: &str,
    name: &[u8],
    lines: &[u8],
    teller: &mut E,
) -> Result<(), Outcome>
    ensures { IfOk result (λ _. AreAdded (O.written outputs.old) (O.written outputs.new)
        (replies_file folder.now name.now lines.now)) }
{
    let Ok(name) = str::from_utf8(name) else {
        return Ok(());
    };
    let kind = "replies";
    let new = NewFile {
        file: ResultFile { folder, name, kind },
        bytes: lines,
    };
    outputs.write_files(&[new], teller)
}

/// The lines at these places with their replies, as a text.
fn own_text(alloc: Global, places: &[usize], told: &[ToldLine<'_>]) -> Result<Vec<u8>, AllocError>
    ensures { IfOk result (λ text. text.items ≡ flat_map told_text (lines_at told.now places.now)) }
{
    let own = own_lines(alloc, places, told)?;
    let mut text = MemorySink::new(alloc);
    write_told(&mut text, &own).or(Err(AllocError))?;
    Ok(text.into_bytes())
}

/// The lines at these places with their replies.
fn own_lines<'a>(
    alloc: Global,
    places: &[usize],
    told: &[ToldLine<'a>],
) -> Result<Vec<ToldLine<'a>>, AllocError>
    ensures { IfOk result (λ own. own.items ≡ lines_at told.now places.now) }
{
    let mut own = Vec::new(alloc);
    for place in places {
        add_line(&mut own, told, *place)?;
    }
    Ok(own)
}

/// Adds the line at that place, if there is one.
fn add_line<'a>(
    own: &mut Vec<ToldLine<'a>>,
    told: &[ToldLine<'a>],
    place: usize,
) -> Result<(), AllocError>
    ensures { IfOk result (λ _. own.new.items ≡ own.old.items ++ line_at told.now place) }
{
    if place >= told.len() {
        return Ok(());
    }
    own.push(told[place])?;
    Ok(())
}
