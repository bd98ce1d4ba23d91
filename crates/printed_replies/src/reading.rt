//! The printed text, read once from its beginning to its end.
ghost use Rattle.std.specs.Prelude.{◌≡◌, ◌+◌, ◌<◌, ◌≤◌, ◌^◌, length, map, option_map, Some, IfOk, OnOk, [], ◌∷◌, ◌++◌, codes, is_some};
ghost use Rattle.printed_replies.specs.Parts.{IsRead, answered_lines, rest_at, speaker_of};
ghost use Rattle.printed_replies.specs.Replies.{Gives, answered_line, asked_line, after_heading, line_at, live_after, read_from, reply_read, replies_in, section_read, without_reply};
ghost use Rattle.printed_replies.specs.Lengths.{after_prefix, is_line_feed};
ghost use Rattle.printed_replies.specs.Printing.{asked_in};
ghost use Rattle.printed_replies.specs.Sections.{AreSections, places_of};

use crate::answered::Answered;
use crate::asked::{Asked, ReplyForm};
use crate::length::{after_prefix, reply_length};
use crate::replies::Replies;
use crate::sections::{Sections, sections_of};
use line_text::TextError;
use std::alloc::{AllocError, Global};

/// Why lines have no replies: memory ran out, or the line of the printed text, from 1, that fits no
/// reply.
pub type ReplyError = TextError<usize>;

/// The number of bytes that remained when they didn't fit.
#[derive(Clone, Copy)]
pub(crate) struct Left {
    bytes: usize,
}

/// The number of live tenancies, and the remaining bytes.
#[derive(Clone, Copy)]
pub(crate) struct Place<'p> {
    pub(crate) live: usize,
    pub(crate) rest: &'p [u8],
}

/// Returns the lines with their replies. Fails with the line of the printed text that fits no
/// reply, or if memory runs out.
#[tactic(auto, unfolding(crate::specs::Replies::replies_in))]
pub fn read_replies<'t, 'p>(
    alloc: Global,
    asked: &[Asked<'t>],
    printed: &'p [u8],
) -> Result<Replies<'t, 'p>, ReplyError>
    ensures { Gives printed.now (replies_in (map asked_line asked.now) printed.now) result }
{
    let sections = sections_of(alloc, asked)?;
    let mut lines = bare_lines(alloc, asked)?;
    match read_sections(&mut lines, &sections, printed) {
        Ok(()) => Ok(Replies::new(lines, sections)),
        Err(left) => Err(ReplyError::Fault(line_at(printed, left.bytes))),
    }
}

/// The lines without replies.
fn bare_lines<'t, 'p>(
    alloc: Global,
    asked: &[Asked<'t>],
) -> Result<Vec<Answered<'t, 'p>>, AllocError>
    ensures { IfOk result (λ lines.
        answered_lines lines.items ≡ map without_reply (map asked_line asked.now)) }
{
    let mut lines = Vec::new(alloc);
    for one in asked {
        lines.push(Answered {
            asked: *one,
            reply: &[],
        })?;
    }
    Ok(lines)
}

/// Reads the operator's section, and those of the names, up to the end.
fn read_sections<'p>(
    lines: &mut Vec<Answered<'_, 'p>>,
    sections: &Sections<'_>,
    printed: &'p [u8],
) -> Result<(), Left>
    requires { AreSections (asked_in (answered_lines lines.old.items)) sections.now }
    ensures read { IsRead (λ _. answered_lines lines.new.items)
        (read_from sections.now.names (answered_lines lines.old.items) printed.now) result }
    ensures asked { OnOk result (asked_in (answered_lines lines.new.items)
        ≡ asked_in (answered_lines lines.old.items)) }
{
    let mut rest = read_section(None, sections.operator.as_slice(), lines, printed)?.rest;
    let mut number = 0;
    while number < sections.names.len() {
        let name = sections.names.name(number);
        let places = sections.sessions[number].as_slice();
        match read_section(Some(name), places, lines, rest) {
            Ok(place) => rest = place.rest,
            Err(left) => return Err(left),
        }
        number += 1;
    }
    if rest.is_empty() {
        Ok(())
    } else {
        Err(Left { bytes: rest.len() })
    }
}

/// Reads the section of a speaker, whose lines at these places take their replies, and returns the
/// rest after it.
fn read_section<'p>(
    speaker: Option<&[u8]>,
    places: &[usize],
    lines: &mut Vec<Answered<'_, 'p>>,
    printed: &'p [u8],
) -> Result<Place<'p>, Left>
    requires { places.now
        ≡ places_of (speaker_of speaker) (asked_in (answered_lines lines.old.items)) }
    ensures read { IsRead (λ place. (answered_lines lines.new.items, rest_at place))
        (section_read (speaker_of speaker.entry) (answered_lines lines.old.items) printed.now)
        result }
    ensures asked { OnOk result (asked_in (answered_lines lines.new.items)
        ≡ asked_in (answered_lines lines.old.items)) }
{
    let mut place = after_heading(speaker, printed)?;
    let mut number = 0;
    while number < places.len() {
        let index = places[number];
        match read_line(place, lines[index]) {
            Ok((line, next)) => {
                lines[index] = line;
                place = next;
            }
            Err(left) => return Err(left),
        }
        number += 1;
    }
    Ok(place)
}

/// The rest after the heading of a speaker.
fn after_heading<'p>(speaker: Option<&[u8]>, printed: &'p [u8]) -> Result<Place<'p>, Left>
    ensures { IsRead rest_at (after_heading (speaker_of speaker.entry) printed.now) result }
{
    match after_words(speaker.unwrap_or(b"op"), printed) {
        Some(rest) => Ok(Place { live: 0, rest }),
        None => Err(Left {
            bytes: printed.len(),
        }),
    }
}

/// The rest after a line `== NAME`.
fn after_words<'p>(name: &[u8], printed: &'p [u8]) -> Option<&'p [u8]>
    ensures { option_map (λ rest. rest.now) result
        ≡ after_prefix (codes "== " ++ name.now ++ 10 ∷ []) printed.now }
{
    after_prefix(b"\n", after_prefix(name, after_prefix(b"== ", printed)?)?)
}

/// Returns a line with its reply, and what remains.
fn read_line<'t, 'p>(
    place: Place<'p>,
    line: Answered<'t, 'p>,
) -> Result<(Answered<'t, 'p>, Place<'p>), Left>
    requires { place.live + 1 < 2 ^ 64 }
    ensures read { IsRead (λ read. (answered_line read.0, rest_at read.1))
        (reply_read (rest_at place.entry) (answered_line line.entry).asked) result }
    ensures live { IfOk result (λ read. read.1.live ≤ place.entry.live + 1) }
{
    let form = line.asked.form;
    let Some(length) = reply_length(place.live, form, place.rest) else {
        return Err(Left {
            bytes: place.rest.len(),
        });
    };
    let (reply, rest) = place.rest.split_at(length);
    let live = live_after(place.live, form, reply);
    Ok((
        Answered {
            asked: line.asked,
            reply,
        },
        Place { live, rest },
    ))
}

/// The number of live tenancies after that reply.
fn live_after(live: usize, form: ReplyForm, reply: &[u8]) -> usize
    requires { live + 1 < 2 ^ 64 }
    ensures live { result ≡ live_after live form reply.now }
    ensures more { result ≤ live + 1 }
{
    match form {
        ReplyForm::Admission if is_ok(reply) => live + 1,
        ReplyForm::Eviction if is_ok(reply) => live.saturating_sub(1),
        _ => live,
    }
}

/// Returns whether a reply begins with `ok`.
fn is_ok(reply: &[u8]) -> bool
    ensures { result ≡ is_some (after_prefix (codes "ok") reply.now) }
{
    after_prefix(b"ok", reply).is_some()
}

/// The number of the line, from 1, at which that many bytes remain.
fn line_at(bytes: &[u8], left: usize) -> usize
    ensures { result ≡ line_at bytes.now left }
{
    bytes[..bytes.len().saturating_sub(left)]
        .iter()
        .filter(|byte| **byte == b'\n')
        .count()
        + 1
}
