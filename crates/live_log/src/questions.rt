//! What two services are asked, to see whether they answer alike.
ghost use Rattle.std.specs.Prelude.{◌≡◌, ◌<◌, ◌^◌, ◌∷◌, [], codes, length, map, true, None, Some, IfOk, OnOk, MatchOption, drop};
ghost use Rattle.live_log.specs.Prelude.{physical_lines, texts};
ghost use Rattle.live_log.specs.Alike.{AnswerAlike, are_alike, says_full};
ghost use Rattle.live_log.specs.Questions.{line_of, questions_to, speaker_of, with_one, with_speakers, words_asked};

use line_service::Answers;
use line_text::{NameSet, is_word, split_line};
use std::alloc::{AllocError, Global};
use tagged_lines::{owner_of, split_tag};

/// The name whose session says a line.
pub(crate) fn speaker_of(line: &[u8]) -> Option<&[u8]>
    ensures { MatchOption result (speaker_of line.now ≡ None)
        (λ name. speaker_of line.now ≡ Some name.now) }
{
    let (tag, _) = split_tag(line);
    match owner_of(tag) {
        Some([b'@', name @ ..]) => Some(name),
        _ => None,
    }
}

/// Adds the name whose session says a line.
fn add_speaker<'l>(names: &mut NameSet<'l>, line: &'l [u8]) -> Result<(), AllocError>
    ensures { OnOk result (names.new ≡ with_one names.old (speaker_of line.now)) }
{
    if let Some(name) = speaker_of(line) {
        names.add(name)?;
    }
    Ok(())
}

/// The names whose sessions say the lines of a log.
pub(crate) fn speakers(alloc: Global, log: &[u8]) -> Result<NameSet<'_>, AllocError>
    ensures { IfOk result (λ names. names ≡ with_speakers [] (physical_lines log.now)) }
{
    let mut names = NameSet::new(alloc);
    let mut rest = log;
    while !rest.is_empty() {
        let (line, after) = split_line(rest);
        add_speaker(&mut names, line)?;
        rest = after;
    }
    Ok(names)
}

/// A line of that name's session.
fn line_of(alloc: Global, name: &[u8], words: &[u8]) -> Result<Vec<u8>, AllocError>
    ensures { IfOk result (λ line. line.items ≡ line_of name.now words.now) }
{
    let mut line = Vec::new(alloc);
    line.push(b'@')?;
    line.extend_from_slice(name)?;
    line.push(b' ')?;
    line.extend_from_slice(words)?;
    Ok(line)
}

/// Whether a reply says that the journal is full.
fn says_full(reply: &[u8]) -> bool
    ensures { result ≡ says_full reply.now }
{
    let (_, said) = split_tag(reply);
    is_word(said, "refused 2 JournalFull\n")
}

/// Whether two services' replies are alike: they are the same, or the first one's journal is full.
fn are_alike(reply: &[u8], other: &[u8]) -> bool
    ensures { result ≡ are_alike reply.now other.now }
{
    reply == other || says_full(reply)
}

/// Whether two services answer a line alike.
pub(crate) fn answer_alike<A: Answers>(
    whole: &mut A,
    short: &mut A,
    line: &[u8],
) -> Result<bool, AllocError>
    requires short_line { length line.now < 2 ^ 63 }
    requires whole { A.is_ready whole.old }
    requires short { A.is_ready short.old }
    ensures whole { OnOk result (A.is_ready whole.new) }
    ensures short { OnOk result (A.is_ready short.new) }
    ensures alike { IfOk result (λ alike. alike ≡ true →
        AnswerAlike A.answers whole.old short.old (line.now ∷ []) whole.new short.new) }
{
    let reply = whole.answer(0, line)?;
    let other = short.answer(0, line)?;
    Ok(are_alike(reply.as_slice(), other.as_slice()))
}

/// Whether two services answer those words of a name's session alike, one after another.
fn answer_words_alike<A: Answers>(
    alloc: Global,
    whole: &mut A,
    short: &mut A,
    name: &[u8],
    asked: &[&[u8]],
) -> Result<bool, AllocError>
    requires whole { A.is_ready whole.old }
    requires short { A.is_ready short.old }
    ensures whole { OnOk result (A.is_ready whole.new) }
    ensures short { OnOk result (A.is_ready short.new) }
    ensures alike { IfOk result (λ alike. alike ≡ true → AnswerAlike A.answers whole.old short.old
        (map (line_of name.now) (texts asked.now)) whole.new short.new) }
{
    for words in asked {
        let line = line_of(alloc, name, words)?;
        if !answer_alike(whole, short, line.as_slice())? {
            return Ok(false);
        }
    }
    Ok(true)
}

/// The first of the names whose questions two services don't answer alike. `None` if they answer
/// all alike.
pub(crate) fn first_differing<'l, A: Answers>(
    alloc: Global,
    whole: &mut A,
    short: &mut A,
    names: &NameSet<'l>,
) -> Result<Option<&'l [u8]>, AllocError>
    requires whole { A.is_ready whole.old }
    requires short { A.is_ready short.old }
    ensures { IfOk result (λ differing. differing ≡ None → AnswerAlike A.answers whole.old short.old
        (questions_to names.now) whole.new short.new) }
{
    let asked: &[&[u8]] = &[
        b".",
        b"status",
        b"net",
        b"placefile",
        b"routefile",
        b"wait",
        b"net",
        b"placefile",
        b"routefile",
    ];
    for number in 0..names.len() {
        let name = names.name(number);
        if !answer_words_alike(alloc, whole, short, name, asked)? {
            return Ok(Some(name));
        }
    }
    Ok(None)
}
