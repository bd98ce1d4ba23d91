//! A script's lines with their replies.
ghost use Rattle.std.specs.Prelude.{◌≡◌, ◌++◌, ◌∷◌, [], map, IfOk, OnOk};
ghost use Rattle.script_replies.specs.Prelude.{answered_line};
ghost use Rattle.script_replies.specs.LineReplies.{line_replies, line_reply, reply_to};
ghost use Rattle.script_replies.specs.Told.{is_refused};

use crate::advising::{advice_for, is_refusal, netlist_line};
use crate::lines::ScriptLine;
use line_text::split_line;
use printed_replies::{Answered, Replies};
use std::alloc::{AllocError, Global};

/// The number of different refusals that are remembered, to recognize those that come again.
const MAX_REMEMBERED: usize = 1024;

/// A line of a script, and its reply.
#[derive(Clone, Copy)]
pub struct ToldLine<'a> {
    pub number: usize,
    pub line: &'a [u8],
    /// The first line of its reply, without its line end; `None` if there is no reply.
    pub reply: Option<&'a [u8]>,
    /// What a refusal means, and what may be done; `None` if an earlier line of the name has the
    /// same refusal.
    pub advice: Option<&'a str>,
    /// The script's line of a fault in the netlist.
    pub fault: Option<usize>,
    /// The number of the name's lines with this reply, if this is the first of several refusals.
    pub alike: Option<usize>,
}

impl<'a> ToldLine<'a> {
    /// Returns whether the line is refused.
    pub fn is_refused(&self) -> bool
        ensures { result ≡ is_refused self.now }
    {
        match self.reply {
            Some(reply) => is_refusal(reply),
            None => false,
        }
    }
}

/// A refusal, and the index of the first line that has it.
#[derive(Clone, Copy)]
struct Refused<'n, 'a> {
    speaker: Option<&'n [u8]>,
    reply: &'a [u8],
    place: usize,
}

impl<'n, 'a> Refused<'n, 'a> {
    /// Returns whether this is that reply to that speaker.
    fn is(&self, speaker: Option<&[u8]>, reply: &[u8]) -> bool {
        let same_speaker = match (self.speaker, speaker) {
            (None, None) => true,
            (Some(left), Some(right)) => left == right,
            _ => false,
        };
        same_speaker && self.reply == reply
    }
}

/// The lines so far, and the different refusals among them.
#[derive(Drop)]
struct Listing<'n, 'a> {
    told: Vec<ToldLine<'a>>,
    refused: Vec<Refused<'n, 'a>>,
}

impl<'n, 'a> Listing<'n, 'a> {
    /// Adds all lines.
    fn add_all(
        &mut self,
        lines: &[ScriptLine<'a>],
        replies: &Replies<'n, 'a>,
    ) -> Result<(), AllocError>
        ensures { OnOk result (map line_reply self.new.told.items
            ≡ map line_reply self.old.told.items ++ line_replies lines.now replies.now) }
    {
        let answers = replies.lines();
        for place in 0..lines.len().min(answers.len()) {
            self.add(lines[place], answers[place])?;
        }
        Ok(())
    }

    /// Adds a line with its reply.
    fn add(&mut self, line: ScriptLine<'a>, answered: Answered<'n, 'a>) -> Result<(), AllocError>
        ensures { OnOk result (map line_reply self.new.told.items ≡
            map line_reply self.old.told.items
            ++ reply_to line.entry (answered_line answered.entry) ∷ []) }
    {
        let told = told_line(line, answered);
        let (Some(reply), Some(_)) = (told.reply, told.advice) else {
            self.told.push(told)?;
            return Ok(());
        };
        let speaker = answered.asked.name;
        match self.first_with(speaker, reply) {
            Some(place) => {
                self.count_again(place);
                self.told.push(ToldLine {
                    advice: None,
                    fault: None,
                    ..told
                })?;
            }
            None => {
                let place = self.told.len();
                self.remember(Refused {
                    speaker,
                    reply,
                    place,
                })?;
                self.told.push(told)?;
            }
        }
        Ok(())
    }

    /// The index of the first line with that refusal of that speaker.
    fn first_with(&self, speaker: Option<&[u8]>, reply: &[u8]) -> Option<usize> {
        let first = self.refused.iter().find(|one| one.is(speaker, reply))?;
        Some(first.place)
    }

    /// Counts one more line with the refusal of the line at that index.
    fn count_again(&mut self, place: usize)
        ensures { map line_reply self.new.told.items ≡ map line_reply self.old.told.items }
    {
        if place < self.told.len() {
            let again = counted_again(self.told[place]);
            self.told[place] = again;
        }
    }

    /// Remembers a refusal, if there are not too many.
    fn remember(&mut self, refused: Refused<'n, 'a>) -> Result<(), AllocError>
        ensures { self.new.told.items ≡ self.old.told.items }
    {
        if self.refused.len() < MAX_REMEMBERED {
            self.refused.push(refused)?;
        }
        Ok(())
    }
}

/// Returns the lines of a script with their replies. A refusal that a name had before is not
/// explained again. Fails with [`AllocError`] if memory runs out.
pub fn told_lines<'a>(
    alloc: Global,
    lines: &[ScriptLine<'a>],
    replies: &Replies<'_, 'a>,
) -> Result<Vec<ToldLine<'a>>, AllocError>
    ensures { IfOk result (λ told. map line_reply told.items
        ≡ line_replies lines.now replies.now) }
{
    let mut listing = Listing {
        told: Vec::new(alloc),
        refused: Vec::new(alloc),
    };
    let added = listing.add_all(lines, replies);
    let Listing { told, refused } = listing;
    drop(refused);
    match added {
        Ok(()) => Ok(told),
        Err(error) => {
            drop(told);
            Err(error)
        }
    }
}

/// A line with its reply, explained.
fn told_line<'a>(line: ScriptLine<'a>, answered: Answered<'_, 'a>) -> ToldLine<'a>
    ensures { line_reply result ≡ reply_to line.entry (answered_line answered.entry) }
{
    let told = ToldLine {
        number: line.number,
        line: line.text,
        reply: None,
        advice: None,
        fault: None,
        alike: None,
    };
    if answered.reply.is_empty() {
        return told;
    }
    let (reply, _) = split_line(answered.reply);
    let is_operator = answered.asked.name.is_none();
    ToldLine {
        reply: Some(reply),
        advice: words_for(is_operator, reply),
        fault: fault_line(is_operator, line.number, reply),
        ..told
    }
}

/// The line with one more line that has its refusal.
fn counted_again(told: ToldLine<'_>) -> ToldLine<'_>
    ensures { line_reply result ≡ line_reply told.entry }
{
    ToldLine {
        alike: Some(told.alike.unwrap_or(1).saturating_add(1)),
        ..told
    }
}

/// What a refusal means, in words.
fn words_for<'a>(is_operator: bool, reply: &[u8]) -> Option<&'a str> {
    Some(advice_for(is_operator, reply)?.words())
}

/// The script's line of the fault that a reply reports, if the netlist begins after that line.
fn fault_line(is_operator: bool, number: usize, reply: &[u8]) -> Option<usize> {
    if is_operator {
        return None;
    }
    let line = netlist_line(reply)?;
    Some(number.saturating_add(line as usize))
}
