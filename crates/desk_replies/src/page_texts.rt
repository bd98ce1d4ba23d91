//! The texts that a page shows beside the files.
ghost use Rattle.std.specs.Prelude.{◌≡◌, [], slice_get, OnOk};
ghost use Rattle.std.specs.Option.{option_map_or};
ghost use Rattle.desk_replies.specs.Prelude.{Writes};
ghost use Rattle.desk_replies.specs.Paged.{AreEmpty, AreScriptTexts, AreTexts, line_of, numbered_state, sink_text, states_text};
ghost use Rattle.desk_replies.specs.States.{state_after};

use crate::lines::Lines;
use crate::states::NameState;
use desk_common::Outcome;
use indexmap::IndexMap;
use line_text::{Failed, MemorySink, Sink};
use script_replies::{Replies, ToldLine, script_lines, told_lines, write_refused, write_told};
use std::alloc::Global;
use text_parts::{Part, write_parts};

/// Texts about a script and the device.
#[derive(Drop)]
pub(crate) struct PageTexts {
    /// The lines of the script with their replies.
    pub(crate) lines: MemorySink,
    /// Those that are refused, in four lines each.
    pub(crate) refused: MemorySink,
    /// The last state of each name, and the number of the line with that reply: `NAME LINE STATE`.
    pub(crate) states: MemorySink,
    /// The sizes that are given.
    pub(crate) device: MemorySink,
}

impl PageTexts {
    /// Empty texts.
    pub(crate) fn new(alloc: Global) -> Self
        ensures { AreEmpty result }
    {
        PageTexts {
            lines: MemorySink::new(alloc),
            refused: MemorySink::new(alloc),
            states: MemorySink::new(alloc),
            device: MemorySink::new(alloc),
        }
    }

    /// Writes the texts about these lines of a script, their replies and the last state of each
    /// name. Fails if memory runs out.
    pub(crate) fn fill(
        &mut self,
        alloc: Global,
        lines: Lines<'_>,
        replies: &Replies<'_, '_>,
        states: &IndexMap<&[u8], NameState<'_>>,
    ) -> Result<(), Outcome>
        requires { AreEmpty self.old }
        ensures texts { OnOk result (AreScriptTexts lines.entry replies.now states.now.entries
            self.new) }
        ensures device { OnOk result (sink_text self.new.device ≡ []) }
    {
        let Ok(asked) = script_lines(alloc, lines.text, lines.number) else {
            return Err(Outcome::NoMemory);
        };
        let Ok(told) = told_lines(alloc, &asked, replies) else {
            return Err(Outcome::NoMemory);
        };
        self.write(&told, states).or(Err(Outcome::NoMemory))
    }

    /// Writes the lines, those that are refused, and the states.
    fn write(
        &mut self,
        told: &[ToldLine<'_>],
        states: &IndexMap<&[u8], NameState<'_>>,
    ) -> Result<(), Failed>
        requires { AreEmpty self.old }
        ensures texts { OnOk result (AreTexts told.now states.now.entries self.new) }
        ensures device { OnOk result (sink_text self.new.device ≡ []) }
    {
        write_told(&mut self.lines, told)?;
        write_refused(&mut self.refused, told)?;
        write_states(&mut self.states, states, told)
    }
}

/// Writes a line for each state: the name, the number of the line with that reply, and the state.
fn write_states<W: Sink>(
    sink: &mut W,
    last: &IndexMap<&[u8], NameState<'_>>,
    told: &[ToldLine<'_>],
) -> Result<(), Failed>
    ensures { Writes W.contents W.has_failed sink.old sink.new
        (states_text told.now last.now.entries) result }
{
    for place in 0..last.len() {
        write_state_at(sink, last, place, told)?;
    }
    Ok(())
}

/// Writes the line of the state at that place.
fn write_state_at<W: Sink>(
    sink: &mut W,
    last: &IndexMap<&[u8], NameState<'_>>,
    place: usize,
    told: &[ToldLine<'_>],
) -> Result<(), Failed>
    ensures { Writes W.contents W.has_failed sink.old sink.new
        (option_map_or (λ one. line_of told.now (state_after one.1))
        (slice_get last.now.entries place) []) result }
{
    match last.get_index(place) {
        Some((_, state)) => write_state(sink, *state, told),
        None => Ok(()),
    }
}

/// Writes the line of a state.
fn write_state<W: Sink>(
    sink: &mut W,
    state: NameState<'_>,
    told: &[ToldLine<'_>],
) -> Result<(), Failed>
    ensures { Writes W.contents W.has_failed sink.old sink.new
        (line_of told.now (state_after state.entry)) result }
{
    match told.get(state.act) {
        Some(line) => write_line(sink, state, line.number),
        None => Ok(()),
    }
}

/// Writes the line of a state, with that line's number.
fn write_line<W: Sink>(sink: &mut W, state: NameState<'_>, number: usize) -> Result<(), Failed>
    ensures { Writes W.contents W.has_failed sink.old sink.new
        (numbered_state number (state_after state.entry)) result }
{
    write_parts(
        sink,
        &[
            Part::Bytes(state.name),
            Part::Text(" "),
            Part::Long(number as u64),
            Part::Text(" "),
            Part::Bytes(state.state),
            Part::Text("\n"),
        ],
    )
}
