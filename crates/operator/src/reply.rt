//! The lines of the replies to the operator.
ghost use Rattle.std.specs.Prelude.{◌≡◌, ◌++◌, ◌∷◌, [], OnOk, decimal};
ghost use Rattle.std.specs.List.{flat_map};
ghost use Rattle.operator.specs.Held.{sink_text};
ghost use Rattle.operator.specs.OperatorText.{admitted_text, evicted_text, list_lines, moved_text, outcome_text, outcome_word, refused_text, taken_text};
ghost use Rattle.operator.specs.Prelude.{blank_word};

use itoa::Buffer;
use line_text::{MemorySink, write_slices};
use service_core::{OpRefusal, Service};
use sessions::{StepOutcome, step_word, write_refused};
use std::alloc::AllocError;

/// Appends the line of a tenancy, if it is live.
pub fn push_listed(
    reply: &mut MemorySink,
    core: &Service,
    id: u32,
    name: &[u8],
) -> Result<(), AllocError>
    ensures { OnOk result (sink_text reply.new ≡ sink_text reply.old
        ++ list_lines core.now id name.now) }
{
    let Some(state) = core.state(id) else {
        return Ok(());
    };
    let offset = core.offset(id).unwrap_or(0);
    let width = core.width(id).unwrap_or(0);
    push_row(reply, id, name, offset, width, state.name())
}

/// Appends a line: an id, a name, an offset, a width and the name of a state.
fn push_row<'t>(
    reply: &mut MemorySink,
    id: u32,
    name: &'t [u8],
    offset: u32,
    width: u32,
    state: &'t str,
) -> Result<(), AllocError>
    ensures { OnOk result (sink_text reply.new
        ≡ sink_text reply.old ++ decimal id ++ blank_word name.now ++ blank_word (decimal offset)
        ++ blank_word (decimal width) ++ blank_word state.now ++ 10 ∷ []) }
{
    let (mut ids, mut offsets, mut widths) = (Buffer::new(), Buffer::new(), Buffer::new());
    let id = ids.format(id).as_bytes();
    let offset = offsets.format(offset).as_bytes();
    let width = widths.format(width).as_bytes();
    let state = state.as_bytes();
    push_parts(
        reply,
        &[
            id, b" ", name, b" ", offset, b" ", width, b" ", state, b"\n",
        ],
    )
}

/// Appends the reply to an admission with that answer.
pub fn push_admitted(
    reply: &mut MemorySink,
    answer: &Result<(u32, u32), OpRefusal>,
) -> Result<(), AllocError>
    ensures { OnOk result (sink_text reply.new ≡ sink_text reply.old ++ admitted_text answer.now) }
{
    match answer {
        Ok((id, offset)) => {
            let (mut ids, mut offsets) = (Buffer::new(), Buffer::new());
            let id = ids.format(*id).as_bytes();
            let offset = offsets.format(*offset).as_bytes();
            push_parts(reply, &[b"ok ", id, b" ", offset, b"\n"])
        }
        Err(refusal) => push_refused(reply, refusal.number(), refusal.name()),
    }
}

/// Appends the reply to a move of a strip to that offset, with that answer.
pub fn push_moved(
    reply: &mut MemorySink,
    offset: u32,
    answer: &Result<(), OpRefusal>,
) -> Result<(), AllocError>
    ensures { OnOk result (sink_text reply.new ≡ sink_text reply.old
        ++ moved_text offset answer.now) }
{
    match answer {
        Ok(()) => {
            let mut offsets = Buffer::new();
            let offset = offsets.format(offset).as_bytes();
            push_parts(reply, &[b"ok ", offset, b"\n"])
        }
        Err(refusal) => push_refused(reply, refusal.number(), refusal.name()),
    }
}

/// Appends the reply to an eviction with that answer.
pub fn push_evicted(
    reply: &mut MemorySink,
    answer: &Result<(), OpRefusal>,
) -> Result<(), AllocError>
    ensures { OnOk result (sink_text reply.new ≡ sink_text reply.old ++ evicted_text answer.now) }
{
    match answer {
        Ok(()) => push_parts(reply, &[b"ok\n"]),
        Err(refusal) => push_refused(reply, refusal.number(), refusal.name()),
    }
}

/// Appends the outcome of making a step.
pub(crate) fn push_outcome(reply: &mut MemorySink, outcome: StepOutcome) -> Result<(), AllocError>
    ensures { OnOk result (sink_text reply.new ≡ sink_text reply.old ++ outcome_text outcome) }
{
    push_parts(reply, &[outcome_word(outcome), b"\n"])
}

/// The outcome of making a step, as a word.
fn outcome_word(outcome: StepOutcome) -> &'static [u8]
    ensures { result.now ≡ outcome_word outcome }
{
    match outcome {
        StepOutcome::Recorded(reply) => step_word(reply),
        StepOutcome::Full => b"full",
        StepOutcome::Gone => b"gone",
        StepOutcome::NoMemory => b"nomemory",
        StepOutcome::Nothing | StepOutcome::Unfit => b"none",
    }
}

/// Appends the number of a job that was taken.
pub(crate) fn push_taken(reply: &mut MemorySink, number: Option<usize>) -> Result<(), AllocError>
    ensures { OnOk result (sink_text reply.new ≡ sink_text reply.old ++ taken_text number) }
{
    match number {
        Some(number) => {
            let mut digits = Buffer::new();
            let digits = digits.format(number).as_bytes();
            push_parts(reply, &[b"ok job ", digits, b"\n"])
        }
        None => push_parts(reply, &[b"none\n"]),
    }
}

/// Appends the parts one after the other.
pub(crate) fn push_parts(reply: &mut MemorySink, parts: &[&[u8]]) -> Result<(), AllocError>
    ensures { OnOk result (sink_text reply.new
        ≡ sink_text reply.old ++ flat_map (λ part. part.now) parts.now) }
{
    match write_slices(reply, parts) {
        Ok(()) => Ok(()),
        Err(_) => Err(AllocError),
    }
}

/// Appends the line of a refusal.
pub fn push_refused(reply: &mut MemorySink, number: u32, name: &str) -> Result<(), AllocError>
    ensures { OnOk result (sink_text reply.new ≡ sink_text reply.old
        ++ refused_text number name.now) }
{
    match write_refused(reply, number, name) {
        Ok(()) => Ok(()),
        Err(_) => Err(AllocError),
    }
}
