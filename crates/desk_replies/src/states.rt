//! The state of each name, by the replies to a script.
ghost use Rattle.std.specs.Prelude.{◌≡◌, ◌++◌, map, IfOk, OnOk};
ghost use Rattle.desk_replies.specs.Prelude.{first_word, named_act, named_operator, List};
ghost use Rattle.desk_replies.specs.States.{AreLastStates, after_word, granted_states, last_states, listed_state, operator_states, session_states, state_after, states_from, states_in};

use indexmap::IndexMap;
use line_text::{is_word, skip_blanks, split_line, split_word};
use script_replies::Replies;
use script_text::{Act, OperatorLine};
use std::alloc::{AllocError, Global};

/// The state that a name is in after an act, by the reply to it.
#[derive(Clone, Copy)]
pub(crate) struct NameState<'a> {
    pub(crate) name: &'a [u8],
    pub(crate) state: &'a [u8],
    /// The number of the act, from 0.
    pub(crate) act: usize,
}

/// The last state of each name, by the acts of a script and their replies.
pub(crate) fn present_states<'a>(
    alloc: Global,
    acts: &[Act<&'a [u8]>],
    replies: &Replies<'a, 'a>,
) -> Result<IndexMap<&'a [u8], NameState<'a>>, AllocError>
    ensures { IfOk result (λ last. AreLastStates (map named_act acts.now) replies.now last.entries) }
{
    let states = states_after(alloc, acts, replies)?;
    last_states(alloc, &states)
}

/// The last of these states of each name, in the order of the first ones.
fn last_states<'a>(
    alloc: Global,
    states: &[NameState<'a>],
) -> Result<IndexMap<&'a [u8], NameState<'a>>, AllocError>
    ensures { IfOk result (λ last. last.entries ≡ last_states states.now) }
{
    let mut last = IndexMap::new(alloc);
    for one in states {
        last.insert(one.name, *one)?;
    }
    Ok(last)
}

/// The states after acts, by the replies to them, in order.
fn states_after<'a>(
    alloc: Global,
    acts: &[Act<&'a [u8]>],
    replies: &Replies<'a, 'a>,
) -> Result<Vec<NameState<'a>>, AllocError>
    ensures { IfOk result (λ states. map state_after states.items
        ≡ states_from 0 (map named_act acts.now) replies.now) }
{
    let lines = replies.lines();
    let mut states = Vec::new(alloc);
    for number in 0..acts.len().min(lines.len()) {
        add_states(&mut states, number, &acts[number], lines[number].reply)?;
    }
    Ok(states)
}

/// Appends the states after an act, by the reply to it.
fn add_states<'a>(
    states: &mut Vec<NameState<'a>>,
    number: usize,
    act: &Act<&'a [u8]>,
    reply: &'a [u8],
) -> Result<(), AllocError>
    ensures { OnOk result (map state_after states.new.items ≡ map state_after states.old.items
        ++ states_in number (named_act act.now) reply.now) }
{
    match act {
        Act::Session(name, _) => add_of_session(states, number, *name, reply),
        Act::Operator(line) => add_of_operator(states, number, line, reply),
    }
}

/// Appends the state in a reply to a session's line: `ok STATE`, or `status STATE ..`.
fn add_of_session<'a>(
    states: &mut Vec<NameState<'a>>,
    number: usize,
    name: &'a [u8],
    reply: &'a [u8],
) -> Result<(), AllocError>
    ensures { OnOk result (map state_after states.new.items ≡ map state_after states.old.items
        ++ session_states number name.now reply.now) }
{
    let (line, _) = split_line(reply);
    let (word, rest) = next_word(line);
    if is_word(word, "ok") || is_word(word, "status") {
        let (state, _) = next_word(rest);
        states.push(NameState {
            name,
            state,
            act: number,
        })?;
    }
    Ok(())
}

/// Appends the states after a line of the operator.
fn add_of_operator<'a>(
    states: &mut Vec<NameState<'a>>,
    number: usize,
    line: &OperatorLine<&'a [u8]>,
    reply: &'a [u8],
) -> Result<(), AllocError>
    ensures { OnOk result (map state_after states.new.items ≡ map state_after states.old.items
        ++ operator_states number (named_operator line.now) reply.now) }
{
    match line {
        OperatorLine::Admit(name, _) => add_if_granted(states, number, *name, b"Empty", reply),
        OperatorLine::Evict(name) => add_if_granted(states, number, *name, b"Evicted", reply),
        OperatorLine::List => add_listed(states, number, reply),
        OperatorLine::Move(..)
        | OperatorLine::Owners
        | OperatorLine::Step(..)
        | OperatorLine::Take(_)
        | OperatorLine::Put(_) => Ok(()),
    }
}

/// Appends a name's state after an act of the operator, if the reply is `ok ..`.
fn add_if_granted<'a>(
    states: &mut Vec<NameState<'a>>,
    number: usize,
    name: &'a [u8],
    state: &'a [u8],
    reply: &[u8],
) -> Result<(), AllocError>
    ensures { OnOk result (map state_after states.new.items ≡ map state_after states.old.items
        ++ granted_states number name.now state.now reply.now) }
{
    let (line, _) = split_line(reply);
    let (word, _) = next_word(line);
    if is_word(word, "ok") {
        states.push(NameState {
            name,
            state,
            act: number,
        })?;
    }
    Ok(())
}

/// Appends the states in the lines of `op list`.
fn add_listed<'a>(
    states: &mut Vec<NameState<'a>>,
    number: usize,
    reply: &'a [u8],
) -> Result<(), AllocError>
    ensures { OnOk result (map state_after states.new.items ≡ map state_after states.old.items
        ++ operator_states number List reply.now) }
{
    let mut rest = reply;
    while !rest.is_empty() {
        let (line, later) = split_line(rest);
        states.push(listed_state(number, line))?;
        rest = later;
    }
    Ok(())
}

/// The name and the state in a line of `op list`: `ID NAME OFFSET WIDTH STATE`.
fn listed_state(number: usize, line: &[u8]) -> NameState<'_>
    ensures { state_after result ≡ listed_state number line.now }
{
    let (_, rest) = next_word(line);
    let (name, rest) = next_word(rest);
    let (_, rest) = next_word(rest);
    let (_, rest) = next_word(rest);
    let (state, _) = next_word(rest);
    NameState {
        name,
        state,
        act: number,
    }
}

/// The next word of a line, and the rest after it; empty at the end of the line.
fn next_word(line: &[u8]) -> (&[u8], &[u8])
    ensures word { result.0.now ≡ first_word line.now }
    ensures rest { result.1.now ≡ after_word line.now }
{
    split_word(skip_blanks(line))
}
