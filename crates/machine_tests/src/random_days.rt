//! Random dialogues with steps that are taken, put and given back at random moments. What is told
//! must be what a service without workers answers to the lines that are kept.
ghost use Rattle.std.specs.Prelude.{◌≡◌, OnOk, true};
ghost use Rattle.live_input.specs.Serving.{is_ready};
ghost use Rattle.live_machine.specs.Parts.{IsReady};

use crate::day::Day;
use crate::device::{new_graph, new_lines, new_machine};
use crate::plain_service::{PlainTold, is_running};
use crate::served::{are_nobodys_served, is_all_served, is_wait, name_of};
use crate::talk::{NAMES, Talk};
use line_text::split_line;
use live_input::LiveLines;
use live_machine::Machine;
use std::alloc::Global;
use strips::DeviceGraph;
use tagged_lines::{owner_of, split_tag};

/// The number of dialogues.
const DAYS: u64 = 150;

/// The number of events of each: lines that come, steps that are taken and so on.
const EVENTS: u32 = 240;

/// What each dialogue begins with.
const OPENING: &[u8] = b"op admit alice 1\nop admit bob 2\nop admit carol 1\nop admit dave 2\n";

/// What each dialogue ends with.
const CLOSING: &[u8] = b"op evict alice\nop evict bob\nop evict carol\nop evict dave\n";

/// The lines of the two that have a reply.
const OPENING_AND_CLOSING: u64 = 8;

/// What is wrong with a dialogue.
#[derive(Clone, Copy, Debug, PartialEq, Eq)]
enum Wrong {
    /// The machine stopped.
    Stops,
    /// A line of a name that isn't held was not answered at once.
    IsLate,
    /// Something waits for its turn in the end.
    Waits,
    /// A job runs in the end.
    Runs,
    /// A line of this name was not served, or not in its turn.
    IsNotServed(usize),
    /// A line of nobody was not served, or not in its turn.
    Nobodys,
    /// A `wait` was answered while its job ran.
    IsEarly,
    /// A reply is not that of a service without workers.
    Differs,
    /// An item has no reply, or several.
    IsNotAnswered,
}

/// Gives the machine the next line. With `is_strict` what is kept is looked at before and after it.
fn hear(
    alloc: Global,
    day: &mut Day,
    machine: &mut Machine<'_>,
    line: &[u8],
    is_strict: bool,
) -> Result<(), Wrong>
    requires ready { IsReady machine.old }
    ensures ready { OnOk result (IsReady machine.new) }
{
    let is_free = is_strict && day.drain(machine) && is_free(alloc, day, line);
    let before = day.log.len();
    if !day.hear(machine, line) {
        return Err(Wrong::Stops);
    }
    if is_free && !(day.drain(machine) && is_at_once(machine, day, before, line)) {
        return Err(Wrong::IsLate);
    }
    Ok(())
}

/// Whether a line is of no name that is held: all that it said before is served.
fn is_free(alloc: Global, day: &Day, line: &[u8]) -> bool {
    match name_of(line) {
        Some(place) => {
            is_all_served(alloc, day.input.as_slice(), day.log.as_slice(), place, true)
        }
        None => true,
    }
}

/// Whether a line was kept first after that many bytes, as itself or as one without a form. If
/// nothing was kept, it must be a `wait` whose job runs.
fn is_at_once(machine: &Machine<'_>, day: &Day, before: usize, line: &[u8]) -> bool {
    let (_, kept) = day.log.as_slice().split_at(before.min(day.log.len()));
    if kept.is_empty() {
        return must_wait(machine, line);
    }
    let (first, _) = split_line(kept);
    first == line || first.strip_prefix(b"? ") == Some(line)
}

/// Whether a line is a `wait` of a name whose job runs.
fn must_wait(machine: &Machine<'_>, line: &[u8]) -> bool {
    let (tag, said) = split_tag(line);
    match owner_of(tag) {
        Some([b'@', name @ ..]) => is_wait(said) && is_running(machine.lines(), name),
        _ => false,
    }
}

/// Does one thing at random.
fn happen(
    alloc: Global,
    talk: &mut Talk,
    day: &mut Day,
    machine: &mut Machine<'_>,
    graph: &DeviceGraph,
    is_strict: bool,
) -> Result<(), Wrong>
    requires ready { IsReady machine.old }
    ensures ready { OnOk result (IsReady machine.new) }
{
    let place = talk.draw(3) as usize;
    let goes_on = match talk.draw(16) {
        0..=6 => return say(alloc, talk, day, machine, is_strict),
        7..=9 => take(day, machine, graph, place),
        10..=12 => day.put(machine, graph, place),
        13 => day.give_back(machine, place),
        14 => day.retry(machine),
        _ if place == 0 => day.drain(machine),
        _ => machine.turn().is_ok(),
    };
    if goes_on { Ok(()) } else { Err(Wrong::Stops) }
}

/// Takes a step, if there is one. At the first place it is made at once.
fn take(day: &mut Day, machine: &mut Machine<'_>, graph: &DeviceGraph, place: usize) -> bool
    requires ready { IsReady machine.old }
    ensures ready { IsReady machine.new }
{
    if day.take(machine) && place == 0 {
        return day.make_last(machine, graph);
    }
    true
}

/// Says the next line.
fn say(
    alloc: Global,
    talk: &mut Talk,
    day: &mut Day,
    machine: &mut Machine<'_>,
    is_strict: bool,
) -> Result<(), Wrong>
    requires ready { IsReady machine.old }
    ensures ready { OnOk result (IsReady machine.new) }
{
    let mut line = Vec::new(alloc);
    if !talk.next_line(&mut line) {
        return Err(Wrong::Stops);
    }
    hear(alloc, day, machine, line.as_slice(), is_strict)
}

/// A dialogue: what comes at random, and then all that is left to do.
fn live_through(
    alloc: Global,
    talk: &mut Talk,
    day: &mut Day,
    machine: &mut Machine<'_>,
    graph: &DeviceGraph,
    is_strict: bool,
) -> Result<(), Wrong>
    requires ready { IsReady machine.old }
    ensures ready { OnOk result (IsReady machine.new) }
{
    if !day.hear_all(machine, OPENING) {
        return Err(Wrong::Stops);
    }
    for _ in 0..EVENTS {
        happen(alloc, talk, day, machine, graph, is_strict)?;
    }
    end(alloc, talk, day, machine, graph)
}

/// Ends the texts that are open, does all that is left to do, and evicts all.
fn end(
    alloc: Global,
    talk: &mut Talk,
    day: &mut Day,
    machine: &mut Machine<'_>,
    graph: &DeviceGraph,
) -> Result<(), Wrong>
    requires ready { IsReady machine.old }
    ensures ready { OnOk result (IsReady machine.new) }
{
    let mut ends = Vec::new(alloc);
    if !talk.end_texts(&mut ends)
        || !day.hear_all(machine, ends.as_slice())
        || !day.settle(machine, graph)
    {
        return Err(Wrong::Stops);
    }
    if !machine.is_at_rest() {
        return Err(Wrong::Waits);
    }
    if NAMES
        .iter()
        .any(|name| is_running(machine.lines(), name.as_bytes()))
    {
        return Err(Wrong::Runs);
    }
    if !day.hear_all(machine, CLOSING) || !day.settle(machine, graph) {
        return Err(Wrong::Stops);
    }
    Ok(())
}

/// Whether each line was served once, and those of a name in their order. If nobody calls a `wait`
/// off, each is served as itself.
fn check_served(alloc: Global, day: &Day, is_calm: bool) -> Result<(), Wrong> {
    let input = day.input.as_slice();
    let log = day.log.as_slice();
    for place in 0..NAMES.len() {
        if !is_all_served(alloc, input, log, place, !is_calm) {
            return Err(Wrong::IsNotServed(place));
        }
    }
    if are_nobodys_served(alloc, input, log) {
        Ok(())
    } else {
        Err(Wrong::Nobodys)
    }
}

/// Whether a service without workers tells the same, one reply for each item.
fn check_told(
    plain: &mut PlainTold,
    lines: &mut LiveLines<'_>,
    day: &Day,
    items: u64,
) -> Result<(), Wrong>
    requires ready { is_ready lines.old }
    ensures ready { OnOk result (is_ready lines.new) }
{
    plain.forget();
    if !plain.answer_all(lines, day.log.as_slice()) {
        return Err(Wrong::IsEarly);
    }
    if plain.told.as_slice() != day.told.as_slice() {
        return Err(Wrong::Differs);
    }
    if plain.replies == items {
        Ok(())
    } else {
        Err(Wrong::IsNotAnswered)
    }
}

/// One dialogue, and what is wrong with it.
fn live_day(
    alloc: Global,
    machine: &mut Machine<'_>,
    graph: &DeviceGraph,
    plain: &mut PlainTold,
    lines: &mut LiveLines<'_>,
    number: u64,
) -> Result<(), Wrong>
    requires machine { IsReady machine.old }
    requires lines { is_ready lines.old }
    ensures machine { OnOk result (IsReady machine.new) }
    ensures lines { OnOk result (is_ready lines.new) }
{
    let mut talk = Talk::new(number);
    let mut day = Day::new(alloc);
    live_through(alloc, &mut talk, &mut day, machine, graph, number % 4 < 2)?;
    check_served(alloc, &day, number % 2 == 0)?;
    let items = talk.items.saturating_add(OPENING_AND_CLOSING);
    check_told(plain, lines, &day, items)
}

/// All dialogues. Returns the number of the first one with which something is wrong, and what.
fn live_days(
    alloc: Global,
    machine: &mut Machine<'_>,
    graph: &DeviceGraph,
    lines: &mut LiveLines<'_>,
) -> Result<(), (u64, Wrong)>
    requires machine { IsReady machine.old }
    requires lines { is_ready lines.old }
{
    let mut plain = PlainTold::new(alloc);
    for number in 0..DAYS {
        if let Err(wrong) = live_day(alloc, machine, graph, &mut plain, lines, number) {
            return Err((number, wrong));
        }
    }
    Ok(())
}

/// All dialogues beside a service without workers, of which nothing was asked before.
fn live_beside(
    alloc: Global,
    machine: &mut Machine<'_>,
    graph: &DeviceGraph,
) -> Result<(), (u64, Wrong)>
    requires machine { IsReady machine.old }
{
    match new_lines(alloc, graph) {
        Some(mut lines) => {
            let lived = live_days(alloc, machine, graph, &mut lines);
            lines.close();
            lived
        }
        None => Err((0, Wrong::Stops)),
    }
}

fn live_on(alloc: Global, graph: &DeviceGraph) -> Result<(), (u64, Wrong)> {
    match new_machine(alloc, graph) {
        Some(mut machine) => {
            let lived = live_beside(alloc, &mut machine, graph);
            machine.close();
            lived
        }
        None => Err((0, Wrong::Stops)),
    }
}

fn live_of(alloc: Global) -> Result<(), (u64, Wrong)> {
    match new_graph(alloc) {
        Some(graph) => {
            let lived = live_on(alloc, &graph);
            drop(graph);
            lived
        }
        None => Err((0, Wrong::Stops)),
    }
}

#[test]
fn days_with_workers_are_days_without(rt: HostRuntime) {
    assert_eq!(rt; live_of(rt.alloc()), Ok(()));
}
