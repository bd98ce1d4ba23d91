//! What a test gives a machine, and takes from it.
ghost use Rattle.std.specs.Prelude.{◌≡◌, ◌==◌, not, true, IsOk, OnSome};
ghost use Rattle.std.specs.List.{list_all};
ghost use Rattle.live_machine.specs.Machine.{IsLine};
ghost use Rattle.live_machine.specs.Parts.{IsReady};

use crate::hand::Hand;
use line_feed::MAX_FED_LINE;
use line_text::split_line;
use live_machine::{Machine, StepEnd, Stop};
use std::alloc::Global;
use strips::DeviceGraph;

/// The most steps that are out at once.
const MOST_OUT: usize = 3;

/// What a machine was given, and what was taken from it.
#[derive(Drop)]
pub(crate) struct Day {
    alloc: Global,
    /// The steps that are out.
    hands: Vec<Hand>,
    /// The tenancies whose steps are to be made again.
    late: Vec<u32>,
    /// The lines that it was given, each with LF.
    pub(crate) input: Vec<u8>,
    /// The lines that were kept, each with LF.
    pub(crate) log: Vec<u8>,
    /// The lines that were told, each with LF.
    pub(crate) told: Vec<u8>,
}

impl Day {
    /// A day on which nothing was done.
    pub(crate) fn new(alloc: Global) -> Self {
        Day {
            alloc,
            hands: Vec::new(alloc),
            late: Vec::new(alloc),
            input: Vec::new(alloc),
            log: Vec::new(alloc),
            told: Vec::new(alloc),
        }
    }

    /// Gives a line. Returns whether the machine goes on.
    pub(crate) fn hear(&mut self, machine: &mut Machine<'_>, line: &[u8]) -> bool
        requires ready { IsReady machine.old }
        ensures ready { result ≡ true → IsReady machine.new }
    {
        is_line(line) && push_line(&mut self.input, line) && machine.line(line).is_ok()
    }

    /// Gives lines, each ended by LF.
    pub(crate) fn hear_all(&mut self, machine: &mut Machine<'_>, lines: &[u8]) -> bool
        requires ready { IsReady machine.old }
        ensures ready { result ≡ true → IsReady machine.new }
    {
        let Some(lines) = lines_in(self.alloc, lines) else {
            return false;
        };
        for line in lines.as_slice() {
            if !self.hear(machine, line) {
                return false;
            }
        }
        true
    }

    /// Gives lines, each ended by LF, and does all that is left to do after each of them.
    pub(crate) fn serve_all(
        &mut self,
        machine: &mut Machine<'_>,
        graph: &DeviceGraph,
        lines: &[u8],
    ) -> bool
        requires ready { IsReady machine.old }
        ensures ready { result ≡ true → IsReady machine.new }
    {
        let Some(lines) = lines_in(self.alloc, lines) else {
            return false;
        };
        for line in lines.as_slice() {
            if !self.hear(machine, line) || !self.settle(machine, graph) {
                return false;
            }
        }
        true
    }

    /// Takes what is to be kept and what is to be told.
    pub(crate) fn drain(&mut self, machine: &mut Machine<'_>) -> bool
        requires ready { IsReady machine.old }
        ensures ready { IsReady machine.new }
    {
        let (log, told) = machine.drain();
        self.log.extend_from_slice(log.as_slice()).is_ok()
            && self.told.extend_from_slice(told.as_slice()).is_ok()
    }

    /// Takes a step, if there is one and fewer than three are out. Returns whether one was taken.
    pub(crate) fn take(&mut self, machine: &mut Machine<'_>) -> bool
        requires ready { IsReady machine.old }
        ensures ready { IsReady machine.new }
    {
        if self.hands.len() >= MOST_OUT {
            return false;
        }
        match machine.take() {
            Some(job) => self.hands.push(Hand::Taken(job)).is_ok(),
            None => false,
        }
    }

    /// Makes the step that is out at that place, if there is one. It is the last one then.
    fn make(&mut self, machine: &Machine<'_>, graph: &DeviceGraph, place: usize) -> bool {
        if place >= self.hands.len() {
            return true;
        }
        let hand = self.hands.remove(place).make(machine, graph);
        self.hands.push(hand).is_ok()
    }

    /// Makes the last step that is out, if there is one.
    pub(crate) fn make_last(&mut self, machine: &Machine<'_>, graph: &DeviceGraph) -> bool {
        let last = self.hands.len().saturating_sub(1);
        self.make(machine, graph, last)
    }

    /// Makes and puts the step that is out at that place, if there is one.
    pub(crate) fn put(
        &mut self,
        machine: &mut Machine<'_>,
        graph: &DeviceGraph,
        place: usize,
    ) -> bool
        requires ready { IsReady machine.old }
        ensures ready { result ≡ true → IsReady machine.new }
    {
        if place >= self.hands.len() {
            return true;
        }
        let hand = self.hands.remove(place).make(machine, graph);
        let id = hand.id();
        let ended = hand.put(machine);
        self.note(id, ended)
    }

    /// Gives the step back that is out at that place, if there is one.
    pub(crate) fn give_back(&mut self, machine: &mut Machine<'_>, place: usize) -> bool
        requires ready { IsReady machine.old }
        ensures ready { result ≡ true → IsReady machine.new }
    {
        if place >= self.hands.len() {
            return true;
        }
        let hand = self.hands.remove(place);
        let id = hand.id();
        let ended = hand.give_back(machine);
        self.note(id, ended)
    }

    /// Notes whether a step is to be made again. Returns whether the machine goes on.
    fn note(&mut self, id: u32, ended: Result<StepEnd, Stop>) -> bool
        ensures { result ≡ true → IsOk ended }
    {
        match ended {
            Ok(StepEnd::Again(_)) => self.late.push(id).is_ok(),
            Ok(StepEnd::Made | StepEnd::Dropped | StepEnd::GivenUp) => true,
            Err(_) => false,
        }
    }

    /// Has the first step made again that is to be.
    pub(crate) fn retry(&mut self, machine: &mut Machine<'_>) -> bool
        requires ready { IsReady machine.old }
        ensures ready { IsReady machine.new }
    {
        self.late.is_empty() || machine.retry(self.late.remove(0)).is_ok()
    }

    /// Does one thing that is left to do: puts a step, has one made again, takes one, or gives a
    /// name its turn. Returns whether there was one, or `None` if the machine stops.
    fn go_on(&mut self, machine: &mut Machine<'_>, graph: &DeviceGraph) -> Option<bool>
        requires ready { IsReady machine.old }
        ensures ready { OnSome result (IsReady machine.new) }
    {
        if !self.hands.is_empty() {
            return if self.put(machine, graph, 0) {
                Some(true)
            } else {
                None
            };
        }
        if !self.late.is_empty() {
            return if self.retry(machine) {
                Some(true)
            } else {
                None
            };
        }
        if self.take(machine) {
            return Some(true);
        }
        machine.turn().ok()
    }

    /// Does all that is left to do, and takes what is to be kept and to be told.
    pub(crate) fn settle(&mut self, machine: &mut Machine<'_>, graph: &DeviceGraph) -> bool
        requires ready { IsReady machine.old }
        ensures ready { result ≡ true → IsReady machine.new }
    {
        for _ in 0..100_000 {
            match self.go_on(machine, graph) {
                Some(true) => {}
                Some(false) => return self.drain(machine),
                None => return false,
            }
        }
        false
    }
}

/// The lines of a text, each of which is ended by LF.
pub(crate) fn lines_in(alloc: Global, text: &[u8]) -> Option<Vec<&[u8]>> {
    let mut lines = Vec::new(alloc);
    let mut rest = text;
    for _ in 0..text.len() {
        if rest.is_empty() {
            return Some(lines);
        }
        let (line, after) = split_line(rest);
        lines.push(line).ok()?;
        rest = after;
    }
    Some(lines)
}

/// Whether it is a line as it is read.
fn is_line(line: &[u8]) -> bool
    ensures { result ≡ true → IsLine line.now }
{
    line.len() <= MAX_FED_LINE && has_no_feed(line)
}

/// Whether no byte is LF.
fn has_no_feed(line: &[u8]) -> bool
    ensures { result ≡ list_all (λ byte. not (byte == 10)) line.now }
{
    line.iter().all(|byte| *byte != b'\n')
}

/// Adds a line with LF.
pub(crate) fn push_line(text: &mut Vec<u8>, line: &[u8]) -> bool {
    text.extend_from_slice(line).is_ok() && text.push(b'\n').is_ok()
}

/// Appends the parts, one after another.
pub(crate) fn append_all(text: &mut Vec<u8>, parts: &[&[u8]]) -> bool {
    for part in parts {
        if text.extend_from_slice(*part).is_err() {
            return false;
        }
    }
    true
}

/// The lines by which a name uploads a table with two inputs.
const UPLOAD: [&[u8]; 8] = [
    b"upload",
    b".model t",
    b".inputs a b",
    b".outputs f",
    b".names a b f",
    b"11 1",
    b".end",
    b".",
];

/// The lines by which a name is admitted, and uploads a table with two inputs.
pub(crate) fn upload_of(alloc: Global, name: &[u8]) -> Option<Vec<u8>> {
    let mut text = Vec::new(alloc);
    if !append_all(&mut text, &[b"op admit ", name, b" 1\n"]) {
        return None;
    }
    for line in UPLOAD.iter() {
        if !append_all(&mut text, &[b"@", name, b" ", *line, b"\n"]) {
            return None;
        }
    }
    Some(text)
}
