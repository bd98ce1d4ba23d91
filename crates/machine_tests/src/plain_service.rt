//! A service without workers, to which the lines are given that a machine served.
ghost use Rattle.std.specs.Prelude.{◌≡◌, true};
ghost use Rattle.live_input.specs.Serving.{is_ready};

use crate::day::lines_in;
use crate::served::is_wait;
use line_feed::MAX_FED_LINE;
use line_service::Answers;
use live_input::LiveLines;
use std::alloc::Global;
use tagged_lines::{owner_of, split_tag};
use tenant_slot::StateName;

/// What a service without workers tells.
#[derive(Drop)]
pub(crate) struct PlainTold {
    alloc: Global,
    /// The number of the next line.
    number: u64,
    /// All replies but those to lines of workers.
    pub(crate) told: Vec<u8>,
    /// The number of these replies.
    pub(crate) replies: u64,
}

impl PlainTold {
    /// Nothing is told, and the next line is the first.
    pub(crate) fn new(alloc: Global) -> Self {
        PlainTold {
            alloc,
            number: 1,
            told: Vec::new(alloc),
            replies: 0,
        }
    }

    /// Forgets what was told.
    pub(crate) fn forget(&mut self) {
        self.told.clear();
        self.replies = 0;
    }

    /// Answers lines. Returns whether each could be answered, and whether at each `wait` no job of
    /// its name ran.
    pub(crate) fn answer_all(&mut self, lines: &mut LiveLines<'_>, log: &[u8]) -> bool
        requires ready { is_ready lines.old }
        ensures ready { result ≡ true → is_ready lines.new }
    {
        let Some(log) = lines_in(self.alloc, log) else {
            return false;
        };
        for line in log.as_slice() {
            if is_early(lines, line) || !self.answer(lines, line) {
                return false;
            }
        }
        true
    }

    /// Answers a line.
    fn answer(&mut self, lines: &mut LiveLines<'_>, line: &[u8]) -> bool
        requires ready { is_ready lines.old }
        ensures ready { result ≡ true → is_ready lines.new }
    {
        if line.len() > MAX_FED_LINE {
            return false;
        }
        match lines.answer(self.number, line) {
            Ok(reply) => self.note(line, reply.as_slice()),
            Err(_) => false,
        }
    }

    /// Notes the reply to a line.
    fn note(&mut self, line: &[u8], reply: &[u8]) -> bool {
        self.number = self.number.saturating_add(1);
        if line.starts_with(b"op step ") || reply.is_empty() {
            return true;
        }
        self.replies = self.replies.saturating_add(1);
        self.told.extend_from_slice(reply).is_ok()
    }
}

/// Whether a line is a `wait` while a job of its name runs.
fn is_early(lines: &LiveLines<'_>, line: &[u8]) -> bool
    requires { is_ready lines.now }
{
    let (tag, said) = split_tag(line);
    match owner_of(tag) {
        Some([b'@', name @ ..]) => {
            is_wait(said) && !lines.live().is_in_text(name) && is_running(lines, name)
        }
        _ => false,
    }
}

/// Whether a job of that name runs.
pub(crate) fn is_running(lines: &LiveLines<'_>, name: &[u8]) -> bool {
    let live = lines.live();
    matches!(
        live.service().state(live.names().last_id(name)),
        Some(StateName::Packing | StateName::Placing | StateName::Routing)
    )
}
