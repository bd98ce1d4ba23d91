//! The lines of an input, as they come.
ghost use Rattle.std.specs.Prelude.{[], OnOk};
ghost use Rattle.std.specs.Io.KnownBytes.{Appends};
ghost use Rattle.front_lines.specs.Prelude.{line_of};
ghost use Rattle.front_lines.specs.LinesRead.{HasLine, ReadsOn, to_come};

use crate::service::FrontStop;
use dialogue::{Dialogue, FailedDevice};
use line_feed::LineFeed;
use std::sync::Wait;
use std::thread;
use std::time::{Clock, Duration};

/// How long a front waits before it looks for replies again, in milliseconds.
const PAUSE: u64 = 2;

/// Reads on. Returns true when the line has ended, and false when the input has no more for now.
pub(crate) fn read_line<H: Wait, D: Dialogue>(
    rt: &H,
    feed: &mut LineFeed,
    dialogue: &mut D,
) -> Result<bool, FailedDevice>
    ensures reads { ReadsOn (to_come feed.old (D.view dialogue.old))
        (to_come feed.new (D.view dialogue.new)) (line_of feed.old) (line_of feed.new) result }
    ensures output { Appends (D.view dialogue.old).output (D.view dialogue.new).output [] }
{
    for _ in rt.forever() {
        if feed.take_piece() {
            return Ok(true);
        }
        feed.refill(dialogue)?;
        if feed.is_empty() {
            return Ok(false);
        }
    }
    unreachable!()
}

/// Reads the service's output on until the line has ended, however long that takes.
pub(crate) fn await_line<H: Wait + Clock, D: Dialogue>(
    rt: &H,
    feed: &mut LineFeed,
    dialogue: &mut D,
) -> Result<(), FrontStop>
    ensures { OnOk result (HasLine (to_come feed.old (D.view dialogue.old))
        (to_come feed.new (D.view dialogue.new)) (line_of feed.old) (line_of feed.new)) }
{
    for _ in rt.forever() {
        match read_line(rt, feed, dialogue) {
            Ok(true) => return Ok(()),
            Ok(false) => thread::sleep(rt, Duration::from_millis(PAUSE)),
            Err(_) => return Err(FrontStop::Replies),
        }
    }
    unreachable!()
}
