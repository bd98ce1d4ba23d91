//! An input, line by line.
ghost use Rattle.std.specs.Prelude.{◌≡◌, ◌<◌, [], IfOk, MatchBool, length};
ghost use Rattle.line_feed.specs.Feed.{Refills};
ghost use Rattle.line_feed.specs.Pieces.{IsKept, TakesPiece};

use crate::ahead::Ahead;
use crate::fed_line::FedLine;
use dialogue::{Dialogue, FailedDevice};
use std::alloc::{AllocError, Global};

/// Takes the input of a dialogue line by line.
#[derive(Drop)]
pub struct LineFeed {
    ahead: Ahead,
    line: FedLine,
}

impl LineFeed {
    ghost use Rattle.line_feed.specs.Feed.{ahead_of, line_of};

    /// A feed that has read nothing, at the beginning of a line.
    pub fn new(alloc: Global) -> Result<Self, AllocError>
        ensures ahead { IfOk result (λ feed. ahead_of feed ≡ []) }
        ensures line { IfOk result (λ feed. IsKept (line_of feed) []) }
    {
        Ok(LineFeed {
            ahead: Ahead::new(alloc)?,
            line: FedLine::new(alloc)?,
        })
    }

    /// Begins the next line.
    pub fn begin_line(&mut self)
        ensures ahead { ahead_of self.new ≡ ahead_of self.old }
        ensures line { IsKept (line_of self.new) [] }
    {
        self.line.clear();
    }

    /// Takes what was read ahead, up to the end of the line. Returns whether the line has ended.
    pub fn take_piece(&mut self) -> bool
        ensures { TakesPiece (ahead_of self.old) (line_of self.old) result (ahead_of self.new)
            (line_of self.new) }
    {
        self.ahead.take_piece(&mut self.line)
    }

    /// Reads once, when nothing is left that was read ahead.
    ///
    /// # Errors
    /// The device of the dialogue that failed.
    pub fn refill<D: Dialogue>(&mut self, dialogue: &mut D) -> Result<(), FailedDevice>
        requires { ahead_of self.old ≡ [] }
        ensures reads { Refills (D.view dialogue.old) (D.view dialogue.new) (ahead_of self.new) result }
        ensures line { line_of self.new ≡ line_of self.old }
    {
        self.ahead.refill(dialogue)
    }

    /// Whether nothing is left that was read ahead.
    pub fn is_empty(&self) -> bool
        ensures { MatchBool result (ahead_of self.now ≡ []) (0 < length (ahead_of self.now)) }
    {
        self.ahead.is_empty()
    }

    /// The first [`MAX_FED_LINE`](crate::MAX_FED_LINE) bytes of the line so far.
    pub fn line(&self) -> &[u8]
        ensures { result.now ≡ line_of self.now }
    {
        self.line.bytes()
    }
}
