//! Bytes of a dialogue's input that were read ahead.
ghost use Rattle.std.specs.Prelude.{◌≡◌, ◌==◌, ◌<◌, [], IfOk, MatchBool, length, position};
ghost use Rattle.line_feed.specs.Feed.{Refills};
ghost use Rattle.line_feed.specs.Pieces.{TakesPiece};

use crate::fed_line::FedLine;
use dialogue::{Dialogue, FailedDevice};
use std::alloc::{AllocError, Global};
use std::marker::Model;

/// How many bytes are read at a time.
const CHUNK: usize = 65_536;

/// Bytes of a dialogue's input that were read ahead.
#[derive(Drop)]
pub(crate) struct Ahead {
    buffer: Vec<u8>,
    at: usize,
    end: usize,
}

impl Model for Ahead {
    ghost use Rattle.std.specs.Prelude.{◌≤◌, ◌<◌, ◌-◌, List, ℕ, take, drop, vec_len};

    ghost Value = { List ℕ };

    ghost view = { λ i. take (i.end - i.at) (drop i.at i.buffer.items) };

    ghost invariant = { λ i. (i.at ≤ i.end) × (i.end ≤ vec_len i.buffer) × (0 < vec_len i.buffer) };
}

/// The place of the first LF.
fn line_end(bytes: &[u8]) -> Option<usize>
    ensures { result ≡ position (λ byte. byte == 10) bytes.now }
{
    bytes.iter().position(|byte| *byte == b'\n')
}

impl Ahead {
    /// No bytes read ahead.
    pub(crate) fn new(alloc: Global) -> Result<Self, AllocError>
        ensures { IfOk result (λ ahead. ahead ≡ []) }
    {
        Ok(Ahead {
            buffer: Vec::from_elem(alloc, 0, CHUNK)?,
            at: 0,
            end: 0,
        })
    }

    /// Whether no byte was read ahead.
    pub(crate) fn is_empty(&self) -> bool
        ensures { MatchBool result (self.now ≡ []) (0 < length self.now) }
    {
        self.at == self.end
    }

    /// Reads once, when no byte is left that was read ahead.
    pub(crate) fn refill<D: Dialogue>(&mut self, dialogue: &mut D) -> Result<(), FailedDevice>
        requires { self.old ≡ [] }
        ensures { Refills (D.view dialogue.old) (D.view dialogue.new) self.new result }
    {
        self.at = 0;
        self.end = 0;
        self.end = dialogue.read(self.buffer.as_mut_slice())?;
        Ok(())
    }

    /// Appends the bytes up to the first LF to the line and drops the LF. Without an LF, appends
    /// all bytes. Returns whether there was an LF.
    pub(crate) fn take_piece(&mut self, line: &mut FedLine) -> bool
        ensures { TakesPiece self.old line.old result self.new line.new }
    {
        let ahead = &self.buffer[self.at..self.end];
        match line_end(ahead) {
            Some(place) => {
                line.append(&ahead[..place]);
                self.at += place + 1;
                true
            }
            None => {
                line.append(ahead);
                self.at = self.end;
                false
            }
        }
    }
}
