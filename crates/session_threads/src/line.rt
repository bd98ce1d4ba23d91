//! A line of a session's input.
ghost use Rattle.std.specs.Prelude.{◌≡◌, ◌<◌, ◌++◌, ◌∷◌, [], ℕ, List, IfSome, MatchBool, length};
ghost use Rattle.session_threads.specs.Prelude.{ends_text, without_cr, line_form};
ghost use Rattle.session_threads.specs.Lines.{IsHead, IsLine};

use arrayvec::ArrayVec;
use line_text::is_blank;
use sessions::{LineForm, is_point, line_form, without_cr};
use std::alloc::Global;
use std::marker::Model;

/// A line of this number of bytes is too long for a command, even if a CR ends it.
const HEAD: usize = 4098;

/// A line that is being read. Its bytes are kept if there is memory for them. What it asks is known
/// without memory, by its head: the line itself, or a part of it that is too long for a command and
/// that has a word if the line has one.
#[derive(Drop)]
pub(crate) struct Line {
    head: ArrayVec<u8, HEAD>,
    bytes: Vec<u8>,
    is_lost: bool,
}

impl Model for Line {
    ghost use Rattle.session_threads.specs.Lines.{LineSoFar};

    ghost Value = { LineSoFar };

    ghost view = { λ l. record { head = l.head.items; bytes = l.bytes.items; is_lost = l.is_lost } };
}

impl Line {
    /// A line of no bytes.
    pub(crate) fn new(alloc: Global) -> Self
        ensures { IsLine result [] }
    {
        Line {
            head: ArrayVec::new(),
            bytes: Vec::new(alloc),
            is_lost: false,
        }
    }

    /// Begins a new line.
    pub(crate) fn clear(&mut self)
        ensures { IsLine self.new [] }
    {
        self.head.clear();
        self.bytes.clear();
        self.is_lost = false;
    }

    /// Takes one more byte.
    pub(crate) fn push(&mut self, byte: u8)
        ensures { (line : List ℕ) → IsLine self.old line → IsLine self.new (line ++ byte ∷ []) }
    {
        push_head(&mut self.head, byte);
        if self.bytes.push(byte).is_err() {
            self.is_lost = true;
        }
    }

    /// Whether the line has no byte.
    pub(crate) fn is_empty(&self) -> bool
        ensures { (line : List ℕ) → IsLine self.now line →
            MatchBool result (line ≡ []) (0 < length line) }
    {
        self.head.is_empty()
    }

    /// What the line asks outside of texts.
    pub(crate) fn form(&self) -> LineForm
        ensures { (line : List ℕ) → IsLine self.now line → result ≡ line_form (without_cr line) }
    {
        line_form(without_cr(self.head.as_slice()))
    }

    /// Whether the line ends a text.
    pub(crate) fn ends_text(&self) -> bool
        ensures { (line : List ℕ) → IsLine self.now line → result ≡ ends_text line }
    {
        is_point(without_cr(self.head.as_slice()))
    }

    /// The line's bytes without a CR at their end. None if memory ran out for them.
    pub(crate) fn content(&self) -> Option<&[u8]>
        ensures { (line : List ℕ) → IsLine self.now line →
            IfSome result (λ bytes. bytes.now ≡ without_cr line) }
    {
        if self.is_lost {
            return None;
        }
        Some(without_cr(self.bytes.as_slice()))
    }
}

/// Takes one more byte of a line into its head. If the head is full, a byte of a word replaces its
/// last byte.
fn push_head(head: &mut ArrayVec<u8, HEAD>, byte: u8)
    ensures { (line : List ℕ) → IsHead head.old.items line →
        IsHead head.new.items (line ++ byte ∷ []) }
{
    if !head.is_full() {
        head.push(byte);
        return;
    }
    if is_blank(byte) {
        return;
    }
    head.pop();
    head.push(byte);
}
