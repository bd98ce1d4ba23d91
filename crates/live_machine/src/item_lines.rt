//! Lines that wait for their turn.
ghost use Rattle.std.specs.Prelude.{◌≡◌, ◌+◌, ◌<◌, ◌++◌, ◌∷◌, [], true, IfOk, OnOk};
ghost use Rattle.live_machine.specs.Prelude.{is_one_line, physical_lines, with_feed};
ghost use Rattle.live_machine.specs.Fed.{IsFed};
ghost use Rattle.live_machine.specs.Held.{form_of, is_wait, is_wait_item};

use backlog::{MAX_WEIGHT, Weighs};
use line_text::split_line;
use sessions::{LineForm, SessionLine, line_form, without_cr};
use std::alloc::{AllocError, Global};
use std::marker::Model;
use tagged_lines::split_tag;

/// Lines of a name, in order. Its value is the lines. They are kept one after another, each ended
/// by LF.
#[derive(Drop)]
pub(crate) struct ItemLines {
    bytes: Vec<u8>,
}

impl Model for ItemLines {
    ghost use Rattle.std.specs.Prelude.{ℕ, List};
    ghost use Rattle.line_text.specs.Lines.{physical_lines};
    ghost use Rattle.live_machine.specs.Fed.{IsFed};

    ghost Value = { List (List ℕ) };

    ghost view = { λ lines. physical_lines lines.bytes.items };

    ghost invariant = { λ lines. IsFed lines.bytes.items };
}

impl ItemLines {
    /// One line.
    ///
    /// # Errors
    /// `AllocError` if memory runs out.
    pub(crate) fn of(alloc: Global, line: &[u8]) -> Result<Self, AllocError>
        requires { is_one_line line.now ≡ true }
        ensures { IfOk result (λ lines. lines ≡ line.now ∷ []) }
    {
        let mut bytes = Vec::new(alloc);
        append_line(&mut bytes, line)?;
        Ok(ItemLines { bytes })
    }

    /// The lines with one more after them.
    ///
    /// # Errors
    /// `AllocError` if memory runs out, or if they would be too many bytes to wait.
    pub(crate) fn with_line(self, line: &[u8]) -> Result<Self, AllocError>
        requires { is_one_line line.now ≡ true }
        ensures { IfOk result (λ lines. lines ≡ self ++ line.now ∷ []) }
    {
        let ItemLines { mut bytes } = self;
        append_line(&mut bytes, line)?;
        Ok(ItemLines { bytes })
    }

    /// The lines, each ended by LF.
    pub(crate) fn as_bytes(&self) -> &[u8]
        ensures lines { physical_lines result.now ≡ self.now }
        ensures fed { IsFed result.now }
    {
        self.bytes.as_slice()
    }

    /// Whether they are one line, a `wait`.
    pub(crate) fn is_wait(&self) -> bool
        ensures { result ≡ is_wait_item self.now }
    {
        is_wait_text(self.bytes.as_slice())
    }
}

impl Weighs for ItemLines {
    ghost use Rattle.std.specs.Prelude.{length};
    ghost use Rattle.std.specs.List.{flat_map};
    ghost use Rattle.tagged_lines.specs.Tags.{with_feed};

    ghost weight = { λ lines. length (flat_map with_feed lines) };

    fn weight(&self) -> u64 {
        self.bytes.len() as u64
    }
}

/// Appends a line and the LF that ends it, unless that would be too many bytes to wait.
fn append_line(bytes: &mut Vec<u8>, line: &[u8]) -> Result<(), AllocError>
    ensures { OnOk result (bytes.new.items ≡ bytes.old.items ++ with_feed line.now) }
{
    if !fits(bytes.len(), line.len()) {
        return Err(AllocError);
    }
    bytes.reserve(line.len() + 1)?;
    bytes.extend_from_slice(line)?;
    match bytes.push(b'\n') {
        Ok(()) => Ok(()),
        Err(_) => Err(AllocError),
    }
}

/// Whether that many bytes, the bytes of a line and its LF can wait together.
fn fits(bytes: usize, line: usize) -> bool
    ensures { result ≡ true → bytes + line < 2097152 }
{
    let most = MAX_WEIGHT as usize;
    line < most && bytes < most - line
}

/// Whether the text is one line, a `wait`.
fn is_wait_text(text: &[u8]) -> bool
    ensures { result ≡ is_wait_item (physical_lines text.now) }
{
    if text.is_empty() {
        return false;
    }
    let (line, others) = split_line(text);
    others.is_empty() && is_wait(form_of(line))
}

/// What a line of a session asks, outside of texts.
pub(crate) fn form_of(line: &[u8]) -> LineForm
    ensures { result ≡ form_of line.now }
{
    let (_, rest) = split_tag(line);
    line_form(without_cr(rest))
}

fn is_wait(form: LineForm) -> bool
    ensures { result ≡ is_wait form }
{
    matches!(form, LineForm::Asks(SessionLine::Wait))
}
