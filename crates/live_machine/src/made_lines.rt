//! Lines that the machine makes itself, and what it tells without one.
ghost use Rattle.std.specs.Prelude.{◌≡◌, ◌≢◌, ◌∷◌, ◌++◌, codes, true, [], List, ℕ, ◌<◌, ◌^◌, length, IfOk, IfSome, OnOk};
ghost use Rattle.std.specs.Io.KnownBytes.{Appends};
ghost use Rattle.live_machine.specs.Prelude.{Step, is_name, no_memory_text, output_of, asked_of as what_asks, for_name, NoForm, Operates};
ghost use Rattle.live_machine.specs.Held.{form_of, is_wait};
ghost use Rattle.live_machine.specs.Machine.{IsLine};
ghost use Rattle.live_machine.specs.Workers.{nomemory_reply};

use line_feed::MAX_FED_LINE;
use line_text::{MemorySink, Sink, write_slices};
use live_lines::{LineRequest, asked_of};
use script_text::{OperatorLine, is_name};
use sessions::{LineForm, SessionLine, line_form, without_cr, write_no_memory};
use std::alloc::{AllocError, Global};
use tagged_lines::{split_tag, write_at_once};

/// Whether a line of a name says `wait`, outside of texts.
pub fn says_wait(line: &[u8]) -> bool
    ensures { result ≡ is_wait (form_of line.now) }
{
    let (_, said) = split_tag(line);
    matches!(
        line_form(without_cr(said)),
        LineForm::Asks(SessionLine::Wait)
    )
}

/// The line that says `status` with that tag.
pub(crate) fn status_line(alloc: Global, tag: &[u8]) -> Result<Vec<u8>, AllocError>
    ensures { IfOk result (λ line. line.items ≡ tag.now ++ codes " status") }
{
    join(alloc, tag, b" status", b"")
}

/// These three texts, one after another.
fn join(alloc: Global, first: &[u8], second: &[u8], third: &[u8]) -> Result<Vec<u8>, AllocError>
    ensures { IfOk result (λ text. text.items ≡ first.now ++ (second.now ++ third.now)) }
{
    let mut text = Vec::new(alloc);
    text.reserve(second.len() + 16)?;
    text.extend_from_slice(first)?;
    text.extend_from_slice(second)?;
    text.extend_from_slice(third)?;
    Ok(text)
}

/// A line without a form, in the place of that one: the line after `? `, or `?` alone if that is
/// too long.
pub(crate) fn formless_line(alloc: Global, line: &[u8]) -> Result<Vec<u8>, AllocError>
    requires { IsLine line.now }
    ensures { IfOk result (λ made. IsLine made.items × (what_asks made.items ≡ NoForm)) }
{
    if line.len() > MAX_FED_LINE - 2 {
        return Vec::from_slice(alloc, b"?");
    }
    join(alloc, b"? ", line, b"")
}

/// The line that makes one step of that name's job. None if it isn't a name.
pub(crate) fn step_line(alloc: Global, name: &[u8]) -> Result<Option<Vec<u8>>, AllocError>
    ensures { IfOk result (λ line. IfSome line (λ text. IsLine text.items
        × (what_asks text.items ≡ Operates (Step name.now 1)))) }
{
    if !is_name(name) {
        return Ok(None);
    }
    let line = join(alloc, b"op step ", name, b" 1")?;
    if asks_step(alloc, line.as_slice(), name)? {
        return Ok(Some(line));
    }
    Ok(None)
}

/// Whether a line asks for one step of that name's job.
fn asks_step(alloc: Global, line: &[u8], name: &[u8]) -> Result<bool, AllocError>
    requires { length line.now < 2 ^ 63 }
    ensures { IfOk result (λ asks. asks ≡ true → what_asks line.now ≡ Operates (Step name.now 1)) }
{
    match asked_of(alloc, line)? {
        LineRequest::Operates(OperatorLine::Step(other, 1)) => Ok(other == name),
        LineRequest::Operates(_) | LineRequest::Nothing | LineRequest::NoForm => Ok(false),
        LineRequest::Echoes(_) | LineRequest::Figures | LineRequest::Says(_, _, _) => Ok(false),
    }
}

/// Whether a reply says that memory ran out for a step.
pub(crate) fn is_nomemory(reply: &[u8]) -> bool
    ensures { (name : List ℕ) → result ≡ true → reply.now ≡ nomemory_reply name }
{
    reply == b"op lines 1\nop nomemory\n".as_slice()
}

/// What a name is told for an item that was lost.
pub(crate) fn lost_text(alloc: Global, name: &[u8]) -> Result<Vec<u8>, AllocError>
    ensures { IfOk result (λ text. text.items ≡ output_of (for_name name.now no_memory_text ∷ [])) }
{
    let mut reply = MemorySink::new(alloc);
    write_lost(alloc, &mut reply, name)?;
    Ok(reply.into_bytes())
}

/// Writes to a name that memory ran out.
fn write_lost<W: Sink>(alloc: Global, writer: &mut W, name: &[u8]) -> Result<(), AllocError>
    ensures { OnOk result (Appends (W.contents writer.old) (W.contents writer.new)
        (output_of (for_name name.now no_memory_text ∷ []))) }
{
    let mut tag = MemorySink::new(alloc);
    let mut text = MemorySink::new(alloc);
    if write_slices(&mut tag, &[b"@", name]).is_err() || write_no_memory(&mut text).is_err() {
        return Err(AllocError);
    }
    match write_at_once(alloc, writer, tag.as_bytes(), text.as_bytes()) {
        Ok(()) => Ok(()),
        Err(_) => Err(AllocError),
    }
}
