ghost use Rattle.std.specs.Prelude.{◌≡◌, ◌++◌, ◌∷◌, [], codes, decimal, length};
ghost use Rattle.sessions.specs.Prelude.{number_of, Writes, Refused, BadBlif, DoesNotFit};
ghost use Rattle.sessions.specs.SessionText.{blank_word, cause_text, numbered_line, reply_text, session_refusal_text, step_text};
ghost use Rattle.tenant_slot.specs.declared.reply.Reply.TheVariants.{Status as InState};

use crate::refusal::SessionRefusal;
use blif::BlifFault;
use itoa::Buffer;
use line_text::{Failed, Sink, write_slices};
use tenant_slot::{Ending, Misfit, Refusal, Reply, Status, StepReply};

/// Writes a line: a word, a number, the name that goes with it, and two more parts.
fn write_numbered<'t, W: Sink>(
    sink: &mut W,
    word: &'t [u8],
    number: u32,
    name: &'t str,
    more: &'t [u8],
    last: &'t [u8],
) -> Result<(), Failed>
    ensures { Writes W.contents W.has_failed sink.old sink.new
        (numbered_line word.now number name.now (more.now ++ last.now)) result }
{
    let mut digits = Buffer::new();
    let digits = digits.format(number).as_bytes();
    let name = name.as_bytes();
    write_slices(sink, &[word, b" ", digits, b" ", name, more, last, b"\n"])
}

/// Writes a refusal, as the line `refused NUMBER NAME`.
pub fn write_refused<W: Sink>(sink: &mut W, number: u32, name: &str) -> Result<(), Failed>
    ensures { Writes W.contents W.has_failed sink.old sink.new
        (numbered_line (codes "refused") number name.now []) result }
{
    write_numbered(sink, b"refused", number, name, b"", b"")
}

/// Writes the line of a session's refusal.
#[tactic(auto, using(crate::proofs::RefusalTexts::refusal_line))]
pub fn write_session_refusal<W: Sink>(sink: &mut W, refusal: SessionRefusal) -> Result<(), Failed>
    ensures { Writes W.contents W.has_failed sink.old sink.new (session_refusal_text refusal)
        result }
{
    write_numbered(sink, b"line", refusal.number(), refusal.name(), b"", b"")
}

/// The word for a step that was made.
pub fn step_word(reply: StepReply) -> &'static [u8]
    ensures { result.now ≡ step_text reply }
{
    match reply {
        StepReply::Advanced => b"advanced",
        StepReply::Finished => b"finished",
        StepReply::Stale => b"stale",
    }
}

/// Writes a reply: its line, and after it the bytes of a file.
pub fn write_reply<W: Sink>(sink: &mut W, reply: &Reply) -> Result<(), Failed>
    ensures { Writes W.contents W.has_failed sink.old sink.new (reply_text reply.now) result }
{
    match reply {
        Reply::Accepted(state) => write_slices(sink, &[b"ok ", state.name().as_bytes(), b"\n"]),
        Reply::Status(status) => write_status(sink, status),
        Reply::File { kind, text } => write_file(sink, kind.name(), text.as_bytes()),
        Reply::Step(reply) => write_slices(sink, &[step_word(*reply), b"\n"]),
        Reply::Refused(refusal) => write_refusal(sink, refusal),
    }
}

/// Writes the line of a status.
fn write_status<W: Sink>(sink: &mut W, status: &Status) -> Result<(), Failed>
    ensures { Writes W.contents W.has_failed sink.old sink.new (reply_text (InState status.now))
        result }
{
    let name = status.state.name();
    match &status.ending {
        None => write_steps(sink, name, status.steps, b"", b""),
        Some(Ending::GaveUp) => write_steps(sink, name, status.steps, b" gaveup", b""),
        Some(Ending::NoPath(net)) => {
            write_steps(sink, name, status.steps, b" nopath ", net.as_bytes())
        }
    }
}

/// Writes the line of a status with the name of the state, the steps, and two more parts.
fn write_steps<'t, W: Sink>(
    sink: &mut W,
    name: &'t str,
    steps: u32,
    more: &'t [u8],
    last: &'t [u8],
) -> Result<(), Failed>
    ensures { Writes W.contents W.has_failed sink.old sink.new
        (codes "status" ++ blank_word name.now ++ blank_word (decimal steps)
        ++ (more.now ++ last.now) ++ 10 ∷ []) result }
{
    let mut digits = Buffer::new();
    let steps = digits.format(steps).as_bytes();
    let name = name.as_bytes();
    write_slices(sink, &[b"status ", name, b" ", steps, more, last, b"\n"])
}

/// Writes the line of a file of that name, and after it its bytes.
fn write_file<'t, W: Sink>(sink: &mut W, name: &'t str, file: &'t [u8]) -> Result<(), Failed>
    ensures { Writes W.contents W.has_failed sink.old sink.new
        (codes "text" ++ blank_word name.now ++ blank_word (decimal (length file.now)) ++ 10
        ∷ file.now) result }
{
    let mut digits = Buffer::new();
    let count = digits.format(file.len()).as_bytes();
    let name = name.as_bytes();
    write_slices(sink, &[b"text ", name, b" ", count, b"\n", file])
}

/// Writes the line of a refused command, with its cause.
fn write_refusal<W: Sink>(sink: &mut W, refusal: &Refusal) -> Result<(), Failed>
    ensures { Writes W.contents W.has_failed sink.old sink.new (reply_text (Refused refusal.now))
        result }
{
    let (number, name) = (refusal.number(), refusal.name());
    match refusal {
        Refusal::WrongState(state) => {
            write_numbered(
                sink,
                b"refused",
                number,
                name,
                b" ",
                state.name().as_bytes(),
            )
        }
        Refusal::BadBlif(fault) => write_fault(sink, number, name, fault),
        Refusal::CannotPack(ble) => {
            let mut digits = Buffer::new();
            let ble = digits.format(*ble).as_bytes();
            write_numbered(sink, b"refused", number, name, b" ", ble)
        }
        Refusal::DoesNotFit(misfit) => write_misfit(sink, number, name, *misfit),
        Refusal::BadEffort => write_refused(sink, number, name),
    }
}

/// Writes the line of a refusal because a strip has too little of something: how much of it there
/// is, and how much is needed.
fn write_misfit<'t, W: Sink>(
    sink: &mut W,
    number: u32,
    name: &'t str,
    misfit: Misfit,
) -> Result<(), Failed>
    ensures { Writes W.contents W.has_failed sink.old sink.new
        (numbered_line (codes "refused") number name.now (cause_text (DoesNotFit misfit))) result }
{
    match misfit {
        Misfit::Blocks { have, need } => {
            write_amounts(sink, number, name, b" blocks ", have, need)
        }
        Misfit::Pads { have, need } => write_amounts(sink, number, name, b" pads ", have, need),
    }
}

/// Writes the line of a refusal with a word (with a blank on each side) and two amounts.
fn write_amounts<'t, W: Sink>(
    sink: &mut W,
    number: u32,
    name: &'t str,
    word: &'t [u8],
    have: usize,
    need: usize,
) -> Result<(), Failed>
    ensures { Writes W.contents W.has_failed sink.old sink.new
        (numbered_line (codes "refused") number name.now
        (word.now ++ decimal have ++ blank_word (decimal need))) result }
{
    let (mut digits, mut haves, mut needs) = (Buffer::new(), Buffer::new(), Buffer::new());
    let number = digits.format(number).as_bytes();
    let have = haves.format(have).as_bytes();
    let need = needs.format(need).as_bytes();
    let name = name.as_bytes();
    write_slices(
        sink,
        &[
            b"refused ",
            number,
            b" ",
            name,
            word,
            have,
            b" ",
            need,
            b"\n",
        ],
    )
}

/// Writes the line of a refusal for a netlist's fault: its number, its line and its net.
fn write_fault<W: Sink>(
    sink: &mut W,
    number: u32,
    name: &str,
    fault: &BlifFault,
) -> Result<(), Failed>
    ensures { Writes W.contents W.has_failed sink.old sink.new
        (numbered_line (codes "refused") number name.now (cause_text (BadBlif fault.now))) result }
{
    match fault.net() {
        Some(net) => write_fault_with(sink, number, name, fault, b" ", net.as_bytes()),
        None => write_fault_with(sink, number, name, fault, b"", b""),
    }
}

/// Writes the line of a refusal with the number and the line of a netlist's fault, and two more
/// parts.
fn write_fault_with<'t, W: Sink>(
    sink: &mut W,
    number: u32,
    name: &'t str,
    fault: &BlifFault,
    more: &'t [u8],
    last: &'t [u8],
) -> Result<(), Failed>
    ensures { Writes W.contents W.has_failed sink.old sink.new
        (numbered_line (codes "refused") number name.now
        (blank_word (decimal (number_of fault.now.kind)) ++ blank_word (decimal fault.now.line)
        ++ (more.now ++ last.now))) result }
{
    let (mut digits, mut kinds, mut lines) = (Buffer::new(), Buffer::new(), Buffer::new());
    let number = digits.format(number).as_bytes();
    let kind = kinds.format(fault.number()).as_bytes();
    let line = lines.format(fault.line).as_bytes();
    let name = name.as_bytes();
    write_slices(
        sink,
        &[
            b"refused ",
            number,
            b" ",
            name,
            b" ",
            kind,
            b" ",
            line,
            more,
            last,
            b"\n",
        ],
    )
}
