ghost use Rattle.sessions.specs.Prelude.{Writes};
ghost use Rattle.sessions.specs.SessionText.{answer_text, no_memory_text, note_text, unserved_text};

use crate::refusal::SessionRefusal;
use crate::text::{write_refused, write_reply, write_session_refusal};
use line_text::{Failed, Sink};
use service_core::{NotServed, NoteCause, Receipt};

/// What a session's line was answered.
#[derive(Drop)]
pub enum Answer {
    /// The line asks nothing.
    Nothing,
    /// The core's answer. A wait whose steps ran out of memory has such an answer too.
    Served(Result<Receipt, NotServed>),
    /// The core wasn't asked.
    Refused(SessionRefusal),
}

/// Writes the text of an answer.
pub(crate) fn write_answer<W: Sink>(writer: &mut W, answer: &Answer) -> Result<(), Failed>
    ensures { Writes W.contents W.has_failed writer.old writer.new (answer_text answer.now) result }
{
    match answer {
        Answer::Nothing => Ok(()),
        Answer::Served(Ok(receipt)) => write_reply(writer, receipt.reply()),
        Answer::Served(Err(refusal)) => write_unserved(writer, refusal),
        Answer::Refused(refusal) => write_session_refusal(writer, *refusal),
    }
}

/// Writes why the core had no reply.
fn write_unserved<W: Sink>(writer: &mut W, refusal: &NotServed) -> Result<(), Failed>
    ensures { Writes W.contents W.has_failed writer.old writer.new (unserved_text refusal.now)
        result }
{
    match refusal {
        NotServed::NoSuchTenancy(_) => write_note(writer, NoteCause::NoSuchTenancy),
        NotServed::JournalFull(_) => write_note(writer, NoteCause::JournalFull),
        NotServed::NoMemory => write_no_memory(writer),
    }
}

/// Writes why a note has no reply: its journal is full, or its tenancy isn't live.
pub fn write_note<W: Sink>(writer: &mut W, cause: NoteCause) -> Result<(), Failed>
    ensures { Writes W.contents W.has_failed writer.old writer.new (note_text cause) result }
{
    match cause {
        NoteCause::JournalFull => write_refused(writer, 2, "JournalFull"),
        NoteCause::NoSuchTenancy => write_session_refusal(writer, SessionRefusal::Evicted),
    }
}

/// Writes that memory ran out.
pub fn write_no_memory<W: Sink>(writer: &mut W) -> Result<(), Failed>
    ensures { Writes W.contents W.has_failed writer.old writer.new no_memory_text result }
{
    write_refused(writer, 1, "NoMemory")
}
