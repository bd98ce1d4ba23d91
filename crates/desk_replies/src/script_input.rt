//! A script that a tool reads, and the replies that were printed for its lines.
ghost use Rattle.std.specs.Prelude.{◌≡◌, ◌<◌, ◌^◌, length, map, Ok, IfOk};
ghost use Rattle.desk_replies.specs.Lines.{AreLines};
ghost use Rattle.desk_replies.specs.Prelude.{replies_in, named_act, script_of};

use crate::lines::Lines;
use desk_common::Outcome;
use printed_replies::{Replies, ReplyError};
use script_replies::read_replies;
use script_text::{Act, ScriptError, cut_text, read_script};
use std::alloc::Global;

/// The lines of a script after its architecture, if it begins with one.
pub(crate) fn lines_of(script: &[u8], has_architecture: bool) -> Lines<'_>
    requires { length script.now < 2 ^ 63 }
    ensures { AreLines has_architecture script.now result }
{
    let whole = Lines {
        text: script,
        architecture: b"",
        number: 1,
    };
    if !has_architecture {
        return whole;
    }
    match cut_text(script, 1) {
        Some(cut) => Lines {
            text: cut.rest,
            architecture: cut.ahead,
            number: cut.number,
        },
        None => whole,
    }
}

/// The acts of these lines. Fails with the first line that has a fault, or if memory runs out.
pub(crate) fn acts_of(alloc: Global, lines: Lines<'_>) -> Result<Vec<Act<&[u8]>>, Outcome>
    ensures { IfOk result (λ acts. script_of lines.entry.number lines.entry.text.now
        ≡ Ok (map named_act acts.items)) }
{
    match read_script(alloc, lines.text, lines.number) {
        Ok(script) => Ok(script.into_acts()),
        Err(ScriptError::NoMemory) => Err(Outcome::NoMemory),
        Err(ScriptError::Fault(line)) => Err(Outcome::ScriptRefused(line)),
    }
}

/// The replies to acts, from what was printed for them. Fails with the first printed line that fits
/// no reply, or if memory runs out.
pub(crate) fn replies_of<'t, 'p>(
    alloc: Global,
    acts: &[Act<&'t [u8]>],
    printed: &'p [u8],
) -> Result<Replies<'t, 'p>, Outcome>
    ensures { IfOk result (λ replies.
        replies_in (map named_act acts.now) printed.now ≡ Ok replies) }
{
    match read_replies(alloc, acts, printed) {
        Ok(replies) => Ok(replies),
        Err(ReplyError::NoMemory) => Err(Outcome::NoMemory),
        Err(ReplyError::Fault(line)) => Err(Outcome::RepliesRefused(line)),
    }
}
