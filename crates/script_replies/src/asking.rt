//! The replies to acts.
ghost use Rattle.std.specs.Prelude.{◌≡◌, List, ℕ, map, IfOk};
ghost use Rattle.script_replies.specs.Prelude.{Gives, asked_line, named_act, named_operator};
ghost use Rattle.script_replies.specs.Asking.{asked_of, operator_form, replies_in, session_form};

use printed_replies::{Asked, Replies, ReplyError, ReplyForm};
use script_text::{Act, OperatorLine};
use sessions::SessionLine;
use std::alloc::{AllocError, Global};

/// The form of the reply to a line of the operator.
fn operator_form(line: &OperatorLine<&[u8]>) -> ReplyForm
    ensures { result ≡ operator_form (named_operator line.now) }
{
    match line {
        OperatorLine::Admit(..) => ReplyForm::Admission,
        OperatorLine::Evict(_) => ReplyForm::Eviction,
        OperatorLine::List => ReplyForm::Tenancies,
        OperatorLine::Owners => ReplyForm::Owners,
        OperatorLine::Step(_, count) => ReplyForm::Lines(*count),
        OperatorLine::Move(..) | OperatorLine::Take(_) | OperatorLine::Put(_) => ReplyForm::Line,
    }
}

/// The form of the reply to a session's line.
fn session_form(line: &SessionLine) -> ReplyForm
    ensures { result ≡ session_form line.now }
{
    match line {
        SessionLine::Blank => ReplyForm::Silence,
        SessionLine::Command(_) | SessionLine::Wait | SessionLine::Refused(_) => ReplyForm::Session,
    }
}

/// The speaker of an act, and the form of its reply.
fn asked_of<'t>(act: &Act<&'t [u8]>) -> Asked<'t>
    ensures { asked_line result ≡ asked_of (named_act act.now) }
{
    match act {
        Act::Operator(line) => Asked {
            name: None,
            form: operator_form(line),
        },
        Act::Session(name, line) => Asked {
            name: Some(*name),
            form: session_form(line),
        },
    }
}

/// The acts with the forms of their replies.
fn asked_lines<'t>(alloc: Global, acts: &[Act<&'t [u8]>]) -> Result<Vec<Asked<'t>>, AllocError>
    ensures { IfOk result (λ asked.
        map asked_line asked.items ≡ map asked_of (map named_act acts.now)) }
{
    let mut asked = Vec::new(alloc);
    for act in acts {
        asked.push(asked_of(act))?;
    }
    Ok(asked)
}

/// Returns the acts' replies in the acts' order. Fails with the line of the printed text that fits
/// no reply, or if memory runs out.
pub fn read_replies<'t, 'p>(
    alloc: Global,
    acts: &[Act<&'t [u8]>],
    printed: &'p [u8],
) -> Result<Replies<'t, 'p>, ReplyError>
    ensures { Gives printed.now (replies_in (map named_act acts.now) printed.now) result }
{
    let asked = asked_lines(alloc, acts)?;
    printed_replies::read_replies(alloc, &asked, printed)
}
