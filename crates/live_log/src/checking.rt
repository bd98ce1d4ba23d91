//! A shorter log that is checked before it is used.
ghost use Rattle.std.specs.Prelude.{◌≡◌, ◌∷◌, [], codes, true, None, IfOk, OnOk, MatchOption};
ghost use Rattle.live_log.specs.Prelude.{physical_lines, texts};
ghost use Rattle.live_log.specs.Alike.{AnswerAlike, ServesAlike};
ghost use Rattle.live_log.specs.LastTags.{last_tags};
ghost use Rattle.live_log.specs.Choice.{AreChosen};
ghost use Rattle.live_log.specs.Kept.{lines_in};
ghost use Rattle.live_log.specs.Questions.{questions_after, questions_to, with_speakers};

use crate::questions::{answer_alike, first_differing, speakers};
use crate::serving::serve_short;
use crate::short_log::ShortLog;
use crate::shortening::shorten;
use line_service::Answers;
use line_text::Sink;
use std::alloc::{AllocError, Global};

/// A log that was made shorter, if nothing is lost by it.
#[derive(Drop)]
pub struct CheckedLog<'l> {
    /// The shorter log, or the whole one.
    pub log: ShortLog<'l>,
    /// Whose questions the shorter log's service answers otherwise than the whole log's: a name, or
    /// `op`. `None` if it answers all alike: then this is the shorter log, else the whole one.
    pub differing: Option<&'l [u8]>,
}

/// Makes a log shorter, and checks it: `whole` is served the whole log, `short` the shorter one,
/// and then both are asked the same questions: which tenancies there are, what they own, and for
/// each name that speaks in the log the state and the files of its tenancy. The two services begin
/// alike. Unless they answer all alike, the log stays as it is. Each line of it must have its end.
/// If the log is long, the teller is written how many of its lines `whole` has answered.
///
/// # Errors
/// `AllocError` if it runs out of memory.
pub fn shorten_checked<'l, A: Answers, E: Sink>(
    alloc: Global,
    whole: &mut A,
    short: &mut A,
    log: &'l [u8],
    teller: &mut E,
) -> Result<CheckedLog<'l>, AllocError>
    requires whole { A.is_ready whole.old }
    requires short { A.is_ready short.old }
    ensures log { IfOk result (λ checked. checked.log.log.now ≡ log.now) }
    ensures checked { IfOk result (λ checked. MatchOption checked.differing
        (ServesAlike A.answers whole.old short.old log.now (lines_in checked.log))
        (λ _. lines_in checked.log ≡ physical_lines log.now)) }
    ensures chosen { IfOk result (λ checked. checked.differing ≡ None → (served : A) ×
        AreChosen A.answers whole.old 1 true (physical_lines log.now) checked.log.kept.items served) }
    ensures last { IfOk result (λ checked. checked.differing ≡ None →
        texts checked.log.last.items ≡ last_tags (physical_lines log.now)) }
{
    let shorter = shorten(alloc, whole, log, teller)?;
    serve_short(alloc, short, &shorter)?;
    match differing_in(alloc, whole, short, log)? {
        None => Ok(CheckedLog {
            log: shorter,
            differing: None,
        }),
        Some(name) => Ok(CheckedLog {
            log: shorter.into_whole(alloc)?,
            differing: Some(name),
        }),
    }
}

/// Whether two services answer the operator's questions alike.
fn answer_operator_alike<A: Answers>(whole: &mut A, short: &mut A) -> Result<bool, AllocError>
    requires whole { A.is_ready whole.old }
    requires short { A.is_ready short.old }
    ensures whole { OnOk result (A.is_ready whole.new) }
    ensures short { OnOk result (A.is_ready short.new) }
    ensures alike { IfOk result (λ alike. alike ≡ true → AnswerAlike A.answers whole.old short.old
        (codes "op list" ∷ codes "op owners" ∷ []) whole.new short.new) }
{
    if !answer_alike(whole, short, b"op list")? {
        return Ok(false);
    }
    answer_alike(whole, short, b"op owners")
}

/// Whose questions two services answer otherwise, after these were served a log and a shorter one:
/// a name, or `op`. `None` if they answer all alike.
fn differing_in<'l, A: Answers>(
    alloc: Global,
    whole: &mut A,
    short: &mut A,
    log: &'l [u8],
) -> Result<Option<&'l [u8]>, AllocError>
    requires whole { A.is_ready whole.old }
    requires short { A.is_ready short.old }
    ensures { IfOk result (λ differing. differing ≡ None → AnswerAlike A.answers whole.old short.old
        (questions_after (physical_lines log.now)) whole.new short.new) }
{
    if !answer_operator_alike(whole, short)? {
        return Ok(Some(b"op"));
    }
    let names = speakers(alloc, log)?;
    first_differing(alloc, whole, short, &names)
}
