//! What lines and replies say.
ghost use Rattle.std.specs.Prelude.{◌≡◌};
ghost use Rattle.live_log.specs.Choice.{asks_only, has_no_form, is_done, verb_of};

use line_text::{is_word, skip_blanks, split_line, split_word};
use tagged_lines::split_tag;

/// The first two words of what a line says.
pub(crate) fn two_words(said: &[u8]) -> (&[u8], &[u8])
    ensures { result.0.now ≡ verb_of said.now }
{
    let (first, rest) = split_word(skip_blanks(said));
    let (second, _) = split_word(skip_blanks(rest));
    (first, second)
}

/// Whether a line of the operator with that first word only asks.
pub(crate) fn asks_only(verb: &[u8]) -> bool
    ensures { result ≡ asks_only verb.now }
{
    is_word(verb, "list") || is_word(verb, "owners")
}

/// Whether a line says `wait`.
pub(crate) fn is_wait(said: &[u8]) -> bool {
    let (first, _) = two_words(said);
    is_word(first, "wait")
}

/// Whether a line has no word.
pub(crate) fn is_blank(said: &[u8]) -> bool {
    skip_blanks(said).is_empty()
}

/// Whether a reply says that a line has no form.
pub(crate) fn has_no_form(reply: &[u8]) -> bool
    ensures { result ≡ has_no_form reply.now }
{
    reply.starts_with(b"? ")
}

/// Whether what was asked is done.
pub(crate) fn is_done(reply: &[u8]) -> bool
    ensures { result ≡ is_done reply.now }
{
    let (_, said) = split_tag(reply);
    said.starts_with(b"ok")
}

/// The state that a reply tells to what was done. Empty if it tells none.
pub(crate) fn told_state(reply: &[u8]) -> &[u8] {
    let (line, _) = split_line(reply);
    let (_, said) = split_tag(line);
    let (_, state) = two_words(said);
    state
}

/// Whether everything was given up.
pub(crate) fn is_withdrawn(reply: &[u8]) -> bool {
    let (_, said) = split_tag(reply);
    said.starts_with(b"ok Empty")
}

/// Whether a job began.
pub(crate) fn is_begun(reply: &[u8]) -> bool {
    let (_, said) = split_tag(reply);
    said.starts_with(b"ok Packing")
        || said.starts_with(b"ok Placing")
        || said.starts_with(b"ok Routing")
}

/// Whether no job runs.
pub(crate) fn is_at_rest(reply: &[u8]) -> bool {
    let (_, said) = split_tag(reply);
    said.starts_with(b"status ")
        && !said.starts_with(b"status Packing")
        && !said.starts_with(b"status Placing")
        && !said.starts_with(b"status Routing")
}

/// Whether one of the lines says that a step was made.
pub(crate) fn has_step(reply: &[u8]) -> bool {
    let mut rest = reply;
    while !rest.is_empty() {
        let (line, after) = split_line(rest);
        if line == b"op advanced".as_slice() || line == b"op finished".as_slice() {
            return true;
        }
        rest = after;
    }
    false
}

/// Whether a job that the operator held was put, or is gone.
pub(crate) fn is_put(reply: &[u8]) -> bool {
    !reply.starts_with(b"op none")
}
