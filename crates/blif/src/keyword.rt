//! The kind of a line, by its first word.
ghost use Rattle.std.specs.Prelude.{◌≡◌};
ghost use Rattle.blif.specs.Names.{texts};
ghost use Rattle.blif.specs.Keywords.{command_of, is_skipped, last_of};
ghost use Rattle.blif.specs.LineNets.{front_of, inputs_in};
ghost use Rattle.blif.specs.Sights.{is_end, kind_of};

use line_text::{Line, is_word};

/// The kinds of lines. A line whose first word doesn't begin with a point is a row of a cover.
#[derive(Clone, Copy, PartialEq, Eq)]
pub enum Keyword {
    Model,
    Inputs,
    Outputs,
    Clock,
    Names,
    Latch,
    End,
    /// Delays, areas and loads, which have no meaning in this profile.
    Skipped,
    Other,
    Row,
}

/// The kind of the line.
pub fn keyword_of(line: &Line<'_, '_>) -> Keyword
    ensures { result ≡ kind_of line.now }
{
    match line.words() {
        [] => Keyword::Row,
        [word, ..] => match word {
            [b'.', ..] => command_of(word),
            _ => Keyword::Row,
        },
    }
}

fn command_of(word: &[u8]) -> Keyword
    ensures { result ≡ command_of word.now }
{
    if is_word(word, ".names") {
        Keyword::Names
    } else if is_word(word, ".latch") {
        Keyword::Latch
    } else if is_word(word, ".inputs") {
        Keyword::Inputs
    } else if is_word(word, ".outputs") {
        Keyword::Outputs
    } else if is_word(word, ".clock") {
        Keyword::Clock
    } else if is_word(word, ".model") {
        Keyword::Model
    } else if is_word(word, ".end") {
        Keyword::End
    } else if is_skipped(word) {
        Keyword::Skipped
    } else {
        Keyword::Other
    }
}

fn is_skipped(word: &[u8]) -> bool
    ensures { result ≡ is_skipped word.now }
{
    is_word(word, ".area")
        || is_word(word, ".delay")
        || is_word(word, ".wire_load_slope")
        || is_word(word, ".wire")
        || is_word(word, ".input_arrival")
        || is_word(word, ".default_input_arrival")
        || is_word(word, ".output_required")
        || is_word(word, ".default_output_required")
        || is_word(word, ".input_drive")
        || is_word(word, ".default_input_drive")
        || is_word(word, ".output_load")
        || is_word(word, ".default_output_load")
        || is_word(word, ".max_input_load")
        || is_word(word, ".default_max_input_load")
        || is_word(word, ".cycle")
        || is_word(word, ".clock_event")
}

/// The last of the line's words, or no bytes if the line has no word.
pub fn last_of<'t>(line: &Line<'_, 't>) -> &'t [u8]
    ensures { result.now ≡ last_of line.now.words }
{
    match line.words() {
        [] => b"",
        [.., word] => word,
    }
}

/// The line's words before the last.
pub fn front_of<'a, 't>(line: &Line<'a, 't>) -> &'a [&'t [u8]]
    ensures { texts result.now ≡ front_of line.now.words }
{
    let words = line.words();
    match words {
        [] => words,
        [front @ .., _] => front,
    }
}

/// Whether a line of this kind ends the model.
pub fn is_end(keyword: Keyword) -> bool
    ensures { result ≡ is_end keyword }
{
    matches!(keyword, Keyword::End)
}

/// The inputs that a line of this kind declares.
pub fn inputs_in<'a, 't>(keyword: Keyword, line: &Line<'a, 't>) -> &'a [&'t [u8]]
    ensures { texts result.now ≡ inputs_in keyword line.now.words }
{
    let args = line.without_first().words();
    match keyword {
        Keyword::Inputs => args,
        _ => &args[..0],
    }
}
