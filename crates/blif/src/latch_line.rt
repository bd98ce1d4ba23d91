//! The words of a `.latch` line: `input output [type control] [init]`.
ghost use Rattle.std.specs.Prelude.{◌≡◌};
ghost use Rattle.std.specs.Option.{option_map};
ghost use Rattle.blif.specs.LatchLines.{control_of, is_init, is_latch, is_type};

use line_text::{Line, is_word};

/// Whether the line's words describe a latch.
pub fn is_latch(line: &Line<'_, '_>) -> bool
    ensures { result ≡ is_latch line.now.words }
{
    match line.words() {
        [_, _] => true,
        [_, _, init] => is_init(init),
        [_, _, kind, _] => is_type(kind),
        [_, _, kind, _, init] => is_type(kind) && is_init(init),
        _ => false,
    }
}

/// The net that controls the latch with the line's words, if there is one.
pub fn control_of<'t>(line: &Line<'_, 't>) -> Option<&'t [u8]>
    ensures { option_map (λ net. net.now) result ≡ control_of line.now.words }
{
    match line.words() {
        [_, _, _, control, ..] => {
            if is_word(control, "NIL") {
                None
            } else {
                Some(*control)
            }
        }
        _ => None,
    }
}

fn is_type(word: &[u8]) -> bool
    ensures { result ≡ is_type word.now }
{
    is_word(word, "fe")
        || is_word(word, "re")
        || is_word(word, "ah")
        || is_word(word, "al")
        || is_word(word, "as")
}

fn is_init(word: &[u8]) -> bool
    ensures { result ≡ is_init word.now }
{
    match word {
        [byte] => *byte == b'0' || *byte == b'1' || *byte == b'2' || *byte == b'3',
        _ => false,
    }
}
