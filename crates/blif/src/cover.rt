//! The cover of a table: the rows after its line, of which only the form is checked.
ghost use Rattle.std.specs.Prelude.{◌≡◌, ◌<◌};
ghost use Rattle.std.specs.List.{list_all};
ghost use Rattle.blif.specs.Covers.{cover_after, gives_one, is_literal, is_output, is_mixed, is_row};

use crate::keyword::{Keyword, last_of};
use line_text::{Line, is_word};

/// A table whose rows may follow: its number of inputs, and whether its first row gives 1, once
/// that row was read.
#[derive(Clone, Copy)]
pub struct Cover {
    pub inputs: usize,
    pub output: Option<bool>,
}

/// Whether the line is a row for this many inputs: a character `0`, `1` or `-` for each, and the
/// output.
pub fn is_row(inputs: usize, line: &Line<'_, '_>) -> bool
    ensures { result ≡ is_row inputs line.now.words }
{
    match line.words() {
        [output] => inputs == 0 && is_output(output),
        [pattern, output] => {
            inputs != 0 && pattern.len() == inputs && is_pattern(pattern) && is_output(output)
        }
        _ => false,
    }
}

fn is_pattern(word: &[u8]) -> bool
    ensures { result ≡ list_all is_literal word.now }
{
    word.iter()
        .all(|byte| *byte == b'0' || *byte == b'1' || *byte == b'-')
}

fn is_output(word: &[u8]) -> bool
    ensures { result ≡ is_output word.now }
{
    match word {
        [byte] => *byte == b'0' || *byte == b'1',
        _ => false,
    }
}

/// Whether the row's output is 1.
fn gives_one(line: &Line<'_, '_>) -> bool
    ensures { result ≡ gives_one line.now.words }
{
    is_word(last_of(line), "1")
}

/// Whether the row's output differs from that of the cover's first row.
pub fn is_mixed(first: Option<bool>, line: &Line<'_, '_>) -> bool
    ensures { result ≡ is_mixed first line.now.words }
{
    match first {
        Some(true) => !gives_one(line),
        Some(false) => gives_one(line),
        None => false,
    }
}

/// The cover after a line of this kind, which begins it or continues the cover `above` the line.
pub fn cover_after(keyword: Keyword, line: &Line<'_, '_>, above: Option<Cover>) -> Option<Cover>
    ensures { result ≡ cover_after keyword line.now.words above }
{
    match keyword {
        Keyword::Names => Some(Cover {
            inputs: line.words().len().saturating_sub(2),
            output: None,
        }),
        Keyword::Row => match above {
            Some(cover) => Some(Cover {
                inputs: cover.inputs,
                output: match cover.output {
                    Some(one) => Some(one),
                    None => Some(gives_one(line)),
                },
            }),
            None => None,
        },
        _ => None,
    }
}
