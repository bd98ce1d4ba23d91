ghost use Rattle.std.specs.Prelude.{◌≡◌, None, MatchOption};
ghost use Rattle.line_text.specs.Decimal.{decimal_of};
ghost use Rattle.whole_scripts.specs.Rows.{IsRow, ahead, text_after};

use line_text::decimal_u32;

/// A line of the list.
#[derive(Clone, Copy)]
pub(crate) struct Row<'a> {
    /// The name of its files.
    pub name: &'a str,
    /// The status that the run must end with.
    pub status: u32,
    /// The words of its command line, with blanks between.
    pub words: &'a str,
}

/// Reads the row of a line: a name, a status and words. There may be no words.
pub(crate) fn row_in(line: &str) -> Option<Row<'_>>
    ensures { MatchOption result (decimal_of 32 (ahead (text_after line.now)) ≡ None)
        (λ row. IsRow line.now row) }
{
    let (name, rest) = cut(line);
    let (status, words) = cut(rest);
    let status = decimal_u32(status.as_bytes())?;
    Some(Row {
        name,
        status,
        words,
    })
}

/// The text before its first blank, and after it.
fn cut(text: &str) -> (&str, &str)
    ensures ahead { result.0.now ≡ ahead text.now }
    ensures behind { result.1.now ≡ text_after text.now }
{
    match text.split_once(' ') {
        Some(parts) => parts,
        None => (text, ""),
    }
}
