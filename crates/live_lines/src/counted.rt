//! The number of lines of a text.
ghost use Rattle.std.specs.Prelude.{◌≡◌, length};
ghost use Rattle.live_lines.specs.Prelude.{physical_lines};

use line_text::split_line;

/// The number of lines of a text.
pub fn count_lines(text: &[u8]) -> usize
    ensures { result ≡ length (physical_lines text.now) }
{
    let mut count = 0;
    let mut rest = text;
    while !rest.is_empty() {
        let (_, after) = split_line(rest);
        count += 1;
        rest = after;
    }
    count
}
