//! Lines of files in which something is wrong.
use line_text::{Failed, Sink};
use text_parts::{Part, write_parts};

/// Writes the path of a file and the number of its line, before what is wrong with that.
pub fn write_line<E: Sink>(teller: &mut E, path: &str, line: u32) -> Result<(), Failed> {
    write_parts(teller, &[Part::Text(path), Part::Text(": line ")])?;
    write_parts(teller, &[Part::Number(line), Part::Text(": ")])
}

/// Writes the path of a file, and the number of its line if that is not 0.
pub(crate) fn write_place<E: Sink>(teller: &mut E, path: &str, line: u32) -> Result<(), Failed> {
    if line > 0 {
        return write_line(teller, path, line);
    }
    write_parts(teller, &[Part::Text(path), Part::Text(": ")])
}
