//! In what a file differs from the log that is wanted.
ghost use Rattle.live_run.specs.Restart.{IsOtherLog};

use line_text::{skip_blanks, split_line, split_word};
use std::fmt;

/// What a log's first line names, each before its value.
const NAMES: [&str; 5] = [
    "--tracks",
    "--columns",
    "--rows",
    "--tenant-memory",
    "architecture",
];

/// More words than the first line of a log has.
const MOST_WORDS: u32 = 16;

/// What is said at the end if the first line is another one.
const OTHERS: &str = "log: its first line names other options";

/// What the first line of a log begins with.
const FIRST: &[u8] = b"# fpgad_live ";

/// In what a file differs from the log that is wanted.
#[derive(Clone, Copy, PartialEq, Eq)]
pub enum LogDifference {
    /// The file does not begin as a log does.
    NoLog,
    /// Whether its first line has another value of `--tracks`, of `--columns`, of `--rows`, of
    /// `--tenant-memory`, and another architecture.
    Others([bool; 5]),
    /// The line of that number says another sum than that of the lines before it.
    Changed(u64),
}

impl LogDifference {
    /// In what a file that begins so differs from a log with that first line.
    pub(crate) fn of(first_line: &[u8], head: &[u8]) -> Self
        ensures { IsOtherLog result }
    {
        let (wanted, _) = split_line(first_line);
        let (line, _) = split_line(head);
        if !line.starts_with(FIRST) {
            return LogDifference::NoLog;
        }
        let mut others = [false; 5];
        for (is_other, name) in others.iter_mut().zip(NAMES.iter()) {
            *is_other = value_of(wanted, name) != value_of(line, name);
        }
        LogDifference::Others(others)
    }
}

/// The message for standard error, without its last line's end.
impl fmt::Display for LogDifference {
    fn fmt<W: fmt::Write>(&self, f: &mut fmt::Formatter<W>) -> fmt::Result {
        match self {
            LogDifference::NoLog => { write!(f, "log: it does not begin as a log does\n{OTHERS}") }
            LogDifference::Others(others) => {
                for (is_other, name) in others.iter().zip(NAMES.iter()) {
                    if *is_other {
                        write!(f, "log: its first line has another {name}\n")?;
                    }
                }
                write!(f, "{OTHERS}")
            }
            LogDifference::Changed(line) => {
                write!(
                    f,
                    "log: line {line}: its sum differs: what is before it has changed"
                )
            }
        }
    }
}

/// The word after that name in a line. It may have no byte.
fn value_of<'l>(line: &'l [u8], name: &str) -> &'l [u8] {
    let mut rest = line;
    for _ in 0..MOST_WORDS {
        let (word, after) = split_word(skip_blanks(rest));
        if word == name.as_bytes() {
            let (value, _) = split_word(skip_blanks(after));
            return value.strip_suffix(b",").unwrap_or(value);
        }
        rest = after;
    }
    b""
}
