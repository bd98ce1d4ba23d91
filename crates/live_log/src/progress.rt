//! How far the lines of a long log are answered.
use itoa::Buffer;
use line_text::{Failed, Sink, write_slices};

/// A word is written each time that this many more lines are answered.
const EACH: u64 = 100_000;

/// The number of lines of a log of which each has its end.
pub(crate) fn count_lines(log: &[u8]) -> u64 {
    log.iter().filter(|byte| **byte == b'\n').count() as u64
}

/// Writes how many of all lines are answered, after each 100,000 lines. That it can't be written is
/// no failure.
pub(crate) fn tell_progress<E: Sink>(teller: &mut E, number: u64, all: u64) {
    if number % EACH == 0 && number < all {
        let _ = write_progress(teller, number, all);
    }
}

fn write_progress<E: Sink>(teller: &mut E, number: u64, all: u64) -> Result<(), Failed> {
    let mut digits = Buffer::new();
    let mut all_digits = Buffer::new();
    let number = digits.format(number).as_bytes();
    let all = all_digits.format(all).as_bytes();
    write_slices(teller, &[b"log: ", number, b" of ", all, b" lines\n"])
}
