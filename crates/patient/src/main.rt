//! The program: serves the script on standard input with the calls that the service's program
//! makes, and repeats each line and each step for which memory ran out. So its output doesn't
//! depend on which allocation is refused.
//!
//! The device has one column, one row and two tracks. The operator's lines `admit`, `evict`,
//! `owners`, `step`, `take` and `put` are served. If anything else goes wrong, nothing is written
//! and the status is 1.
#![tactic(auto)]

ghost use Rattle.std.specs.Prelude.{◌<◌, IfSome};

mod again;
mod held;
mod patient;
mod section;
mod start;

use crate::patient::told_by;
use line_text::{Source, StdSink, StdSource, write_all};
use std::io;
use std::process::ExitCode;

/// A script has fewer bytes than this.
const MOST: usize = 4096;

fn main(rt: HostRuntime) -> ExitCode {
    let mut room = [0u8; MOST];
    let Some(length) = read_script(&mut StdSource::new(rt.reader()), &mut room) else {
        return ExitCode::from(1);
    };
    let Some(told) = told_by(rt.alloc(), &room[..length]) else {
        return ExitCode::from(1);
    };
    let written = write_all(&mut StdSink::new(io::writer(&rt)), told.as_slice());
    drop(told);
    match written {
        Ok(()) => ExitCode::SUCCESS,
        Err(_) => ExitCode::from(1),
    }
}

/// Reads a script into the buffer, and returns its length, if it is shorter than the buffer.
fn read_script<S: Source>(source: &mut S, room: &mut [u8; MOST]) -> Option<usize>
    ensures { IfSome result (λ count. count < 4096) }
{
    let mut length = 0;
    for _ in 0..MOST {
        if length >= MOST {
            return None;
        }
        let count = source.read(&mut room[length..]).ok()?;
        if count == 0 {
            return Some(length);
        }
        length += count;
    }
    None
}
