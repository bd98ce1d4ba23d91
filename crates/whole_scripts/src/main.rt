//! The program: runs the worked scripts as the service's program and the desk do, and compares the
//! output, the messages and the status of each.
//!
//! Standard input lists the runs, one a line: `NAME STATUS WORDS`. A line that begins with `#` says
//! what the runs below it show. The words are those of a command line: `fpgad WORDS`,
//! `fpgad_live WORDS`, `fpgad_desk WORDS`, or `cmp FILE FILE`, which ends with 0 if the files have
//! equal bytes. A run reads NAME.script; it must end with that status, write NAME.stdout to
//! standard output and NAME.stderr to standard error, byte for byte. A file that does not exist
//! counts as empty. A client of the live service sends a line `# after N lines`, and what follows,
//! once N lines of replies have come in all. Each run that does not agree is printed with what
//! differs, and then `all agree`, or how many don't. The status is 0 if all agree, and 1 if one
//! does not, or if input or output failed.
#![tactic(auto)]

mod client;
mod difference;
mod ended;
mod row;
mod run;
mod verdict;

use crate::row::row_in;
use crate::run::verdict_on;
use crate::verdict::Verdict;
use live_run::LockLog;
use std::alloc::AllocGlobal;
use std::io;
use std::io::{Eprint, Input, Print};
use std::process::ExitCode;
use std::rt::Files;
use std::sync::Wait;
use std::thread::Threads;
use std::time::Clock;

fn main(rt: HostRuntime) -> ExitCode {
    match run_all(&rt) {
        Ok(true) => ExitCode::SUCCESS,
        _ => ExitCode::from(1),
    }
}

/// Runs the lines of standard input, and returns whether all agree.
fn run_all<H: Input + Print + Files + Threads + Wait + Clock + AllocGlobal + Eprint + Sync>(
    rt: &H,
) -> io::Result<bool>
where
    H::File: LockLog + Send,
{
    let mut differing = 0u64;
    for line in rt.lines(rt.alloc()) {
        let line = line?;
        if !line.as_str().starts_with('#') && !agrees(rt, line.as_str())? {
            differing = differing.saturating_add(1);
        }
    }
    if differing == 0 {
        println!(rt; "all agree")?;
    } else {
        println!(rt; "{differing} do not agree")?;
    }
    Ok(differing == 0)
}

/// Runs one line of the list, prints it if it does not agree, and returns whether it does.
fn agrees<H: Print + Files + Threads + Wait + Clock + AllocGlobal + Eprint + Sync>(
    rt: &H,
    line: &str,
) -> io::Result<bool>
where
    H::File: LockLog + Send,
{
    let verdict = match row_in(line) {
        Some(row) => verdict_on(rt, row)?,
        None => Verdict::NoRow,
    };
    if !verdict.agrees() {
        println!(rt; "{line}: {verdict}")?;
    }
    Ok(verdict.agrees())
}
