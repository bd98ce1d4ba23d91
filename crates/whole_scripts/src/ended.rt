//! How a program ended.
use clap::Error;
use line_text::{MemorySink, write_all};
use std::alloc::{AllocError, Global};
use std::fmt::Display;

/// The output of a run, its messages, and its status.
#[derive(Drop)]
pub(crate) struct Ended {
    pub written: Vec<u8>,
    /// Whether each write of the live service ended a line.
    pub is_whole: bool,
    /// Its messages on standard error.
    pub told: Vec<u8>,
    pub status: u8,
}

impl Ended {
    /// The end of a run without output and messages: its status is 0 or 1.
    pub(crate) fn silent_end(alloc: Global, is_done: bool) -> Self {
        Ended {
            written: Vec::new(alloc),
            is_whole: true,
            told: Vec::new(alloc),
            status: if is_done { 0 } else { 1 },
        }
    }
}

/// The end of a program with that output and those messages, which ends with that status and its
/// last message.
pub(crate) fn ended_by<O: Display + Drop>(
    alloc: Global,
    written: Vec<u8>,
    teller: MemorySink,
    status: u8,
    outcome: Result<O, Error>,
) -> Result<Ended, AllocError> {
    match told_with(alloc, teller, status, outcome) {
        Ok(told) => Ok(Ended {
            written,
            is_whole: true,
            told,
            status,
        }),
        Err(error) => {
            drop(written);
            Err(error)
        }
    }
}

/// The messages, and the last message after them.
fn told_with<O: Display + Drop>(
    alloc: Global,
    teller: MemorySink,
    status: u8,
    outcome: Result<O, Error>,
) -> Result<Vec<u8>, AllocError> {
    let mut teller = teller;
    let message = match message_of(alloc, status, outcome) {
        Ok(message) => message,
        Err(error) => {
            drop(teller);
            return Err(error);
        }
    };
    let told = write_all(&mut teller, message.as_bytes());
    drop(message);
    match told {
        Ok(()) => Ok(teller.into_bytes()),
        Err(_) => {
            drop(teller);
            Err(AllocError)
        }
    }
}

/// The last message of a program: a line if it ends with a status, or why its words are refused.
fn message_of<O: Display + Drop>(
    alloc: Global,
    status: u8,
    outcome: Result<O, Error>,
) -> Result<String, AllocError> {
    match outcome {
        Ok(outcome) if status == 0 => {
            drop(outcome);
            Ok(String::new(alloc))
        }
        Ok(outcome) => format!(in alloc; "{outcome}\n"),
        Err(error) => error.to_string(alloc),
    }
}
