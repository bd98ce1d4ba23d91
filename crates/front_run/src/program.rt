//! A command line, run for one client.
use crate::files::{LockFile, SharedRequests, open_replies, open_requests};
use crate::options::{FrontLine, read_line};
use crate::outcome::Outcome;
use crate::serving::serve;
use clap::Error;
use clap::error::ErrorKind;
use dialogue::{Connection, Dialogue, FileLog, Replay};
use front_lines::{FrontStop, Service};
use line_feed::LineFeed;
use line_text::{Sink, Source, StdSource};
use std::convert::AsStr;
use std::rt::Files;
use std::sync::Wait;
use std::time::Clock;

/// What the program does with its words, the first being its name: serves the client of that reader
/// and writer. An error is clap's: the words are refused, or ask for help.
pub fn run_words<H: Files + Wait + Clock + AllocGlobal, T: AsStr, S: Source + Drop, W: Sink + Drop>(
    rt: &H,
    words: &[T],
    reader: S,
    writer: W,
) -> Result<Outcome, Error>
where
    H::File: LockFile,
{
    match read_line(rt.alloc(), words) {
        Ok(line) => {
            let mut client: Connection<S, W, FileLog<H::File>> = Connection::new(reader, writer);
            let outcome = run_line(rt, line, &mut client);
            drop(client);
            Ok(outcome)
        }
        Err(error) if error.kind() == ErrorKind::OutOfMemory => {
            Ok(Outcome::Stopped(FrontStop::NoMemory))
        }
        Err(error) => Err(error),
    }
}

/// Serves a client as the command line says: opens the files of requests and replies, and calls
/// [`serve`]. Replies that were in their file before are not read.
pub fn run_line<H: Files + Wait + Clock + AllocGlobal, D: Dialogue>(
    rt: &H,
    line: FrontLine<'_>,
    client: &mut D,
) -> Outcome
where
    H::File: LockFile,
{
    let FrontLine {
        speaker,
        requests,
        replies,
        ..
    } = line;
    let Ok(replies) = open_replies(rt, replies) else {
        drop(speaker);
        return Outcome::NoReplies;
    };
    let Ok(requests) = open_requests(rt, requests) else {
        drop((speaker, replies));
        return Outcome::NoRequests;
    };
    let Ok(feed) = LineFeed::new(rt.alloc()) else {
        drop((speaker, replies, requests));
        return Outcome::Stopped(FrontStop::NoMemory);
    };
    let mut service = Service {
        speaker,
        requests,
        replies: Replay::new(StdSource::new(replies)),
        feed,
    };
    let outcome = serve(rt, &mut service, client);
    drop(service);
    outcome
}
