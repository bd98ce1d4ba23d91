//! How a row is run, and what is compared.
use crate::client::{Client, Replies, ReplySink, ReplyText};
use crate::difference::first_difference;
use crate::ended::{Ended, ended_by};
use crate::row::Row;
use crate::verdict::Verdict;
use desk::Streams;
use line_text::{MemorySink, MemorySource, ReadError, StdSource, read_all, write_slices};
use live_run::{LockLog, NO_END};
use live_threads::ProgramRun;
use std::alloc::{AllocError, AllocGlobal, Global};
use std::fs::File;
use std::io::{Eprint, Read};
use std::rt::Files;
use std::sync::Wait;
use std::thread::Threads;
use std::time::Clock;

/// Runs a row as the program that it names does, and compares the result with the row's files.
pub(crate) fn verdict_on<H: Files + Threads + Wait + Clock + AllocGlobal + Eprint + Sync>(
    rt: &H,
    row: Row<'_>,
) -> Result<Verdict, AllocError>
where
    H::File: LockLog + Send,
{
    let words = words(rt.alloc(), row.words)?;
    let ended = run_words(rt, row.name, words.as_slice());
    drop(words);
    let ended = ended?;
    let verdict = verdict_of(rt, row, &ended);
    drop(ended);
    verdict
}

/// Runs the program that the first word names, on the row's input.
fn run_words<H: Files + Threads + Wait + Clock + AllocGlobal + Eprint + Sync>(
    rt: &H,
    name: &str,
    words: &[&str],
) -> Result<Ended, AllocError>
where
    H::File: LockLog + Send,
{
    if let ["cmp", left, right] = words {
        return compare_files(rt, left, right);
    }
    let input = row_file(rt, name, "script")?;
    let ended = run_program(rt, words, input.as_slice());
    drop(input);
    ended
}

/// Runs the program that the first word names, on that input.
fn run_program<H: Files + Threads + Wait + Clock + AllocGlobal + Eprint + Sync>(
    rt: &H,
    words: &[&str],
    input: &[u8],
) -> Result<Ended, AllocError>
where
    H::File: LockLog + Send,
{
    match words.first() {
        Some(&"fpgad_desk") => run_tool(rt, words, input),
        Some(&"fpgad_live") => run_live(rt, words, input),
        _ => run_script(rt, words, input),
    }
}

/// Runs a script as the service does under these words.
fn run_script<H: Files + Threads + Wait + Clock + AllocGlobal + Sync>(
    rt: &H,
    words: &[&str],
    script: &[u8],
) -> Result<Ended, AllocError> {
    let mut reader = MemorySource::new(script);
    let mut writer = MemorySink::new(rt.alloc());
    let outcome = promises::run_words(rt, words, &mut reader, &mut writer);
    let status = match &outcome {
        Ok(outcome) => outcome.status(),
        Err(_) => 2,
    };
    ended_by(
        rt.alloc(),
        writer.into_bytes(),
        MemorySink::new(rt.alloc()),
        status,
        outcome,
    )
}

/// Serves the lines of a client as the live service does under these words.
fn run_live<H: Files + Threads + Wait + Clock + AllocGlobal + Eprint + Sync>(
    rt: &H,
    words: &[&str],
    lines: &[u8],
) -> Result<Ended, AllocError>
where
    H::File: LockLog + Send,
{
    let replies = Replies::new(rt.alloc());
    let reader = Client::new(rt, &replies, lines);
    let writer = ReplySink::new(rt, &replies);
    let ProgramRun {
        outcome,
        connection,
        devices,
    } = live_threads::run_words(rt, words, reader, writer);
    drop((connection, devices));
    let ReplyText {
        bytes,
        is_whole,
        ..
    } = replies.into_text();
    let status = match &outcome {
        Ok(outcome) => outcome.status(),
        Err(_) => 2,
    };
    let mut teller = MemorySink::new(rt.alloc());
    tell_of_end(&mut teller, lines);
    let mut ended = ended_by(rt.alloc(), bytes, teller, status, outcome)?;
    ended.is_whole = is_whole;
    Ok(ended)
}

/// Writes what the program tells of a last line without its end, if its input has one.
fn tell_of_end(teller: &mut MemorySink, input: &[u8]) {
    match input.last() {
        Some(byte) if *byte != b'\n' => {
            let _ = write_slices(teller, &[NO_END.as_bytes(), b"\n"]);
        }
        _ => {}
    }
}

/// Runs the desk with these words.
fn run_tool<H: Files + AllocGlobal>(
    rt: &H,
    words: &[&str],
    input: &[u8],
) -> Result<Ended, AllocError> {
    let mut reader = MemorySource::new(input);
    let mut writer = MemorySink::new(rt.alloc());
    let mut teller = MemorySink::new(rt.alloc());
    let streams = Streams {
        reader: &mut reader,
        writer: &mut writer,
        teller: &mut teller,
        is_terminal: false,
        built_from: "",
    };
    let outcome = desk::run_words(rt, words, streams);
    let status = match &outcome {
        Ok(outcome) => outcome.status(),
        Err(_) => 2,
    };
    ended_by(rt.alloc(), writer.into_bytes(), teller, status, outcome)
}

/// Compares two files: the status is 0 if they have equal bytes.
fn compare_files<H: Files + AllocGlobal>(
    rt: &H,
    left: &str,
    right: &str,
) -> Result<Ended, AllocError> {
    let bytes = bytes_of(rt, left)?;
    let difference = difference_from(bytes.as_slice(), bytes_of(rt, right));
    drop(bytes);
    Ok(Ended::silent_end(rt.alloc(), difference?.is_none()))
}

/// The words of a command line.
fn words<'a>(alloc: Global, text: &'a str) -> Result<Vec<&'a str>, AllocError> {
    let mut words = Vec::new(alloc);
    for word in text.split_ascii_whitespace() {
        words.push(word)?;
    }
    Ok(words)
}

/// Compares the result of a row with what it must be.
fn verdict_of<H: Files + AllocGlobal>(
    rt: &H,
    row: Row<'_>,
    ended: &Ended,
) -> Result<Verdict, AllocError> {
    if u32::from(ended.status) != row.status {
        return Ok(Verdict::EndsWith(ended.status));
    }
    let expected = row_file(rt, row.name, "stdout");
    if let Some(byte) = difference_from(ended.written.as_slice(), expected)? {
        return Ok(Verdict::WritesOther(byte));
    }
    if !ended.is_whole {
        return Ok(Verdict::WritesParts);
    }
    let expected = row_file(rt, row.name, "stderr");
    if let Some(byte) = difference_from(ended.told.as_slice(), expected)? {
        return Ok(Verdict::TellsOther(byte));
    }
    Ok(Verdict::Agrees)
}

/// The index at which bytes differ from the expected ones.
fn difference_from(
    bytes: &[u8],
    expected: Result<Vec<u8>, AllocError>,
) -> Result<Option<usize>, AllocError> {
    let expected = expected?;
    let difference = first_difference(bytes, expected.as_slice());
    drop(expected);
    Ok(difference)
}

/// The bytes of a row's file.
fn row_file<H: Files + AllocGlobal>(rt: &H, name: &str, kind: &str) -> Result<Vec<u8>, AllocError> {
    let path = format!(in rt.alloc(); "{name}.{kind}")?;
    let bytes = bytes_of(rt, path.as_str());
    drop(path);
    bytes
}

/// The bytes of a file; empty if there is no such file.
fn bytes_of<H: Files + AllocGlobal>(rt: &H, path: &str) -> Result<Vec<u8>, AllocError> {
    match File::open(rt, path) {
        Ok(file) => bytes_in(rt.alloc(), file),
        Err(_) => Ok(Vec::new(rt.alloc())),
    }
}

/// The bytes of a file; empty if it can't be read.
fn bytes_in<F: Read + Drop>(alloc: Global, file: F) -> Result<Vec<u8>, AllocError> {
    match read_all(alloc, &mut StdSource::new(file)) {
        Ok(bytes) => Ok(bytes),
        Err(ReadError::NoMemory) => Err(AllocError),
        Err(ReadError::Failed) => Ok(Vec::new(alloc)),
    }
}
