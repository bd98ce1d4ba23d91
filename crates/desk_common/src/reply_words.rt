//! What the service would reply, for standard error.
ghost use Rattle.std.specs.Prelude.{◌≡◌};
ghost use Rattle.desk_common.specs.declared.outcome.Outcome.TheVariants.{NetlistRefused};

use crate::file_lines::write_place;
use crate::outcome::Outcome;
use arch_file::read_arch;
use blif::{BlifFault, BlifFaultKind};
use line_text::{Failed, MemorySink, Sink, split_line, write_all, write_slices};
use script_replies::{Advice, advice_for};
use sessions::write_reply;
use std::alloc::Global;
use tenant_slot::{Refusal, Reply};
use text_parts::{Part, write_parts};

/// The first bytes of a text in UTF-8 that has a byte order mark.
const BYTE_ORDER_MARK: &[u8] = b"\xef\xbb\xbf";

/// A netlist by its path and its text, and the text of the architecture that it is for.
#[derive(Clone, Copy)]
pub struct NetlistSource<'a> {
    pub path: &'a str,
    pub text: &'a [u8],
    pub arch: &'a [u8],
}

/// Writes why the netlist is refused: what the service would reply, and then the path, the line if
/// there is one, and what can be done. Returns how the errand ended.
pub fn told_refused<E: Sink>(
    alloc: Global,
    source: NetlistSource<'_>,
    refusal: Refusal,
    teller: &mut E,
) -> Outcome
    ensures { result ≡ NetlistRefused }
{
    let more = more_of(alloc, source, &refusal);
    let line = match &refusal {
        Refusal::BadBlif(fault) => fault.line,
        _ => 0,
    };
    let mut reply = MemorySink::new(alloc);
    if write_reply(&mut reply, &Reply::Refused(refusal)).is_ok() {
        let _ = write_all(teller, reply.as_bytes());
        let (first, _) = split_line(reply.as_bytes());
        if let Some(advice) = advice_for(false, first) {
            let _ = write_advice(teller, source.path, line, advice, more);
        }
    }
    Outcome::NetlistRefused
}

/// What an advice does not say.
#[derive(Clone, Copy)]
enum More {
    Nothing,
    /// The most inputs of a table.
    Inputs(u32),
    /// The text begins with a byte order mark.
    Mark,
}

/// What an advice on a refusal does not say.
fn more_of(alloc: Global, source: NetlistSource<'_>, refusal: &Refusal) -> More {
    let Refusal::BadBlif(BlifFault { line, kind }) = refusal else {
        return More::Nothing;
    };
    match kind {
        BlifFaultKind::TooWide => match read_arch(alloc, source.arch, 1) {
            Ok(arch) => More::Inputs(arch.lut_size),
            Err(_) => More::Nothing,
        },
        BlifFaultKind::NotAscii if *line == 1 && source.text.starts_with(BYTE_ORDER_MARK) => {
            More::Mark
        }
        _ => More::Nothing,
    }
}

/// Writes the path, the line if it isn't 0, an advice, and what it does not say.
fn write_advice<E: Sink>(
    teller: &mut E,
    path: &str,
    line: u32,
    advice: Advice,
    more: More,
) -> Result<(), Failed> {
    write_place(teller, path, line)?;
    write_parts(teller, &[Part::Text(advice.words())])?;
    match more {
        More::Nothing => write_parts(teller, &[Part::Text("\n")]),
        More::Inputs(inputs) => {
            let parts = [Part::Text(", "), Part::Number(inputs), Part::Text("\n")];
            write_parts(teller, parts.as_slice())
        }
        More::Mark => {
            let words = "; this file begins with a byte order mark: save it without one\n";
            write_parts(teller, &[Part::Text(words)])
        }
    }
}

/// Writes a reply's line and what can be done about it, if that can be written.
pub fn tell_reply<E: Sink>(alloc: Global, reply: Reply, teller: &mut E) {
    let mut line = MemorySink::new(alloc);
    if write_reply(&mut line, &reply).is_ok() {
        let _ = write_all(teller, line.as_bytes());
        let (first, _) = split_line(line.as_bytes());
        if let Some(advice) = advice_for(false, first) {
            let _ = write_slices(teller, &[advice.words().as_bytes(), b"\n"]);
        }
    }
}
