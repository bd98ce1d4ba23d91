//! What is made of the three files of a routed netlist: a picture, a page, a check, and the
//! configuration.
ghost use Rattle.std.specs.Prelude.{◌≡◌, ℕ, List, [], ◌∷◌, Some, Ok, codes, IfOk, MatchResult};
ghost use Rattle.desk_netlists.specs.Prelude.{configuration_text, AreAdded, JoinedLine, lines_of, TakesAll};
ghost use Rattle.desk_netlists.specs.Written.{AreExtras, IsCheckedExtra, IsConfigured, IsExtra, of_kind};

use crate::page_file::write_netlist_page;
use crate::route_job::RouteJob;
use crate::route_wishes::Extras;
use crate::routed_table::Routed;
use crate::saved_files::new_file;
use configuration_text::{Design, Unwritten, write_configuration};
use desk_common::{FileOutputs, Outcome};
use layout_check::Wrong;
use layout_verdict::{LaidCircuit, LayoutTexts, StripShape, Verdict, verdict_of};
use layout_words::{Subject, write_wrong};
use line_text::{Lines, MAX_TEXT, MemorySink, Sink, TextError, logical_lines, write_all};
use std::alloc::Global;
use strip_files::{StripTexts, read_strip};
use strip_picture::{DrawError, View, draw};

/// Writes the files that are asked for beside the three of a routed netlist, and prints the verdict
/// on these if it is asked for.
pub(crate) fn write_extra_files<O: FileOutputs, W: Sink, E: Sink>(
    alloc: Global,
    outputs: &mut O,
    job: RouteJob<'_>,
    routed: Routed<'_>,
    writer: &mut W,
    teller: &mut E,
) -> Result<(), Outcome>
    ensures { IfOk result (λ _. AreExtras job.entry routed.entry (O.written outputs.old)
        (O.written outputs.new)) }
{
    save_picture(alloc, outputs, job, routed, teller)?;
    save_page(alloc, outputs, job, routed, teller)?;
    check_routed(alloc, outputs, job, routed, teller)?;
    print_verdict(job, writer)?;
    Ok(())
}

/// Prints that the files of a routed netlist implement it, if that is asked for.
fn print_verdict<W: Sink>(job: RouteJob<'_>, writer: &mut W) -> Result<(), Outcome> {
    if !job.wishes.extras.has_verdict {
        return Ok(());
    }
    match write_all(writer, b"implements\n") {
        Ok(()) => Ok(()),
        Err(_) => Err(Outcome::OutputFailed),
    }
}

/// Writes a picture of a routed netlist, if it is asked for.
fn save_picture<O: FileOutputs, E: Sink>(
    alloc: Global,
    outputs: &mut O,
    job: RouteJob<'_>,
    routed: Routed<'_>,
    teller: &mut E,
) -> Result<(), Outcome>
    ensures { IfOk result (λ _. IsExtra job.entry (codes "svg")
        job.entry.wishes.extras.has_picture (O.written outputs.old) (O.written outputs.new)) }
{
    if !job.wishes.extras.has_picture {
        return Ok(());
    }
    let mut sink = MemorySink::new(alloc);
    let drawn = draw_routed(alloc, routed.texts, &mut sink);
    save(outputs, job, "svg", drawn, sink, teller)
}

/// Writes the page of a routed netlist, if it is asked for.
fn save_page<O: FileOutputs, E: Sink>(
    alloc: Global,
    outputs: &mut O,
    job: RouteJob<'_>,
    routed: Routed<'_>,
    teller: &mut E,
) -> Result<(), Outcome>
    ensures { IfOk result (λ _. IsExtra job.entry (codes "html")
        job.entry.wishes.extras.has_page (O.written outputs.old) (O.written outputs.new)) }
{
    if !job.wishes.extras.has_page {
        return Ok(());
    }
    let mut sink = MemorySink::new(alloc);
    let made = write_netlist_page(alloc, routed, &mut sink);
    save(outputs, job, "html", made, sink, teller)
}

/// Writes a file of that kind with the bytes that were made, unless making them failed.
fn save<O: FileOutputs, E: Sink>(
    outputs: &mut O,
    job: RouteJob<'_>,
    kind: &'static str,
    made: Result<(), Outcome>,
    sink: MemorySink,
    teller: &mut E,
) -> Result<(), Outcome>
    ensures { (text : List ℕ) → ⟦<MemorySink as Sink>⟧.contents sink ≡ Some text →
        IfOk result (λ _. MatchResult made (λ _. AreAdded (O.written outputs.old)
        (O.written outputs.new) (of_kind job.entry kind.now text ∷ [])) (λ _. ⊥)) }
{
    made?;
    let new = [new_file(job, kind, sink.as_bytes())];
    outputs.write_files(new.as_slice(), teller)
}

/// Draws a routed netlist, each net in its colour.
fn draw_routed<W: Sink>(
    alloc: Global,
    texts: StripTexts<'_>,
    writer: &mut W,
) -> Result<(), Outcome> {
    let strip = match read_strip(alloc, texts) {
        Ok(strip) => strip,
        Err(TextError::NoMemory) => return Err(Outcome::NoMemory),
        Err(TextError::Fault(fault)) => return Err(Outcome::StripRefused(fault)),
    };
    match draw(alloc, &strip, View::Nets, writer) {
        Ok(()) => Ok(()),
        Err(DrawError::NoMemory | DrawError::Failed) => Err(Outcome::NoMemory),
    }
}

/// Checks the files of a routed netlist if the verdict on them or its configuration is asked for,
/// and writes this one if it is.
fn check_routed<O: FileOutputs, E: Sink>(
    alloc: Global,
    outputs: &mut O,
    job: RouteJob<'_>,
    routed: Routed<'_>,
    teller: &mut E,
) -> Result<(), Outcome>
    ensures { IfOk result (λ _. IsCheckedExtra job.entry routed.entry (O.written outputs.old)
        (O.written outputs.new)) }
{
    let Extras {
        has_configuration,
        has_verdict,
        ..
    } = job.wishes.extras;
    if !has_configuration && !has_verdict {
        return Ok(());
    }
    let size = routed.size;
    let Some(shape) = StripShape::new(size.columns, size.rows, routed.figures.tracks) else {
        return Err(Outcome::NoMemory);
    };
    let texts = LayoutTexts::new(shape, routed.arch, routed.netlist, routed.texts);
    match verdict_of(alloc, &texts) {
        Verdict::Implements(laid) => {
            let saved = save_configuration(alloc, outputs, job, routed, &laid, teller);
            drop(laid);
            saved
        }
        Verdict::Differs(laid, wrong) => Err(told_wrong(laid, wrong, teller)),
        Verdict::ArchRefused(fault) => Err(Outcome::ArchRefused(fault)),
        Verdict::NetlistRefused(_) => Err(Outcome::NetlistRefused),
        Verdict::FilesRefused(fault) => Err(Outcome::LayoutRefused(fault)),
        Verdict::NoMemory => Err(Outcome::NoMemory),
    }
}

/// Writes what is wrong with a layout, and returns how the errand ended.
fn told_wrong<E: Sink>(laid: LaidCircuit, wrong: Wrong, teller: &mut E) -> Outcome {
    let subject = Subject {
        circuit: &laid.circuit,
        arch: &laid.arch,
        layout: &laid.layout,
        rows: laid.strip.rows,
    };
    let _ = write_wrong(teller, subject, &wrong);
    drop(laid);
    Outcome::OtherCircuit
}

/// Writes the configuration of a layout that implements the netlist, if it is asked for.
fn save_configuration<O: FileOutputs, E: Sink>(
    alloc: Global,
    outputs: &mut O,
    job: RouteJob<'_>,
    routed: Routed<'_>,
    laid: &LaidCircuit,
    teller: &mut E,
) -> Result<(), Outcome>
    ensures { IfOk result (λ _. IsConfigured job.entry routed.entry laid.now
        (O.written outputs.old) (O.written outputs.new)) }
{
    if !job.wishes.extras.has_configuration {
        return Ok(());
    }
    let mut sink = MemorySink::new(alloc);
    let made = configure(alloc, routed.netlist, laid, &mut sink);
    save(outputs, job, "configuration", made, sink, teller)
}

/// Writes the configuration of a layout. `netlist` is the text that its circuit was read from.
fn configure<W: Sink>(
    alloc: Global,
    netlist: &[u8],
    laid: &LaidCircuit,
    writer: &mut W,
) -> Result<(), Outcome>
    ensures { IfOk result (λ _. (lines : List JoinedLine) × (lines_of netlist.now ≡ Ok lines)
        × TakesAll W.contents W.has_failed writer.old writer.new
        (configuration_text lines laid.now.circuit laid.now.arch laid.now.strip laid.now.layout)) }
{
    if netlist.len() > MAX_TEXT {
        return Err(Outcome::NoMemory);
    }
    match logical_lines(alloc, netlist) {
        Ok(lines) => { configure_lines(alloc, &lines, laid, writer) }
        Err(_) => Err(Outcome::NoMemory),
    }
}

/// Writes the configuration of the layout of the circuit with these lines.
fn configure_lines<W: Sink>(
    alloc: Global,
    lines: &Lines<'_>,
    laid: &LaidCircuit,
    writer: &mut W,
) -> Result<(), Outcome>
    ensures { IfOk result (λ _. TakesAll W.contents W.has_failed writer.old writer.new
        (configuration_text lines.now laid.now.circuit laid.now.arch laid.now.strip
        laid.now.layout)) }
{
    let design = Design {
        netlist: lines,
        circuit: &laid.circuit,
        arch: &laid.arch,
        strip: laid.strip,
        layout: &laid.layout,
    };
    match write_configuration(alloc, design, writer) {
        Ok(()) => Ok(()),
        Err(Unwritten::NoMemory | Unwritten::SinkFailed) => Err(Outcome::NoMemory),
    }
}
