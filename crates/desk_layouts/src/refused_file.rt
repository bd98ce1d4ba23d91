//! The file of a layout that is refused.
use crate::given_files::GivenFiles;
use crate::layout_input::LayoutPaths;
use desk_common::Outcome;
use layout_files::LayoutFault;
use layout_verdict::LaidCircuit;
use line_text::{Sink, split_line};
use strip_files::File;
use text_parts::{Part, write_parts};

/// If a file is refused, writes its path, as which of the three files it is read, and the cause if
/// it shows: lines that end with CR, or a file of another kind.
pub(crate) fn tell_file<E: Sink>(
    paths: LayoutPaths<'_>,
    given: &GivenFiles,
    laid: &Result<LaidCircuit, Outcome>,
    teller: &mut E,
) {
    let Err(Outcome::LayoutRefused(LayoutFault::Line(fault))) = laid else {
        return;
    };
    let (path, text) = match fault.file {
        File::Net => (paths.net, &given.net),
        File::Place => (paths.place, &given.place),
        File::Route => (paths.route, &given.route),
    };
    let (first, _) = split_line(text.as_slice());
    let _ = write_parts(
        teller,
        &[
            Part::Text(path),
            Part::Text(": read as the "),
            Part::Text(kind_of(fault.file)),
            Part::Text(cause_of(first, kind_of(fault.file))),
            Part::Text("\n"),
        ],
    );
}

/// The file in words.
fn kind_of(file: File) -> &'static str {
    match file {
        File::Net => ".net file",
        File::Place => ".place file",
        File::Route => ".route file",
    }
}

/// Why a file with this first line is refused as one of that kind, if the line shows it.
fn cause_of(first: &[u8], kind: &'static str) -> &'static str {
    if first.ends_with(b"\r") {
        return "; its lines end with CR: convert them, as dos2unix does";
    }
    if first.starts_with(b"Netlist file:") && kind != ".place file" {
        return "; it begins as a .place file does: give the .net, the .place and the .route file in this order";
    }
    if first.starts_with(b"Array size:") && kind != ".route file" {
        return "; it begins as a .route file does: give the .net, the .place and the .route file in this order";
    }
    if first.starts_with(b".model") {
        return "; it begins as a netlist does: give the netlist first";
    }
    if first.starts_with(b".") && kind != ".net file" {
        return "; it begins as a .net file does: give the .net, the .place and the .route file in this order";
    }
    ""
}
