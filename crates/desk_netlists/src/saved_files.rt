//! The files of a netlist that are written into the folder that is asked for.
ghost use Rattle.std.specs.Prelude.{◌≡◌, IfOk};
ghost use Rattle.desk_netlists.specs.Prelude.{AreAdded, named};
ghost use Rattle.desk_netlists.specs.Written.{IsLastPart, IsStem, left_files, of_kind, three_files};

use crate::route_job::RouteJob;
use desk_common::{FileOutputs, NewFile, Outcome, ResultFile};
use line_text::Sink;
use one_user::{Files, Unrouted};

/// Writes the three files.
pub(crate) fn save_files<'x, O: FileOutputs, E: Sink>(
    outputs: &mut O,
    job: RouteJob<'x>,
    files: &'x Files,
    teller: &mut E,
) -> Result<(), Outcome>
    ensures { IfOk result (λ _. AreAdded (O.written outputs.old) (O.written outputs.new)
        (three_files job.entry files.now)) }
{
    outputs.make_folder(job.wishes.folder, teller)?;
    let new = [
        new_file(job, "net", files.net.as_bytes()),
        new_file(job, "place", files.places.as_bytes()),
        new_file(job, "route", files.routes.as_bytes()),
    ];
    outputs.write_files(new.as_slice(), teller)
}

/// Writes the two files of a netlist that was left without routes.
pub(crate) fn save_left<'x, O: FileOutputs, E: Sink>(
    outputs: &mut O,
    job: RouteJob<'x>,
    left: &'x Unrouted,
    teller: &mut E,
) -> Result<(), Outcome>
    ensures { IfOk result (λ _. AreAdded (O.written outputs.old) (O.written outputs.new)
        (left_files job.entry left.now)) }
{
    outputs.make_folder(job.wishes.folder, teller)?;
    let new = [
        new_file(job, "net", left.net.as_bytes()),
        new_file(job, "place", left.places.as_bytes()),
    ];
    outputs.write_files(new.as_slice(), teller)
}

/// The netlist's file of that kind, with its bytes.
pub(crate) fn new_file<'x>(job: RouteJob<'x>, kind: &'static str, bytes: &'x [u8]) -> NewFile<'x>
    ensures { named result ≡ of_kind job.entry kind.now bytes.entry.now }
{
    let folder = job.wishes.folder;
    let name = job.name;
    NewFile {
        file: ResultFile { folder, name, kind },
        bytes,
    }
}

/// The name of a file without its folders and the ending `.blif`.
pub(crate) fn stem_of(path: &str) -> &str
    ensures { IsStem path.now result.now }
{
    let name = last_part(path);
    match name.strip_suffix(".blif") {
        Some(stem) => stem,
        None => name,
    }
}

/// What comes after the last slash of a path.
fn last_part(path: &str) -> &str
    ensures { IsLastPart path.now result.now }
{
    match path.rsplit_once('/') {
        Some((_, name)) => name,
        None => path,
    }
}
