//! Files that tools read and write.
ghost use Rattle.std.specs.Prelude.{◌≡◌, IfErr, ⊤};
ghost use Rattle.desk_common.specs.Outcomes.{IsFileFailure};
ghost use Rattle.desk_common.specs.declared.outcome.Outcome.TheVariants.{FileFailed};

use crate::outcome::Outcome;
use line_text::{ReadError, Sink, StdSource, read_all, write_all, write_slices};
use std::alloc::Global;
use std::fmt;
use std::fs::{self, File};
use std::io::{Error, ErrorKind, Read};
use std::rt::Files;

/// A file that a tool reads or writes, or the folder in which it writes.
#[derive(Clone, Copy)]
pub enum FileRole {
    Architecture,
    Netlist,
    Script,
    Net,
    Places,
    Routes,
    Device,
    Pins,
    Log,
    Verilog,
    Folder,
}

impl fmt::Display for FileRole {
    fn fmt<W: fmt::Write>(&self, f: &mut fmt::Formatter<W>) -> fmt::Result {
        match self {
            FileRole::Architecture => write!(f, "architecture"),
            FileRole::Netlist => write!(f, "netlist"),
            FileRole::Script => write!(f, "script"),
            FileRole::Net => write!(f, ".net file"),
            FileRole::Places => write!(f, ".place file"),
            FileRole::Routes => write!(f, ".route file"),
            FileRole::Device => write!(f, "device file"),
            FileRole::Pins => write!(f, "pin file"),
            FileRole::Log => write!(f, "log"),
            FileRole::Verilog => write!(f, "Verilog file"),
            FileRole::Folder => write!(f, "folder"),
        }
    }
}

/// The contents of a file, up to `most` bytes. If it can't be read, the path and the reason are
/// written to the teller.
pub fn read_file<H: Files + AllocGlobal, E: Sink>(
    rt: &H,
    role: FileRole,
    path: &str,
    most: u64,
    teller: &mut E,
) -> Result<Vec<u8>, Outcome>
    ensures { IfErr result (IsFileFailure role ⊤) }
{
    let file = match File::open(rt, path) {
        Ok(file) => file,
        Err(error) => return Err(told_failed(rt.alloc(), role, path, error, teller)),
    };
    match read_all(rt.alloc(), &mut StdSource::new(file.take(most))) {
        Ok(bytes) => Ok(bytes),
        Err(ReadError::NoMemory) => Err(Outcome::NoMemory),
        Err(ReadError::Failed) => {
            let _ = write_slices(teller, &[path.as_bytes(), b": cannot be read\n"]);
            Err(Outcome::FileFailed(role))
        }
    }
}

/// Writes the path that failed and the system's reason, and returns how the errand ends.
fn told_failed<E: Sink>(
    alloc: Global,
    role: FileRole,
    path: &str,
    error: Error,
    teller: &mut E,
) -> Outcome
    ensures { result ≡ FileFailed role }
{
    if let Ok(line) = format!(in alloc; "{path}: {error}\n") {
        let _ = write_all(teller, line.as_bytes());
    }
    Outcome::FileFailed(role)
}

/// Writes the file of that path, in place of one that is there. It is written as `PATH.part`, and
/// then takes its name. If it can't be written, the path and the reason are written to the teller,
/// what was there stays, and no part is left.
pub fn write_path<H: Files + AllocGlobal, E: Sink>(
    rt: &H,
    role: FileRole,
    path: &str,
    bytes: &[u8],
    teller: &mut E,
) -> Result<(), Outcome>
    ensures { IfErr result (IsFileFailure role ⊤) }
{
    let Ok(part) = format!(in rt.alloc(); "{path}.part") else {
        return Err(Outcome::NoMemory);
    };
    match write_as(rt, part.as_str(), path, bytes) {
        Ok(()) => Ok(()),
        Err(error) => Err(told_failed(rt.alloc(), role, path, error, teller)),
    }
}

/// Writes a file as its part, and gives the part the file's name. If that fails, no part is left.
fn write_as<H: Files>(rt: &H, part: &str, path: &str, bytes: &[u8]) -> Result<(), Error> {
    let mut written = fs::write(rt, part, bytes);
    if written.is_ok() {
        written = fs::rename(rt, part, path);
    }
    if written.is_err() {
        let _ = fs::remove_file(rt, part);
    }
    written
}

/// Makes a folder, if it isn't there. If it can't be made, the path and the reason are written to
/// the teller.
pub fn make_folder<H: Files + AllocGlobal, E: Sink>(
    rt: &H,
    path: &str,
    teller: &mut E,
) -> Result<(), Outcome> {
    match fs::create_dir(rt, path) {
        Ok(()) => Ok(()),
        Err(error) if error.kind() == ErrorKind::AlreadyExists => Ok(()),
        Err(error) => Err(told_failed(rt.alloc(), FileRole::Folder, path, error, teller)),
    }
}

/// A file in a folder, by the name of a tenancy or of a netlist and the kind of file.
#[derive(Clone, Copy)]
pub struct ResultFile<'a> {
    pub folder: &'a str,
    pub name: &'a str,
    pub kind: &'static str,
}

/// A file to write, and its bytes.
#[derive(Clone, Copy)]
pub struct NewFile<'a> {
    pub file: ResultFile<'a>,
    pub bytes: &'a [u8],
}

/// Writes files, in place of those that are there. Each is written as `NAME.KIND.part`, and when
/// all are, they take their names. If one of them can't be written, its path and the reason are
/// written to the teller, what was there stays, and no part is left.
pub fn write_files<H: Files + AllocGlobal, E: Sink>(
    rt: &H,
    files: &[NewFile<'_>],
    teller: &mut E,
) -> Result<(), Outcome> {
    let mut written = write_all_parts(rt, files, teller);
    if written.is_ok() {
        written = name_all_parts(rt, files, teller);
    }
    if written.is_err() {
        remove_parts(rt, files);
    }
    written
}

/// Writes the parts of the files.
fn write_all_parts<H: Files + AllocGlobal, E: Sink>(
    rt: &H,
    files: &[NewFile<'_>],
    teller: &mut E,
) -> Result<(), Outcome> {
    for new in files {
        let part = part_of(rt.alloc(), new.file)?;
        let written = fs::write(rt, part.as_str(), new.bytes);
        told_unless_done(rt, new.file, written, teller)?;
    }
    Ok(())
}

/// Gives the parts of the files their names.
fn name_all_parts<H: Files + AllocGlobal, E: Sink>(
    rt: &H,
    files: &[NewFile<'_>],
    teller: &mut E,
) -> Result<(), Outcome> {
    for new in files {
        let renamed = name_part(rt, new.file)?;
        told_unless_done(rt, new.file, renamed, teller)?;
    }
    Ok(())
}

/// Gives the part of a file its name. The outer error is that memory ran out.
fn name_part<H: Files + AllocGlobal>(
    rt: &H,
    file: ResultFile<'_>,
) -> Result<Result<(), Error>, Outcome> {
    let part = part_of(rt.alloc(), file)?;
    let path = path_of(rt.alloc(), file)?;
    Ok(fs::rename(rt, part.as_str(), path.as_str()))
}

/// Removes the parts that are there.
fn remove_parts<H: Files + AllocGlobal>(rt: &H, files: &[NewFile<'_>]) {
    for new in files {
        if let Ok(part) = part_of(rt.alloc(), new.file) {
            let _ = fs::remove_file(rt, part.as_str());
        }
    }
}

/// If a file could not be written, writes its path and the reason, and returns how the errand ends.
fn told_unless_done<H: Files + AllocGlobal, E: Sink>(
    rt: &H,
    file: ResultFile<'_>,
    done: Result<(), Error>,
    teller: &mut E,
) -> Result<(), Outcome> {
    let Err(error) = done else {
        return Ok(());
    };
    let path = path_of(rt.alloc(), file)?;
    Err(told_failed(rt.alloc(), FileRole::Folder, path.as_str(), error, teller))
}

/// Writes to the teller that a file is left from an earlier run, if it is there.
pub fn tell_stale<H: Files + AllocGlobal, E: Sink>(rt: &H, file: ResultFile<'_>, teller: &mut E) {
    if let Ok(path) = path_of(rt.alloc(), file) {
        if File::open(rt, path.as_str()).is_ok() {
            let _ = write_slices(teller, &[path.as_bytes(), b": left from an earlier run\n"]);
        }
    }
}

/// The path of a file's part. An error if memory runs out.
fn part_of(alloc: Global, file: ResultFile<'_>) -> Result<String, Outcome> {
    let ResultFile { folder, name, kind } = file;
    format!(in alloc; "{folder}/{name}.{kind}.part").or(Err(Outcome::NoMemory))
}

/// The path of a file. An error if memory runs out.
fn path_of(alloc: Global, file: ResultFile<'_>) -> Result<String, Outcome> {
    let ResultFile { folder, name, kind } = file;
    format!(in alloc; "{folder}/{name}.{kind}").or(Err(Outcome::NoMemory))
}
