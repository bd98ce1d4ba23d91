//! Folders in which tools write files.
use crate::outcome::Outcome;
use crate::paths::{NewFile, ResultFile, make_folder, tell_stale, write_files};
use line_text::Sink;
use std::rt::Files;

/// Folders in which files are written by their names.
pub trait FileOutputs {
    ghost use Rattle.std.specs.Prelude.{◌≡◌, List, Option, IfOk, map};
    ghost use Rattle.desk_common.specs.Outputs.{AreAdded, NamedBytes, named};

    // The files that were written, one after another, if they are known.
    ghost written: { Self → Option (List NamedBytes) };

    /// Makes a folder, if it isn't there. If it can't be made, the path and the reason are written
    /// to the teller.
    fn make_folder<E: Sink>(&mut self, path: &str, teller: &mut E) -> Result<(), Outcome>
        ensures { written self.new ≡ written self.old };

    /// Writes files, in place of those that are there. If one of them can't be written, its path
    /// and the reason are written to the teller, and what was there stays.
    fn write_files<E: Sink>(&mut self, files: &[NewFile<'_>], teller: &mut E) -> Result<(), Outcome>
        ensures { IfOk result (λ _.
            AreAdded (written self.old) (written self.new) (map named files.now)) };

    /// Writes to the teller that a file is left from an earlier run, if it is there.
    fn tell_stale<E: Sink>(&self, file: ResultFile<'_>, teller: &mut E);
}

/// The system's folders. What was written there is not known.
#[derive(Clone, Copy)]
pub struct Folders<'a, H: Files + AllocGlobal> {
    rt: &'a H,
}

impl<'a, H: Files + AllocGlobal> Folders<'a, H> {
    /// The folders of this system.
    pub fn new(rt: &'a H) -> Self {
        Folders { rt }
    }
}

impl<'a, H: Files + AllocGlobal> FileOutputs for Folders<'a, H> {
    ghost use Rattle.std.specs.Prelude.{None};

    ghost written = { λ _. None };

    fn make_folder<E: Sink>(&mut self, path: &str, teller: &mut E) -> Result<(), Outcome> {
        make_folder(self.rt, path, teller)
    }

    fn write_files<E: Sink>(
        &mut self,
        files: &[NewFile<'_>],
        teller: &mut E,
    ) -> Result<(), Outcome> {
        write_files(self.rt, files, teller)
    }

    fn tell_stale<E: Sink>(&self, file: ResultFile<'_>, teller: &mut E) {
        tell_stale(self.rt, file, teller);
    }
}
