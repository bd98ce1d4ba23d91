//! Texts of files.
use crate::outcome::Outcome;
use crate::paths::{FileRole, read_file, write_path};
use line_text::Sink;
use std::rt::Files;

/// Files that are read by their paths.
pub trait FileTexts {
    ghost use Rattle.std.specs.Prelude.{ℕ, List, Option, IfErr, IfOk};
    ghost use Rattle.desk_common.specs.Outcomes.{IsFileFailure};
    ghost use Rattle.desk_common.specs.Outputs.{IsBeginning};

    // The text of the file with this path, if it is known.
    ghost text: { Self → List ℕ → Option (List ℕ) };

    // What is known of a path whose file could not be read or written. Only a failure says it.
    ghost fails: { Self → List ℕ → Type 0 };

    /// Reads a file, up to `most` bytes. If it can't be read, the path and the reason are written
    /// to the teller.
    fn read_text<E: Sink>(
        &self,
        role: FileRole,
        path: &str,
        most: u64,
        teller: &mut E,
    ) -> Result<Vec<u8>, Outcome>
        ensures read { IfOk result (λ bytes.
            IsBeginning (text self.now path.now) most bytes.items) }
        ensures failed { IfErr result (IsFileFailure role (fails self.now path.now)) };

    /// Writes the file of that path, in place of one that is there. If it can't be written, the
    /// path and the reason are written to the teller, and what was there stays.
    fn write_text<E: Sink>(
        &self,
        role: FileRole,
        path: &str,
        bytes: &[u8],
        teller: &mut E,
    ) -> Result<(), Outcome>
        ensures { IfErr result (IsFileFailure role (fails self.now path.now)) };
}

/// The texts of the system's files are not known, nor why one fails.
impl<H: Files + AllocGlobal> FileTexts for H {
    ghost use Rattle.std.specs.Prelude.{None, ⊤};

    ghost text = { λ _ _. None };

    ghost fails = { λ _ _. ⊤ };

    fn read_text<E: Sink>(
        &self,
        role: FileRole,
        path: &str,
        most: u64,
        teller: &mut E,
    ) -> Result<Vec<u8>, Outcome> {
        read_file(self, role, path, most, teller)
    }

    fn write_text<E: Sink>(
        &self,
        role: FileRole,
        path: &str,
        bytes: &[u8],
        teller: &mut E,
    ) -> Result<(), Outcome> {
        write_path(self, role, path, bytes, teller)
    }
}
