//! The architecture that a command line gives.
use fpgad_run::Architecture;
use line_text::{MAX_TEXT, ReadError, StdSource, read_all};
use std::alloc::AllocError;
use std::fs::File;
use std::io::Read;
use std::rt::Files;

/// Where the architecture is, with its text if it is in a file.
#[derive(Drop)]
pub(crate) enum GivenArchitecture {
    /// At the script's head.
    InScript,
    /// The text of its file is this.
    Text(Vec<u8>),
    /// Its file can't be read.
    Unreadable,
}

impl GivenArchitecture {
    ghost use Rattle.std.specs.Prelude.{IfOk};
    ghost use Rattle.promises.specs.Given.{IsGivenBy, IsThere};

    /// The architecture in the file with that path, or at the script's head if there is no path. An
    /// error if memory runs out.
    pub(crate) fn read<H: Files + AllocGlobal>(
        rt: &H,
        path: Option<&str>,
    ) -> Result<Self, AllocError>
        ensures { IfOk result (IsGivenBy path.entry) }
    {
        let Some(path) = path else {
            return Ok(GivenArchitecture::InScript);
        };
        match read_architecture(rt, path) {
            Ok(text) => Ok(GivenArchitecture::Text(text)),
            Err(ReadError::Failed) => Ok(GivenArchitecture::Unreadable),
            Err(ReadError::NoMemory) => Err(AllocError),
        }
    }

    /// Where the architecture is.
    pub(crate) fn architecture(&self) -> Architecture<'_>
        ensures { IsThere self.now result }
    {
        match self {
            GivenArchitecture::InScript => Architecture::InScript,
            GivenArchitecture::Text(text) => Architecture::Text(text.as_slice()),
            GivenArchitecture::Unreadable => Architecture::Unreadable,
        }
    }
}

/// The text of the architecture's file. Of a file that is longer than a text may be, the first byte
/// above that is the last that is read: it is refused whatever else it holds. The file is closed
/// again, so that its number is never taken for standard input's.
fn read_architecture<H: Files + AllocGlobal>(rt: &H, path: &str) -> Result<Vec<u8>, ReadError> {
    match File::open(rt, path) {
        Ok(file) => read_all(
            rt.alloc(),
            &mut StdSource::new(file.take(MAX_TEXT as u64 + 1)),
        ),
        Err(_) => Err(ReadError::Failed),
    }
}
