//! The last line to a client.
ghost use Rattle.std.specs.Prelude.{◌≡◌};
ghost use Rattle.front_run.specs.Promise.{Closes, closing_text};

use dialogue::{Dialogue, FailedDevice};
use front_lines::FrontStop;

/// The last line to a client.
#[derive(Clone, Copy, PartialEq, Eq)]
pub enum Closing {
    /// There is none: it has said all, or can't be written to.
    Silent,
    /// Its last line has no end. It was not handed over.
    NoLineEnd,
    /// Its last netlist has no end. Nothing of it was handed over.
    NoTextEnd,
    /// Requests can't be handed over, or replies can't be read.
    NoService,
    NoMemory,
}

impl Closing {
    /// The line, with its LF.
    pub fn text(self) -> &'static [u8]
        ensures { result.now ≡ closing_text self }
    {
        match self {
            Closing::Silent => b"",
            Closing::NoLineEnd => b"front: a line without its end is dropped\n",
            Closing::NoTextEnd => b"front: a netlist without its end is dropped\n",
            Closing::NoService => b"front: the service does not answer\n",
            Closing::NoMemory => b"front: out of memory\n",
        }
    }
}

/// Writes it to the client.
pub(crate) fn write_last<D: Dialogue>(client: &mut D, closing: Closing) -> Result<(), FailedDevice>
    ensures { Closes (D.view client.old).output (D.view client.new).output }
{
    client.write(closing.text())
}

/// The last line to a client that was served so, whose last line has no end if it is not empty.
pub(crate) fn closing_of(end: Result<(), FrontStop>, last_line: &[u8], is_within: bool) -> Closing {
    match end {
        Ok(()) if !last_line.is_empty() => Closing::NoLineEnd,
        Ok(()) if is_within => Closing::NoTextEnd,
        Ok(()) | Err(FrontStop::Input | FrontStop::Output) => Closing::Silent,
        Err(FrontStop::Requests | FrontStop::Replies) => Closing::NoService,
        Err(FrontStop::NoMemory) => Closing::NoMemory,
    }
}
