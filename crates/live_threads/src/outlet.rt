//! Where a service keeps its lines and tells its replies.
ghost use Rattle.std.specs.Prelude.{◌≡◌};
ghost use Rattle.live_threads.specs.Outlet.{Keeps, Tells};

use dialogue::{FailedDevice, Log};
use line_text::{Sink, write_all};

/// A log, if there is one, and an output.
pub trait Outlet {
    ghost use Rattle.dialogue.specs.History.{View};

    // What one sees of it.
    ghost view: { Self → View };

    /// Whether there is a log.
    fn has_log(&self) -> bool
        ensures { result ≡ (view self.now).has_log };

    /// Keeps the bytes on the log, if there is one. Once it returns, they are kept whatever becomes
    /// of the program.
    ///
    /// # Errors
    /// `Log` if the log fails. It has then kept a beginning of the bytes.
    fn keep(&mut self, bytes: &[u8]) -> Result<(), FailedDevice>
        ensures { Keeps (view self.old) (view self.new) bytes.now result };

    /// Writes all of the bytes to the output.
    ///
    /// # Errors
    /// `Output` if the output fails. It has then taken a beginning of the bytes.
    fn tell(&mut self, bytes: &[u8]) -> Result<(), FailedDevice>
        ensures { Tells (view self.old) (view self.new) bytes.now result };
}

/// A sink, and a log if there is one.
#[derive(Drop)]
pub struct Devices<W: Sink + Drop, L: Log + Drop> {
    pub writer: W,
    pub log: Option<L>,
}

impl<W: Sink + Drop, L: Log + Drop> Outlet for Devices<W, L> {
    ghost use Rattle.live_threads.specs.Outlet.{view_of};

    ghost view = { λ d. view_of W.contents W.has_failed L.kept L.has_failed d };

    fn has_log(&self) -> bool {
        self.log.is_some()
    }

    fn keep(&mut self, bytes: &[u8]) -> Result<(), FailedDevice> {
        if bytes.is_empty() {
            return Ok(());
        }
        match &mut self.log {
            Some(log) => match log.keep(bytes) {
                Ok(()) => Ok(()),
                Err(_) => Err(FailedDevice::Log),
            },
            None => Ok(()),
        }
    }

    fn tell(&mut self, bytes: &[u8]) -> Result<(), FailedDevice> {
        match write_all(&mut self.writer, bytes) {
            Ok(()) => Ok(()),
            Err(_) => Err(FailedDevice::Output),
        }
    }
}
