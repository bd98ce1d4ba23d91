//! A dialogue.
ghost use Rattle.dialogue.specs.History.{Reads, Writes};

/// Which device of a dialogue failed.
#[derive(Clone, Copy, PartialEq, Eq)]
pub enum FailedDevice {
    Input,
    Log,
    Output,
}

/// An input that is kept before it is used, and an output.
pub trait Dialogue {
    ghost use Rattle.dialogue.specs.History.{View};

    // What one sees of it.
    ghost view: { Self → View };

    /// Reads bytes of the input into the front of the buffer, keeps them, and returns their number.
    /// 0 for a buffer that is not empty means the end.
    ///
    /// # Errors
    /// The device that failed, the input or the log. A log that failed has kept a beginning of the
    /// bytes.
    fn read(&mut self, buffer: &mut [u8]) -> Result<usize, FailedDevice>
        ensures { Reads (view self.old) (view self.new) buffer.new result };

    /// Writes all of the bytes to the output.
    ///
    /// # Errors
    /// The device that failed. The output has then taken a beginning of the bytes.
    fn write(&mut self, bytes: &[u8]) -> Result<(), FailedDevice>
        ensures { Writes (view self.old) (view self.new) bytes.now result };
}
