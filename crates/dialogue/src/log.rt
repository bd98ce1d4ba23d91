//! A device that bytes are kept on.
ghost use Rattle.line_text.specs.Writing.{Writes};

use line_text::Failed;

/// A device that bytes are kept on.
pub trait Log {
    ghost use Rattle.std.specs.Prelude.{ℕ, Bool, List, Option};

    // The bytes that it keeps, if they are known.
    ghost kept: { Self → Option (List ℕ) };

    // Whether the device has failed.
    ghost has_failed: { Self → Bool };

    /// Appends the bytes. Once it returns, they are kept whatever becomes of the program.
    ///
    /// # Errors
    /// `Failed` if the device fails. It has then kept a beginning of the bytes.
    fn keep(&mut self, bytes: &[u8]) -> Result<(), Failed>
        ensures { Writes kept has_failed self.old self.new bytes.now result };
}
