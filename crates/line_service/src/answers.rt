//! A service that answers lines.
ghost use Rattle.std.specs.Prelude.{◌<◌, ◌^◌, length, IfOk, OnOk};

use std::alloc::AllocError;

/// A service that answers lines.
pub trait Answers {
    ghost use Rattle.std.specs.Prelude.{ℕ, List};

    // Whether it can take a line.
    ghost is_ready: { Self → Type 0 };

    // Whether the line of that number can be answered so, and change the service so.
    ghost answers: { Self → ℕ → List ℕ → List ℕ → Self → Type 0 };

    /// Answers the line of that number. The reply may have no byte.
    ///
    /// # Errors
    /// `AllocError` if it runs out of memory. The service takes no line after that.
    fn answer(&mut self, number: u64, line: &[u8]) -> Result<Vec<u8>, AllocError>
        requires short { length line.now < 2 ^ 63 }
        requires ready { is_ready self.old }
        ensures ready { OnOk result (is_ready self.new) }
        ensures answers { IfOk result (λ reply.
            answers self.old number line.now reply.items self.new) };
}
