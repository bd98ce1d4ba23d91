//! Why nothing is handed over.
ghost use Rattle.std.specs.Prelude.{◌≡◌, IfOk};
ghost use Rattle.front_lines.specs.Exchanges.{refusal_text};

use std::alloc::{AllocError, Global};

/// Why nothing of what a client said is handed over.
#[derive(Clone, Copy, PartialEq, Eq)]
pub enum Refusal {
    /// A line outside of netlists has more than [`MAX_COMMAND`](crate::MAX_COMMAND) bytes, or one
    /// of the operator more than [`MAX_OPERATOR`](crate::MAX_OPERATOR).
    LineTooLong,
    /// A netlist has more than [`MAX_TEXT`](crate::MAX_TEXT) bytes.
    TextTooLong,
    /// The line `end` of the operator, which would end the service, and has no reply.
    EndsInput,
}

impl Refusal {
    /// What the client is answered.
    pub(crate) fn text(self, alloc: Global) -> Result<Vec<u8>, AllocError>
        ensures { IfOk result (λ text. text.items ≡ refusal_text self) }
    {
        match self {
            Refusal::LineTooLong => Vec::from_slice(alloc, b"front: the line is too long\n"),
            Refusal::TextTooLong => Vec::from_slice(alloc, b"front: the netlist is too long\n"),
            Refusal::EndsInput => {
                Vec::from_slice(alloc, b"front: say op end to the service itself\n")
            }
        }
    }
}
