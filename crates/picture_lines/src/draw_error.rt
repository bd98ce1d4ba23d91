//! Why a picture was not drawn.
ghost use Rattle.std.specs.Prelude.{◌≡◌};
ghost use Rattle.picture_lines.specs.declared.draw_error.DrawError.TheVariants.{NoMemory};

use line_text::Failed;
use std::alloc::AllocError;

/// Why no picture was drawn, or not all of it.
#[derive(Clone, Copy, PartialEq, Eq)]
pub enum DrawError {
    /// Memory ran out. Nothing was written.
    NoMemory,
    /// The sink failed. It has taken a first part of the picture.
    Failed,
}

impl From<AllocError> for DrawError {
    fn from(_error: AllocError) -> Self
        ensures { result ≡ NoMemory }
    {
        DrawError::NoMemory
    }
}

impl From<Failed> for DrawError {
    fn from(_failed: Failed) -> Self {
        DrawError::Failed
    }
}
