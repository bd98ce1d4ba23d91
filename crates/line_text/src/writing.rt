//! Texts in parts, written to a sink.
ghost use Rattle.std.specs.List.{flat_map};
ghost use Rattle.line_text.specs.Writing.{Writes};

use crate::sink::{Sink, write_all};
use crate::source::Failed;

/// Writes the parts one after another. If the sink fails, it has taken a beginning of them.
pub fn write_slices<W: Sink>(sink: &mut W, parts: &[&[u8]]) -> Result<(), Failed>
    ensures { Writes W.contents W.has_failed sink.old sink.new
        (flat_map (λ part. part.now) parts.now) result }
{
    for part in parts {
        write_all(sink, part)?;
    }
    Ok(())
}
