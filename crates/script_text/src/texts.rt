//! Texts within a script: the lines up to one that is only `.`.
ghost use Rattle.std.specs.Prelude.{◌≡◌, ◌+◌, ◌<◌, ◌^◌, length, IfOk, MatchOption};
ghost use Rattle.script_text.specs.Prelude.{kept_part};
ghost use Rattle.script_text.specs.Cuts.{HasNoEnd, IsCut, IsEnded, without_crs};

use line_text::split_line;
use memchr::memchr;
use sessions::{MAX_KEPT, append_kept, is_point, without_cr};
use std::alloc::{AllocError, Global};

/// A text at the start of a script, cut off.
#[derive(Clone, Copy)]
pub struct Cut<'t> {
    /// The lines of the text.
    pub ahead: &'t [u8],
    /// The number of the line after the one that ends the text.
    pub number: usize,
    /// The script from that line on.
    pub rest: &'t [u8],
}

/// Cuts off the text at the start of these bytes of a script; `None` if no line ends it. The first
/// line has that number.
pub fn cut_text(bytes: &[u8], number: usize) -> Option<Cut<'_>>
    requires { number + length bytes.now < 2 ^ 64 }
    ensures { MatchOption result (HasNoEnd number bytes.now)
        (λ cut. IsCut number bytes.now cut.ahead.now cut.number cut.rest.now) }
{
    let mut rest = bytes;
    let mut number = number;
    while !rest.is_empty() {
        let (line, after) = split_line(rest);
        number += 1;
        if is_point(without_cr(line)) {
            return Some(Cut {
                ahead: &bytes[..bytes.len() - rest.len()],
                number,
                rest: after,
            });
        }
        rest = after;
    }
    None
}

/// The lines of a text without the CRs at their ends, as many as are kept.
pub(crate) fn kept_text(alloc: Global, ahead: &[u8]) -> Result<Vec<u8>, AllocError>
    requires { IsEnded ahead.now }
    ensures { IfOk result (λ text. text.items ≡ kept_part (without_crs ahead.now)) }
{
    if memchr(b'\r', ahead).is_none() {
        return Vec::from_slice(alloc, &ahead[..ahead.len().min(MAX_KEPT)]);
    }
    let mut text = Vec::new(alloc);
    let mut rest = ahead;
    while !rest.is_empty() {
        let (line, after) = split_line(rest);
        append_kept(&mut text, without_cr(line))?;
        append_kept(&mut text, b"\n")?;
        rest = after;
    }
    Ok(text)
}
