//! The text of an upload or a change, line by line.
ghost use Rattle.std.specs.Prelude.{◌≡◌, ◌≤◌, ◌++◌, ◌∷◌, [], Some, vec_len, IfOk, OnOk};
ghost use Rattle.sessions.specs.Items.{is_point, kept_part, text_item, without_cr};

use crate::line::{SessionLine, TextKind};
use line_text::Text;
use std::alloc::{AllocError, Global};
use std::marker::Model;
use tenant_slot::SharedText;

/// The number of bytes of a text that are kept, one more than a netlist may have.
pub const MAX_KEPT: usize = 1_048_577;

/// A text whose end isn't read yet. Its value is its command, and the bytes of it that are kept so
/// far.
#[derive(Drop)]
pub struct PendingText {
    kind: TextKind,
    bytes: Vec<u8>,
}

impl Model for PendingText {
    ghost use Rattle.std.specs.Prelude.{◌≤◌, vec_len};
    ghost use Rattle.sessions.specs.Reading.{TextSoFar};
    ghost use Rattle.sessions.specs.declared.pending_text.TheConstants.{MAX_KEPT};

    ghost Value = { TextSoFar };

    ghost view = { λ p. record { kind = p.kind; bytes = p.bytes.items } };

    ghost invariant = { λ p. vec_len p.bytes ≤ MAX_KEPT };
}

impl PendingText {
    /// A text of which nothing is read.
    pub fn new(alloc: Global, kind: TextKind) -> Self
        ensures { result ≡ record { kind = kind; bytes = [] } }
    {
        PendingText {
            kind,
            bytes: Vec::new(alloc),
        }
    }

    /// The text with one more line, without its end, up to the bytes that are kept.
    pub fn with_line(self, line: &[u8]) -> Result<Self, AllocError>
        ensures { IfOk result (λ text.
            text ≡ record {
              kind = self.kind;
              bytes = kept_part (self.bytes ++ line.now
                  ++ 10 ∷ []);
            }) }
    {
        let PendingText { kind, mut bytes } = self;
        append_kept(&mut bytes, line)?;
        append_kept(&mut bytes, b"\n")?;
        Ok(PendingText { kind, bytes })
    }

    /// The command with the text, which is whole.
    pub fn into_line(self, alloc: Global) -> Result<SessionLine, AllocError>
        ensures { IfOk result (λ line. line ≡ text_item self.kind (Some self.bytes)) }
    {
        let PendingText { kind, bytes } = self;
        match SharedText::new(alloc, Text::new(bytes)) {
            Ok(text) => Ok(SessionLine::Command(kind.command(text))),
            Err(_) => Err(AllocError),
        }
    }
}

/// Appends the bytes to a text, up to the bytes that are kept.
pub fn append_kept(text: &mut Vec<u8>, bytes: &[u8]) -> Result<(), AllocError>
    requires { vec_len text.old ≤ MAX_KEPT }
    ensures items { OnOk result (text.new.items ≡ kept_part (text.old.items ++ bytes.now)) }
    ensures within { OnOk result (vec_len text.new ≤ MAX_KEPT) }
{
    let room = MAX_KEPT - text.len();
    if bytes.len() <= room {
        text.extend_from_slice(bytes)
    } else {
        text.extend_from_slice(&bytes[..room])
    }
}

/// A line without the CR at its end.
pub fn without_cr(line: &[u8]) -> &[u8]
    ensures { result.now ≡ without_cr line.now }
{
    if !line.is_empty() && line[line.len() - 1] == b'\r' {
        return &line[..line.len() - 1];
    }
    line
}

/// Whether a line is `.` alone, which ends a text.
pub fn is_point(line: &[u8]) -> bool
    ensures { result ≡ is_point line.now }
{
    line.len() == 1 && line[0] == b'.'
}
