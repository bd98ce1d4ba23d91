//! Files in replies.
ghost use Rattle.std.specs.Prelude.{◌≡◌, option_map};
ghost use Rattle.printed_replies.specs.Files.{file_in};

use crate::length::{line_length, told_file};

/// Returns the file of that kind in a reply: the bytes after its first line. `None` if the reply is
/// no such file.
pub fn file_in<'p>(kind: &[u8], reply: &'p [u8]) -> Option<&'p [u8]>
    ensures { option_map (λ file. file.now) result ≡ file_in kind.now reply.now }
{
    let line = line_length(reply)?;
    let (told, _) = told_file(&reply[..line - 1])?;
    if told == kind {
        Some(&reply[line..])
    } else {
        None
    }
}
