//! Who speaks through a front.
ghost use Rattle.std.specs.Prelude.{◌≡◌, ◌++◌, IfOk, OnOk};
ghost use Rattle.front_lines.specs.Speakers.{is_first, is_last, is_mark, mark_line, with_marks, told_after, own_line, tag_in};

use std::alloc::{AllocError, Global};
use tagged_lines::{push_line, split_tag};

/// The tag of the operator's lines.
const OPERATOR: &[u8] = b"op";

/// Who speaks through a front. No other front has the same tag, or the same id.
#[derive(Drop)]
pub enum Speaker {
    /// A tenant, with the tag `@NAME/ID`.
    Tenant(Vec<u8>),
    /// The operator, with the id of the connection. The replies to his lines have no id: so a line
    /// `op echo ID begins` goes before each of his lines, and a line `op echo ID ends` comes after
    /// it. What is answered between these two is his reply.
    Operator(Vec<u8>),
}

impl Speaker {
    /// The tag of each line that is handed over.
    pub(crate) fn tag(&self) -> &[u8]
        ensures { result.now ≡ tag_in self.now }
    {
        match self {
            Speaker::Tenant(tag) => tag,
            Speaker::Operator(_) => OPERATOR,
        }
    }

    /// What is handed over for a command, without tags.
    pub(crate) fn with_marks(&self, alloc: Global, command: &[u8]) -> Result<Vec<u8>, AllocError>
        ensures { IfOk result (λ text. text.items ≡ with_marks self.now command.now) }
    {
        match self {
            Speaker::Tenant(_) => Vec::from_slice(alloc, command),
            Speaker::Operator(id) => {
                let mut text = Vec::new(alloc);
                push_mark(&mut text, id, b" begins\n")?;
                text.extend_from_slice(command)?;
                push_mark(&mut text, id, b" ends\n")?;
                Ok(text)
            }
        }
    }

    /// Notes what a line of the service's output says to the client. Returns whether the reply is
    /// whole then.
    pub(crate) fn note_line(&self, reply: &mut Vec<u8>, line: &[u8]) -> Result<bool, AllocError>
        ensures text { OnOk result (reply.new.items ≡ told_after self.now reply.old.items line.now) }
        ensures last { IfOk result (λ is_whole. is_whole ≡ is_last self.now line.now) }
    {
        if self.is_first(line) {
            reply.clear();
        } else {
            self.push_own(reply, line)?;
        }
        Ok(self.is_last(line))
    }

    /// Whether a reply begins after a line of the service's output.
    fn is_first(&self, line: &[u8]) -> bool
        ensures { result ≡ is_first self.now line.now }
    {
        match self {
            Speaker::Tenant(_) => false,
            Speaker::Operator(id) => is_mark(id, b"begins", line),
        }
    }

    /// Whether a reply ends with a line of the service's output.
    fn is_last(&self, line: &[u8]) -> bool
        ensures { result ≡ is_last self.now line.now }
    {
        match self {
            Speaker::Tenant(tag) => {
                let (word, rest) = split_tag(line);
                word == b"done".as_slice() && rest == tag.as_slice()
            }
            Speaker::Operator(id) => is_mark(id, b"ends", line),
        }
    }

    /// Appends what a line of the service's output says to the client.
    fn push_own(&self, reply: &mut Vec<u8>, line: &[u8]) -> Result<(), AllocError>
        ensures { OnOk result (reply.new.items ≡ reply.old.items ++ own_line self.now line.now) }
    {
        let (word, rest) = split_tag(line);
        match self {
            Speaker::Tenant(tag) if word == tag.as_slice() => push_line(reply, rest),
            Speaker::Tenant(_) => Ok(()),
            Speaker::Operator(id) if is_mark(id, b"ends", line) => Ok(()),
            Speaker::Operator(_) if word == OPERATOR => push_line(reply, rest),
            Speaker::Operator(_) if word == b"?".as_slice() => push_line(reply, line),
            Speaker::Operator(_) => Ok(()),
        }
    }
}

/// Appends what the operator says to mark a place: `echo`, the id, and the words and LF after it.
fn push_mark(text: &mut Vec<u8>, id: &[u8], words: &[u8]) -> Result<(), AllocError>
    ensures { OnOk result (text.new.items ≡ text.old.items ++ mark_line id.now words.now) }
{
    text.extend_from_slice(b"echo ")?;
    text.extend_from_slice(id)?;
    text.extend_from_slice(words)?;
    Ok(())
}

/// Whether a line of the service's output is the reply to such a mark.
fn is_mark(id: &[u8], word: &[u8], line: &[u8]) -> bool
    ensures { result ≡ is_mark id.now word.now line.now }
{
    let (tag, rest) = split_tag(line);
    let (own, mark) = split_tag(rest);
    tag == OPERATOR && own == id && mark == word
}
