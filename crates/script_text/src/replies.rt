//! What a script is answered.
ghost use Rattle.std.specs.Prelude.{◌++◌, map};
ghost use Rattle.std.specs.List.{flat_map};
ghost use Rattle.script_text.specs.Prelude.{Writes};
ghost use Rattle.script_text.specs.Replies.{heading, run_text, section_of, section_text};

use line_text::{Failed, Sink, write_slices};

/// The answers to a name's session.
#[derive(Drop)]
pub struct SessionReplies<'t> {
    pub name: &'t [u8],
    pub text: Vec<u8>,
}

/// The answers to a script.
#[derive(Drop)]
pub struct RunReplies<'t> {
    /// The answers to the operator.
    pub operator: Vec<u8>,
    /// The answers to each name's session, in the order of their first lines.
    pub sections: Vec<SessionReplies<'t>>,
}

impl RunReplies<'_> {
    /// Writes the operator's section, and then each name's.
    pub fn write_to<W: Sink>(&self, writer: &mut W) -> Result<(), Failed>
        ensures { Writes W.contents W.has_failed writer.old writer.new (run_text self.now) result }
    {
        write_section(writer, b"op", self.operator.as_slice())?;
        write_sections(writer, self.sections.as_slice())
    }
}

/// Writes sections, one after another.
fn write_sections<W: Sink>(writer: &mut W, sections: &[SessionReplies<'_>]) -> Result<(), Failed>
    ensures { Writes W.contents W.has_failed writer.old writer.new
        (flat_map section_text (map section_of sections.now)) result }
{
    for section in sections {
        write_section(writer, section.name, section.text.as_slice())?;
    }
    Ok(())
}

/// Writes a section under its name.
fn write_section<W: Sink>(writer: &mut W, name: &[u8], text: &[u8]) -> Result<(), Failed>
    ensures { Writes W.contents W.has_failed writer.old writer.new
        (heading name.now ++ text.now) result }
{
    write_slices(writer, &[b"== ", name, b"\n", text])
}
