//! Printing a tenancy's script.
ghost use Rattle.std.specs.Prelude.{◌≡◌, ◌++◌, ◌<◌, ◌^◌, ℕ, List};
ghost use Rattle.line_text.specs.Writing.{Writes};
ghost use Rattle.script_text.specs.Script.{script_of};
ghost use Rattle.tenancy_script.specs.Printed.{last_feed, is_ended, printed_script, printed_admission, printed_commands, printed_upload};
ghost use Rattle.tenancy_script.specs.Says.{IsWhole, acts_of, followed_by};

use crate::script::TenancyScript;
use line_text::{Failed, Sink};
use text_parts::{Part, write_parts};

impl TenancyScript<'_> {
    /// Prints the script. After any whole script, it adds exactly the tenancy's own acts: its
    /// admission if it has a width, one upload of the text, and the commands. If the sink fails, it
    /// has taken a first part of the script.
    pub fn write<K: Sink>(&self, sink: &mut K) -> Result<(), Failed>
        ensures written { Writes K.contents K.has_failed sink.old sink.new (printed_script self.now)
            result }
        ensures says { (number : ℕ) (before : List ℕ) → IsWhole before →
            script_of number (before ++ printed_script self.now)
            ≡ followed_by (script_of number before) (acts_of self.now) }
        ensures whole { (before : List ℕ) → IsWhole before → IsWhole (before
            ++ printed_script self.now) }
    {
        self.laws();
        self.write_admission(sink)?;
        self.write_upload(sink)?;
        self.write_commands(sink)
    }

    /// The script's acts, after any script.
    fn laws(&self)
        ensures says { (number : ℕ) (before : List ℕ) → IsWhole before →
            script_of number (before ++ printed_script self.now)
            ≡ followed_by (script_of number before) (acts_of self.now) }
        ensures whole { (before : List ℕ) → IsWhole before → IsWhole (before
            ++ printed_script self.now) }
    {
        match self.width {
            Some(width) => bits(width, self.seed, self.effort),
            None => bits(0, self.seed, self.effort),
        }
    }

    /// Prints the operator's line.
    fn write_admission<K: Sink>(&self, sink: &mut K) -> Result<(), Failed>
        ensures { Writes K.contents K.has_failed sink.old sink.new
            (printed_admission self.now.width self.now.name.now) result }
    {
        match self.width {
            Some(width) => write_parts(
                sink,
                &[
                    Part::Text("op admit "),
                    Part::Bytes(self.name),
                    Part::Text(" "),
                    Part::Number(width),
                    Part::Text("\n"),
                ],
            ),
            None => write_parts(sink, &[]),
        }
    }

    /// Prints the upload.
    fn write_upload<K: Sink>(&self, sink: &mut K) -> Result<(), Failed>
        ensures { Writes K.contents K.has_failed sink.old sink.new
            (printed_upload self.now.name.now self.now.text.now) result }
    {
        write_parts(
            sink,
            &[
                Part::Text("@"),
                Part::Bytes(self.name),
                Part::Text(" upload\n"),
                Part::Bytes(self.text),
                Part::Text(last_feed(self.text)),
                Part::Text(".\n"),
            ],
        )
    }

    /// Prints the commands after the upload.
    fn write_commands<K: Sink>(&self, sink: &mut K) -> Result<(), Failed>
        ensures { Writes K.contents K.has_failed sink.old sink.new
            (printed_commands self.now.name.now self.now.seed self.now.effort) result }
    {
        let name = Part::Bytes(self.name);
        write_parts(
            sink,
            &[
                Part::Text("@"),
                name,
                Part::Text(" pack\n@"),
                name,
                Part::Text(" wait\n@"),
                name,
                Part::Text(" place "),
                Part::Long(self.seed),
                Part::Text(" "),
                Part::Number(self.effort),
                Part::Text("\n@"),
                name,
                Part::Text(" wait\n@"),
                name,
                Part::Text(" route\n@"),
                name,
                Part::Text(" wait\n@"),
                name,
                Part::Text(" net\n@"),
                name,
                Part::Text(" placefile\n@"),
                name,
                Part::Text(" routefile\n"),
            ],
        )
    }
}

/// The LF that is added to a text whose last line has none.
fn last_feed(text: &[u8]) -> &'static str
    ensures { result.now ≡ last_feed text.now }
{
    if is_ended(text) { "" } else { "\n" }
}

/// Returns whether the last line of a text ends with LF.
fn is_ended(text: &[u8]) -> bool
    ensures { result ≡ is_ended text.now }
{
    text.is_empty() || text[text.len() - 1] == b'\n'
}

/// The numbers fit in their bits.
fn bits(width: u32, seed: u64, effort: u32)
    ensures width { width < 2 ^ 32 }
    ensures seed { seed < 2 ^ 64 }
    ensures effort { effort < 2 ^ 32 }
{}
