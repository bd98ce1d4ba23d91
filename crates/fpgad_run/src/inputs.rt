//! Which part of the input is the architecture, and which the script.
ghost use Rattle.std.specs.Prelude.{◌≡◌, ◌<◌, ◌^◌, length, MatchOption};
ghost use Rattle.fpgad_run.specs.Inputs.{AreTexts};

use script_text::cut_text;

/// Where the architecture's text is.
#[derive(Clone, Copy)]
pub enum Architecture<'a> {
    /// At the script's head, up to a line that is `.` alone.
    InScript,
    /// The text is this.
    Text(&'a [u8]),
    /// In a file that can't be read.
    Unreadable,
}

/// The texts of a run.
#[derive(Clone, Copy)]
pub(crate) struct Texts<'a> {
    /// The architecture's text.
    pub architecture: &'a [u8],
    /// The script's text.
    pub script: &'a [u8],
    /// The number of the script's first line.
    pub number: usize,
}

impl<'a> Texts<'a> {
    /// The texts of a run with that input. None if the architecture can't be read.
    pub(crate) fn new(architecture: Architecture<'a>, input: &'a [u8]) -> Option<Self>
        requires { length input.now < 2 ^ 63 }
        ensures { MatchOption result (architecture.entry ≡ Architecture.Unreadable)
            (λ texts. AreTexts architecture.entry input.now texts) }
    {
        match architecture {
            Architecture::InScript => Some(Self::below_architecture(input)),
            Architecture::Text(text) => Some(Texts {
                architecture: text,
                script: input,
                number: 1,
            }),
            Architecture::Unreadable => None,
        }
    }

    /// The texts of an input that begins with the architecture. If no line ends it, it is the whole
    /// input.
    fn below_architecture(input: &'a [u8]) -> Self
        requires { length input.now < 2 ^ 63 }
        ensures { AreTexts Architecture.InScript input.now result }
    {
        match cut_text(input, 1) {
            Some(cut) => Texts {
                architecture: cut.ahead,
                script: cut.rest,
                number: cut.number,
            },
            None => Texts {
                architecture: input,
                script: b"",
                number: 1,
            },
        }
    }
}
