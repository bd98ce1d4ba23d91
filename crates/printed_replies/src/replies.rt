//! The replies of a script.
ghost use Rattle.std.specs.Prelude.{◌≡◌, ◌<◌, length, map, slice_get, Some};
ghost use Rattle.printed_replies.specs.Parts.{answered_lines};
ghost use Rattle.printed_replies.specs.Printing.{asked_in};
ghost use Rattle.printed_replies.specs.Replies.{answered_line, names_of};
ghost use Rattle.printed_replies.specs.Sections.{AreSections, session_places};

use crate::answered::Answered;
use crate::sections::Sections;
use line_text::NameSet;
use std::marker::Model;

/// The lines of a script, each with its reply, in the script's order. Its value is their list.
#[derive(Drop)]
pub struct Replies<'t, 'p> {
    lines: Vec<Answered<'t, 'p>>,
    sections: Sections<'t>,
}

impl<'t, 'p> Model for Replies<'t, 'p> {
    ghost use Rattle.std.specs.Prelude.{List};
    ghost use Rattle.printed_replies.specs.Parts.{answered_lines};
    ghost use Rattle.printed_replies.specs.Printing.{asked_in};
    ghost use Rattle.printed_replies.specs.Replies.{AnsweredLine};
    ghost use Rattle.printed_replies.specs.Sections.{AreSections};

    ghost Value = { List AnsweredLine };

    ghost view = { λ a. answered_lines a.lines.items };

    ghost invariant = { λ a. AreSections (asked_in (answered_lines a.lines.items)) a.sections };
}

impl<'t, 'p> Replies<'t, 'p> {
    pub(crate) fn new(lines: Vec<Answered<'t, 'p>>, sections: Sections<'t>) -> Self
        requires { AreSections (asked_in (answered_lines lines.items)) sections }
        ensures { result ≡ answered_lines lines.entry.items }
    {
        Replies { lines, sections }
    }

    /// The lines with their replies, in the script's order.
    pub fn lines(&self) -> &[Answered<'t, 'p>]
        ensures { map answered_line result.now ≡ self.now }
    {
        self.lines.as_slice()
    }

    /// The names of the sessions, in the order of their first lines.
    pub fn names(&self) -> &NameSet<'t>
        ensures { result.now ≡ names_of (asked_in self.now) }
    {
        &self.sections.names
    }

    /// The places of the lines of the session with that name's number, in order.
    pub fn places_of(&self, number: usize) -> &[usize]
        requires { number < length (names_of (asked_in self.now)) }
        ensures { slice_get (session_places (asked_in self.now)) number ≡ Some result.now }
    {
        self.sections.sessions[number].as_slice()
    }
}
