//! The inputs of the names' sessions.
ghost use Rattle.std.specs.Prelude.{◌≡◌, ◌++◌, ◌==◌, [], length, map, OnOk};
ghost use Rattle.script_text.specs.Names.{AreNamed};
ghost use Rattle.script_text.specs.Threaded.{with_feed, said_by, with_input};

use line_text::NameSet;
use std::alloc::{AllocError, Global};

/// The input of a name's session: the rests of its lines after the name and one blank, and the
/// lines of its texts, each ended by LF.
#[derive(Drop)]
pub struct SessionInput<'t> {
    pub name: &'t [u8],
    pub input: Vec<u8>,
}

/// The input of each name's session, in the order of their first lines.
#[derive(Drop)]
pub(crate) struct Sessions<'t> {
    alloc: Global,
    names: NameSet<'t>,
    said: Vec<SessionInput<'t>>,
}

impl<'t> Sessions<'t> {
    pub(crate) fn new(alloc: Global) -> Self
        ensures said { result.said.items ≡ [] }
        ensures named { AreNamed result }
    {
        Sessions {
            alloc,
            names: NameSet::new(alloc),
            said: Vec::new(alloc),
        }
    }

    /// Returns whether there is no session.
    pub(crate) fn is_empty(&self) -> bool
        ensures { result ≡ (length self.now.said.items == 0) }
    {
        self.said.is_empty()
    }

    /// Appends a line, ended by LF, to the input of the name's session.
    pub(crate) fn add(&mut self, name: &'t [u8], line: &[u8]) -> Result<(), AllocError>
        requires { AreNamed self.old }
        ensures said { OnOk result (map said_by self.new.said.items
            ≡ with_input (map said_by self.old.said.items) name.now (with_feed line.now)) }
        ensures named { OnOk result (AreNamed self.new) }
    {
        let number = self.names.add_numbered(name)?;
        if number < self.said.len() {
            return append(&mut self.said[number], line);
        }
        let mut first = SessionInput {
            name,
            input: Vec::new(self.alloc),
        };
        append(&mut first, line)?;
        self.said.push(first)?;
        Ok(())
    }

    /// The inputs of all sessions.
    pub(crate) fn into_said(self) -> Vec<SessionInput<'t>>
        ensures { result.items ≡ self.entry.said.items }
    {
        let Sessions {
            alloc: _,
            names,
            said,
        } = self;
        drop(names);
        said
    }
}

/// Appends a line, ended by LF, to a session's input.
fn append(said: &mut SessionInput<'_>, line: &[u8]) -> Result<(), AllocError>
    ensures name { said.new.name ≡ said.old.name }
    ensures input { OnOk result (said.new.input.items ≡ said.old.input.items
        ++ with_feed line.now) }
{
    said.input.extend_from_slice(line)?;
    said.input.push(b'\n')?;
    Ok(())
}
