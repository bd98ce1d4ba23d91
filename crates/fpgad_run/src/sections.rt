ghost use Rattle.std.specs.Prelude.{is_ok, ◌≡◌, [], length, map, IfOk, OnOk};
ghost use Rattle.fpgad_run.specs.Prelude.{section_of};
ghost use Rattle.fpgad_run.specs.Zipped.{named_sections};

use line_text::{Failed, MemorySink, NameSet};
use script_text::SessionReplies;
use service_core::Service;
use sessions::{Answer, SessionLine, answer};
use std::alloc::{AllocError, Global};
use strips::DeviceGraph;

/// The answers to each session, by names in the order of their first lines.
#[derive(Drop)]
pub(crate) struct Sections<'t> {
    alloc: Global,
    names: NameSet<'t>,
    texts: Vec<MemorySink>,
}

impl<'t> Sections<'t> {
    ghost use Rattle.fpgad_run.specs.Told.{AnswersSession};

    pub(crate) fn new(alloc: Global) -> Self
        ensures names { result.names ≡ [] }
        ensures texts { result.texts.items ≡ [] }
    {
        Sections {
            alloc,
            names: NameSet::new(alloc),
            texts: Vec::new(alloc),
        }
    }

    /// Has the core answer a line of that name's session, and appends the answer to the name's
    /// section. A name without a section gets one, the last.
    pub(crate) fn answer(
        &mut self,
        core: &mut Service,
        graph: &DeviceGraph,
        name: &'t [u8],
        id: u32,
        line: SessionLine,
    ) -> Result<(), AllocError>
        requires { length self.old.texts.items ≡ length self.old.names }
        ensures { OnOk result (AnswersSession graph.now self.old core.old name.now id line self.new
            core.new) }
    {
        let number = self.names.add_numbered(name)?;
        if number < self.texts.len() {
            return check_written(answer(core, graph, id, line, &mut self.texts[number]));
        }
        let mut first = MemorySink::new(self.alloc);
        check_written(answer(core, graph, id, line, &mut first))?;
        self.texts.push(first)?;
        Ok(())
    }

    /// The answers to each name's session.
    pub(crate) fn into_replies(self) -> Result<Vec<SessionReplies<'t>>, AllocError>
        requires { length self.texts.items ≡ length self.names }
        ensures { IfOk result (λ replies.
            map section_of replies.items ≡ named_sections self.entry.names self.entry.texts.items) }
    {
        let Sections {
            alloc,
            names,
            texts,
        } = self;
        let mut replies = Vec::new(alloc);
        let added = add_replies(&mut replies, &names, texts);
        drop(names);
        match added {
            Ok(()) => Ok(replies),
            Err(error) => {
                drop(replies);
                Err(error)
            }
        }
    }
}

/// Adds each text with its name, if nothing was added before.
fn add_replies<'t>(
    replies: &mut Vec<SessionReplies<'t>>,
    names: &NameSet<'t>,
    texts: Vec<MemorySink>,
) -> Result<(), AllocError>
    requires even { length texts.items ≡ length names.now }
    requires empty { replies.old.items ≡ [] }
    ensures { OnOk result
        (map section_of replies.new.items ≡ named_sections names.now texts.items) }
{
    for text in texts {
        let name = names.name(replies.len());
        replies.push(SessionReplies {
            name,
            text: text.into_bytes(),
        })?;
    }
    Ok(())
}

/// Ok if the answer was written, an error if memory ran out for it.
fn check_written(answered: (Answer, Result<(), Failed>)) -> Result<(), AllocError>
    ensures { is_ok result ≡ is_ok answered.1 }
{
    let (answer, written) = answered;
    drop(answer);
    match written {
        Ok(()) => Ok(()),
        Err(_) => Err(AllocError),
    }
}
