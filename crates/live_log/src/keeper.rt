//! Which lines of a log are kept.
ghost use Rattle.std.specs.Prelude.{◌≡◌, ◌==◌, [], length, IfOk, OnOk};
ghost use Rattle.live_log.specs.Choice.{FitFlags, FitsMark, NotesLine, decided, decided_other, decided_verb, verb_of};

use crate::marks::{Mark, Marks};
use crate::names::{NO_WORK, Names, Who};
use crate::questions::speaker_of;
use crate::replies::{
    asks_only, has_no_form, has_step, is_at_rest, is_begun, is_blank, is_done, is_put, is_wait,
    is_withdrawn, two_words,
};
use crate::work::{note_done, note_netlist};
use line_text::is_word;
use std::alloc::{AllocError, Global};
use tagged_lines::split_tag;

/// Notes the lines of a log with their replies, and decides which of them are kept:
///
/// - the first line, if it is a comment;
/// - each admission, eviction and move that was done, so that ids and offsets stay;
/// - of a session a command that was done and a `wait` for a job, unless a later line made it void:
///   an eviction or a `withdraw` all of the tenancy; a `place` the placing before it, with its
///   routing; a `cancel` the job and itself; a `change` the routing, and if nothing was placed
///   since the `change` before, this one with its packing;
/// - a line of the operator that made steps of a job, as long as the session's lines before it;
/// - each job that the operator took or put; nothing of such a tenancy is dropped later;
/// - the last `echo` of the operator;
/// - a text that is open at the end.
#[derive(Drop)]
pub(crate) struct Keeper<'l> {
    marks: Marks,
    names: Names<'l>,
    /// The group of the last line that says `echo`.
    echo: Option<usize>,
}

impl<'l> Keeper<'l> {
    /// A keeper that has noted no line.
    pub(crate) fn new(alloc: Global) -> Self
        ensures { result.marks.lines.items ≡ [] }
    {
        Keeper {
            marks: Marks::new(alloc),
            names: Names::new(alloc),
            echo: None,
        }
    }

    /// Notes the next line and its reply.
    pub(crate) fn note(&mut self, line: &'l [u8], reply: &[u8]) -> Result<(), AllocError>
        ensures { OnOk result (NotesLine self.old.marks.lines.items line.now reply.now
            self.new.marks.lines.items) }
    {
        let mark = self.mark_of(line, reply)?;
        self.marks.add_line(mark)
    }

    /// What becomes of the next line, which has that reply.
    fn mark_of(&mut self, line: &'l [u8], reply: &[u8]) -> Result<Mark, AllocError>
        ensures lines { self.new.marks.lines ≡ self.old.marks.lines }
        ensures decided { IfOk result (FitsMark (decided (length self.old.marks.lines.items == 0)
            line.now reply.now)) }
    {
        if has_no_form(reply) {
            return Ok(Mark::Dropped);
        }
        let (tag, said) = split_tag(line);
        match speaker_of(line) {
            Some(name) => self.note_session(name, said, reply),
            None => self.note_other(tag, said, reply),
        }
    }

    /// Notes a line that is of no name's session.
    fn note_other(&mut self, tag: &[u8], said: &'l [u8], reply: &[u8]) -> Result<Mark, AllocError>
        ensures lines { self.new.marks.lines ≡ self.old.marks.lines }
        ensures decided { IfOk result (FitsMark (decided_other
            (length self.old.marks.lines.items == 0) tag.now said.now reply.now)) }
    {
        if tag.starts_with(b"#") {
            return Ok(if self.marks.is_empty() {
                Mark::Kept
            } else {
                Mark::Dropped
            });
        }
        if !is_word(tag, "op") {
            return Ok(Mark::Dropped);
        }
        self.note_operator(said, reply)
    }

    /// What is known of a name, which is noted from now on.
    fn who(&mut self, name: &'l [u8]) -> Result<Who, AllocError>
        ensures { self.new.marks.lines ≡ self.old.marks.lines }
    {
        if let Some(who) = self.names.entry_of(name) {
            return Ok(who);
        }
        let who = Who::new(self.marks.begin()?);
        self.names.note(name, who)?;
        Ok(who)
    }

    /// Notes a line of the operator.
    fn note_operator(&mut self, said: &'l [u8], reply: &[u8]) -> Result<Mark, AllocError>
        ensures lines { self.new.marks.lines ≡ self.old.marks.lines }
        ensures decided { IfOk result (FitsMark (decided_verb (verb_of said.now) reply.now)) }
    {
        let (verb, name) = two_words(said);
        if is_word(verb, "step") {
            return self.note_steps(name, reply);
        }
        if is_word(verb, "echo") {
            return self.note_echo();
        }
        if is_word(verb, "put") {
            return Ok(if is_put(reply) {
                Mark::Kept
            } else {
                Mark::Dropped
            });
        }
        if asks_only(verb) || !is_done(reply) {
            return Ok(Mark::Dropped);
        }
        self.note_act(verb, name)?;
        Ok(Mark::Kept)
    }

    /// Notes what the operator did.
    fn note_act(&mut self, verb: &[u8], name: &'l [u8]) -> Result<(), AllocError>
        ensures { self.new.marks.lines ≡ self.old.marks.lines }
    {
        if is_word(verb, "admit") {
            self.begin_life(name)
        } else if is_word(verb, "evict") {
            self.end_life(name)
        } else if is_word(verb, "take") {
            self.note_taken(name)
        } else {
            Ok(())
        }
    }

    /// Notes a line that makes steps.
    fn note_steps(&mut self, name: &'l [u8], reply: &[u8]) -> Result<Mark, AllocError>
        ensures { self.new.marks.lines ≡ self.old.marks.lines }
    {
        if !has_step(reply) {
            return Ok(Mark::Dropped);
        }
        let who = self.who(name)?;
        Ok(Mark::Within(who.innermost()))
    }

    /// Notes an `echo`: it is kept, and those before it are not.
    fn note_echo(&mut self) -> Result<Mark, AllocError>
        ensures { self.new.marks.lines ≡ self.old.marks.lines }
    {
        if let Some(group) = self.echo {
            self.marks.drop_group(group);
        }
        let group = self.marks.begin()?;
        self.echo = Some(group);
        Ok(Mark::Within(group))
    }

    /// Notes that the operator took a job of a name's tenancy.
    fn note_taken(&mut self, name: &'l [u8]) -> Result<(), AllocError>
        ensures { self.new.marks.lines ≡ self.old.marks.lines }
    {
        let mut who = self.who(name)?;
        who.is_taken = true;
        self.names.note(name, who)
    }

    /// A name's tenancy begins: nothing of it was kept so far.
    fn begin_life(&mut self, name: &'l [u8]) -> Result<(), AllocError>
        ensures { self.new.marks.lines ≡ self.old.marks.lines }
    {
        let mut who = self.who(name)?;
        who.life = self.marks.begin()?;
        who.is_loaded = false;
        who.work = NO_WORK;
        who.is_busy = false;
        who.is_taken = false;
        self.names.note(name, who)
    }

    /// What made a tenancy what it was is dropped, and it begins anew. It is kept if the operator
    /// took one of its jobs.
    fn end_life(&mut self, name: &'l [u8]) -> Result<(), AllocError>
        ensures { self.new.marks.lines ≡ self.old.marks.lines }
    {
        let who = self.who(name)?;
        if !who.is_taken {
            self.marks.drop_group(who.life);
        }
        self.begin_life(name)
    }

    /// Notes a line of a name's session. Outside of texts a line has no reply only if it has no
    /// word or begins a text; in a text, only its last line has one.
    fn note_session(
        &mut self,
        name: &'l [u8],
        said: &[u8],
        reply: &[u8],
    ) -> Result<Mark, AllocError>
        ensures { self.new.marks.lines ≡ self.old.marks.lines }
    {
        let who = self.who(name)?;
        match who.text {
            Some(text) if reply.is_empty() => Ok(Mark::Within(text)),
            Some(text) => self.end_text(name, who, text, reply),
            None if reply.is_empty() && is_blank(said) => Ok(Mark::Dropped),
            None if reply.is_empty() => self.begin_text(name, who),
            None if is_done(reply) => self.note_command(name, who, reply),
            None if is_wait(said) && who.is_busy => self.note_wait(name, who, reply),
            None => Ok(Mark::Dropped),
        }
    }

    /// Notes the first line of a text.
    fn begin_text(&mut self, name: &'l [u8], mut who: Who) -> Result<Mark, AllocError>
        ensures { self.new.marks.lines ≡ self.old.marks.lines }
    {
        let text = self.marks.begin()?;
        who.text = Some(text);
        self.names.note(name, who)?;
        Ok(Mark::Within(text))
    }

    /// Notes the last line of a text.
    fn end_text(
        &mut self,
        name: &'l [u8],
        mut who: Who,
        text: usize,
        reply: &[u8],
    ) -> Result<Mark, AllocError>
        ensures { self.new.marks.lines ≡ self.old.marks.lines }
    {
        if is_done(reply) {
            let netlist = note_netlist(&mut self.marks, &mut who)?;
            self.marks.put_into(text, netlist);
            who.is_busy = false;
        } else {
            self.marks.drop_group(text);
        }
        who.text = None;
        self.names.note(name, who)?;
        Ok(Mark::Within(text))
    }

    /// Notes a command that was done. After a `withdraw`, what the name did before is void, and the
    /// `withdraw` too.
    fn note_command(
        &mut self,
        name: &'l [u8],
        mut who: Who,
        reply: &[u8],
    ) -> Result<Mark, AllocError>
        ensures { self.new.marks.lines ≡ self.old.marks.lines }
    {
        if is_withdrawn(reply) && !who.is_taken {
            self.end_life(name)?;
            return Ok(Mark::Dropped);
        }
        who.is_busy = is_begun(reply);
        let mark = note_done(&mut self.marks, &mut who, reply)?;
        self.names.note(name, who)?;
        Ok(mark)
    }

    /// Notes a wait for a job.
    fn note_wait(&mut self, name: &'l [u8], mut who: Who, reply: &[u8]) -> Result<Mark, AllocError>
        ensures { self.new.marks.lines ≡ self.old.marks.lines }
    {
        who.is_busy = !is_at_rest(reply);
        self.names.note(name, who)?;
        Ok(Mark::Within(who.innermost()))
    }

    /// For each line, whether it is kept.
    pub(crate) fn kept_flags(&self, alloc: Global) -> Result<Vec<bool>, AllocError>
        ensures { IfOk result (λ kept. FitFlags self.now.marks.lines.items kept.items) }
    {
        self.marks.kept_flags(alloc)
    }
}
