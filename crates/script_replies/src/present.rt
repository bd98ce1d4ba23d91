//! The netlist and the files that a name has, by the replies to a script.
ghost use Rattle.std.specs.Prelude.{◌≡◌, None, Some, option_map};
ghost use Rattle.script_replies.specs.Present.{after_act, after_command, after_line, after_operator, files_after, no_file, no_files, outdate, with_printed, state_of, states_of, with_netlist, without_route};
ghost use Rattle.script_replies.specs.Prelude.{named_act, named_operator};

use crate::advising::is_refusal;
use printed_replies::file_in;
use script_text::{Act, OperatorLine};
use sessions::SessionLine;
use tenant_slot::Command;

/// A file of one kind of a name.
#[derive(Clone, Copy)]
pub struct PrintedFile<'p> {
    /// Its text, if it was printed for what the name has now.
    pub text: Option<&'p [u8]>,
    /// Whether one was printed for an earlier netlist, placement or routing, and none since.
    pub is_outdated: bool,
}

impl<'p> PrintedFile<'p> {
    /// No file was printed.
    fn no_file() -> Self
        ensures { state_of result ≡ no_file }
    {
        PrintedFile {
            text: None,
            is_outdated: false,
        }
    }

    /// The file is no longer present.
    fn outdated(self) -> Self
        ensures { state_of result ≡ outdate (state_of self.entry) }
    {
        PrintedFile {
            text: None,
            is_outdated: self.is_outdated || self.text.is_some(),
        }
    }

    /// The file after a reply, which may contain a file of the kind.
    fn with_printed(self, kind: &[u8], reply: &'p [u8]) -> Self
        ensures { state_of result ≡ with_printed kind.now reply.now (state_of self.entry) }
    {
        match file_in(kind, reply) {
            Some(text) => PrintedFile {
                text: Some(text),
                is_outdated: false,
            },
            None => self,
        }
    }
}

/// The netlist that a name has, and its files.
#[derive(Clone, Copy)]
pub struct NameFiles<'a, 'p> {
    /// The last one that was taken, unless it was withdrawn or the name was evicted.
    pub netlist: Option<&'a [u8]>,
    pub net: PrintedFile<'p>,
    pub place: PrintedFile<'p>,
    pub route: PrintedFile<'p>,
}

impl<'a, 'p> NameFiles<'a, 'p> {
    /// No netlist and no files.
    pub(crate) fn no_files() -> Self
        ensures { states_of result ≡ no_files }
    {
        NameFiles {
            netlist: None,
            net: PrintedFile::no_file(),
            place: PrintedFile::no_file(),
            route: PrintedFile::no_file(),
        }
    }

    /// Another netlist, or none. No file is present.
    fn with_netlist(self, netlist: Option<&'a [u8]>) -> Self
        ensures { states_of result
            ≡ with_netlist (option_map (λ text. text.now) netlist.entry) (states_of self.entry) }
    {
        NameFiles {
            netlist,
            net: self.net.outdated(),
            place: self.place.outdated(),
            route: self.route.outdated(),
        }
    }

    /// The `.route` file is no longer present.
    fn without_route(self) -> Self
        ensures { states_of result ≡ without_route (states_of self.entry) }
    {
        NameFiles {
            route: self.route.outdated(),
            ..self
        }
    }

    /// The netlist and the files of the name after an act with that reply.
    pub(crate) fn with_act(self, name: &[u8], act: &'a Act<&[u8]>, reply: &'p [u8]) -> Self
        ensures { states_of result
            ≡ files_after name.now (named_act act.now) reply.now (states_of self.entry) }
    {
        if is_refusal(reply) {
            return self;
        }
        match act {
            Act::Operator(line) => self.after_operator(name, line),
            Act::Session(own, line) if *own == name => self.after_line(line, reply),
            Act::Session(..) => self,
        }
    }

    /// After a line of the operator that is not refused.
    fn after_operator(self, name: &[u8], line: &OperatorLine<&[u8]>) -> Self
        ensures { states_of result
            ≡ after_operator name.now (named_operator line.now) (states_of self.entry) }
    {
        match line {
            OperatorLine::Admit(own, _) if *own == name => self.with_netlist(None),
            OperatorLine::Evict(own) if *own == name => self.with_netlist(None),
            _ => self,
        }
    }

    /// After a line of the name's session that is not refused.
    fn after_line(self, line: &'a SessionLine, reply: &'p [u8]) -> Self
        ensures { states_of result ≡ after_line line.now reply.now (states_of self.entry) }
    {
        match line {
            SessionLine::Command(command) => self.after_command(command, reply),
            SessionLine::Blank | SessionLine::Wait | SessionLine::Refused(_) => self,
        }
    }

    /// After a command of the name that is not refused.
    fn after_command(self, command: &'a Command, reply: &'p [u8]) -> Self
        ensures { states_of result ≡ after_command command.now reply.now (states_of self.entry) }
    {
        match command {
            Command::Upload(text) | Command::Change(text) => {
                self.with_netlist(Some(text.as_bytes()))
            }
            Command::Withdraw => self.with_netlist(None),
            Command::Pack => self.with_netlist(self.netlist),
            Command::Place { .. } => NameFiles {
                place: self.place.outdated(),
                ..self.without_route()
            },
            Command::Route => self.without_route(),
            Command::Net => NameFiles {
                net: self.net.with_printed(b"net", reply),
                ..self
            },
            Command::PlaceFile => NameFiles {
                place: self.place.with_printed(b"place", reply),
                ..self
            },
            Command::RouteFile => NameFiles {
                route: self.route.with_printed(b"route", reply),
                ..self
            },
            Command::Cancel | Command::Status => self,
        }
    }
}
