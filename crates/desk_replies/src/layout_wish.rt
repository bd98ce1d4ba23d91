//! What was asked for the layout that a name has.
ghost use Rattle.std.specs.Prelude.{◌≡◌, None, Some, map, option_map};
ghost use Rattle.desk_replies.specs.Prelude.{answered_line, named_act, named_operator};
ghost use Rattle.desk_replies.specs.Wishes.{after_act, after_command, after_line, after_operator, nothing_on, wish_after, wish_from, wish_now, wish_of, with_netlist};

use printed_replies::{Answered, Replies};
use script_replies::is_refusal;
use script_text::{Act, OperatorLine};
use sessions::SessionLine;
use tenant_slot::{Command, SharedText};

/// The start of a placing's random draws, and how hard it tries.
#[derive(Clone, Copy)]
pub(crate) struct Start {
    pub(crate) seed: u64,
    /// 0 to 100 in a command that is not refused.
    pub(crate) effort: u32,
}

/// What was asked for the layout that a name has.
#[derive(Clone, Copy)]
pub(crate) struct LayoutWish<'a> {
    /// The columns of its strip; 0 if it has none.
    pub(crate) columns: u32,
    /// Its netlist. `None` if it has none, and if it was changed: then the places depend on those
    /// that were there before.
    pub(crate) netlist: Option<&'a SharedText>,
    /// The start of its placing, if it was placed.
    pub(crate) start: Option<Start>,
}

/// What was asked for the layout that the name has, by the acts of a script and their replies.
pub(crate) fn wish_of<'a>(
    name: &[u8],
    acts: &'a [Act<&'a [u8]>],
    replies: &Replies<'_, '_>,
) -> LayoutWish<'a>
    ensures { wish_now result ≡ wish_of name.now (map named_act acts.now) replies.now }
{
    let mut wish = LayoutWish::nothing_on(0);
    add_acts(&mut wish, name, acts, replies.lines());
    wish
}

/// Enters acts with their replies, one after another.
fn add_acts<'a>(
    wish: &mut LayoutWish<'a>,
    name: &[u8],
    acts: &'a [Act<&'a [u8]>],
    lines: &[Answered<'_, '_>],
)
    ensures { wish_now wish.new ≡ wish_from name.now (wish_now wish.old)
        (map named_act acts.now) (map answered_line lines.now) }
{
    for place in 0..acts.len().min(lines.len()) {
        *wish = wish.with_act(name, &acts[place], lines[place].reply);
    }
}

impl<'a> LayoutWish<'a> {
    /// A strip of these columns without a netlist.
    fn nothing_on(columns: u32) -> Self
        ensures { wish_now result ≡ nothing_on columns }
    {
        LayoutWish {
            columns,
            netlist: None,
            start: None,
        }
    }

    /// Another netlist, or none, that is not placed yet.
    fn with_netlist(self, netlist: Option<&'a SharedText>) -> Self
        ensures { wish_now result
            ≡ with_netlist (option_map (λ text. text.now) netlist.entry) (wish_now self.entry) }
    {
        LayoutWish {
            netlist,
            start: None,
            ..self
        }
    }

    /// The wish after an act with that reply.
    fn with_act(self, name: &[u8], act: &'a Act<&[u8]>, reply: &[u8]) -> Self
        ensures { wish_now result
            ≡ wish_after name.now (named_act act.now) reply.now (wish_now self.entry) }
    {
        if is_refusal(reply) {
            return self;
        }
        match act {
            Act::Operator(line) => self.after_operator(name, line),
            Act::Session(own, line) if *own == name => self.after_line(line),
            Act::Session(..) => self,
        }
    }

    /// After a line of the operator that is not refused.
    fn after_operator(self, name: &[u8], line: &OperatorLine<&[u8]>) -> Self
        ensures { wish_now result
            ≡ after_operator name.now (named_operator line.now) (wish_now self.entry) }
    {
        match line {
            OperatorLine::Admit(own, columns) if *own == name => LayoutWish::nothing_on(*columns),
            OperatorLine::Evict(own) if *own == name => LayoutWish::nothing_on(0),
            _ => self,
        }
    }

    /// After a line of the name's session that is not refused.
    fn after_line(self, line: &'a SessionLine) -> Self
        ensures { wish_now result ≡ after_line line.now (wish_now self.entry) }
    {
        match line {
            SessionLine::Command(command) => self.after_command(command),
            SessionLine::Blank | SessionLine::Wait | SessionLine::Refused(_) => self,
        }
    }

    /// After a command of the name that is not refused.
    fn after_command(self, command: &'a Command) -> Self
        ensures { wish_now result ≡ after_command command.now (wish_now self.entry) }
    {
        match command {
            Command::Upload(text) => self.with_netlist(Some(text)),
            Command::Change(_) | Command::Withdraw => self.with_netlist(None),
            Command::Pack => self.with_netlist(self.netlist),
            Command::Place { seed, effort } => LayoutWish {
                start: Some(Start {
                    seed: *seed,
                    effort: *effort,
                }),
                ..self
            },
            Command::Route
            | Command::Cancel
            | Command::Status
            | Command::Net
            | Command::PlaceFile
            | Command::RouteFile => self,
        }
    }
}
