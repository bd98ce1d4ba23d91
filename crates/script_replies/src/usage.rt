//! What a name used, by the replies to a script.
ghost use Rattle.std.specs.Prelude.{◌≡◌, ◌^◌, ◌-◌};
ghost use Rattle.script_replies.specs.Accounts.{no_usage};
ghost use Rattle.script_replies.specs.Usage.{IsWithin, begins_job, with_act, with_line, with_operator};
ghost use Rattle.script_replies.specs.Prelude.{named_act, named_operator};

use script_text::{Act, OperatorLine};
use sessions::SessionLine;
use tenant_slot::Command;

/// What a name used, by the replies to its lines and to the operator's.
#[derive(Clone, Copy, PartialEq, Eq)]
pub struct Usage {
    /// The columns of its last admission that was granted; 0 if none was.
    pub columns: u32,
    /// The lines of its session.
    pub lines: usize,
    /// Those that were refused.
    pub refused: usize,
    /// The packings, placings and routings that began.
    pub jobs: usize,
    /// The steps that the operator asked for by `op step`, at most 2^64 - 1.
    pub steps: u64,
}

/// No act.
pub(crate) fn no_usage() -> Usage
    ensures { result ≡ no_usage }
{
    Usage {
        columns: 0,
        lines: 0,
        refused: 0,
        jobs: 0,
        steps: 0,
    }
}

/// The usage with one more act.
pub(crate) fn with_act(usage: Usage, name: &[u8], act: &Act<&[u8]>, is_refused: bool) -> Usage
    requires { IsWithin (2 ^ 64 - 1) usage }
    ensures { result ≡ with_act name.now (named_act act.now) is_refused usage }
{
    match act {
        Act::Operator(line) => with_operator(usage, name, line, is_refused),
        Act::Session(own, line) if *own == name => with_line(usage, line, is_refused),
        Act::Session(..) => usage,
    }
}

/// The usage with one more line of the operator.
fn with_operator(usage: Usage, name: &[u8], line: &OperatorLine<&[u8]>, is_refused: bool) -> Usage
    ensures { result ≡ with_operator name.now (named_operator line.now) is_refused usage }
{
    match line {
        OperatorLine::Admit(own, columns) if *own == name && !is_refused => Usage {
            columns: *columns,
            ..usage
        },
        OperatorLine::Step(own, steps) if *own == name && !is_refused => Usage {
            steps: usage.steps.saturating_add(u64::from(*steps)),
            ..usage
        },
        _ => usage,
    }
}

/// The usage with one more line of the name's session.
fn with_line(usage: Usage, line: &SessionLine, is_refused: bool) -> Usage
    requires { IsWithin (2 ^ 64 - 1) usage }
    ensures { result ≡ with_line line.now is_refused usage }
{
    let begins = begins_job(line);
    Usage {
        lines: usage.lines + 1,
        refused: usage.refused + usize::from(is_refused),
        jobs: usage.jobs + usize::from(begins && !is_refused),
        ..usage
    }
}

/// Returns whether a line asks for a packing, a placing or a routing.
fn begins_job(line: &SessionLine) -> bool
    ensures { result ≡ begins_job line.now }
{
    matches!(
        line,
        SessionLine::Command(Command::Pack | Command::Place { .. } | Command::Route)
    )
}
