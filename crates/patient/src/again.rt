//! Repeated attempts after memory ran out.
use sessions::SessionLine;
use std::alloc::AllocError;

/// The number of attempts.
pub(crate) const TIMES: usize = 3;

/// Copies a line.
pub(crate) fn same_line(line: &SessionLine) -> Result<SessionLine, AllocError> {
    match line {
        SessionLine::Blank => Ok(SessionLine::Blank),
        SessionLine::Command(command) => Ok(SessionLine::Command(command.clone()?)),
        SessionLine::Wait => Ok(SessionLine::Wait),
        SessionLine::Refused(refusal) => Ok(SessionLine::Refused(*refusal)),
    }
}
