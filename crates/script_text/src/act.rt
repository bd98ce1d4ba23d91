use crate::operator_line::OperatorLine;
use sessions::SessionLine;

/// One act of a script. An upload includes its text.
#[derive(Drop)]
pub enum Act<N> {
    Operator(OperatorLine<N>),
    Session(N, SessionLine),
}
