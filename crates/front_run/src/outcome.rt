//! How a front ended.
use front_lines::FrontStop;
use std::fmt;

/// How a front ended.
#[derive(Clone, Copy, PartialEq, Eq)]
pub enum Outcome {
    /// The client has said all, and was answered all.
    Done,
    /// The file of requests can't be opened.
    NoRequests,
    /// The file of replies can't be opened, or has no end to begin at.
    NoReplies,
    Stopped(FrontStop),
}

impl Outcome {
    /// The status of a program that ends so.
    pub fn status(&self) -> u8 {
        match self {
            Outcome::Done => 0,
            Outcome::Stopped(FrontStop::NoMemory) => 4,
            Outcome::NoRequests | Outcome::NoReplies | Outcome::Stopped(_) => 1,
        }
    }
}

/// The message for standard error, without its line's end.
impl fmt::Display for Outcome {
    fn fmt<W: fmt::Write>(&self, f: &mut fmt::Formatter<W>) -> fmt::Result {
        match self {
            Outcome::Done => write!(f, ""),
            Outcome::NoRequests => write!(f, "requests: can't be opened"),
            Outcome::NoReplies => write!(f, "replies: can't be opened"),
            Outcome::Stopped(FrontStop::Input) => write!(f, "input: failed"),
            Outcome::Stopped(FrontStop::Output) => write!(f, "output: failed"),
            Outcome::Stopped(FrontStop::Requests) => write!(f, "requests: failed"),
            Outcome::Stopped(FrontStop::Replies) => write!(f, "replies: failed"),
            Outcome::Stopped(FrontStop::NoMemory) => write!(f, "memory"),
        }
    }
}
