ghost use Rattle.std.specs.Prelude.{◌≡◌};
ghost use Rattle.sessions.specs.SessionText.{session_refusal_name, session_refusal_number};

/// Why a session's line has no command, or no answer of the core.
#[derive(Clone, Copy, PartialEq, Eq)]
pub enum SessionRefusal {
    UnknownCommand,
    BadNumber,
    UnfinishedUpload,
    /// The tenancy isn't live.
    Evicted,
}

impl SessionRefusal {
    /// The refusal's number in replies. The causes are checked in this order.
    pub fn number(self) -> u32
        ensures { result ≡ session_refusal_number self }
    {
        match self {
            SessionRefusal::UnknownCommand => 1,
            SessionRefusal::BadNumber => 2,
            SessionRefusal::UnfinishedUpload => 3,
            SessionRefusal::Evicted => 4,
        }
    }

    /// The refusal's name in replies.
    pub fn name(self) -> &'static str
        ensures { result.now ≡ session_refusal_name self }
    {
        match self {
            SessionRefusal::UnknownCommand => "UnknownCommand",
            SessionRefusal::BadNumber => "BadNumber",
            SessionRefusal::UnfinishedUpload => "UnfinishedUpload",
            SessionRefusal::Evicted => "Evicted",
        }
    }
}
