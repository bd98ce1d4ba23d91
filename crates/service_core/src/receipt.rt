ghost use Rattle.std.specs.Prelude.{◌≡◌};

use std::marker::Model;
use tenant_slot::{Command, Reply};

/// A command that was served, its reply, and the index of its entry in the tenancy's journal, from
/// 0. Only the core makes receipts.
#[derive(Drop)]
pub struct Receipt {
    pub(crate) id: u32,
    pub(crate) place: u32,
    pub(crate) command: Command,
    pub(crate) reply: Reply,
}

impl Model for Receipt {
    ghost use Rattle.service_core.specs.Receipt.{Receipted};

    ghost Value = { Receipted };

    ghost view = { λ r. record { id = r.id; place = r.place; command = r.command; reply = r.reply } };
}

impl Receipt {
    /// The id of the tenancy.
    pub fn id(&self) -> u32
        ensures { result ≡ self.now.id }
    {
        self.id
    }

    /// The index of the entry in the tenancy's journal, from 0.
    pub fn place(&self) -> u32
        ensures { result ≡ self.now.place }
    {
        self.place
    }

    /// The command that was served.
    pub fn command(&self) -> &Command
        ensures { result.now ≡ self.now.command }
    {
        &self.command
    }

    /// The reply to the command.
    pub fn reply(&self) -> &Reply
        ensures { result.now ≡ self.now.reply }
    {
        &self.reply
    }
}
