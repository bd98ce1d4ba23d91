//! What the replies to a script say of each name, by one pass over its acts.
ghost use Rattle.std.specs.Prelude.{◌≡◌, ◌-◌, ◌^◌, [], map, option_map, take, IfOk, OnOk};
ghost use Rattle.script_replies.specs.Prelude.{asked_in, answered_line, names_of, named_act, named_operator};
ghost use Rattle.script_replies.specs.Accounts.{AreAccountsWithin, account_after, account_now, accounts_of, name_in, no_account, operator_name, updated};
ghost use Rattle.script_replies.specs.Usage.{IsWithin};

use crate::advising::is_refusal;
use crate::present::NameFiles;
use crate::usage::{Usage, no_usage, with_act};
use line_text::NameSet;
use printed_replies::{Answered, Replies};
use script_text::{Act, OperatorLine};
use std::alloc::{AllocError, Global};

/// What the replies to a script say of a name: what it used, its netlist and its files.
#[derive(Clone, Copy)]
pub struct Account<'a, 'p> {
    pub name: &'a [u8],
    pub usage: Usage,
    pub files: NameFiles<'a, 'p>,
}

/// Returns the accounts of the sessions' names, in the order of their first lines, by the acts of a
/// script and their replies. Fails with [`AllocError`] if memory runs out.
pub fn accounts_of<'a, 'p>(
    alloc: Global,
    acts: &'a [Act<&'a [u8]>],
    replies: &Replies<'a, 'p>,
) -> Result<Vec<Account<'a, 'p>>, AllocError>
    ensures { IfOk result (λ accounts. map account_now accounts.items
        ≡ accounts_of (map named_act acts.now) replies.now) }
{
    let mut accounts = Vec::new(alloc);
    match add_empty(&mut accounts, replies.names()) {
        Ok(()) => {
            add_acts(&mut accounts, replies.names(), acts, replies.lines());
            Ok(accounts)
        }
        Err(error) => {
            drop(accounts);
            Err(error)
        }
    }
}

/// Adds an account for each name to none, before the first act.
fn add_empty<'a>(accounts: &mut Vec<Account<'a, '_>>, names: &NameSet<'a>) -> Result<(), AllocError>
    requires { accounts.old.items ≡ [] }
    ensures { OnOk result (map account_now accounts.new.items ≡ map no_account names.now) }
{
    for number in 0..names.len() {
        accounts.push(Account {
            name: names.name(number),
            usage: no_usage(),
            files: NameFiles::no_files(),
        })?;
    }
    Ok(())
}

/// Enters all acts with their replies.
fn add_acts<'a, 'p>(
    accounts: &mut Vec<Account<'a, 'p>>,
    names: &NameSet<'_>,
    acts: &'a [Act<&'a [u8]>],
    lines: &[Answered<'_, 'p>],
)
    requires names { names.now ≡ names_of (asked_in (map answered_line lines.now)) }
    requires empty { map account_now accounts.old.items ≡ map no_account names.now }
    ensures { map account_now accounts.new.items
        ≡ accounts_of (map named_act acts.now) (map answered_line lines.now) }
{
    for place in 0..acts.len().min(lines.len()) {
        add_act(accounts, names, &acts[place], lines[place].reply);
    }
}

/// Enters an act with its reply.
fn add_act<'a, 'p>(
    accounts: &mut Vec<Account<'a, 'p>>,
    names: &NameSet<'_>,
    act: &'a Act<&'a [u8]>,
    reply: &'p [u8],
)
    requires { AreAccountsWithin (2 ^ 64 - 1) (map account_now accounts.old.items) }
    ensures { map account_now accounts.new.items
        ≡ updated names.now (named_act act.now) reply.now (map account_now accounts.old.items) }
{
    let Some(name) = name_in(act) else {
        return;
    };
    let number = names.number(name);
    if number < accounts.len() {
        let account = account_after(accounts[number], act, reply);
        accounts[number] = account;
    }
}

/// The account with one more act.
fn account_after<'a, 'p>(
    account: Account<'a, 'p>,
    act: &'a Act<&'a [u8]>,
    reply: &'p [u8],
) -> Account<'a, 'p>
    requires { IsWithin (2 ^ 64 - 1) account.usage }
    ensures { account_now result
        ≡ account_after (named_act act.now) reply.now (account_now account.entry) }
{
    Account {
        name: account.name,
        usage: with_act(account.usage, account.name, act, is_refusal(reply)),
        files: account.files.with_act(account.name, act, reply),
    }
}

/// The name in an act.
fn name_in<'n>(act: &Act<&'n [u8]>) -> Option<&'n [u8]>
    ensures { option_map (λ name. name.now) result ≡ name_in (named_act act.now) }
{
    match act {
        Act::Operator(line) => operator_name(line),
        Act::Session(name, _) => Some(*name),
    }
}

/// The name in a line of the operator.
fn operator_name<'n>(line: &OperatorLine<&'n [u8]>) -> Option<&'n [u8]>
    ensures { option_map (λ name. name.now) result ≡ operator_name (named_operator line.now) }
{
    match line {
        OperatorLine::Admit(name, _)
        | OperatorLine::Evict(name)
        | OperatorLine::Move(name, _)
        | OperatorLine::Step(name, _)
        | OperatorLine::Take(name) => Some(*name),
        OperatorLine::List | OperatorLine::Owners | OperatorLine::Put(_) => None,
    }
}
