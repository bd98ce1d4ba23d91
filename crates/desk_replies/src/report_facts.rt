//! What is known of a report's tenancies, for its JSON.
ghost use Rattle.std.specs.Prelude.{◌≡◌, ◌++◌, codes, true, List, IfOk, IfSome, OnOk, map, option_map};
ghost use Rattle.std.specs.Str.{bytes_eq};
ghost use Rattle.desk_replies.specs.Prelude.{account_now, named_act};
ghost use Rattle.desk_replies.specs.Overused.{IsCrowdingOf};
ghost use Rattle.desk_replies.specs.Paths.{AreFactsOf, HasCircuit, IsFactOf, account_of, told_accounts};
ghost use Rattle.desk_replies.specs.declared.report_facts.TenancyFacts.{TenancyFacts};

use crate::overuse::{ServedScript, crowding_of};
use desk_circuits::{MeasuredCircuit, present_circuit};
use device_report::{Report, TenancyUse};
use line_text::is_word;
use one_user::Crowding;
use script_replies::Account;
use std::alloc::{AllocError, Global};

/// What is known of a tenancy.
#[derive(Drop)]
pub(crate) struct TenancyFacts<'t> {
    pub(crate) uses: TenancyUse<'t>,
    /// The circuit of the netlist that it has. `None` if the script is not given, if it has no
    /// netlist, or if memory ran out.
    pub(crate) circuit: Option<MeasuredCircuit>,
    /// Where its routing is overused. `None` if it is not Unrouted, or if that is not known.
    pub(crate) crowding: Option<Crowding>,
}

/// A served script, and what its replies say of each name.
#[derive(Clone, Copy)]
pub(crate) struct Told<'a> {
    pub(crate) served: ServedScript<'a>,
    pub(crate) accounts: &'a [Account<'a, 'a>],
}

/// What is known of the tenancies of a report, by the script if it is given. Fails if memory runs
/// out.
pub(crate) fn facts_of<'t>(
    alloc: Global,
    report: &Report<'t>,
    told: Option<Told<'_>>,
) -> Result<Vec<TenancyFacts<'t>>, AllocError>
    ensures { IfOk result (λ facts. AreFactsOf (option_map told_accounts told.entry)
        report.now.tenancies.items facts.items) }
{
    let mut facts = Vec::new(alloc);
    add_facts(alloc, &report.tenancies, told, &mut facts)?;
    Ok(facts)
}

/// Adds what is known of these tenancies.
fn add_facts<'t>(
    alloc: Global,
    tenancies: &[TenancyUse<'t>],
    told: Option<Told<'_>>,
    facts: &mut Vec<TenancyFacts<'t>>,
) -> Result<(), AllocError>
    ensures { OnOk result ((added : List TenancyFacts)
        × (facts.new.items ≡ facts.old.items ++ added)
        × AreFactsOf (option_map told_accounts told.entry) tenancies.now added) }
{
    for uses in tenancies {
        facts.push(fact_of(alloc, *uses, told))?;
    }
    Ok(())
}

/// What is known of a tenancy.
fn fact_of<'t>(alloc: Global, uses: TenancyUse<'t>, told: Option<Told<'_>>) -> TenancyFacts<'t>
    ensures { IsFactOf (option_map told_accounts told.entry) uses.entry result }
{
    match told {
        Some(told) => TenancyFacts {
            uses,
            circuit: circuit_of(alloc, told.accounts, uses.tenancy.name),
            crowding: crowding_by(alloc, told.served, uses),
        },
        None => TenancyFacts {
            uses,
            circuit: None,
            crowding: None,
        },
    }
}

/// Where the routing of a tenancy that is Unrouted is overused, if that is known.
fn crowding_by(alloc: Global, served: ServedScript<'_>, uses: TenancyUse<'_>) -> Option<Crowding>
    ensures unrouted { IfSome result (λ _.
        bytes_eq uses.entry.tenancy.state.now (codes "Unrouted") ≡ true) }
    ensures crowding { IfSome result (IsCrowdingOf served.entry.device
        (map named_act served.entry.acts.now) served.entry.replies.now
        uses.entry.tenancy.name.now) }
{
    if is_word(uses.tenancy.state, "Unrouted") {
        crowding_of(alloc, served, uses.tenancy.name)
    } else {
        None
    }
}

/// The circuit of the netlist that a name has. `None` if it has no netlist, or if memory runs out.
pub(crate) fn circuit_of(
    alloc: Global,
    accounts: &[Account<'_, '_>],
    name: &[u8],
) -> Option<MeasuredCircuit>
    ensures { HasCircuit (map account_now accounts.now) name.now result }
{
    match account_of(accounts, name) {
        Some(account) => present_circuit(alloc, account.files),
        None => None,
    }
}

/// The first account of that name.
fn account_of<'a, 'p>(accounts: &[Account<'a, 'p>], name: &[u8]) -> Option<Account<'a, 'p>>
    ensures { option_map account_now result
        ≡ account_of (map account_now accounts.now) name.now }
{
    for account in accounts {
        if account.name == name {
            return Some(*account);
        }
    }
    None
}
