//! The lines of a script, by their speakers.
ghost use Rattle.std.specs.Prelude.{◌≡◌, ◌<◌, ◌++◌, [], ◌∷◌, IfOk, OnOk, length, map, replicate, set, slice_index_or};
ghost use Rattle.printed_replies.specs.Replies.{asked_line, names_of};
ghost use Rattle.printed_replies.specs.Sections.{AreSections, places_of, session_places};

use crate::asked::Asked;
use line_text::NameSet;
use std::alloc::{AllocError, Global};

/// The names of the sessions, and the places of each speaker's lines among all lines, in order.
#[derive(Drop)]
pub(crate) struct Sections<'t> {
    pub(crate) names: NameSet<'t>,
    pub(crate) operator: Vec<usize>,
    /// Of each name.
    pub(crate) sessions: Vec<Vec<usize>>,
}

/// The places of the lines by their speakers.
pub(crate) fn sections_of<'t>(
    alloc: Global,
    asked: &[Asked<'t>],
) -> Result<Sections<'t>, AllocError>
    ensures { IfOk result (AreSections (map asked_line asked.now)) }
{
    let names = names_of(alloc, asked)?;
    let mut operator = Vec::new(alloc);
    let mut sessions = Vec::new(alloc);
    add_all(alloc, &names, asked, &mut operator, &mut sessions)?;
    Ok(Sections {
        names,
        operator,
        sessions,
    })
}

/// The names of the sessions, in the order of their first lines.
fn names_of<'t>(alloc: Global, asked: &[Asked<'t>]) -> Result<NameSet<'t>, AllocError>
    ensures { IfOk result (λ names. names ≡ names_of (map asked_line asked.now)) }
{
    let mut names = NameSet::new(alloc);
    for one in asked {
        if let Some(name) = one.name {
            names.add(name)?;
        }
    }
    Ok(names)
}

/// Adds the places of all lines to none.
fn add_all(
    alloc: Global,
    names: &NameSet<'_>,
    asked: &[Asked<'_>],
    operator: &mut Vec<usize>,
    sessions: &mut Vec<Vec<usize>>,
) -> Result<(), AllocError>
    requires names { names.now ≡ names_of (map asked_line asked.now) }
    requires operator { operator.old.items ≡ [] }
    requires sessions { sessions.old.items ≡ [] }
    ensures operator { OnOk result (operator.new.items ≡ places_of None (map asked_line asked.now)) }
    ensures sessions { OnOk result (map (λ places. places.items) sessions.new.items
        ≡ session_places (map asked_line asked.now)) }
{
    add_empty(alloc, names.len(), sessions)?;
    for place in 0..asked.len() {
        match asked[place].name {
            None => operator.push(place)?,
            Some(name) => add_place(names.number(name), place, sessions)?,
        }
    }
    Ok(())
}

/// Adds that number of empty lists to none.
fn add_empty(alloc: Global, count: usize, lists: &mut Vec<Vec<usize>>) -> Result<(), AllocError>
    requires { lists.old.items ≡ [] }
    ensures { OnOk result (map (λ list. list.items) lists.new.items ≡ replicate count []) }
{
    for _number in 0..count {
        lists.push(Vec::new(alloc))?;
    }
    Ok(())
}

/// Adds a place to the list of that number, if there is one.
fn add_place(number: usize, place: usize, lists: &mut Vec<Vec<usize>>) -> Result<(), AllocError>
    ensures { OnOk result (map (λ list. list.items) lists.new.items
        ≡ set (map (λ list. list.items) lists.old.items) number
        (slice_index_or (map (λ list. list.items) lists.old.items) number [] ++ place ∷ [])) }
{
    if number < lists.len() {
        lists[number].push(place)?;
    }
    Ok(())
}
