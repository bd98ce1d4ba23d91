//! What a page shows: texts about the script, and the files of its names.
ghost use Rattle.std.specs.Prelude.{◌≡◌, codes, map, option_map, if◌then◌else◌, None, Some, OnOk};
ghost use Rattle.desk_replies.specs.Prelude.{ShowsPresentStops, Writes, element_text, account_now, states_of};
ghost use Rattle.desk_replies.specs.Overused.{IsOveruseIn};
ghost use Rattle.desk_replies.specs.Paged.{AreAround, AreItemsOf, IsItem, IsItemIf, file_item, file_items, text_items};
ghost use Rattle.desk_replies.specs.States.{is_unrouted};
ghost use Rattle.desk_replies.specs.Written.{AreTextsOf, WritesSome};

use crate::overuse::{ServedScript, write_overuse};
use crate::page_texts::PageTexts;
use crate::states::NameState;
use desk_circuits::write_present_stops;
use indexmap::IndexMap;
use line_text::{Failed, MemorySink, Sink, is_word, write_all};
use page::{PageItem, viewer, write_item};
use script_replies::Account;
use std::alloc::Global;

/// Writes the page: the viewer around these texts, and the files of these names with the stops of
/// their longest paths, and where the routings of those that are Unrouted are overused.
pub(crate) fn write_page_of<W: Sink>(
    alloc: Global,
    served: ServedScript<'_>,
    states: &IndexMap<&[u8], NameState<'_>>,
    accounts: &[Account<'_, '_>],
    texts: &PageTexts,
    writer: &mut W,
) -> Result<(), Failed>
    ensures { OnOk result (AreAround W.contents W.has_failed writer.old writer.new
        (IsOveruseIn served.entry) (text_items texts.now) states.now.entries
        (map account_now accounts.now)) }
{
    let viewer = viewer();
    write_fixed(viewer.head, writer)?;
    write_texts(texts, writer)?;
    write_names(alloc, served, states, accounts, writer)?;
    write_fixed(viewer.tail, writer)
}

/// Writes a fixed text.
fn write_fixed<W: Sink>(text: &'static str, writer: &mut W) -> Result<(), Failed>
    ensures { Writes W.contents W.has_failed writer.old writer.new text.now result }
{
    write_all(writer, text.as_bytes())
}

/// Writes the texts about the script and the device.
fn write_texts<W: Sink>(texts: &PageTexts, writer: &mut W) -> Result<(), Failed>
    ensures { Writes W.contents W.has_failed writer.old writer.new (text_items texts.now) result }
{
    write_text("lines", b"", texts.lines.as_bytes(), writer)?;
    write_text("refused", b"", texts.refused.as_bytes(), writer)?;
    write_text("states", b"", texts.states.as_bytes(), writer)?;
    write_text("device", b"", texts.device.as_bytes(), writer)
}

/// Writes what is known of these names.
fn write_names<W: Sink>(
    alloc: Global,
    served: ServedScript<'_>,
    states: &IndexMap<&[u8], NameState<'_>>,
    accounts: &[Account<'_, '_>],
    writer: &mut W,
) -> Result<(), Failed>
    ensures { OnOk result (WritesSome W.contents W.has_failed writer.old writer.new
        (AreTextsOf (AreItemsOf (IsOveruseIn served.entry) states.now.entries)
        (map account_now accounts.now))) }
{
    for account in accounts {
        write_name(alloc, served, states, *account, writer)?;
    }
    Ok(())
}

/// Writes the files of a name, the stops of its longest path, and where its routing is overused if
/// it is Unrouted.
fn write_name<W: Sink>(
    alloc: Global,
    served: ServedScript<'_>,
    states: &IndexMap<&[u8], NameState<'_>>,
    account: Account<'_, '_>,
    writer: &mut W,
) -> Result<(), Failed>
    ensures { OnOk result (WritesSome W.contents W.has_failed writer.old writer.new
        (AreItemsOf (IsOveruseIn served.entry) states.now.entries (account_now account.entry))) }
{
    write_files(account, writer)?;
    write_stops_of(alloc, account, writer)?;
    write_if_unrouted(alloc, served, states, account.name, writer)
}

/// Writes where the routing of a name is overused, if its last state is Unrouted.
fn write_if_unrouted<W: Sink>(
    alloc: Global,
    served: ServedScript<'_>,
    states: &IndexMap<&[u8], NameState<'_>>,
    name: &[u8],
    writer: &mut W,
) -> Result<(), Failed>
    ensures { OnOk result (WritesSome W.contents W.has_failed writer.old writer.new
        (IsItemIf (is_unrouted states.now.entries name.now) (IsOveruseIn served.entry name.now)
        (codes "overuse") name.now)) }
{
    if is_unrouted(states, name) {
        write_overuse_of(alloc, served, name, writer)
    } else {
        Ok(())
    }
}

/// Whether the last state of a name is Unrouted.
fn is_unrouted(states: &IndexMap<&[u8], NameState<'_>>, name: &[u8]) -> bool
    ensures { result ≡ is_unrouted states.now.entries name.now }
{
    match states.get(&name) {
        Some(state) => is_word(state.state, "Unrouted"),
        None => false,
    }
}

/// Writes where the routing of a name is overused, if memory suffices to find that.
fn write_overuse_of<W: Sink>(
    alloc: Global,
    served: ServedScript<'_>,
    name: &[u8],
    writer: &mut W,
) -> Result<(), Failed>
    ensures { OnOk result (WritesSome W.contents W.has_failed writer.old writer.new
        (IsItem (IsOveruseIn served.entry name.now) (codes "overuse") name.now)) }
{
    let mut text = MemorySink::new(alloc);
    let made = write_overuse(alloc, served, name, &mut text);
    let shown = text_if(made.is_ok(), text.as_bytes());
    write_present("overuse", name, shown, writer)
}

/// Writes the stops of the longest path of a name's netlist, if there is one and memory suffices to
/// find it.
fn write_stops_of<W: Sink>(
    alloc: Global,
    account: Account<'_, '_>,
    writer: &mut W,
) -> Result<(), Failed>
    ensures { OnOk result (WritesSome W.contents W.has_failed writer.old writer.new
        (IsItem (ShowsPresentStops (states_of account.entry.files)) (codes "path")
        account.entry.name.now)) }
{
    let mut text = MemorySink::new(alloc);
    let made = write_present_stops(alloc, account.files, &mut text);
    let shown = text_if(made.is_ok() && !text.as_bytes().is_empty(), text.as_bytes());
    write_present("path", account.name, shown, writer)
}

/// The text, if it is made.
fn text_if(is_made: bool, text: &[u8]) -> Option<&[u8]>
    ensures { option_map (λ shown. shown.now) result
        ≡ if is_made then Some text.now else None }
{
    if is_made { Some(text) } else { None }
}

/// Writes the files of a name that are present.
fn write_files<W: Sink>(account: Account<'_, '_>, writer: &mut W) -> Result<(), Failed>
    ensures { Writes W.contents W.has_failed writer.old writer.new
        (file_items (account_now account.entry)) result }
{
    let files = account.files;
    write_present("net", account.name, files.net.text, writer)?;
    write_present("place", account.name, files.place.text, writer)?;
    write_present("route", account.name, files.route.text, writer)
}

/// Writes a text of a name, if it is present.
fn write_present<W: Sink>(
    kind: &'static str,
    name: &[u8],
    text: Option<&[u8]>,
    writer: &mut W,
) -> Result<(), Failed>
    ensures { Writes W.contents W.has_failed writer.old writer.new
        (file_item kind.now name.now (option_map (λ text. text.now) text.entry)) result }
{
    match text {
        Some(text) => write_text(kind, name, text, writer),
        None => Ok(()),
    }
}

/// Writes one text of a name.
fn write_text<W: Sink>(
    kind: &'static str,
    name: &[u8],
    text: &[u8],
    writer: &mut W,
) -> Result<(), Failed>
    ensures { Writes W.contents W.has_failed writer.old writer.new
        (element_text kind.now name.now text.now) result }
{
    write_item(writer, PageItem { kind, name, text })
}
