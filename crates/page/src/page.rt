//! A page of several texts.
ghost use Rattle.std.specs.List.{flat_map};
ghost use Rattle.line_text.specs.Writing.{Writes};
ghost use Rattle.page.specs.Pages.{item_text, kind_text, name_text, page_text, start_text};

use crate::shown::write_shown;
use line_text::{Failed, Sink, write_all};
use text_parts::{Part, write_parts};

/// The fixed text of a page.
#[derive(Clone, Copy)]
pub struct Viewer<'a> {
    /// What is before the items.
    pub head: &'a str,
    /// What is after them.
    pub tail: &'a str,
}

/// A text that the page shows.
#[derive(Clone, Copy)]
pub struct PageItem<'a> {
    /// What kind of text it is, as `net` or `route`.
    pub kind: &'a str,
    /// Whose text it is.
    pub name: &'a [u8],
    pub text: &'a [u8],
}

/// Writes a page. If the sink fails, it has taken a first part of it.
pub fn write_page<K: Sink>(
    sink: &mut K,
    viewer: Viewer<'_>,
    items: &[PageItem<'_>],
) -> Result<(), Failed>
    ensures { Writes K.contents K.has_failed sink.old sink.new (page_text viewer.entry items.now)
        result }
{
    write_fixed(sink, viewer.head)?;
    write_items(sink, items)?;
    write_fixed(sink, viewer.tail)
}

/// Writes a fixed text.
fn write_fixed<K: Sink>(sink: &mut K, text: &str) -> Result<(), Failed>
    ensures { Writes K.contents K.has_failed sink.old sink.new text.now result }
{
    write_all(sink, text.as_bytes())
}

/// Writes the items, one after another.
fn write_items<K: Sink>(sink: &mut K, items: &[PageItem<'_>]) -> Result<(), Failed>
    ensures { Writes K.contents K.has_failed sink.old sink.new (flat_map item_text items.now)
        result }
{
    for item in items {
        write_item(sink, *item)?;
    }
    Ok(())
}

/// Writes the element of an item. If the sink fails, it has taken a first part of it.
pub fn write_item<K: Sink>(sink: &mut K, item: PageItem<'_>) -> Result<(), Failed>
    ensures { Writes K.contents K.has_failed sink.old sink.new (item_text item.entry) result }
{
    write_start(sink, item)?;
    write_shown(sink, item.text)?;
    write_parts(sink, &[Part::Text("</pre>\n")])
}

/// Writes the beginning of an item's element.
fn write_start<K: Sink>(sink: &mut K, item: PageItem<'_>) -> Result<(), Failed>
    ensures { Writes K.contents K.has_failed sink.old sink.new (start_text item.entry.kind.now
        item.entry.name.now) result }
{
    write_kind(sink, item)?;
    write_name(sink, item)?;
    write_parts(sink, &[Part::Text("\">\n")])
}

/// Writes the beginning of an item's element, up to its kind.
fn write_kind<K: Sink>(sink: &mut K, item: PageItem<'_>) -> Result<(), Failed>
    ensures { Writes K.contents K.has_failed sink.old sink.new (kind_text item.entry.kind.now)
        result }
{
    write_parts(
        sink,
        &[Part::Text("<pre hidden class=\"data\" data-kind=\"")],
    )?;
    write_shown(sink, item.kind.as_bytes())
}

/// Writes the end of the kind, and the name.
fn write_name<K: Sink>(sink: &mut K, item: PageItem<'_>) -> Result<(), Failed>
    ensures { Writes K.contents K.has_failed sink.old sink.new (name_text item.entry.name.now)
        result }
{
    write_parts(sink, &[Part::Text("\" data-name=\"")])?;
    write_shown(sink, item.name)
}
