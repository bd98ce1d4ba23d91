//! The page of one tenancy.
ghost use Rattle.std.specs.Prelude.{◌≡◌, OnOk};
ghost use Rattle.desk_layouts.specs.Drawn.{IsPage, bytes_of, item_bytes, strip_item};

use desk_common::Outcome;
use line_text::Sink;
use page::{PageItem, viewer, write_page};
use strip_files::StripTexts;

/// Prints the page of one tenancy.
pub(crate) fn print_page<W: Sink>(texts: StripTexts<'_>, writer: &mut W) -> Result<(), Outcome>
    ensures { OnOk result (IsPage W.contents W.has_failed writer.old writer.new
        (bytes_of texts.entry)) }
{
    let items = [
        item("net", texts.net),
        item("place", texts.place),
        item("route", texts.route),
    ];
    write_page(writer, viewer(), items.as_slice()).or(Err(Outcome::OutputFailed))
}

/// A text of the tenancy.
fn item<'a>(kind: &'static str, text: &'a [u8]) -> PageItem<'a>
    ensures { item_bytes result ≡ strip_item kind.entry.now text.entry.now }
{
    PageItem {
        kind,
        name: b"strip",
        text,
    }
}
