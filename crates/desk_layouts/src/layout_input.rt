//! What the tools take that read a layout: its architecture, its netlist and its three files.
ghost use Rattle.std.specs.Prelude.{◌≡◌, None, Some, IfOk, IfSome, OnErr};
ghost use Rattle.desk_layouts.specs.Asked.{IsAskedFor, IsAskedShape, IsOnlyShape, IsSizeOfPlaces};
ghost use Rattle.std.specs.Option.{option_map_or};
ghost use Rattle.desk_layouts.specs.Prelude.{text_of};

use desk_common::{ALONE, ARCH, DEVICE, GIVEN_TRACKS, NO_DEVICE, number_in};
use layout_verdict::StripShape;
use line_text::split_line;
use option_words::{Given, OptionWord, Takes};
use strip_files::{StripSize, size_in};

const NO_FILE: &str = "give an architecture, a netlist and its .net, .place and .route files";

const NO_TRACKS: &str = "give --tracks W";

/// The columns of the strip.
pub(crate) const COLUMNS: OptionWord = OptionWord {
    name: "columns",
    value_name: "NX",
    help: "Columns of the strip, 1 to 256; without it those in the .place file",
    takes: Takes::Number(1, 256),
    default: None,
};

/// The rows of the strip.
pub(crate) const ROWS: OptionWord = OptionWord {
    name: "rows",
    value_name: "NY",
    help: "Rows of the strip, 1 to 64; without it those in the .place file",
    takes: Takes::Number(1, 64),
    default: None,
};

/// The netlist.
pub(crate) const NETLIST: OptionWord = OptionWord {
    name: "netlist",
    value_name: "NETLIST",
    help: "The netlist, in BLIF",
    ..ALONE
};

/// The first of its three files.
pub(crate) const PACKING: OptionWord = OptionWord {
    name: "packing",
    value_name: "NET_FILE",
    help: "The .net file",
    ..ALONE
};

/// The second one.
pub(crate) const PLACES: OptionWord = OptionWord {
    name: "places",
    value_name: "PLACE_FILE",
    help: "The .place file",
    ..ALONE
};

/// The third one.
pub(crate) const ROUTES: OptionWord = OptionWord {
    name: "routes",
    value_name: "ROUTE_FILE",
    help: "The .route file",
    ..ALONE
};

/// The options of a tool that reads a layout.
pub(crate) const LAYOUT_OPTIONS: &[OptionWord] = &[
    ARCH,
    GIVEN_TRACKS,
    COLUMNS,
    ROWS,
    DEVICE,
    NETLIST,
    PACKING,
    PLACES,
    ROUTES,
];

/// The paths of a layout's files, and what is said of its strip.
#[derive(Clone, Copy)]
pub struct LayoutPaths<'a> {
    pub(crate) arch: &'a str,
    pub(crate) netlist: &'a str,
    pub(crate) net: &'a str,
    pub(crate) place: &'a str,
    pub(crate) route: &'a str,
    /// The columns of the strip, if they are given.
    columns: Option<u32>,
    /// The rows of the strip, if they are given.
    rows: Option<u32>,
    tracks: u32,
}

/// What the options ask for, or why they are refused.
pub fn paths_of<'a>(given: &Given<'a>) -> Result<LayoutPaths<'a>, &'static str>
    ensures asked { IfOk result (IsAskedFor given.now) }
    ensures refused { OnErr result ((paths : LayoutPaths) → IsAskedFor given.now paths → ⊥) }
{
    if given.text("tracks").is_none() {
        return Err(NO_TRACKS);
    }
    let columns = number_in(given, "columns")?;
    let rows = number_in(given, "rows")?;
    let tracks = given.number("tracks")?;
    if StripShape::new(columns.unwrap_or(1), rows.unwrap_or(1), tracks).is_none() {
        return Err(NO_DEVICE);
    }
    Ok(LayoutPaths {
        arch: path_in(given, "arch")?,
        netlist: path_in(given, "netlist")?,
        net: path_in(given, "packing")?,
        place: path_in(given, "places")?,
        route: path_in(given, "routes")?,
        columns,
        rows,
        tracks,
    })
}

/// The path that an option gives.
fn path_in<'a>(given: &Given<'a>, name: &str) -> Result<&'a str, &'static str>
    ensures told { IfOk result (λ path. text_of given.now name.now ≡ Some path.now) }
    ensures refused { OnErr result (text_of given.now name.now ≡ None) }
{
    given.text(name).ok_or(NO_FILE)
}

/// The size in a `.place` file with this text, in its second line. `None` if it isn't there.
pub(crate) fn size_in_places(place: &[u8]) -> Option<StripSize>
    ensures { IsSizeOfPlaces place.now result }
{
    let (_, rest) = split_line(place);
    let (line, _) = split_line(rest);
    size_in(line, " logic blocks")
}

/// The columns and the rows of a size. 1 of each if there is none.
fn numbers_of(size: Option<StripSize>) -> (u32, u32)
    ensures columns { result.0 ≡ option_map_or (λ size. size.columns) size 1 }
    ensures rows { result.1 ≡ option_map_or (λ size. size.rows) size 1 }
{
    match size {
        Some(size) => (size.columns, size.rows),
        None => (1, 1),
    }
}

/// The shape of the strip: a size that isn't given is the one in the `.place` file with this text,
/// or 1 if that has none, which is a fault of the file.
pub(crate) fn shape_of(paths: LayoutPaths<'_>, place: &[u8]) -> Option<StripShape>
    ensures asked { IfSome result (IsAskedShape paths.entry) }
    ensures only { IfSome result (IsOnlyShape paths.entry place.now) }
{
    let (columns, rows) = numbers_of(size_in_places(place));
    let columns = paths.columns.unwrap_or(columns);
    let rows = paths.rows.unwrap_or(rows);
    StripShape::new(columns, rows, paths.tracks)
}
