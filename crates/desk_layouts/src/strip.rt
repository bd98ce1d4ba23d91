//! The tool that draws one tenancy.
ghost use Rattle.std.specs.Prelude.{IfOk, IfSome, OnErr, OnOk};
ghost use Rattle.desk_layouts.specs.Drawn.{IsCheckedAndShown, IsDrawn, IsShown, IsThere, bytes_of, without_nets};
ghost use Rattle.desk_layouts.specs.StripAsked.{IsFullAskedFor, IsShownAskedFor, IsStripAskedFor};

use crate::strip_check::{against_of, check_against};
use crate::strip_page::print_page;
use crate::strip_wishes::Shown;
pub use crate::strip_wishes::StripWishes;
use crate::without_routes::{no_routes, without_nets};
use arch_file::MAX_TRACKS;
use desk_common::{ALONE, DEVICE, FILE, FLAG, FileRole, FileTexts, NO_DEVICE, Outcome, TRACKS};
use line_text::{Sink, TextError, split_line};
use option_words::{Given, OptionWord, Program, Takes};
use std::alloc::{AllocError, Global};
use strip_files::{RoutedStrip, StripTexts, block_in, net_in, read_strip};
use strip_picture::{DrawError, Full, View, draw, draw_with_ends};

/// The word for a file that is not there.
const NONE: &str = "-";

const NO_FILE: &str = "give a .net, a .place and a .route file";

const NO_ROUTES: &str = "--netlist needs a .route file";

/// The tool and its options.
pub const TOOL: Program = Program {
    name: "strip",
    about: "Draws one tenancy as an SVG, from its three result files",
    after_help: "\
Shows the blocks with their names, and each net in a colour; with --net one net in front of the others, with its driver and its
readers, with --heat how many tracks of each channel are used, in colours up to that of the fullest channel, or, with --tracks W,
up to that of W used tracks. A malformed line is refused with its number and status 3, and so is a route that no device of
this size has: each node follows the node before it by an edge, a pin being joined with the wires beside its block, whatever its
sides and tracks; the first path of a net begins at a source, a later one at a node of an earlier one, and each ends at a sink;
a route joins just the blocks that have its net on a pin. It is a tree over one output pin, a SOURCE has class 1 and a SINK class 0,
and no two nets share a wire or a pin. Not checked are the sides, tracks and classes of pins, global nets and BLEs, which the three
files do not tell. With --netlist, --arch and --tracks all of it is checked first, as `fpgad_desk check` does, with its messages and
its status 1.

Example: fpgad_desk strip T.net T.place T.route --heat > t.svg",
    options: &[
        OptionWord {
            name: "packing",
            value_name: "NET_FILE",
            help: "The .net file",
            ..ALONE
        },
        OptionWord {
            name: "places",
            value_name: "PLACE_FILE",
            help: "The .place file",
            ..ALONE
        },
        OptionWord {
            name: "routes",
            value_name: "ROUTE_FILE",
            help: "The .route file, or - if there is none: then the blocks are drawn without routes",
            ..ALONE
        },
        OptionWord {
            name: "net",
            value_name: "NAME",
            help: "Draws the net with this name in front of the others",
            takes: Takes::Text,
            default: None,
        },
        OptionWord {
            name: "heat",
            help: "Draws how many tracks of each channel are used",
            ..FLAG
        },
        OptionWord {
            help: "For --heat and --netlist: the tracks of each channel, 1 to 64",
            default: None,
            ..TRACKS
        },
        OptionWord {
            name: "netlist",
            help: "Checks the layout first against this netlist, as `fpgad_desk check` does",
            ..FILE
        },
        OptionWord {
            name: "arch",
            help: "For --netlist: the architecture",
            ..FILE
        },
        DEVICE,
        OptionWord {
            name: "page",
            help: "Prints one HTML file for a browser, with search, zoom and clicks, in place of the SVG",
            ..FLAG
        },
    ],
};

/// What the options ask for, or why they are refused.
pub fn wishes_of<'a>(given: &Given<'a>) -> Result<StripWishes<'a>, &'static str>
    ensures asked { IfOk result (IsStripAskedFor given.now) }
    ensures refused { OnErr result ((wishes : StripWishes) → IsStripAskedFor given.now wishes → ⊥) }
{
    let against = against_of(given)?;
    let route_file = given.text("routes").ok_or(NO_FILE)?;
    if against.is_some() && route_file == NONE {
        return Err(NO_ROUTES);
    }
    Ok(StripWishes {
        net_file: given.text("packing").ok_or(NO_FILE)?,
        place_file: given.text("places").ok_or(NO_FILE)?,
        route_file,
        against,
        shown: shown_of(given)?,
    })
}

/// What is to be drawn of the routes: one net, or the channels, or all nets.
fn shown_of<'a>(given: &Given<'a>) -> Result<Shown<'a>, &'static str>
    ensures asked { IfOk result (IsShownAskedFor given.now) }
    ensures refused { OnErr result ((shown : Shown) → IsShownAskedFor given.now shown → ⊥) }
{
    if given.is_given("page") {
        return Ok(Shown::Page);
    }
    match (given.text("net"), given.is_given("heat")) {
        (Some(_), true) => Err("--net and --heat draw different pictures: give only one of them"),
        (Some(name), false) => Ok(Shown::Net(name)),
        (None, true) => Ok(Shown::Channels(full_of(given)?)),
        (None, false) => Ok(Shown::Nets),
    }
}

/// The number of used tracks of a full channel.
fn full_of(given: &Given<'_>) -> Result<Full, &'static str>
    ensures asked { IfOk result (IsFullAskedFor given.now) }
    ensures refused { OnErr result ((full : Full) → IsFullAskedFor given.now full → ⊥) }
{
    if given.text("tracks").is_none() {
        return Ok(Full::Fullest);
    }
    let tracks = given.number("tracks")?;
    if !(1..=MAX_TRACKS).contains(&tracks) {
        return Err(NO_DEVICE);
    }
    Ok(Full::Tracks(tracks))
}

/// Draws a tenancy from its files.
pub fn print<F: FileTexts + AllocGlobal, W: Sink, E: Sink>(
    files: &F,
    wishes: StripWishes<'_>,
    writer: &mut W,
    teller: &mut E,
) -> Result<(), Outcome>
    ensures { OnOk result (IsDrawn W.contents W.has_failed writer.old writer.new
        (F.text files.now) wishes.entry) }
{
    let net = files.read_text(FileRole::Net, wishes.net_file, u64::MAX, teller)?;
    let place = files.read_text(FileRole::Places, wishes.place_file, u64::MAX, teller)?;
    if wishes.route_file == NONE {
        return print_unrouted(
            files.alloc(),
            wishes,
            net.as_slice(),
            place.as_slice(),
            writer,
        );
    }
    let route = files.read_text(FileRole::Routes, wishes.route_file, u64::MAX, teller)?;
    let texts = StripTexts {
        net: net.as_slice(),
        place: place.as_slice(),
        route: route.as_slice(),
    };
    checked_and_drawn(files, wishes, texts, writer, teller)
}

/// Draws a tenancy from the texts of its files. If a netlist is given, it is checked first.
fn checked_and_drawn<F: FileTexts + AllocGlobal, W: Sink, E: Sink>(
    files: &F,
    wishes: StripWishes<'_>,
    texts: StripTexts<'_>,
    writer: &mut W,
    teller: &mut E,
) -> Result<(), Outcome>
    ensures { OnOk result (IsCheckedAndShown W.contents W.has_failed writer.old writer.new
        (F.text files.now) wishes.entry (bytes_of texts.entry)) }
{
    if let Some(against) = wishes.against {
        check_against(files, against, texts, teller)?;
    }
    draw_strip(files.alloc(), texts, wishes.shown, writer)
}

/// Draws a tenancy without routes from the texts of its packing and placement.
fn print_unrouted<W: Sink>(
    alloc: Global,
    wishes: StripWishes<'_>,
    net: &[u8],
    place: &[u8],
    writer: &mut W,
) -> Result<(), Outcome>
    ensures { OnOk result (IsShown W.contents W.has_failed writer.old writer.new wishes.entry.shown
        (without_nets net.now place.now)) }
{
    let route = no_routes(alloc, place)?;
    let net = without_nets(alloc, net)?;
    let texts = StripTexts {
        net: net.as_slice(),
        place,
        route: route.as_slice(),
    };
    draw_strip(alloc, texts, wishes.shown, writer)
}

/// Draws a tenancy from the texts of its files.
fn draw_strip<W: Sink>(
    alloc: Global,
    texts: StripTexts<'_>,
    shown: Shown<'_>,
    writer: &mut W,
) -> Result<(), Outcome>
    ensures { OnOk result (IsShown W.contents W.has_failed writer.old writer.new shown.entry
        (bytes_of texts.entry)) }
{
    let strip = match read_strip(alloc, texts) {
        Ok(strip) => strip,
        Err(TextError::NoMemory) => return Err(Outcome::NoMemory),
        Err(TextError::Fault(fault)) => return Err(Outcome::StripRefused(fault)),
    };
    match (shown, view_of(&strip, shown)) {
        (Shown::Page, _) => print_page(texts, writer),
        (_, Some(View::Net(net))) => drawn_net(alloc, texts.route, &strip, net, writer),
        (_, Some(view)) => drawing_outcome(draw(alloc, &strip, view, writer)),
        (_, None) => Err(Outcome::NoNet),
    }
}

/// Draws a net in front of the others, with its ends.
fn drawn_net<W: Sink>(
    alloc: Global,
    route: &[u8],
    strip: &RoutedStrip<'_>,
    net: usize,
    writer: &mut W,
) -> Result<(), Outcome> {
    let ends = global_ends(alloc, route, net)?;
    drawing_outcome(draw_with_ends(alloc, strip, View::Net(net), &ends, writer))
}

/// The numbers of the blocks that the text of a `.route` file lists for the net of that number, the
/// driver first: those that a global net connects. A net with a route has none. Fails if memory
/// runs out.
fn global_ends(alloc: Global, route: &[u8], net: usize) -> Result<Vec<usize>, AllocError> {
    let mut ends = Vec::new(alloc);
    let mut is_in = false;
    let mut rest = route;
    while !rest.is_empty() {
        let (line, later) = split_line(rest);
        if let Some((number, _, _)) = net_in(line) {
            is_in = number as usize == net;
        }
        if let Some(block) = block_in(line) {
            if is_in {
                ends.push(block as usize)?;
            }
        }
        rest = later;
    }
    Ok(ends)
}

/// The view that is asked for. None if no net has the name.
fn view_of(strip: &RoutedStrip<'_>, shown: Shown<'_>) -> Option<View>
    ensures { IfSome result (λ _. IsThere strip.now shown.entry) }
{
    match shown {
        Shown::Nets => Some(View::Nets),
        Shown::Channels(full) => Some(View::Channels(full)),
        Shown::Page => None,
        Shown::Net(name) => Some(View::Net(strip.net_named(name.as_bytes())?)),
    }
}

/// How the errand ends after a drawing that ended so.
fn drawing_outcome(drawn: Result<(), DrawError>) -> Result<(), Outcome> {
    match drawn {
        Ok(()) => Ok(()),
        Err(DrawError::NoMemory) => Err(Outcome::NoMemory),
        Err(DrawError::Failed) => Err(Outcome::OutputFailed),
    }
}
