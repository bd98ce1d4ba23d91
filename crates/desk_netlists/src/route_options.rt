//! What the options of the tool that routes one netlist ask for.
ghost use Rattle.std.specs.Prelude.{◌≡◌, None, Option, Some, IfOk, OnErr};
ghost use Rattle.desk_netlists.specs.Prelude.{text_of};
ghost use Rattle.desk_netlists.specs.Asked.{AreTracksAskedFor, IsFormAskedFor, IsRouteAskedFor, IsSizeAskedFor, extras_of};

use crate::route_wishes::{Extras, RouteForm, RouteWishes, Size, Tracks, device_size};
use desk_common::{NO_DEVICE, number_in};
use option_words::Given;

const NO_FILE: &str = "give an architecture, a netlist and a folder";

const NO_ROWS: &str = "give --rows NY with --least-columns, and no --columns";

const NO_TRACKS: &str = "give either --tracks W or --least-tracks";

const ONE_FORM: &str = "give only one of --csv, --json and --path";

/// What the options ask for, or why they are refused.
pub fn wishes_of<'a>(given: &Given<'a>) -> Result<RouteWishes<'a>, &'static str>
    ensures asked { IfOk result (IsRouteAskedFor given.now) }
    ensures refused { OnErr result ((wishes : RouteWishes) →
        IsRouteAskedFor given.now wishes → ⊥) }
{
    let effort = given.number("effort")?;
    if effort > 100 {
        return Err(NO_DEVICE);
    }
    Ok(RouteWishes {
        arch: path_in(given, "arch")?,
        netlist: path_in(given, "netlist")?,
        folder: path_in(given, "folder")?,
        tracks: tracks_of(given)?,
        size: size_of(given)?,
        seed: given.long_number("seed")?,
        effort,
        pins: given.text("pins"),
        is_told: given.is_given("progress"),
        form: form_of(given)?,
        extras: extras_of(given),
    })
}

/// What is made of the three files.
fn extras_of(given: &Given<'_>) -> Extras
    ensures { result ≡ extras_of given.now }
{
    Extras {
        has_picture: given.is_given("svg"),
        has_page: given.is_given("page"),
        has_configuration: given.is_given("configuration"),
        has_verdict: given.is_given("check"),
    }
}

/// The path that an option gives.
fn path_in<'a>(given: &Given<'a>, name: &str) -> Result<&'a str, &'static str>
    ensures told { IfOk result (λ path. text_of given.now name.now ≡ Some path.now) }
    ensures refused { OnErr result (text_of given.now name.now ≡ None) }
{
    given.text(name).ok_or(NO_FILE)
}

/// The form of the summary, or why the options are refused.
fn form_of(given: &Given<'_>) -> Result<RouteForm, &'static str>
    ensures asked { IfOk result (IsFormAskedFor given.now) }
    ensures refused { OnErr result ((form : RouteForm) → IsFormAskedFor given.now form → ⊥) }
{
    let is_table = given.is_given("csv");
    let is_json = given.is_given("json");
    let has_path = given.is_given("path");
    match (is_table, is_json, has_path) {
        (false, false, false) => Ok(RouteForm::Lines),
        (false, false, true) => Ok(RouteForm::Path),
        (true, false, false) => Ok(RouteForm::Table),
        (false, true, false) => Ok(RouteForm::Json),
        _ => Err(ONE_FORM),
    }
}

/// The size of the device. Without one of --columns and --rows it is the least that fits with the
/// other one.
fn size_of(given: &Given<'_>) -> Result<Size, &'static str>
    ensures asked { IfOk result (IsSizeAskedFor given.now) }
    ensures refused { OnErr result ((size : Size) → IsSizeAskedFor given.now size → ⊥) }
{
    let columns = number_in(given, "columns")?;
    let rows = number_in(given, "rows")?;
    match (columns, rows) {
        (None, Some(rows)) => Ok(Size::LeastColumns(rows)),
        _ if given.is_given("least-columns") => Err(NO_ROWS),
        (None, None) => Ok(Size::LeastSquare),
        (Some(columns), None) => Ok(Size::LeastRows(columns)),
        (Some(columns), Some(rows)) => match device_size(columns, rows) {
            Some(size) => Ok(Size::Given(size)),
            None => Err(NO_DEVICE),
        },
    }
}

/// The number of tracks. None if the least is wanted.
fn tracks_of(given: &Given<'_>) -> Result<Option<Tracks>, &'static str>
    ensures asked { IfOk result (AreTracksAskedFor given.now) }
    ensures refused { OnErr result ((tracks : Option Tracks) →
        AreTracksAskedFor given.now tracks → ⊥) }
{
    match (given.text("tracks"), given.is_given("least-tracks")) {
        (Some(_), false) => {
            let number = given.number("tracks")?;
            if number < 1 || number > 64 {
                return Err(NO_DEVICE);
            }
            Ok(Some(Tracks { number }))
        }
        (None, true) => Ok(None),
        _ => Err(NO_TRACKS),
    }
}
