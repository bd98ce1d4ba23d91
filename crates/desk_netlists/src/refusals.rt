//! Netlists that are refused.
ghost use Rattle.std.specs.Prelude.{◌≤◌};
ghost use Rattle.desk_netlists.specs.Prelude.{MAX_EFFORT};

use crate::route_size::{Sized, size_for};
use crate::route_wishes::{GivenSize, RouteWishes, Size};
use desk_common::{NetlistSource, Outcome, told_refused};
use line_text::{Failed, Sink};
use one_user::Request;
use std::alloc::Global;
use tenant_slot::Refusal;
use text_parts::{Part, write_parts};

/// Writes why a netlist is refused, and the size that would do if the device has too few places.
/// Returns how the errand ended.
pub(crate) fn told_unfit<E: Sink>(
    alloc: Global,
    wishes: RouteWishes<'_>,
    arch: &[u8],
    request: Request<'_>,
    refusal: Refusal,
    teller: &mut E,
) -> Outcome
    requires { request.effort ≤ MAX_EFFORT }
{
    let is_misfit = matches!(refusal, Refusal::DoesNotFit(_));
    let source = NetlistSource {
        path: wishes.netlist,
        text: request.netlist.as_bytes(),
        arch,
    };
    let outcome = told_refused(alloc, source, refusal, teller);
    if is_misfit {
        if let Some(size) = size_that_does(alloc, wishes.size, arch, request) {
            let _ = write_size(teller, wishes.netlist, size);
        }
    }
    outcome
}

/// The least columns that do for the rows that are asked for, or else the least square. `None` if
/// the netlist fits on neither.
fn size_that_does(
    alloc: Global,
    asked: Size,
    arch: &[u8],
    request: Request<'_>,
) -> Option<GivenSize>
    requires { request.effort ≤ MAX_EFFORT }
{
    if let Size::Given(size) = asked {
        let least = Size::LeastColumns(size.rows);
        if let Some(size) = size_found(alloc, least, arch, request) {
            return Some(size);
        }
    }
    size_found(alloc, Size::LeastSquare, arch, request)
}

/// The size that is asked for, if there is one on which the netlist fits.
fn size_found(alloc: Global, asked: Size, arch: &[u8], request: Request<'_>) -> Option<GivenSize>
    requires { request.effort ≤ MAX_EFFORT }
{
    match size_for(alloc, asked, arch, request) {
        Ok(Sized::Size(size)) => Some(size),
        _ => None,
    }
}

/// Writes the size that would do.
fn write_size<E: Sink>(teller: &mut E, path: &str, size: GivenSize) -> Result<(), Failed> {
    write_parts(teller, &[Part::Text(path), Part::Text(": --columns ")])?;
    write_parts(
        teller,
        &[Part::Number(size.columns), Part::Text(" --rows ")],
    )?;
    write_parts(
        teller,
        &[Part::Number(size.rows), Part::Text(" would do\n")],
    )
}
