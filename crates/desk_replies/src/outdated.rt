//! Says which files of a name are left out, since they are outdated.
use line_text::{Sink, write_slices};
use script_replies::{Account, PrintedFile};

/// Writes to the teller a line with the files of a name that were printed and are not present, if
/// there are any, and what was not done with them.
pub(crate) fn tell_outdated<E: Sink>(account: Account<'_, '_>, not_done: &str, teller: &mut E) {
    let files = account.files;
    let mut told = false;
    told = tell_one(account.name, "net", files.net, told, teller);
    told = tell_one(account.name, "place", files.place, told, teller);
    told = tell_one(account.name, "route", files.route, told, teller);
    if told {
        let words = b": of an earlier netlist or placement, ";
        let _ = write_slices(teller, &[words, not_done.as_bytes(), b"\n"]);
    }
}

/// Writes the name of a file if it is outdated, and returns whether the line has begun.
fn tell_one<E: Sink>(
    name: &[u8],
    kind: &str,
    file: PrintedFile<'_>,
    told: bool,
    teller: &mut E,
) -> bool {
    if !file.is_outdated {
        return told;
    }
    let comma: &[u8] = if told { b", " } else { b"" };
    let _ = write_slices(teller, &[comma, name, b".", kind.as_bytes()]);
    true
}
