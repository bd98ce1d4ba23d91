//! The files of the names of a script that are written into a folder.
ghost use Rattle.std.specs.Prelude.{◌≡◌, map, option_map, IfOk};
ghost use Rattle.std.specs.List.{flat_map};
ghost use Rattle.desk_replies.specs.Prelude.{AreAdded, account_now};
ghost use Rattle.desk_replies.specs.Saved.{files_of_name, if_present};

use crate::outdated::tell_outdated;
use desk_common::{FileOutputs, NewFile, Outcome, ResultFile};
use line_text::Sink;
use script_replies::{Account, PrintedFile};

/// Writes the present files of all names into the folder, and returns how many they are.
pub(crate) fn save_files<O: FileOutputs, E: Sink>(
    outputs: &mut O,
    folder: &str,
    accounts: &[Account<'_, '_>],
    teller: &mut E,
) -> Result<u32, Outcome>
    ensures { IfOk result (λ _. AreAdded (O.written outputs.old) (O.written outputs.new)
        (flat_map (files_of_name folder.now) (map account_now accounts.now))) }
{
    outputs.make_folder(folder, teller)?;
    let mut files = 0u32;
    for account in accounts {
        let saved = save_name(outputs, folder, *account, teller)?;
        files = files.saturating_add(saved);
    }
    Ok(files)
}

/// Writes the present files of a name, and returns how many they are.
fn save_name<O: FileOutputs, E: Sink>(
    outputs: &mut O,
    folder: &str,
    account: Account<'_, '_>,
    teller: &mut E,
) -> Result<u32, Outcome>
    ensures { IfOk result (λ _. AreAdded (O.written outputs.old) (O.written outputs.new)
        (files_of_name folder.now (account_now account.entry))) }
{
    let Ok(name) = str::from_utf8(account.name) else {
        return Ok(0);
    };
    let files = account.files;
    let net = save_file(outputs, file_of(folder, name, "net"), files.net, teller)?;
    let place = save_file(outputs, file_of(folder, name, "place"), files.place, teller)?;
    let route = save_file(outputs, file_of(folder, name, "route"), files.route, teller)?;
    tell_outdated(account, "not written", teller);
    Ok(u32::from(net) + u32::from(place) + u32::from(route))
}

/// A file of that kind of a name.
fn file_of<'a>(folder: &'a str, name: &'a str, kind: &'static str) -> ResultFile<'a>
    ensures { result ≡ record { folder = folder.entry; name = name.entry; kind = kind.entry } }
{
    ResultFile { folder, name, kind }
}

/// Writes a file if it is present, and returns whether it is.
fn save_file<O: FileOutputs, E: Sink>(
    outputs: &mut O,
    file: ResultFile<'_>,
    printed: PrintedFile<'_>,
    teller: &mut E,
) -> Result<bool, Outcome>
    ensures { IfOk result (λ _. AreAdded (O.written outputs.old) (O.written outputs.new)
        (if_present file.entry.folder.now file.entry.name.now file.entry.kind.now
        (option_map (λ text. text.now) printed.entry.text))) }
{
    match printed.text {
        Some(text) => {
            outputs.write_files(&[NewFile { file, bytes: text }], teller)?;
            Ok(true)
        }
        None => {
            outputs.tell_stale(file, teller);
            Ok(false)
        }
    }
}
