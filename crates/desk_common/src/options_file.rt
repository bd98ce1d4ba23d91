//! The options of a device that a tool takes from a file: `--arch`, `--tracks` and the others, as a
//! command line has them.
ghost use Rattle.std.specs.Prelude.{◌<◌, ◌^◌, length};

use crate::file_lines::write_line;
use crate::outcome::Outcome;
use crate::words::FILE;
use device_file::{DeviceFileError, DeviceFileFault, FaultKind, OptionValue, read_device_file};
use line_text::{Failed, Sink};
use option_words::OptionWord;
use std::alloc::{AllocError, Global};
use std::convert::AsStr;
use text_parts::{Part, write_parts};

/// The option that names the file, for the help of tools that take a device's options.
pub const DEVICE: OptionWord = OptionWord {
    name: "device",
    help: "Takes the options of the device from FILE; options on the command line come first, and a path in FILE is relative to the working folder",
    ..FILE
};

/// The most bytes of a device file that are read: one more than it may have.
pub const MAX_DEVICE_READ: u64 = MAX_DEVICE as u64 + 1;

/// The most bytes that a device file may have.
const MAX_DEVICE: usize = 65_536;

/// The most bytes of a faulty word that are written.
const MAX_SHOWN: usize = 60;

/// The beginning of a word that names the file too.
const WITH_PATH: &str = "--device=";

/// An option of a device, and its value.
#[derive(Clone, Copy)]
pub struct DeviceOption<'t> {
    /// The option's name, with its two dashes.
    name: &'t str,
    value: &'t str,
}

/// The path of the device file that the words name: the word after the first `--device`, or the
/// rest of the first `--device=FILE`.
pub fn device_path<S: AsStr>(words: &[S]) -> Option<&str> {
    let mut is_path = false;
    for word in words {
        let word = word.as_str();
        if is_path {
            return Some(word);
        }
        if let Some(path) = word.strip_prefix(WITH_PATH) {
            return Some(path);
        }
        is_path = word == "--device";
    }
    None
}

/// The options of the device file with that path and this text. What is wrong with it is written to
/// the teller.
pub fn device_options<'t, E: Sink>(
    alloc: Global,
    path: &str,
    text: &'t [u8],
    teller: &mut E,
) -> Result<Vec<DeviceOption<'t>>, Outcome> {
    let beginning = &text[..text.len().min(MAX_DEVICE)];
    match options_in(alloc, beginning) {
        Ok(_) if text.len() > MAX_DEVICE => {
            let words = [Part::Text(path), Part::Text(": longer than 65536 bytes\n")];
            let _ = write_parts(teller, &words);
            Err(Outcome::DeviceRefused)
        }
        Ok(options) => Ok(options),
        Err(DeviceFileError::NoMemory) => Err(Outcome::NoMemory),
        Err(DeviceFileError::Fault(fault)) => {
            let _ = write_fault(teller, path, fault);
            Err(Outcome::DeviceRefused)
        }
    }
}

/// The options of the device file with this text.
fn options_in(alloc: Global, text: &[u8]) -> Result<Vec<DeviceOption<'_>>, DeviceFileError<'_>>
    requires { length text.now < 2 ^ 32 }
{
    let values = read_device_file(alloc, text)?;
    texts_of(alloc, &values)
}

/// The options with their values as texts. Fails at the first that is not UTF-8.
fn texts_of<'t>(
    alloc: Global,
    values: &[OptionValue<'t>],
) -> Result<Vec<DeviceOption<'t>>, DeviceFileError<'t>> {
    let mut options = Vec::new(alloc);
    add_texts(&mut options, values)?;
    Ok(options)
}

/// Adds the options with their values as texts.
fn add_texts<'t>(
    options: &mut Vec<DeviceOption<'t>>,
    values: &[OptionValue<'t>],
) -> Result<(), DeviceFileError<'t>> {
    for value in values {
        let Some(option) = text_of(value) else {
            return Err(DeviceFileError::Fault(DeviceFileFault {
                line: value.line,
                kind: FaultKind::NotText,
                word: b"",
            }));
        };
        options.push(option)?;
    }
    Ok(())
}

/// The option with its value as a text; `None` if that is not UTF-8.
fn text_of<'t>(value: &OptionValue<'t>) -> Option<DeviceOption<'t>> {
    Some(DeviceOption {
        name: str::from_utf8(value.name).ok()?,
        value: str::from_utf8(value.text).ok()?,
    })
}

/// Writes what is wrong with the device file of that path: the path, the line and the fault.
fn write_fault<'x, E: Sink>(
    teller: &mut E,
    path: &'x str,
    fault: DeviceFileFault<'x>,
) -> Result<(), Failed> {
    let word = &fault.word[..fault.word.len().min(MAX_SHOWN)];
    write_line(teller, path, fault.line)?;
    write_parts(teller, &[Part::Bytes(word)])?;
    if word.len() < fault.word.len() {
        write_parts(teller, &[Part::Text("..")])?;
    }
    write_parts(teller, &[Part::Text(fault.kind.text()), Part::Text("\n")])
}

/// The words without `--device` and its file, and after them the options that the called tool takes
/// and that the words don't have. Fails if memory runs out.
pub fn with_device<'a, S: AsStr>(
    alloc: Global,
    words: &'a [S],
    options: &[DeviceOption<'a>],
) -> Result<Vec<&'a str>, AllocError> {
    let mut all = Vec::new(alloc);
    let mut is_path = false;
    for word in words {
        let word = word.as_str();
        if is_path || word == "--device" {
            is_path = !is_path;
        } else if !word.starts_with(WITH_PATH) {
            all.push(word)?;
        }
    }
    let tool = words.get(1).map_or("", |word| word.as_str());
    with_options(all, tool, options)
}

/// The words with the options that the tool takes and that they don't have.
fn with_options<'a>(
    mut all: Vec<&'a str>,
    tool: &str,
    options: &[DeviceOption<'a>],
) -> Result<Vec<&'a str>, AllocError> {
    for option in options {
        if takes(tool, option.name.as_bytes()) && !has_either(&all, option.name) {
            all.push(option.name)?;
            all.push(option.value)?;
        }
    }
    Ok(all)
}

/// Returns whether a tool takes that option of a device.
fn takes(tool: &str, option: &[u8]) -> bool {
    let routes = tool == "route" || tool == "check" || tool == "configure" || tool == "log";
    let shows = tool == "picture" || tool == "report";
    if option == b"--arch".as_slice() {
        return routes || takes_script(tool) || tool == "strip";
    }
    if option == b"--rows".as_slice() {
        return routes || shows;
    }
    if option == b"--pads".as_slice() {
        return shows;
    }
    if option == b"--tenant-memory".as_slice() {
        return tool == "log";
    }
    let has_number = option == b"--tracks".as_slice() || option == b"--columns".as_slice();
    if option == b"--tracks".as_slice() && tool == "strip" {
        return true;
    }
    has_number && (routes || shows || tool == "page")
}
/// Returns whether a tool reads a script: with an architecture in a file, the script has none.
fn takes_script(tool: &str) -> bool {
    tool == "files" || tool == "page" || tool == "report"
}

/// Returns whether the option is among the words, or the one that asks for its least value.
fn has_either(words: &[&str], option: &str) -> bool {
    has(words, option) || has(words, least_of(option))
}

/// The option that asks for the least value of this one, or the option itself if no option does.
fn least_of(option: &str) -> &str {
    let name = option.as_bytes();
    if name == b"--tracks".as_slice() {
        return "--least-tracks";
    }
    if name == b"--columns".as_slice() {
        return "--least-columns";
    }
    option
}

/// Returns whether the option is among the words, as `--name` or as `--name=VALUE`.
fn has(words: &[&str], option: &str) -> bool {
    words.iter().any(|word| match word.strip_prefix(option) {
        Some(rest) => rest.is_empty() || rest.starts_with('='),
        None => false,
    })
}
