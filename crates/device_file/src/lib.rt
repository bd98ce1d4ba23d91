//! Device files: the options of a device in a file, as a command line has them.
//!
//! A file has words with blanks or line ends between them: `--NAME VALUE` or `--NAME=VALUE`, each
//! option once. A word that begins with `#` begins a comment, up to the end of its line.
//! [`read_device_file`] returns the options with their values, or the first fault with its line.
//! It is proved that it returns exactly what `values_in` of `specs/DeviceFiles.antt` defines.
#![tactic(auto)]

mod fault;
mod names;
mod reader;

pub use fault::{DeviceFileError, DeviceFileFault, FaultKind};
pub use reader::{OptionValue, read_device_file};
