//! What the tools of the desk share: how an errand ends, the files that they read and write, the
//! options that several of them take, and words for standard error.
//!
//! [`Outcome`] says how an errand ended, by a status and a message.
#![tactic(auto)]

mod arch_words;
mod file_lines;
mod file_texts;
mod options_file;
mod outcome;
mod outputs;
mod paths;
mod reply_words;
mod streams;
mod words;

pub use arch_words::write_arch_fault;
pub use file_lines::write_line;
pub use file_texts::FileTexts;
pub use options_file::{
    DEVICE, DeviceOption, MAX_DEVICE_READ, device_options, device_path, with_device,
};
pub use outcome::Outcome;
pub use outputs::{FileOutputs, Folders};
pub use paths::{
    FileRole, NewFile, ResultFile, make_folder, read_file, tell_stale, write_files, write_path,
};
pub use reply_words::{NetlistSource, tell_reply, told_refused};
pub use streams::{print_text, read_input};
pub use words::{
    ALONE, ARCH, COLUMNS, EFFORT, FILE, FLAG, FOLDER, GIVEN_TRACKS, NO_DEVICE, ROWS, SEED, TRACKS,
    number_in,
};
