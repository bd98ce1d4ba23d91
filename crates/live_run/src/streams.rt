//! The standard streams beside a log.
use std::fs;
use std::fs::Metadata;
use std::os::unix::fs::MetadataExt;
use std::rt::Files;

/// The files of the standard streams, as Linux names them.
const STREAMS: [&str; 3] = ["/dev/stdin", "/dev/stdout", "/dev/stderr"];

/// Whether a file with content is a standard stream, too. A service whose log is its input would
/// serve what it keeps; one whose log is its output would keep its replies.
pub(crate) fn is_stream<H: Files>(rt: &H, file: &Metadata) -> bool {
    file.is_file() && STREAMS.iter().any(|stream| is_at(rt, file, stream))
}

/// Whether the file at that path is this one.
fn is_at<H: Files>(rt: &H, file: &Metadata, path: &str) -> bool {
    match fs::metadata(rt, path) {
        Ok(other) => file.dev() == other.dev() && file.ino() == other.ino(),
        Err(_) => false,
    }
}
