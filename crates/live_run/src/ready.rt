//! The word that a service is ready.
use std::io::Eprint;

/// What a service writes to standard error when it is ready.
const READY: &str = "ready";

/// Says that the log is read and the next line of the input is answered, if that is wanted and can
/// be written.
pub fn say_ready<H: Eprint>(rt: &H, is_wanted: bool) {
    if is_wanted {
        let _ = rt.eprintln(READY);
    }
}
