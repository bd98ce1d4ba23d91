//! What is drawn of a tenancy.
ghost use Rattle.std.specs.Prelude.{◌≡◌, ◌≢◌, true, codes, is_some};

use crate::strip_check::Against;
use strip_picture::Full;

/// The three files of a tenancy, and what is drawn of it.
#[derive(Clone, Copy)]
pub struct StripWishes<'a> {
    pub(crate) net_file: &'a str,
    pub(crate) place_file: &'a str,
    pub(crate) route_file: &'a str,
    pub(crate) against: Option<Against<'a>>,
    pub(crate) shown: Shown<'a>,
    // Only files with routes are checked.
    ghost checked_routes: { is_some against ≡ true → route_file.now ≢ codes "-" },
}

/// What is drawn of the routes.
#[derive(Clone, Copy)]
pub(crate) enum Shown<'a> {
    Nets,
    Net(&'a str),
    Channels(Full),
    /// All of them, on a page for a browser.
    Page,
}
