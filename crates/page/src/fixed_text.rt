//! The fixed text of the page: its styles, its elements and its script, a file for each part.
//!
//! The script reads the hidden elements of class `data`. Of each name: its `net`, `place` and
//! `route` file; `path`, the stops of its longest path; and `overuse`, where its routing was left
//! overused. With no name: `lines`, a script's lines with their replies; `refused`, those that are
//! refused, in four lines each (the line's number, the line, its reply, and what may be done);
//! `states`, a line for each name with its last state and the number of the line with that reply;
//! and `device`, its columns and tracks.
//! The script writes names by `textContent` alone, never as markup.
//!
//! A part is a macro that adds its text to those before it, since `concat!` takes literals alone.
mod choosing;
mod controls;
mod elements;
mod files;
mod geometry;
mod lists;
mod moving;
mod names;
mod painting;
mod paths;
mod pixels;
mod start;
mod styles;
mod tenancies;

use crate::page::Viewer;
use choosing::choosing_text;
use controls::controls_text;
use elements::elements_text;
use files::files_text;
use geometry::geometry_text;
use lists::lists_text;
use moving::moving_text;
use names::names_text;
use painting::painting_text;
use paths::paths_text;
use pixels::pixels_text;
use start::start_text;
use styles::styles_text;
use tenancies::tenancies_text;

/// The fixed text around the texts that are shown.
pub fn viewer() -> Viewer<'static> {
    Viewer {
        head: HEAD,
        tail: TAIL,
    }
}

/// The end of a row of parts: all of their texts as one.
macro_rules! joined_text {
    (() $($text:literal)*) => {
        concat!($($text),*)
    };
}

/// What is before the texts.
const HEAD: &str = styles_text!((elements_text joined_text));

/// What is after them.
const TAIL: &str = files_text!((
    tenancies_text geometry_text pixels_text painting_text names_text
    moving_text lists_text paths_text choosing_text controls_text start_text joined_text
));
