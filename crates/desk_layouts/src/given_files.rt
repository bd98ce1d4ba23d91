//! The files of a layout, as they are read.
ghost use Rattle.std.specs.Prelude.{◌≡◌, IfErr, IfOk};

use crate::layout_input::LayoutPaths;
use desk_common::{FileRole, FileTexts, Outcome};
use layout_verdict::{LayoutTexts, StripShape};
use line_text::{MAX_TEXT, Sink};
use strip_files::StripTexts;

/// The most bytes of a text that are read: one more than it may have.
pub(crate) const MAX_READ: u64 = MAX_TEXT as u64 + 1;

/// The most bytes of another file that are read.
const MAX_FILE: u64 = u64::MAX;

/// The bytes of a layout's files.
#[derive(Drop)]
pub struct GivenFiles {
    pub(crate) arch: Vec<u8>,
    pub(crate) netlist: Vec<u8>,
    pub(crate) net: Vec<u8>,
    pub(crate) place: Vec<u8>,
    pub(crate) route: Vec<u8>,
}

impl GivenFiles {
    ghost use Rattle.desk_layouts.specs.Checked.{AreRead, texts_with};
    ghost use Rattle.desk_layouts.specs.Refused.{IsUnread};

    /// The bytes of the files with these paths. Of a file that can't be read, the path and the
    /// reason are written to the teller.
    pub(crate) fn read<F: FileTexts, E: Sink>(
        files: &F,
        paths: LayoutPaths<'_>,
        teller: &mut E,
    ) -> Result<Self, Outcome>
        ensures read { IfOk result (AreRead (F.text files.now) paths.entry) }
        ensures failed { IfErr result (IsUnread (F.fails files.now) paths.entry) }
    {
        let arch = files.read_text(FileRole::Architecture, paths.arch, MAX_READ, teller)?;
        let netlist = files.read_text(FileRole::Netlist, paths.netlist, MAX_READ, teller)?;
        let net = files.read_text(FileRole::Net, paths.net, MAX_FILE, teller)?;
        let place = files.read_text(FileRole::Places, paths.place, MAX_FILE, teller)?;
        let route = files.read_text(FileRole::Routes, paths.route, MAX_FILE, teller)?;
        Ok(GivenFiles {
            arch,
            netlist,
            net,
            place,
            route,
        })
    }

    /// The texts of the layout, for a strip of that shape.
    pub(crate) fn texts(&self, shape: StripShape) -> LayoutTexts<'_>
        ensures { result ≡ texts_with self.now shape }
    {
        let files = StripTexts {
            net: self.net.as_slice(),
            place: self.place.as_slice(),
            route: self.route.as_slice(),
        };
        LayoutTexts::new(shape, self.arch.as_slice(), self.netlist.as_slice(), files)
    }
}
