//! What a layout is read from.
ghost use Rattle.std.specs.Prelude.{◌≡◌};

use crate::shape::StripShape;
use std::marker::Model;
use strip_files::StripTexts;

/// The texts that a layout is read from: an architecture, a netlist, and the layout's three files,
/// for a strip of some shape.
#[derive(Drop)]
pub struct LayoutTexts<'t> {
    pub(crate) shape: StripShape,
    pub(crate) arch: &'t [u8],
    pub(crate) netlist: &'t [u8],
    pub(crate) files: StripTexts<'t>,
}

impl<'t> Model for LayoutTexts<'t> {
    ghost use Rattle.layout_verdict.specs.Texts.{Texts};

    ghost Value = { Texts };

    ghost view = { λ t. record {
      shape = t.shape;
      arch = t.arch.now;
      netlist = t.netlist.now;
      net = t.files.net.now;
      place = t.files.place.now;
      route = t.files.route.now;
    } };
}

impl<'t> LayoutTexts<'t> {
    /// These texts, for a strip of that shape.
    pub fn new(shape: StripShape, arch: &'t [u8], netlist: &'t [u8], files: StripTexts<'t>) -> Self
        ensures { result ≡ record {
          shape = shape;
          arch = arch.entry.now;
          netlist = netlist.entry.now;
          net = files.entry.net.now;
          place = files.entry.place.now;
          route = files.entry.route.now;
        } }
    {
        LayoutTexts {
            shape,
            arch,
            netlist,
            files,
        }
    }
}
