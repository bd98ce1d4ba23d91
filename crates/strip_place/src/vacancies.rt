//! The sites that are taken.
ghost use Rattle.std.specs.Prelude.{◌≡◌, ◌+◌, ◌<◌, ◌≤◌, All, Bool, drop, length, IfOk};
ghost use Rattle.std.specs.List.{prefix_len};
ghost use Rattle.std.specs.Option.{ForSome};
ghost use Rattle.strip_place.specs.Prelude.{Logic, Pad};
ghost use Rattle.strip_place.specs.Vacancies.{AreSitesOf, all_free, lowest_vacant, marks_with, without_lowest};

use grid::Kind;
use std::alloc::{AllocError, Global};
use std::marker::Model;

/// The sites that are taken, and for each kind a site from which the free ones begin. Its value is
/// a record of these.
#[derive(Drop)]
pub(crate) struct Vacancies {
    marks: Vec<bool>,
    logic: usize,
    pads: usize,
}

impl Model for Vacancies {
    ghost use Rattle.strip_place.specs.Vacancies.{IsVacancies, Vacancies};

    ghost Value = { Vacancies };

    ghost view = { λ v. record { marks = v.marks.items; logic = v.logic; pads = v.pads } };

    ghost invariant = { λ v. IsVacancies v.marks.items v.logic v.pads };
}

impl Vacancies {
    /// Sites for logic blocks, followed by sites for pads; the kept sites are taken.
    pub(crate) fn new(
        alloc: Global,
        logic: usize,
        pads: usize,
        kept: &[Option<u32>],
    ) -> Result<Self, AllocError>
        requires { AreSitesOf (logic + pads) kept.now }
        ensures { IfOk result (λ vacancies.
            vacancies ≡ record {
              marks = marks_with (all_free (logic + pads)) kept.now;
              logic = 0;
              pads = logic;
            }) }
    {
        let mut marks = Vec::from_elem(alloc, false, logic + pads)?;
        mark(marks.as_mut_slice(), kept);
        Ok(Vacancies {
            marks,
            logic: 0,
            pads: logic,
        })
    }

    /// Takes the least free site of a kind, and returns it.
    pub(crate) fn take(&mut self, kind: Kind) -> u32
        requires { lowest_vacant self.old kind < length self.old.marks }
        ensures site { result ≡ lowest_vacant self.old kind }
        ensures taken { self.new ≡ without_lowest self.old kind }
    {
        match kind {
            Kind::Logic => {
                let site = first_free(self.marks.as_slice(), self.logic);
                self.marks[site] = true;
                self.logic = site;
                site as u32
            }
            Kind::Pad => {
                let site = first_free(self.marks.as_slice(), self.pads);
                self.marks[site] = true;
                self.pads = site;
                site as u32
            }
        }
    }
}

/// Marks the kept sites.
fn mark(marks: &mut [bool], kept: &[Option<u32>])
    requires { All (λ site. ForSome site (λ number. number < length marks.old)) kept.now }
    ensures { marks.new ≡ marks_with marks.old kept.now }
{
    for site in kept {
        if let Some(site) = site {
            marks[*site as usize] = true;
        }
    }
}

/// The first site without a mark from this one on, or the number of sites if there is no such site.
fn first_free(marks: &[bool], from: usize) -> usize
    requires { from ≤ length marks.now }
    ensures { result ≡ from + prefix_len (λ (mark : Bool). mark) (drop from marks.now) }
{
    let mut site = from;
    while site < marks.len() && marks[site] {
        site += 1;
    }
    site
}
