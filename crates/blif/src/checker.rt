//! Finds the faults of the lines, one line after another.
ghost use Rattle.std.specs.Prelude.{◌≡◌, ◌≤◌, ◌||◌, ◌&&◌, ◌++◌, [], not, if◌then◌else◌, length, None, true, false, IfOk, IfNone, IsTrue};
ghost use Rattle.blif.specs.LineByLine.{sights_after, undeclared_names};
ghost use Rattle.blif.specs.Numbering.{numbers_of};
ghost use Rattle.blif.specs.Names.{has_name, names_with_index, repeats_from, texts, with_names};
ghost use Rattle.blif.specs.FirstFaults.{first_kind};
ghost use Rattle.blif.specs.LatchLines.{is_latch};
ghost use Rattle.blif.specs.LineNets.{latch_nets, latch_output, names_in, output_of};
ghost use Rattle.blif.specs.Sights.{kind_of, names_of, sights_of};
ghost use Rattle.blif.specs.BlifFaults.{at_words, driver_faults, faults_in, kind_faults, of_line, row_faults, table_faults};
ghost use Rattle.blif.specs.declared.fault.BlifFaultKind.TheVariants.{BadLatch, RepeatedOutput, TwoDrivers};

use crate::circuit::MAX_NETS;
use crate::cover::{Cover, cover_after, is_mixed, is_row};
use crate::driven::Driven;
use crate::fault::BlifFaultKind;
use crate::keyword::{Keyword, keyword_of, last_of};
use crate::latch_line::{control_of, is_latch};
use crate::names::{add_different, number_all};
use crate::nets::Nets;
use line_text::{Line, NameSet, Text};
use std::alloc::{AllocError, Global};
use std::marker::Model;

/// The state after the lines so far. Its value is the record of it.
#[derive(Drop)]
pub struct Checker<'t> {
    declared: NameSet<'t>,
    begun: bool,
    ended: bool,
    nets: NameSet<'t>,
    drivers: NameSet<'t>,
    clocks: NameSet<'t>,
    outputs: NameSet<'t>,
    cover: Option<Cover>,
}

impl<'t> Model for Checker<'t> {
    ghost use Rattle.blif.specs.Sights.{Sights};

    ghost Value = { Sights };

    ghost view = { λ c. record { declared = c.declared; begun = c.begun; ended = c.ended; nets = c.nets; drivers = c.drivers; clocks = c.clocks; outputs = c.outputs; cover = c.cover } };
}

impl<'t> Checker<'t> {
    /// The state before the first line of a text that declares these inputs.
    #[tactic(auto, unfolding(crate::specs::Sights::sights_of))]
    pub fn new(alloc: Global, declared: NameSet<'t>) -> Self
        ensures { result ≡ sights_of declared.entry [] }
    {
        Checker {
            declared,
            begun: false,
            ended: false,
            nets: NameSet::new(alloc),
            drivers: NameSet::new(alloc),
            clocks: NameSet::new(alloc),
            outputs: NameSet::new(alloc),
            cover: None,
        }
    }

    /// The nets of the lines so far, and which of them are driven.
    pub fn into_driven(self, alloc: Global) -> Result<Driven<'t>, AllocError>
        requires { length self.nets ≤ MAX_NETS }
        ensures { IfOk result (λ driven.
            driven ≡ record {
              nets = self.entry.nets;
              clocks = self.entry.clocks;
              drivers = self.entry.drivers;
            }) }
    {
        Driven::new(alloc, self.nets, self.clocks, self.drivers)
    }

    /// The least fault of the line. If the line has none, it is added to the state, and the numbers
    /// of the nets that it names are appended to `numbers`.
    pub fn check(
        &mut self,
        alloc: Global,
        line: &Line<'_, 't>,
        lut_size: u32,
        numbers: &mut Nets,
    ) -> Result<Option<BlifFaultKind>, AllocError>
        ensures least { IfOk result (λ fault.
            fault ≡ first_kind (faults_in lut_size self.old (kind_of line.now) line.now.words)) }
        ensures sights { IfOk result (λ fault.
            IfNone fault (self.new ≡ sights_after (kind_of line.now) line.now.words self.old)) }
        ensures few { IfOk result (λ fault. IfNone fault (length self.new.nets ≤ MAX_NETS)) }
        ensures numbers { IfOk result (λ fault.
            IfNone fault (numbers.new
            ≡ numbers.old ++ numbers_of self.old.nets (names_of line.now))) }
    {
        if self.ended {
            return Ok(Some(BlifFaultKind::Unknown));
        }
        let keyword = keyword_of(line);
        if let Some(fault) = self.kind_fault(alloc, keyword, line, lut_size)? {
            return Ok(Some(fault));
        }
        name_nets(&mut self.nets, numbers, keyword, line)?;
        self.cover = cover_after(keyword, line, self.cover);
        if !self.begun && keyword != Keyword::Model {
            return Ok(Some(BlifFaultKind::NoModel));
        }
        self.begun = true;
        if self.nets.len() > MAX_NETS {
            return Ok(Some(BlifFaultKind::OverLimit));
        }
        Ok(None)
    }

    /// The least fault that the line has by itself or with the lines above it. If it has none, the
    /// line is added to the state, except the nets that it names.
    fn kind_fault(
        &mut self,
        alloc: Global,
        keyword: Keyword,
        line: &Line<'_, 't>,
        lut_size: u32,
    ) -> Result<Option<BlifFaultKind>, AllocError>
        requires { self.old.ended ≡ false }
        ensures least { IfOk result (λ fault.
            fault ≡ first_kind (kind_faults lut_size self.old keyword line.now.words)) }
        ensures sights { IfOk result (λ fault.
            IfNone fault (self.new ≡ record (sights_after keyword line.now.words self.old) {
              begun = self.old.begun;
              nets = self.old.nets;
              cover = self.old.cover;
            })) }
    {
        let rest = line.without_first();
        let args = rest.words();
        match keyword {
            Keyword::Model if self.begun => Ok(Some(BlifFaultKind::Unknown)),
            Keyword::Model | Keyword::Skipped => Ok(None),
            Keyword::Inputs => drive(alloc, &self.clocks, &mut self.drivers, args),
            Keyword::Outputs => show(alloc, &mut self.outputs, args),
            Keyword::Clock => clock(alloc, &self.declared, &self.drivers, &mut self.clocks, args),
            Keyword::Names => table(alloc, lut_size, &self.clocks, &mut self.drivers, &rest),
            Keyword::Latch => latch(alloc, &self.clocks, &mut self.drivers, &rest),
            Keyword::End => {
                self.ended = true;
                Ok(None)
            }
            Keyword::Other => Ok(Some(BlifFaultKind::Unknown)),
            Keyword::Row => Ok(row_fault(self.cover, line)),
        }
    }
}

/// Adds the nets that the line names, and appends their numbers.
fn name_nets<'t>(
    nets: &mut NameSet<'t>,
    numbers: &mut Nets,
    keyword: Keyword,
    line: &Line<'_, 't>,
) -> Result<(), AllocError>
    ensures nets { IfOk result (λ _.
        nets.new ≡ with_names nets.old (names_in keyword line.now.words)) }
    ensures numbers { IfOk result (λ _. numbers.new
        ≡ numbers.old ++ numbers_of nets.old (names_in keyword line.now.words)) }
{
    let rest = line.without_first();
    match keyword {
        Keyword::Inputs | Keyword::Outputs | Keyword::Clock | Keyword::Names => {
            number_all(nets, rest.words(), numbers)
        }
        Keyword::Latch if is_latch(&rest) => name_latch(nets, numbers, &rest),
        _ => Ok(()),
    }
}

/// The first of the names that is already driven. If no name is, all of them are marked as
/// driven.
fn drive<'t>(
    alloc: Global,
    clocks: &NameSet<'t>,
    drivers: &mut NameSet<'t>,
    names: &[&'t [u8]],
) -> Result<Option<BlifFaultKind>, AllocError>
    ensures least { IfOk result (λ fault.
        fault ≡ first_kind (driver_faults (clocks.now ++ drivers.old) (texts names.now))) }
    ensures drivers { IfOk result (λ fault.
        IfNone fault (drivers.new ≡ drivers.old ++ texts names.now)) }
{
    for name in names {
        if clocks.contains(name) || !drivers.add(name)? {
            return Ok(Some(BlifFaultKind::TwoDrivers(Text::from_slice(alloc, name)?)));
        }
    }
    Ok(None)
}

/// The first of the names that is already an output. If no name is, all of them become outputs.
fn show<'t>(
    alloc: Global,
    outputs: &mut NameSet<'t>,
    names: &[&'t [u8]],
) -> Result<Option<BlifFaultKind>, AllocError>
    ensures least { IfOk result (λ fault.
        fault ≡ first_kind (at_words RepeatedOutput
        (repeats_from 0 outputs.old (texts names.now)))) }
    ensures outputs { IfOk result (λ fault.
        IfNone fault (outputs.new ≡ outputs.old ++ texts names.now)) }
{
    match add_different(outputs, names)? {
        Some(name) => Ok(Some(BlifFaultKind::RepeatedOutput(Text::from_slice(alloc, name)?))),
        None => Ok(None),
    }
}

/// The first of the names that is not a declared input and is already driven. If no name is, those
/// that are not declared inputs become clocks.
fn clock<'t>(
    alloc: Global,
    declared: &NameSet<'t>,
    drivers: &NameSet<'t>,
    clocks: &mut NameSet<'t>,
    names: &[&'t [u8]],
) -> Result<Option<BlifFaultKind>, AllocError>
    ensures least { IfOk result (λ fault.
        fault ≡ first_kind (at_words TwoDrivers
        (names_with_index (λ name. not (has_name declared.now name) && has_name drivers.now name)
        (texts names.now)))) }
    ensures clocks { IfOk result (λ fault.
        IfNone fault (clocks.new
        ≡ with_names clocks.old (undeclared_names declared.now (texts names.now)))) }
{
    for name in names {
        if !declared.contains(name) {
            if drivers.contains(name) {
                return Ok(Some(BlifFaultKind::TwoDrivers(Text::from_slice(alloc, name)?)));
            }
            clocks.add(name)?;
        }
    }
    Ok(None)
}

/// The least fault of the table on this line. If it has none, its output is marked as driven.
fn table<'t>(
    alloc: Global,
    lut_size: u32,
    clocks: &NameSet<'t>,
    drivers: &mut NameSet<'t>,
    args: &Line<'_, 't>,
) -> Result<Option<BlifFaultKind>, AllocError>
    ensures least { IfOk result (λ fault.
        fault ≡ first_kind (table_faults lut_size (clocks.now ++ drivers.old) args.now.words)) }
    ensures drivers { IfOk result (λ fault.
        IfNone fault (drivers.new ≡ drivers.old ++ output_of args.now.words)) }
{
    let names = args.words();
    if names.is_empty() {
        return Ok(Some(BlifFaultKind::BadCover));
    }
    if names.len() - 1 > lut_size as usize {
        return Ok(Some(BlifFaultKind::TooWide));
    }
    drive(alloc, clocks, drivers, &[last_of(args)])
}

/// The least fault of the latch on this line. If it has none, its output is marked as driven.
fn latch<'t>(
    alloc: Global,
    clocks: &NameSet<'t>,
    drivers: &mut NameSet<'t>,
    args: &Line<'_, 't>,
) -> Result<Option<BlifFaultKind>, AllocError>
    ensures least { IfOk result (λ fault.
        fault ≡ first_kind (if is_latch args.now.words
        then driver_faults (clocks.now ++ drivers.old) (latch_output args.now.words)
        else of_line BadLatch)) }
    ensures drivers { IfOk result (λ fault.
        IfNone fault (drivers.new ≡ drivers.old ++ latch_output args.now.words)) }
{
    if !is_latch(args) {
        return Ok(Some(BlifFaultKind::BadLatch));
    }
    drive(alloc, clocks, drivers, &args.words()[1..2])
}

/// Adds the nets of a latch, and appends their numbers.
fn name_latch<'t>(
    nets: &mut NameSet<'t>,
    numbers: &mut Nets,
    args: &Line<'_, 't>,
) -> Result<(), AllocError>
    requires { IsTrue (is_latch args.now.words) }
    ensures nets { IfOk result (λ _. nets.new ≡ with_names nets.old (latch_nets 2 args.now.words)) }
    ensures numbers { IfOk result (λ _. numbers.new
        ≡ numbers.old ++ numbers_of nets.old (latch_nets 2 args.now.words)) }
{
    number_all(nets, &args.words()[..2], numbers)?;
    match control_of(args) {
        Some(control) => number_all(nets, &[control], numbers),
        None => Ok(()),
    }
}

/// The least fault of a row that follows this cover.
fn row_fault(cover: Option<Cover>, line: &Line<'_, '_>) -> Option<BlifFaultKind>
    ensures { result ≡ first_kind (row_faults cover line.now.words) }
{
    match cover {
        None => Some(BlifFaultKind::Unknown),
        Some(cover) => {
            if !is_row(cover.inputs, line) {
                Some(BlifFaultKind::BadCover)
            } else if is_mixed(cover.output, line) {
                Some(BlifFaultKind::MixedCover)
            } else {
                None
            }
        }
    }
}
