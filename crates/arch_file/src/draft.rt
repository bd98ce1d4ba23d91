//! The architecture as far as the lines read so far describe it.
ghost use Rattle.std.specs.Prelude.{◌≡◌, ◌<◌, List, [], OnOk, true, false, not, nat_lt, ◌≤◌, ◌&&◌, ◌==◌, slice_index_or, slice_set};
ghost use Rattle.std.specs.List.{find};
ghost use Rattle.arch_file.specs.declared.arch.TheConstants.{MAX_INPUTS, MAX_TRACKS};
ghost use Rattle.line_text.specs.Lines.{JoinedLine};
ghost use Rattle.arch_file.specs.Draft.{AddsPin, Ends, error_at, FollowsLines, Reads, ReadsKeyword, Sets};
ghost use Rattle.arch_file.specs.Readings.{Finds};
ghost use Rattle.arch_file.specs.Pins.{is_input_class, output_count};
ghost use Rattle.arch_file.specs.Values.{value_faults};
ghost use Rattle.arch_file.specs.Ranks.{rank_of};
ghost use Rattle.arch_file.specs.Words.{is_pin_keyword, required_keywords, same_keyword};

use crate::arch::{Arch, MAX_CLUSTER_SIZE, MAX_IO_RAT, MAX_LUT_SIZE, Pin, PinClass, Pins};
use crate::fault::{ArchError, ArchFault, ArchFaultKind, ArchKeyword};
use crate::pin_line::pin_in;
use crate::segment::check_segment;
use crate::values::{self, FcType};
use crate::words::{is_unread, keyword_of, required_keywords};
use line_text::{Line, TextError};
use std::alloc::{AllocError, Global};

/// Why a line is refused.
pub(crate) type Refusal = TextError<ArchFaultKind>;

/// The refusal of the line with this number.
pub(crate) fn at_line(refusal: Refusal, line: u32) -> ArchError
    ensures { result ≡ error_at line refusal }
{
    match refusal {
        TextError::NoMemory => TextError::NoMemory,
        TextError::Fault(kind) => TextError::Fault(ArchFault { line, kind }),
    }
}

impl From<ArchFaultKind> for TextError<ArchFaultKind> {
    ghost use Rattle.std.specs.Prelude.{◌≡◌};
    ghost use Rattle.line_text.specs.declared.text_error.TextError.TheVariants.{Fault};

    ghost from_gives = { λ kind refusal. refusal ≡ Fault kind };

    fn from(kind: ArchFaultKind) -> Self {
        TextError::Fault(kind)
    }
}

/// The values of the lines read so far. A value whose keyword was not read is 0, or absolute.
#[derive(Drop)]
pub(crate) struct Draft {
    /// Whether each keyword was read, by rank.
    stands: [bool; 14],
    io_rat: u32,
    cluster_size: u32,
    lut_size: u32,
    fc_type: FcType,
    /// In millionths, as are the next two.
    fc_output: u64,
    fc_input: u64,
    fc_pad: u64,
    pins: Vec<Pin>,
    /// The number of inputs among the pins.
    inputs: u32,
    has_clock: bool,
}

impl Draft {
    /// The draft before any line is read.
    pub(crate) fn new(alloc: Global) -> Self
        ensures { FollowsLines result [] }
    {
        Draft {
            stands: [false; 14],
            io_rat: 0,
            cluster_size: 0,
            lut_size: 0,
            fc_type: FcType::Absolute,
            fc_output: 0,
            fc_input: 0,
            fc_pad: 0,
            pins: Vec::new(alloc),
            inputs: 0,
            has_clock: false,
        }
    }

    /// Sets the value after a keyword, if it is lawful.
    #[tactic(auto, unfolding(crate::specs::Values::value_faults))]
    fn set(&mut self, keyword: ArchKeyword, line: &Line<'_, '_>) -> Result<(), ArchFaultKind>
        ensures faults { Finds (value_faults keyword line.now.words) result }
        ensures sets { OnOk result (Sets self.old keyword line.now.words self.new) }
    {
        match keyword {
            ArchKeyword::IoRat => self.io_rat = values::whole_up_to(line, MAX_IO_RAT)?,
            ArchKeyword::SubblocksPerClb => {
                self.cluster_size = values::whole_up_to(line, MAX_CLUSTER_SIZE)?;
            }
            ArchKeyword::SubblockLutSize => {
                self.lut_size = values::whole_up_to(line, MAX_LUT_SIZE)?;
            }
            ArchKeyword::ChanWidthIo => values::check_one(keyword, line)?,
            ArchKeyword::ChanWidthX | ArchKeyword::ChanWidthY => {
                values::check_width(keyword, line)?;
            }
            ArchKeyword::FcType => self.fc_type = values::fc_type(line)?,
            ArchKeyword::FcOutput => self.fc_output = values::decimal(line)?,
            ArchKeyword::FcInput => self.fc_input = values::decimal(line)?,
            ArchKeyword::FcPad => self.fc_pad = values::decimal(line)?,
            ArchKeyword::SwitchBlockType => values::check_switch_block(line)?,
            ArchKeyword::Inpin | ArchKeyword::Outpin | ArchKeyword::Segment => {}
        }
        Ok(())
    }

    /// Whether the keyword was read.
    fn has(&self, keyword: ArchKeyword) -> bool
        ensures { result ≡ slice_index_or self.now.stands (rank_of keyword) false }
    {
        self.stands[keyword.rank()]
    }

    /// Marks the keyword as read.
    fn mark(&mut self, keyword: ArchKeyword)
        ensures { self.new ≡ record self.old {
          stands = slice_set self.old.stands (rank_of keyword) true;
        } }
    {
        self.stands[keyword.rank()] = true;
    }

    /// Adds a pin.
    fn add(&mut self, pin: Pin) -> Result<(), AllocError>
        requires { is_input_class pin.class ≡ true → self.old.inputs < MAX_INPUTS }
        ensures { OnOk result (AddsPin self.old pin self.new) }
    {
        self.pins.push(pin)?;
        match pin.class {
            PinClass::Input => {
                self.inputs += 1;
                Ok(())
            }
            PinClass::Output => Ok(()),
            PinClass::Clock => {
                self.has_clock = true;
                Ok(())
            }
        }
    }

    /// Reads a pin's line, after its keyword.
    fn read_pin(&mut self, keyword: ArchKeyword, line: &Line<'_, '_>) -> Result<(), Refusal>
        requires { is_pin_keyword keyword ≡ true }
        ensures { (before : List JoinedLine) → FollowsLines self.old before
            → ReadsKeyword before keyword line.now.words result self.new }
    {
        let pin = pin_in(keyword, line, self.inputs, self.has_clock)?;
        self.add(pin)?;
        self.mark(keyword);
        Ok(())
    }

    /// Reads a segment's line, after its keyword.
    fn read_segment(&mut self, keyword: ArchKeyword, line: &Line<'_, '_>) -> Result<(), Refusal>
        requires { same_keyword keyword ArchKeyword.Segment ≡ true }
        ensures { (before : List JoinedLine) → FollowsLines self.old before
            → ReadsKeyword before keyword line.now.words result self.new }
    {
        check_segment(line, self.has(keyword))?;
        self.mark(keyword);
        Ok(())
    }

    /// Reads a value's line, after its keyword.
    fn read_value(&mut self, keyword: ArchKeyword, line: &Line<'_, '_>) -> Result<(), Refusal>
        requires pin { is_pin_keyword keyword ≡ false }
        requires segment { same_keyword keyword ArchKeyword.Segment ≡ false }
        ensures { (before : List JoinedLine) → FollowsLines self.old before
            → ReadsKeyword before keyword line.now.words result self.new }
    {
        if self.has(keyword) {
            return Err(Refusal::Fault(ArchFaultKind::Repeated));
        }
        self.set(keyword, line)?;
        self.mark(keyword);
        Ok(())
    }

    /// Reads a line, after its keyword.
    fn read_keyword(&mut self, keyword: ArchKeyword, line: &Line<'_, '_>) -> Result<(), Refusal>
        ensures { (before : List JoinedLine) → FollowsLines self.old before
            → ReadsKeyword before keyword line.now.words result self.new }
    {
        if keyword.is_pin() {
            return self.read_pin(keyword, line);
        }
        if keyword.is_segment() {
            return self.read_segment(keyword, line);
        }
        self.read_value(keyword, line)
    }

    /// Reads a line.
    pub(crate) fn read(&mut self, line: &Line<'_, '_>) -> Result<(), Refusal>
        ensures { (before : List JoinedLine) → FollowsLines self.old before
            → Reads before line.now result self.new }
    {
        match line.split_first() {
            None => Ok(()),
            Some((word, rest)) => match keyword_of(word) {
                Some(keyword) => self.read_keyword(keyword, &rest),
                None => {
                    if is_unread(word) {
                        Ok(())
                    } else {
                        Err(Refusal::Fault(ArchFaultKind::Unknown))
                    }
                }
            },
        }
    }

    /// The first required keyword that was not read.
    fn first_missing(&self) -> Option<ArchKeyword>
        ensures { result
            ≡ find (λ keyword. not (slice_index_or self.now.stands (rank_of keyword) false))
            required_keywords }
    {
        required_keywords()
            .iter()
            .copied()
            .find(|keyword| !self.has(*keyword))
    }

    /// The number of output pins.
    fn outputs(&self) -> usize
        ensures { result ≡ output_count self.now.pins.items }
    {
        self.pins
            .iter()
            .filter(|pin| matches!(pin.class, PinClass::Output))
            .count()
    }

    /// Whether there is an input, as many outputs as BLEs, and a clock.
    fn has_its_pins(&self) -> bool
        ensures { result ≡ (nat_lt 0 self.now.inputs
            && ((output_count self.now.pins.items == self.now.cluster_size)
            && self.now.has_clock)) }
    {
        0 < self.inputs && self.outputs() == self.cluster_size as usize && self.has_clock
    }

    /// The architecture for this many tracks, once all lines are read.
    pub(crate) fn finish(self, tracks: u32) -> Result<Arch, ArchFaultKind>
        requires few { 1 ≤ tracks }
        requires many { tracks ≤ MAX_TRACKS }
        ensures { (lines : List JoinedLine) → FollowsLines self lines → Ends lines tracks result }
    {
        if let Some(keyword) = self.first_missing() {
            return Err(ArchFaultKind::Missing(keyword));
        }
        if !self.has_its_pins() {
            return Err(ArchFaultKind::BadClass);
        }
        Ok(Arch {
            io_rat: self.io_rat,
            cluster_size: self.cluster_size,
            lut_size: self.lut_size,
            tracks,
            fc_output: values::reach(self.fc_type, self.fc_output, tracks),
            fc_input: values::reach(self.fc_type, self.fc_input, tracks),
            fc_pad: values::reach(self.fc_type, self.fc_pad, tracks),
            pins: Pins::new(self.pins),
        })
    }
}
