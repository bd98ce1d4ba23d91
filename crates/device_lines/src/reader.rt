//! Reads what the service's program printed.
ghost use Rattle.std.specs.Prelude.{◌≡◌, IfNone, IfOk};
ghost use Rattle.device_lines.specs.Lines.{change_in, listed_in, owned_in, owned_node, owner_count};
ghost use Rattle.device_lines.specs.Owning.{AreOwners};
ghost use Rattle.device_lines.specs.Reading.{AreLines, Gives, IsRead, IsStep, seen_in_list, changed_by, device_in, error_at, first_line, owner_fault, inside_line, last_fault, line_read, lines_of, lines_read, list_line, live_after, missing_part, nothing_seen, other_line, owner_seen, reply_line, seen_of, with_change, with_owned};

use crate::changes::{Change, change_of};
use crate::device::{ListedDevice, OwnedResource};
use crate::fault::{DeviceError, DeviceFault, InputFault};
use crate::foreign::{first_foreign, foreign_fault};
use crate::lines::next_line;
use crate::list_line::read_tenancy;
use crate::owned_line::read_owned;
use crate::replies::{begins_with_digit, is_heading, is_silent, owner_count};
use crate::size::DeviceSize;
use line_text::{TextError, is_word};
use std::alloc::Global;

/// The part of the input that a line is in.
#[derive(Clone, Copy, PartialEq, Eq)]
enum Place {
    /// Before the operator's section.
    Before,
    /// In the operator's section.
    Inside,
    /// After it, in a session's section.
    Behind,
}

/// Why a line is not taken.
type Refusal = TextError<DeviceFault>;

/// The refusal as the error for the line with that number.
fn at_line(refusal: Refusal, line: usize) -> DeviceError
    ensures { result ≡ error_at line refusal }
{
    match refusal {
        Refusal::NoMemory => DeviceError::NoMemory,
        Refusal::Fault(fault) => DeviceError::Fault(InputFault { fault, line }),
    }
}

/// What was read so far.
#[derive(Drop)]
struct Reader<'t> {
    device: ListedDevice<'t>,
    place: Place,
    /// Whether the previous line is one of `op list`.
    in_list: bool,
    /// The number of owners' lines still to come.
    awaited: u32,
    /// The number of the line before the first owner's.
    heading: usize,
    /// The number of live tenancies, by the admissions and evictions.
    live: u32,
    /// The number of the last line that changed strips or owners; at first that of the section's
    /// first line.
    changed: usize,
    /// Whether the owners were read after that line.
    has_owners: bool,
}

impl<'t> Reader<'t> {
    /// Reads the lines of a text, and returns how many there are. Fails at the first faulty one.
    fn lines(&mut self, text: &'t [u8]) -> Result<usize, DeviceError>
        requires { seen_of self.old ≡ nothing_seen self.old.device.size }
        ensures { AreLines (lines_read (lines_of text.now) (nothing_seen self.old.device.size) 0)
            (seen_of self.new) result }
    {
        let mut rest = Some(text);
        let mut lines = 0usize;
        while let Some(bytes) = rest {
            let (line, later) = next_line(bytes);
            lines = lines.saturating_add(1);
            if let Err(refusal) = self.line(line, lines) {
                return Err(at_line(refusal, lines));
            }
            rest = later;
        }
        Ok(lines)
    }

    /// Reads a line, which has that number.
    fn line(&mut self, line: &'t [u8], number: usize) -> Result<(), Refusal>
        ensures { IsStep (line_read (seen_of self.old) line.now number) (seen_of self.new) result }
    {
        match self.place {
            Place::Behind => Ok(()),
            Place::Before => self.read_first(line, number),
            Place::Inside => self.read_reply(line, number),
        }
    }

    /// Reads the first line, which has that number.
    fn read_first(&mut self, line: &[u8], number: usize) -> Result<(), Refusal>
        ensures { IsStep (first_line (seen_of self.old) line.now number) (seen_of self.new) result }
    {
        if !is_word(line, "== op") {
            return Err(Refusal::Fault(DeviceFault::NoSection));
        }
        self.place = Place::Inside;
        self.changed = number;
        Ok(())
    }

    /// Reads a line of the operator's section.
    fn read_reply(&mut self, line: &'t [u8], number: usize) -> Result<(), Refusal>
        ensures { IsStep (inside_line (seen_of self.old) line.now number) (seen_of self.new)
            result }
    {
        if self.awaited == 0 {
            return self.reply(line, number);
        }
        self.read_owner(line, self.awaited - 1)
    }

    /// Reads a line of the operator's section that isn't an owner's.
    fn reply(&mut self, line: &'t [u8], number: usize) -> Result<(), Refusal>
        ensures { IsStep (reply_line (seen_of self.old) line.now number) (seen_of self.new) result }
    {
        if begins_with_digit(line) {
            return self.tenancy(line);
        }
        self.in_list = false;
        if is_heading(line) {
            self.place = Place::Behind;
            return Ok(());
        }
        self.read_other(line, number)
    }

    /// Reads a reply that isn't a line of a list, nor the end of the section.
    fn read_other(&mut self, line: &[u8], number: usize) -> Result<(), Refusal>
        ensures { IsStep (other_line (seen_of self.old) line.now number (owner_count line.now))
            (seen_of self.new) result }
    {
        if let Some(count) = owner_count(line) {
            self.device.owned.clear();
            self.awaited = count;
            self.heading = number;
            self.has_owners = true;
            return Ok(());
        }
        if !is_silent(line) {
            return Err(Refusal::Fault(DeviceFault::UnknownLine));
        }
        self.read_silent(line, number);
        Ok(())
    }

    /// Reads a line without anything to read, which may report a change.
    fn read_silent(&mut self, line: &[u8], number: usize)
        ensures { seen_of self.new ≡ with_change (seen_of self.old) number (change_in line.now) }
    {
        let Some(change) = change_of(line) else {
            return;
        };
        self.change(change, number);
    }

    /// After a change of the device, what was read before it counts no more.
    fn change(&mut self, change: Change, number: usize)
        ensures { seen_of self.new ≡ changed_by (seen_of self.old) number change }
    {
        self.live = live_after(self.live, change);
        self.device.tenancies.clear();
        self.device.owned.clear();
        self.changed = number;
        self.has_owners = false;
    }

    /// Reads a line of `op list`.
    fn tenancy(&mut self, line: &'t [u8]) -> Result<(), Refusal>
        ensures { IsStep (list_line (seen_of self.old) (listed_in self.old.device.size line.now))
            (seen_of self.new) result }
    {
        let Some(tenancy) = read_tenancy(self.device.size, line) else {
            return Err(Refusal::Fault(DeviceFault::BadTenancy));
        };
        self.begin(tenancy.id);
        if !self.device.is_parted(&tenancy) {
            return Err(Refusal::Fault(DeviceFault::NotParted));
        }
        match self.device.tenancies.push(tenancy) {
            Ok(()) => Ok(()),
            Err(_) => Err(Refusal::NoMemory),
        }
    }

    /// Begins a new list, unless a line with that id goes on with the present one.
    fn begin(&mut self, id: u32)
        ensures { seen_of self.new ≡ seen_in_list (seen_of self.old) id }
    {
        if !self.in_list || !self.device.is_next(id) {
            self.device.tenancies.clear();
        }
        self.in_list = true;
    }

    /// Reads an owner's line, after which `rest` more are to come.
    fn read_owner(&mut self, line: &[u8], rest: u32) -> Result<(), Refusal>
        ensures { IsStep (owner_seen (seen_of self.old) rest (owned_in self.old.device.size line.now))
            (seen_of self.new) result }
    {
        match read_owned(self.device.size, line) {
            Ok(owned) => self.add(owned, rest),
            Err(fault) => Err(Refusal::Fault(fault)),
        }
    }

    /// Adds an owned node, after which `rest` more are to come.
    fn add(&mut self, owned: OwnedResource, rest: u32) -> Result<(), Refusal>
        ensures { IsStep (with_owned (seen_of self.old) rest (owned_node owned)) (seen_of self.new)
            result }
    {
        if !self.device.goes_on_with(owned) {
            return Err(Refusal::Fault(DeviceFault::OutOfOrder));
        }
        match self.device.owned.push(owned) {
            Ok(()) => {
                self.awaited = rest;
                Ok(())
            }
            Err(_) => Err(Refusal::NoMemory),
        }
    }

    /// What is missing at the end of the input: all owners' lines, the list or the owners after the
    /// last change. `lines` is the number of the input's lines.
    fn missing_part(&self, lines: usize) -> Option<InputFault>
        ensures { result ≡ missing_part (seen_of self.now) lines }
    {
        let (fault, line) = if self.place == Place::Before {
            (DeviceFault::NoSection, lines)
        } else if self.awaited > 0 {
            (DeviceFault::Unfinished, lines)
        } else if self.live > 0 && self.device.tenancies.is_empty() {
            (DeviceFault::NoList, self.changed)
        } else if !self.has_owners {
            (DeviceFault::NoOwners, self.changed)
        } else {
            return None;
        };
        Some(InputFault { fault, line })
    }

    /// Reads a whole text.
    fn read(&mut self, text: &'t [u8]) -> Result<(), DeviceError>
        requires { seen_of self.old ≡ nothing_seen self.old.device.size }
        ensures owners { IfOk result (λ _. AreOwners self.new.device) }
        ensures exact { IsRead (device_in self.old.device.size text.now) (seen_of self.new)
            result }
    {
        let lines = match self.lines(text) {
            Ok(lines) => lines,
            Err(error) => return Err(error),
        };
        match self.last_fault(lines) {
            Some(fault) => Err(DeviceError::Fault(fault)),
            None => Ok(()),
        }
    }

    /// The fault of the end of the input, which has that number of lines: something is missing, or
    /// a node isn't in its owner's strip.
    fn last_fault(&self, lines: usize) -> Option<InputFault>
        ensures none { IfNone result (AreOwners self.now.device) }
        ensures exact { result ≡ last_fault (seen_of self.now) lines }
    {
        if let Some(missing) = self.missing_part(lines) {
            return Some(missing);
        }
        let number = first_foreign(&self.device)?;
        Some(self.owner_fault(number))
    }

    /// The fault of the owner's line of that number, from 0.
    fn owner_fault(&self, number: usize) -> InputFault
        ensures { result ≡ owner_fault (seen_of self.now) number }
    {
        InputFault {
            fault: foreign_fault(&self.device, number),
            line: self.heading.saturating_add(number).saturating_add(1),
        }
    }
}

/// The number of live tenancies after a change.
fn live_after(live: u32, change: Change) -> u32
    ensures { result ≡ live_after live change }
{
    match change {
        Change::Admission => live.saturating_add(1),
        Change::Eviction => live.saturating_sub(1),
        Change::Other => live,
    }
}

/// Reads the device of that size from the operator's section of what the service's program printed.
///
/// - The first line is `== op`. The section ends before the next line that begins with `== `, and
///   what follows is not read.
/// - A line `ID NAME OFFSET WIDTH STATE` is one of `op list`. The last such list counts.
/// - `owners COUNT` is followed by COUNT lines `NODE owner ID`, in node order. The last of them
///   count.
/// - Other replies to the operator are skipped; any other line is refused. After a reply to an
///   admission, an eviction or a move, or after a finished step, lists and owners before it count
///   no more, so that the list and the owners are of one moment.
///
/// At the end the owners must have been read after the last such reply, and the list too, unless no
/// tenancy is live (a list of no tenancies has no lines). Then each owned wire, pin and pad must be
/// in the strip of a listed tenancy. The fault of the first faulty line is returned; a fault of
/// these last checks, in this order, only if there is no other.
pub fn read_device(
    alloc: Global,
    size: DeviceSize,
    text: &[u8],
) -> Result<ListedDevice<'_>, DeviceError>
    ensures owners { IfOk result (λ device. AreOwners device) }
    ensures exact { Gives (device_in size text.now) result }
{
    let mut reader = Reader {
        device: ListedDevice::new(alloc, size),
        place: Place::Before,
        in_list: false,
        awaited: 0,
        heading: 0,
        live: 0,
        changed: 0,
        has_owners: false,
    };
    let ended = reader.read(text);
    let Reader {
        device,
        place: _,
        in_list: _,
        awaited: _,
        heading: _,
        live: _,
        changed: _,
        has_owners: _,
    } = reader;
    match ended {
        Ok(()) => Ok(device),
        Err(error) => {
            drop(device);
            Err(error)
        }
    }
}
