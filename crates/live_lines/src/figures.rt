//! How full a service is, as the operator is told.
ghost use Rattle.std.specs.Prelude.{◌≡◌, ◌≤◌, ◌++◌, length, OnOk};
ghost use Rattle.std.specs.List.{flat_map};
ghost use Rattle.live_lines.specs.Prelude.{MAX_ADMISSIONS, live_of, sink_text};
ghost use Rattle.live_lines.specs.Figures.{AppendsFigures, AppendsRow, head_text, tenancy_text};

use itoa::Buffer;
use line_text::{MemorySink, write_slices};
use operator::Operator;
use service_core::{MAX_ADMISSIONS, Service};
use std::alloc::AllocError;

/// Appends the reply to a line of that number that asks for the figures: the number, how many more
/// tenancies can be admitted, and for each live tenancy by rising id its id, its name, the entries
/// of its journal, and the bytes that their texts count as.
pub(crate) fn push_figures(
    reply: &mut MemorySink,
    core: &Service,
    names: &Operator<'_>,
    number: u64,
) -> Result<(), AllocError>
    requires { length names.now ≡ length core.now.histories }
    ensures { OnOk result (AppendsFigures core.now number names.now (sink_text reply.old)
        (sink_text reply.new)) }
{
    push_head(reply, number, core.admissions())?;
    for place in 0..core.admissions() {
        match names.name_of(place + 1) {
            Some(name) => push_row(reply, core, place + 1, name)?,
            None => unreachable!(),
        }
    }
    Ok(())
}

/// Appends the lines that are of no tenancy.
fn push_head(reply: &mut MemorySink, number: u64, admitted: u32) -> Result<(), AllocError>
    requires { admitted ≤ MAX_ADMISSIONS }
    ensures { OnOk result (sink_text reply.new ≡ sink_text reply.old ++ head_text number admitted) }
{
    let (mut numbers, mut rooms) = (Buffer::new(), Buffer::new());
    let number = numbers.format(number).as_bytes();
    let left = rooms.format(MAX_ADMISSIONS as u32 - admitted).as_bytes();
    push_slices(
        reply,
        &[b"served ", number, b"\nadmissions_left ", left, b"\n"],
    )
}

/// Appends the line of a tenancy, if it is live.
fn push_row(reply: &mut MemorySink, core: &Service, id: u32, name: &[u8]) -> Result<(), AllocError>
    ensures { OnOk result (AppendsRow (live_of core.now.histories id) id name.now
        (sink_text reply.old) (sink_text reply.new)) }
{
    let Some(entries) = core.entries(id) else {
        return Ok(());
    };
    let bytes = core.text_bytes(id).unwrap_or(0);
    push_tenancy(reply, id, name, entries, bytes)
}

/// Appends a tenancy's line.
fn push_tenancy(
    reply: &mut MemorySink,
    id: u32,
    name: &[u8],
    entries: u32,
    bytes: u64,
) -> Result<(), AllocError>
    ensures { OnOk result (sink_text reply.new ≡ sink_text reply.old
        ++ tenancy_text id name.now entries bytes) }
{
    let (mut ids, mut counts, mut sums) = (Buffer::new(), Buffer::new(), Buffer::new());
    let id = ids.format(id).as_bytes();
    let entries = counts.format(entries).as_bytes();
    let bytes = sums.format(bytes).as_bytes();
    push_slices(
        reply,
        &[
            b"tenancy ",
            id,
            b" ",
            name,
            b" ",
            entries,
            b" ",
            bytes,
            b"\n",
        ],
    )
}

/// Appends the parts one after the other.
fn push_slices(reply: &mut MemorySink, parts: &[&[u8]]) -> Result<(), AllocError>
    ensures { OnOk result (sink_text reply.new
        ≡ sink_text reply.old ++ flat_map (λ part. part.now) parts.now) }
{
    match write_slices(reply, parts) {
        Ok(()) => Ok(()),
        Err(_) => Err(AllocError),
    }
}
