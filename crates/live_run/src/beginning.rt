//! The first line of a log.
ghost use Rattle.std.specs.Prelude.{◌≡◌, IfOk};
ghost use Rattle.live_run.specs.Prelude.{Writes};
ghost use Rattle.live_run.specs.Headings.{heading, memory_words, sizes_words, sum_words};

use crate::options::{Options, TENANT_MEMORY};
use crate::sums::sum_of;
use itoa::Buffer;
use line_text::{Failed, MemorySink, Sink, write_slices};
use std::alloc::{AllocError, Global};

/// The line that a log of these options and that architecture begins with. It names what counts for
/// the replies: the sizes, and the memory of a tenancy if that isn't the usual one.
pub fn first_line(
    alloc: Global,
    options: &Options,
    architecture: &[u8],
) -> Result<Vec<u8>, AllocError>
    ensures { IfOk result (λ line. line.items ≡ heading options.now architecture.now) }
{
    let mut line = MemorySink::new(alloc);
    match write_heading(&mut line, options, architecture) {
        Ok(()) => Ok(line.into_bytes()),
        Err(_) => Err(AllocError),
    }
}

/// Writes the line.
fn write_heading<K: Sink>(
    sink: &mut K,
    options: &Options,
    architecture: &[u8],
) -> Result<(), Failed>
    ensures { Writes K.contents K.has_failed sink.old sink.new
        (heading options.now architecture.now) result }
{
    write_sizes(sink, options)?;
    write_memory(sink, options.tenant_memory)?;
    write_sum(sink, architecture)
}

/// Writes the sizes.
fn write_sizes<K: Sink>(sink: &mut K, options: &Options) -> Result<(), Failed>
    ensures { Writes K.contents K.has_failed sink.old sink.new (sizes_words options.now) result }
{
    let mut tracks = Buffer::new();
    let mut columns = Buffer::new();
    let mut rows = Buffer::new();
    write_slices(
        sink,
        &[
            b"# fpgad_live --tracks ",
            tracks.format(options.tracks).as_bytes(),
            b" --columns ",
            columns.format(options.columns).as_bytes(),
            b" --rows ",
            rows.format(options.rows).as_bytes(),
        ],
    )
}

/// Writes the memory of a tenancy, if it isn't the usual one.
fn write_memory<K: Sink>(sink: &mut K, memory: u32) -> Result<(), Failed>
    ensures { Writes K.contents K.has_failed sink.old sink.new (memory_words memory) result }
{
    if memory == TENANT_MEMORY {
        return Ok(());
    }
    let mut digits = Buffer::new();
    write_slices(
        sink,
        &[b" --tenant-memory ", digits.format(memory).as_bytes()],
    )
}

/// Writes the sum of the architecture.
fn write_sum<K: Sink>(sink: &mut K, architecture: &[u8]) -> Result<(), Failed>
    ensures { Writes K.contents K.has_failed sink.old sink.new (sum_words architecture.now) result }
{
    let mut digits = Buffer::new();
    let sum = sum_of(architecture);
    write_slices(
        sink,
        &[b", architecture ", digits.format(sum).as_bytes(), b"\n"],
    )
}
