//! Devices that bytes are read from.
ghost use Rattle.std.specs.Prelude.{◌≡◌, ◌-◌, List, OnErr, OnOk, IfOk, IfErr, IfSome, length, vec_len, ◌<◌, true, false};
ghost use Rattle.std.specs.Io.{ReadsAtMost};
ghost use Rattle.std.specs.Io.KnownBytes.{IsAtEnd, ReadConsumes};

use std::alloc::{AllocError, Global};

/// The device failed. It returns this from its first failure on.
#[derive(Clone, Copy, PartialEq, Eq)]
pub struct Failed;

/// Why not all bytes of a source could be read.
#[derive(Clone, Copy, PartialEq, Eq)]
pub enum ReadError {
    NoMemory,
    Failed,
}

/// A device that bytes are read from. It can be read 2^32 times; the last read fails.
pub trait Source {
    ghost use Rattle.std.specs.Prelude.{◌≡◌, ◌-◌, ℕ, Bool, true, List, Option, OnErr, OnOk, false};

    // The bytes that are left to read, if they are known.
    ghost remaining: { Self → Option (List ℕ) };

    // Whether the device has failed.
    ghost has_failed: { Self → Bool };

    // The number of reads left.
    ghost reads_left: { Self → ℕ };

    /// Reads into the front of the buffer, and returns the number of bytes. 0 for a buffer that is
    /// not empty means the end.
    fn read(&mut self, buffer: &mut [u8]) -> Result<usize, Failed>
        ensures bound { ReadsAtMost result buffer.new }
        ensures bytes { ReadConsumes (remaining self.old) (remaining self.new) result buffer.new }
        ensures works { OnOk result ((has_failed self.old ≡ false)
            × (has_failed self.new ≡ false)) }
        ensures fails { OnErr result (has_failed self.new ≡ true) }
        ensures counts { reads_left self.new ≡ reads_left self.old - 1 };

    // Once no read is left it has failed.
    ghost spent: { (source : Self) → reads_left source ≡ 0 → has_failed source ≡ true };
}

/// The number of bytes that are read at a time.
const CHUNK: usize = 65_536;

/// A buffer for one read.
fn room(alloc: Global) -> Result<Vec<u8>, AllocError>
    ensures { IfOk result (λ v. 0 < vec_len v) }
{
    Vec::from_elem(alloc, 0, CHUNK)
}

/// All bytes that are left in a source, read through the buffer, which must not be empty.
fn read_through<S: Source>(
    alloc: Global,
    source: &mut S,
    buffer: &mut [u8],
) -> Result<Vec<u8>, ReadError>
    requires { 0 < length buffer.old }
    ensures ok { IfOk result (λ all. IfSome (S.remaining source.old) (λ bytes. all.items ≡ bytes)) }
    ensures end { OnOk result (IsAtEnd (S.remaining source.new)) }
    ensures works { OnOk result ((S.has_failed source.old ≡ false)
        × (S.has_failed source.new ≡ false)) }
    ensures fails { IfErr result (λ e. e ≡ ReadError.Failed → S.has_failed source.new ≡ true) }
{
    let mut all = Vec::new(alloc);
    loop {
        let Ok(count) = source.read(buffer) else {
            return Err(ReadError::Failed);
        };
        if count == 0 {
            return Ok(all);
        }
        if all.extend_from_slice(&buffer[..count]).is_err() {
            return Err(ReadError::NoMemory);
        }
    }
}

/// All bytes that are left in a source. After `NoMemory` some of them may be lost.
pub fn read_all<S: Source>(alloc: Global, source: &mut S) -> Result<Vec<u8>, ReadError>
    ensures ok { IfOk result (λ all. IfSome (S.remaining source.old) (λ bytes. all.items ≡ bytes)) }
    ensures end { OnOk result (IsAtEnd (S.remaining source.new)) }
    ensures works { OnOk result ((S.has_failed source.old ≡ false)
        × (S.has_failed source.new ≡ false)) }
    ensures fails { IfErr result (λ e. e ≡ ReadError.Failed → S.has_failed source.new ≡ true) }
{
    match room(alloc) {
        Ok(mut buffer) => read_through(alloc, source, &mut buffer),
        Err(_) => Err(ReadError::NoMemory),
    }
}
