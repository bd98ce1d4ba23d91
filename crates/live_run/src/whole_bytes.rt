//! The whole lines of a log's file.
ghost use Rattle.std.specs.Prelude.{◌≡◌, ◌<◌, ◌≤◌, length, IfOk, IfSome};
ghost use Rattle.live_run.specs.WholePart.{whole_bytes};

use line_text::{ReadError, Source};
use std::alloc::Global;

/// The number of bytes that are read at a time.
const CHUNK: usize = 65_536;

/// The number of bytes of the whole lines that are left in a source: all up to the last LF.
pub(crate) fn whole_length<S: Source>(alloc: Global, source: &mut S) -> Result<u64, ReadError>
    ensures { IfOk result (λ n. IfSome (S.remaining source.old) (λ bytes. n ≡ whole_bytes bytes)) }
{
    match Vec::from_elem(alloc, 0u8, CHUNK) {
        Ok(mut buffer) => whole_through(source, buffer.as_mut_slice()),
        Err(_) => Err(ReadError::NoMemory),
    }
}

/// That number, of a source that is read through the buffer, which must not be empty.
fn whole_through<S: Source>(source: &mut S, buffer: &mut [u8]) -> Result<u64, ReadError>
    requires { 0 < length buffer.old }
    ensures { IfOk result (λ n. IfSome (S.remaining source.old) (λ bytes. n ≡ whole_bytes bytes)) }
{
    let mut length: u64 = 0;
    let mut whole: u64 = 0;
    loop {
        let Ok(count) = source.read(buffer) else {
            return Err(ReadError::Failed);
        };
        if count == 0 {
            return Ok(whole);
        }
        let Some(read) = length.checked_add(count as u64) else {
            return Err(ReadError::Failed);
        };
        let part = whole_part(&buffer[..count]);
        if part > 0 {
            whole = length + part as u64;
        }
        length = read;
    }
}

/// The number of bytes of the whole lines that bytes begin with: all up to the last LF.
pub fn whole_part(bytes: &[u8]) -> usize
    ensures value { result ≡ whole_bytes bytes.now }
    ensures within { result ≤ length bytes.now }
{
    let mut whole = 0;
    for i in 0..bytes.len() {
        if bytes[i] == b'\n' {
            whole = i + 1;
        }
    }
    whole
}
