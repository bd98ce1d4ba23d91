//! The file of a log, read, cut and added to.
ghost use Rattle.std.specs.Prelude.{◌≡◌};

use dialogue::{FileLog, Log};
use line_text::{Failed, Source, StdSource};
use std::fs::{File, OpenFile};
use std::io::{Read, Take};
use std::rt::Files;

/// A file that is read from its beginning, cut off, and added to.
pub(crate) trait LogFile {
    ghost use Rattle.std.specs.Prelude.{◌≡◌, ℕ, List, Option, IfOk, IfSome, OnErr, OnOk, Some, length, option_map, take};
    ghost use Rattle.std.specs.Io.KnownBytes.{Appends};

    // The bytes that it holds, if they are known.
    ghost content: { Self → Option (List ℕ) };

    type Part: Source + Drop;

    /// The number of its bytes.
    fn length(&self) -> Result<u64, Failed>
        ensures { IfOk result (λ count. IfSome (content self.now)
            (λ bytes. count ≡ length bytes)) };

    /// Its first `most` bytes, or all of them if it has fewer.
    fn part(&self, most: u64) -> Result<Self::Part, Failed>
        ensures { IfOk result (λ part. IfSome (content self.now)
            (λ bytes. Self.Part.remaining part ≡ Some (take most bytes))) };

    /// Cuts off all but the first `most` bytes.
    fn cut(&mut self, most: u64) -> Result<(), Failed>
        ensures ok { OnOk result (content self.new
            ≡ option_map (λ bytes. take most bytes) (content self.old)) }
        ensures err { OnErr result (content self.new ≡ content self.old) };

    /// Appends the bytes. Once it returns, they are kept whatever becomes of the program. If it
    /// fails, a beginning of them is kept.
    fn append(&mut self, bytes: &[u8]) -> Result<(), Failed>
        ensures ok { OnOk result (Appends (content self.old) (content self.new) bytes.now) }
        ensures err { OnErr result ((count : ℕ)
            × Appends (content self.old) (content self.new) (take count bytes.now)) };
}

/// The file at a path. It is open for reading and appending.
#[derive(Drop)]
pub(crate) struct StoredLog<'h, 'p, H: Files> {
    rt: &'h H,
    path: &'p str,
    file: H::File,
}

impl<'h, 'p, H: Files> StoredLog<'h, 'p, H> {
    /// The file at that path, which is open.
    pub(crate) fn new(rt: &'h H, path: &'p str, file: H::File) -> Self
        ensures { result.file ≡ file }
    {
        StoredLog { rt, path, file }
    }

    /// The open file.
    pub(crate) fn into_file(self) -> H::File
        ensures { result ≡ self.entry.file }
    {
        self.file
    }
}

/// What a real file holds is not known.
impl<H: Files> LogFile for StoredLog<'_, '_, H> {
    ghost use Rattle.std.specs.Prelude.{None};

    ghost content = { λ _. None };

    type Part = StdSource<Take<H::File>>;

    fn length(&self) -> Result<u64, Failed> {
        match self.file.metadata() {
            Ok(metadata) => Ok(metadata.len()),
            Err(_) => Err(Failed),
        }
    }

    /// A device without a length, as `/dev/full`, has no bytes.
    fn part(&self, most: u64) -> Result<StdSource<Take<H::File>>, Failed> {
        let length = self.length()?;
        match File::open(self.rt, self.path) {
            Ok(file) => Ok(StdSource::new(file.take(most.min(length)))),
            Err(_) => Err(Failed),
        }
    }

    /// A file that has no more is left as it is.
    fn cut(&mut self, most: u64) -> Result<(), Failed> {
        if self.length()? > most && self.file.set_len(most).is_err() {
            return Err(Failed);
        }
        Ok(())
    }

    /// Without bytes nothing is done.
    fn append(&mut self, bytes: &[u8]) -> Result<(), Failed> {
        if bytes.is_empty() {
            return Ok(());
        }
        let Ok(handle) = self.file.try_clone() else {
            return Err(Failed);
        };
        FileLog::new(handle).keep(bytes)
    }
}
