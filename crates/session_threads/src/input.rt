//! A source, byte by byte.
ghost use Rattle.std.specs.Prelude.{◌≡◌, ◌<◌, ◌∷◌, [], OnOk, OnErr, MatchBool, length, true};
ghost use Rattle.std.specs.Io.KnownBytes.{Consumes, IsAtEnd, Keeps, prepend_known};
ghost use Rattle.session_threads.specs.Inputs.{GivesByte};

use line_text::{Failed, Source};
use std::marker::Model;

/// The number of bytes that are read at a time.
const CHUNK: usize = 4096;

/// Bytes of a source that were read ahead.
#[derive(Drop)]
pub(crate) struct Input {
    bytes: [u8; CHUNK],
    at: usize,
    end: usize,
}

impl Model for Input {
    ghost use Rattle.std.specs.Prelude.{◌≤◌, ◌-◌, List, ℕ, take, drop};

    ghost Value = { List ℕ };

    ghost view = { λ i. take (i.end - i.at) (drop i.at i.bytes) };

    ghost invariant = { λ i. (i.at ≤ i.end) × (i.end ≤ 4096) };
}

impl Input {
    /// An input of which nothing was read ahead.
    pub(crate) fn new() -> Self
        ensures { result ≡ [] }
    {
        Input {
            bytes: [0; CHUNK],
            at: 0,
            end: 0,
        }
    }

    /// The next byte. None at the source's end.
    pub(crate) fn next_byte<S: Source>(&mut self, source: &mut S) -> Result<Option<u8>, Failed>
        ensures byte { GivesByte (prepend_known self.old (S.remaining source.old))
            (prepend_known self.new (S.remaining source.new)) result }
        ensures ahead { OnErr result (self.new ≡ []) }
        ensures fails { OnErr result (S.has_failed source.new ≡ true) }
    {
        if self.is_empty() {
            self.refill(source)?;
            if self.is_empty() {
                return Ok(None);
            }
        }
        Ok(Some(self.take_byte()))
    }

    /// Whether no byte was read ahead.
    fn is_empty(&self) -> bool
        ensures { MatchBool result (self.now ≡ []) (0 < length self.now) }
    {
        self.at == self.end
    }

    /// Reads ahead.
    fn refill<S: Source>(&mut self, source: &mut S) -> Result<(), Failed>
        requires { self.old ≡ [] }
        ensures ok { OnOk result (Consumes (S.remaining source.old) (S.remaining source.new)
            self.new) }
        ensures end { OnOk result (self.new ≡ [] → IsAtEnd (S.remaining source.new)) }
        ensures err { OnErr result ((self.new ≡ [])
            × Keeps (S.remaining source.old) (S.remaining source.new)) }
        ensures fails { OnErr result (S.has_failed source.new ≡ true) }
    {
        self.at = 0;
        self.end = 0;
        self.end = source.read(&mut self.bytes)?;
        Ok(())
    }

    /// The first byte that was read ahead.
    fn take_byte(&mut self) -> u8
        requires { 0 < length self.old }
        ensures { self.old ≡ result ∷ self.new }
    {
        let byte = self.bytes[self.at];
        self.at += 1;
        byte
    }
}
