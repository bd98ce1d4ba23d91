//! A pen, which makes many writes to one sink.
ghost use Rattle.std.specs.Prelude.{◌≡◌, true, false, not, is_ok, is_err};
ghost use Rattle.std.specs.List.{flat_map};
ghost use Rattle.std.specs.Fn.{FnOnceReturnsAtMut};
ghost use Rattle.text_parts.specs.Parts.{bytes_of_part};
ghost use Rattle.text_parts.specs.Pens.{Draws};

use crate::parts::{Part, write_parts};
use line_text::{Failed, Sink, write_all};

/// Makes writes to a sink, one after another. After the sink's first failure it writes nothing
/// more, and [`Pen::end`] returns the failure, so its user need not check each write.
#[derive(Drop)]
pub struct Pen<'k, K: Sink> {
    sink: &'k mut K,
    has_failed: bool,
}

impl<'k, K: Sink> Pen<'k, K> {
    /// A pen that writes to this sink.
    pub fn new(sink: &'k mut K) -> Self
        ensures same_reference { result.sink.ghost_name ≡ sink.entry.ghost_name }
        ensures sink { result.sink.now ≡ sink.old }
        ensures works { result.has_failed ≡ false }
    {
        Pen {
            sink,
            has_failed: false,
        }
    }

    /// Writes the parts one after another, unless the sink has failed.
    pub fn write(&mut self, parts: &[Part<'_>])
        ensures same_reference { self.new.sink.ghost_name ≡ self.old.sink.ghost_name }
        ensures drawn { Draws K.contents K.has_failed self.old.sink.now self.old.has_failed
            self.new.sink.now self.new.has_failed (flat_map bytes_of_part parts.now) }
    {
        if !self.has_failed {
            self.has_failed = write_parts(self.sink, parts).is_err();
        }
    }

    /// Writes a text, unless the sink has failed.
    pub fn text(&mut self, text: &str)
        ensures same_reference { self.new.sink.ghost_name ≡ self.old.sink.ghost_name }
        ensures drawn { Draws K.contents K.has_failed self.old.sink.now self.old.has_failed
            self.new.sink.now self.new.has_failed text.now }
    {
        if !self.has_failed {
            self.has_failed = write_all(self.sink, text.as_bytes()).is_err();
        }
    }

    /// Lends the sink to a function that writes to it, unless the sink has failed.
    pub fn lend<F: FnOnce(&mut K) -> Result<(), Failed>>(&mut self, write: F)
        requires { F.IsAlwaysCallable write }
        ensures same_reference { self.new.sink.ghost_name ≡ self.old.sink.ghost_name }
        ensures lent { self.old.has_failed ≡ false → (result : _)
            × FnOnceReturnsAtMut F.FnOnce write self.old.sink.now result self.new.sink.now
            × (self.new.has_failed ≡ is_err result) }
        ensures kept { self.old.has_failed ≡ true →
            (self.new.sink.now ≡ self.old.sink.now) × (self.new.has_failed ≡ true) }
    {
        if !self.has_failed {
            self.has_failed = write(self.sink).is_err();
        }
    }

    /// Ends the writing. `Ok` if everything was written, an error if the sink failed.
    pub fn end(self) -> Result<(), Failed>
        ensures sink { self.exit.0.now ≡ self.entry.sink.now }
        ensures ended { is_ok result ≡ not self.entry.has_failed }
    {
        if self.has_failed { Err(Failed) } else { Ok(()) }
    }
}
