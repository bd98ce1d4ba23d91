//! The lines of a script after its architecture.
ghost use Rattle.std.specs.Prelude.{◌+◌, ◌<◌, ◌^◌, length};

/// The lines of a script after its architecture.
#[derive(Clone, Copy)]
pub(crate) struct Lines<'t> {
    pub(crate) text: &'t [u8],
    /// The architecture's text; empty if the script doesn't begin with it.
    pub(crate) architecture: &'t [u8],
    /// The number of its first line.
    pub(crate) number: usize,
    ghost counted: { number + length text.now < 2 ^ 64 },
}
