//! A latch's type and initial value, as its line of the netlist says.
ghost use Rattle.std.specs.Prelude.{◌≡◌};
ghost use Rattle.configuration_text.specs.Prelude.{args_of, texts, args_at, init_in, type_in};

use crate::row_values::line_index;
use line_text::Lines;

/// A latch's type and initial value.
#[derive(Clone, Copy)]
pub struct LatchWords<'t> {
    pub kind: &'t [u8],
    pub init: &'t [u8],
}

/// The words of the latch whose line has this number.
pub fn latch_words<'t>(netlist: &Lines<'t>, number: u32) -> LatchWords<'t>
    ensures kind { result.kind.now ≡ type_in (args_at netlist.now number) }
    ensures init { result.init.now ≡ init_in (args_at netlist.now number) }
{
    let place = line_index(netlist, number);
    if place >= netlist.len() {
        return LatchWords {
            kind: b"none",
            init: b"3",
        };
    }
    words_in(netlist.line(place).words())
}

/// The type and the initial value among the words of a latch's line.
fn words_in<'t>(words: &[&'t [u8]]) -> LatchWords<'t>
    ensures kind { result.kind.now ≡ type_in (args_of (texts words.now)) }
    ensures init { result.init.now ≡ init_in (args_of (texts words.now)) }
{
    match words {
        [_, _, _, init] => LatchWords {
            kind: b"none",
            init,
        },
        [_, _, _, kind, _] => LatchWords { kind, init: b"3" },
        [_, _, _, kind, _, init, ..] => LatchWords { kind, init },
        _ => LatchWords {
            kind: b"none",
            init: b"3",
        },
    }
}
