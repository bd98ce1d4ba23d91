//! The values of a table, by the rows of the netlist.
ghost use Rattle.std.specs.Prelude.{◌≡◌, ◌==◌, not, drop, map};
ghost use Rattle.std.specs.List.{list_any, prefix_len};
ghost use Rattle.configuration_text.specs.Prelude.{gives_one, last_of, kind_of, is_row_kind, agrees, all_agree, applies, value_in, value_of};
ghost use Rattle.configuration_text.specs.Parts.{row_words};

use line_text::{Line, Lines, is_word};

/// The index of the line with this number; the number of lines if there is none.
pub(crate) fn line_index(netlist: &Lines<'_>, number: u32) -> usize
    ensures { result ≡ prefix_len (λ line. not (line.number == number)) netlist.now }
{
    for place in 0..netlist.len() {
        if netlist.line(place).number() == number {
            return place;
        }
    }
    netlist.len()
}

/// Whether the line is a row of a table.
fn is_row(line: &Line<'_, '_>) -> bool
    ensures { result ≡ is_row_kind (kind_of line.now) }
{
    match line.words() {
        [] => true,
        [word, ..] => match word {
            [b'.', ..] => false,
            _ => true,
        },
    }
}

/// The last of the line's words, or no bytes if the line has no word.
fn last_of<'t>(line: &Line<'_, 't>) -> &'t [u8]
    ensures { result.now ≡ last_of line.now.words }
{
    match line.words() {
        [] => b"",
        [.., word] => word,
    }
}

/// Whether the row's output is 1.
fn gives_one(line: &Line<'_, '_>) -> bool
    ensures { result ≡ gives_one line.now.words }
{
    is_word(last_of(line), "1")
}

/// The value of a net if the nets have the values of the number's bits.
fn value_in(nets: &[u32], net: u32, number: u64) -> bool
    ensures { result ≡ value_in nets.now number net }
{
    let mut rest = number;
    for other in nets {
        if *other == net {
            return rest % 2 == 1;
        }
        rest /= 2;
    }
    rest % 2 == 1
}

/// Whether the character of a row agrees with the value of its input.
fn agrees(byte: u8, value: bool) -> bool
    ensures { result ≡ agrees byte value }
{
    byte == b'-' || byte == if value { b'1' } else { b'0' }
}

/// Whether each character of the pattern agrees with the value of its input.
fn all_agree(pattern: &[u8], inputs: &[u32], nets: &[u32], number: u64) -> bool
    ensures { result ≡ all_agree pattern.now (map (value_in nets.now number) inputs.now) }
{
    for place in 0..pattern.len().min(inputs.len()) {
        if !agrees(pattern[place], value_in(nets, inputs[place], number)) {
            return false;
        }
    }
    true
}

/// Whether the row applies if the nets have the values of the number's bits.
fn applies(line: &Line<'_, '_>, inputs: &[u32], nets: &[u32], number: u64) -> bool
    ensures { result ≡ applies (map (value_in nets.now number) inputs.now) line.now.words }
{
    match line.words() {
        [pattern, _, ..] => all_agree(pattern, inputs, nets, number),
        _ => true,
    }
}

/// Whether one of the rows from this line on applies.
fn any_applies(netlist: &Lines<'_>, first: usize, inputs: &[u32], nets: &[u32], number: u64) -> bool
    ensures { result ≡ list_any (applies (map (value_in nets.now number) inputs.now))
        (row_words (drop first netlist.now)) }
{
    for place in first..netlist.len() {
        let line = netlist.line(place);
        if !is_row(&line) {
            return false;
        }
        if applies(&line, inputs, nets, number) {
            return true;
        }
    }
    false
}

/// The value of the table whose rows begin at this line, if the nets have the values of the
/// number's bits.
pub(crate) fn value_of(
    netlist: &Lines<'_>,
    first: usize,
    inputs: &[u32],
    nets: &[u32],
    number: u64,
) -> bool
    ensures { result ≡ value_of (row_words (drop first netlist.now))
        (map (value_in nets.now number) inputs.now) }
{
    if first >= netlist.len() {
        return false;
    }
    let line = netlist.line(first);
    if !is_row(&line) {
        return false;
    }
    if any_applies(netlist, first, inputs, nets, number) {
        gives_one(&line)
    } else {
        !gives_one(&line)
    }
}
