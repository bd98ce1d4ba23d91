//! Words, appended to a text.
ghost use Rattle.std.specs.Prelude.{◌≡◌, ◌++◌, decimal, IfOk};
ghost use Rattle.std.specs.List.{flat_map};
ghost use Rattle.configuration_text.specs.Prelude.{global_words, node_words, place_words, signal_words, kind_word, word_after_space};

use configuration::{BlePlace, Signal};
use itoa::Buffer;
use rr_graph::{Node, NodeKind};
use std::alloc::AllocError;

/// Appends a space and a word.
pub(crate) fn push_word(text: &mut Vec<u8>, word: &[u8]) -> Result<(), AllocError>
    ensures { IfOk result (λ _. text.new.items ≡ text.old.items ++ word_after_space word.now) }
{
    text.push(b' ')?;
    text.extend_from_slice(word)
}

/// Appends a space and a number.
pub(crate) fn push_number(text: &mut Vec<u8>, number: usize) -> Result<(), AllocError>
    ensures { IfOk result (λ _. text.new.items ≡ text.old.items
        ++ word_after_space (decimal number)) }
{
    let mut digits = Buffer::new();
    push_word(text, digits.format(number).as_bytes())
}

/// Appends three numbers, each after a space.
pub(crate) fn push_three(text: &mut Vec<u8>, x: u32, y: u32, n: usize) -> Result<(), AllocError>
    ensures { IfOk result (λ _. text.new.items
        ≡ text.old.items ++ (word_after_space (decimal x) ++ (word_after_space (decimal y)
        ++ word_after_space (decimal n)))) }
{
    push_number(text, x as usize)?;
    push_number(text, y as usize)?;
    push_number(text, n)
}

/// Appends the place of a BLE.
pub(crate) fn push_place(text: &mut Vec<u8>, place: BlePlace) -> Result<(), AllocError>
    ensures { IfOk result (λ _.
        text.new.items ≡ text.old.items ++ flat_map word_after_space (place_words place)) }
{
    push_three(text, place.x, place.y, place.n)
}

/// Appends a node.
pub(crate) fn push_node(text: &mut Vec<u8>, node: Node) -> Result<(), AllocError>
    ensures { IfOk result (λ _.
        text.new.items ≡ text.old.items ++ flat_map word_after_space (node_words node)) }
{
    push_word(text, kind_word(node.kind))?;
    push_three(text, node.x, node.y, node.n as usize)
}

/// The word for a kind of nodes.
fn kind_word(kind: NodeKind) -> &'static [u8]
    ensures { result.now ≡ kind_word kind }
{
    match kind {
        NodeKind::Source => b"SOURCE",
        NodeKind::Sink => b"SINK",
        NodeKind::Opin => b"OPIN",
        NodeKind::Ipin => b"IPIN",
        NodeKind::ChanX => b"CHANX",
        NodeKind::ChanY => b"CHANY",
    }
}

/// Appends a word and a number.
fn push_named(text: &mut Vec<u8>, word: &[u8], number: usize) -> Result<(), AllocError>
    ensures { IfOk result (λ _.
        text.new.items ≡ text.old.items ++ (word_after_space word.now
        ++ word_after_space (decimal number))) }
{
    push_word(text, word)?;
    push_number(text, number)
}

/// Appends the number of a global net, if there is one.
pub(crate) fn push_global(text: &mut Vec<u8>, number: Option<usize>) -> Result<(), AllocError>
    ensures { IfOk result (λ _.
        text.new.items ≡ text.old.items ++ flat_map word_after_space (global_words number)) }
{
    match number {
        Some(number) => push_named(text, b"global", number),
        None => Ok(()),
    }
}

/// Appends what an input takes.
pub(crate) fn push_signal(text: &mut Vec<u8>, signal: Signal) -> Result<(), AllocError>
    ensures { IfOk result (λ _.
        text.new.items ≡ text.old.items ++ flat_map word_after_space (signal_words signal)) }
{
    match signal {
        Signal::FromPin(pin) => push_named(text, b"pin", pin),
        Signal::FromBle(number) => push_named(text, b"ble", number),
        Signal::FromGlobal(number) => push_named(text, b"global", number),
    }
}
