//! Parts of a text.
ghost use Rattle.std.specs.Prelude.{◌≡◌, ◌++◌, OnOk};
ghost use Rattle.std.specs.List.{flat_map};
ghost use Rattle.text_parts.specs.Parts.{bytes_of_part};
ghost use Rattle.circuit_verilog.specs.Verilog.{net_name};

use blif::Circuit;
use itoa::Buffer;
use std::alloc::AllocError;
use text_parts::Part;

/// Appends the parts one after another.
pub(crate) fn push_parts(text: &mut Vec<u8>, parts: &[Part<'_>]) -> Result<(), AllocError>
    ensures { OnOk result (text.new.items
        ≡ text.old.items ++ flat_map bytes_of_part parts.now) }
{
    for part in parts {
        push_part(text, part)?;
    }
    Ok(())
}

/// Appends a part.
fn push_part(text: &mut Vec<u8>, part: &Part<'_>) -> Result<(), AllocError>
    ensures { OnOk result (text.new.items ≡ text.old.items ++ bytes_of_part part.now) }
{
    let mut digits = Buffer::new();
    match part {
        Part::Text(words) => text.extend_from_slice(words.as_bytes()),
        Part::Bytes(bytes) => text.extend_from_slice(bytes),
        Part::Number(number) => text.extend_from_slice(digits.format(*number).as_bytes()),
        Part::Long(number) => text.extend_from_slice(digits.format(*number).as_bytes()),
    }
}

/// The name of a net; empty if there is no such net.
pub(crate) fn net_name(circuit: &Circuit, net: u32) -> &[u8]
    ensures { result.now ≡ net_name circuit.now net }
{
    if (net as usize) < circuit.nets.len() {
        circuit.nets.name(net as usize)
    } else {
        b""
    }
}
