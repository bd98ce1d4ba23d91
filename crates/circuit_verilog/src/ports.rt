//! The ports and wires of a module.
ghost use Rattle.std.specs.Prelude.{◌≡◌, ◌++◌, ◌∷◌, [], IfOk, OnOk, codes, drop, length};
ghost use Rattle.std.specs.List.{concat, flat_map, range_with_len};
ghost use Rattle.circuit_verilog.specs.NetTexts.{net_text};
ghost use Rattle.circuit_verilog.specs.Verilog.{clock_line, clock_ports, declarations, drives_line, head_around, head_front, head_text, input_line, is_input, next_input, output_line, output_port, ports_text, shows_line, wire_line};

use crate::latch::needs_clock;
use crate::parts::{net_name, push_parts};
use blif::Circuit;
use line_text::Lines;
use std::alloc::{AllocError, Global};
use text_parts::Part;

/// Appends the head of the circuit's module, with its ports.
pub(crate) fn push_module_head(
    alloc: Global,
    text: &mut Vec<u8>,
    netlist: &Lines<'_>,
    circuit: &Circuit,
) -> Result<(), AllocError>
    ensures { OnOk result (text.new.items
        ≡ text.old.items ++ head_text netlist.now circuit.now) }
{
    let ports = ports_text(alloc, netlist, circuit)?;
    let pushed = push_around(text, circuit, after_two(ports.as_slice()));
    drop(ports);
    pushed
}

/// Appends the head of the circuit's module, with these ports.
fn push_around(text: &mut Vec<u8>, circuit: &Circuit, ports: &[u8]) -> Result<(), AllocError>
    ensures { OnOk result (text.new.items
        ≡ text.old.items ++ head_around circuit.now ports.now) }
{
    push_front(text, circuit)?;
    text.extend_from_slice(ports)?;
    push_parts(text, &[Part::Text(");\n")])
}

/// Appends what comes before the ports.
fn push_front(text: &mut Vec<u8>, circuit: &Circuit) -> Result<(), AllocError>
    ensures { OnOk result (text.new.items ≡ text.old.items ++ head_front circuit.now) }
{
    push_parts(
        text,
        &[
            Part::Text("module \\"),
            Part::Bytes(circuit.model.as_bytes()),
            Part::Text(" ("),
        ],
    )
}

/// The bytes after the first two.
fn after_two(bytes: &[u8]) -> &[u8]
    ensures { result.now ≡ drop 2 bytes.now }
{
    &bytes[bytes.len().min(2)..]
}

/// All ports, each after a comma.
fn ports_text(alloc: Global, netlist: &Lines<'_>, circuit: &Circuit) -> Result<Vec<u8>, AllocError>
    ensures { IfOk result (λ ports. ports.items ≡ ports_text netlist.now circuit.now) }
{
    let mut ports = Vec::new(alloc);
    match push_ports(&mut ports, netlist, circuit) {
        Ok(()) => Ok(ports),
        Err(error) => {
            drop(ports);
            Err(error)
        }
    }
}

/// Appends all ports, each after a comma.
fn push_ports(ports: &mut Vec<u8>, netlist: &Lines<'_>, circuit: &Circuit) -> Result<(), AllocError>
    ensures { OnOk result (ports.new.items
        ≡ ports.old.items ++ ports_text netlist.now circuit.now) }
{
    push_inputs(ports, circuit, NetText::InputPort)?;
    push_outputs(ports, circuit, NetText::OutputPort)?;
    push_clock_port(ports, netlist, circuit)
}

/// What is written of a net.
#[derive(Clone, Copy)]
pub(crate) enum NetText {
    /// The port of an input after a comma.
    InputPort,
    /// The port of an output after a comma.
    OutputPort,
    /// The declaration of an input.
    Input,
    /// The declaration of an output.
    Output,
    /// That an input drives the wire of its net.
    Drives,
    /// That the wire of an output's net drives the output.
    Shows,
}

/// Appends that of each input.
pub(crate) fn push_inputs(
    text: &mut Vec<u8>,
    circuit: &Circuit,
    what: NetText,
) -> Result<(), AllocError>
    ensures { OnOk result (text.new.items
        ≡ text.old.items ++ flat_map (net_text what circuit.now) circuit.now.inputs) }
{
    push_each(text, circuit, circuit.inputs.as_slice(), what)
}

/// Appends that of each output.
pub(crate) fn push_outputs(
    text: &mut Vec<u8>,
    circuit: &Circuit,
    what: NetText,
) -> Result<(), AllocError>
    ensures { OnOk result (text.new.items
        ≡ text.old.items ++ flat_map (net_text what circuit.now) circuit.now.outputs) }
{
    push_each(text, circuit, circuit.outputs.as_slice(), what)
}

/// Appends that of each of these nets.
fn push_each(
    text: &mut Vec<u8>,
    circuit: &Circuit,
    nets: &[u32],
    what: NetText,
) -> Result<(), AllocError>
    ensures { OnOk result (text.new.items
        ≡ text.old.items ++ flat_map (net_text what circuit.now) nets.now) }
{
    for net in nets {
        push_net(text, circuit, *net, what)?;
    }
    Ok(())
}

/// Appends that of a net.
fn push_net(
    text: &mut Vec<u8>,
    circuit: &Circuit,
    net: u32,
    what: NetText,
) -> Result<(), AllocError>
    ensures { OnOk result (text.new.items ≡ text.old.items ++ net_text what circuit.now net) }
{
    match what {
        NetText::InputPort => push_input_port(text, circuit, net),
        NetText::OutputPort => push_output_port(text, circuit, net, ", "),
        NetText::Input => push_input(text, circuit, net),
        NetText::Output => push_output(text, circuit, net),
        NetText::Drives => push_drive(text, circuit, net),
        NetText::Shows => push_show(text, circuit, net),
    }
}

/// Appends the port of an input after a comma.
fn push_input_port(ports: &mut Vec<u8>, circuit: &Circuit, net: u32) -> Result<(), AllocError>
    ensures { OnOk result (ports.new.items ≡ ports.old.items ++ next_input circuit.now net) }
{
    push_parts(
        ports,
        &[
            Part::Text(", "),
            Part::Text("\\"),
            Part::Bytes(net_name(circuit, net)),
            Part::Text(" "),
        ],
    )
}

/// Appends a text and the port of an output.
fn push_output_port(
    text: &mut Vec<u8>,
    circuit: &Circuit,
    net: u32,
    front: &'static str,
) -> Result<(), AllocError>
    ensures { OnOk result (text.new.items ≡ text.old.items
        ++ (front.entry.now ++ output_port circuit.now net)) }
{
    if is_input(circuit, net) {
        push_named(text, front, "\\#out:", net_name(circuit, net))
    } else {
        push_named(text, front, "\\", net_name(circuit, net))
    }
}

/// Appends a text, the beginning of an identifier, and a name.
fn push_named(
    text: &mut Vec<u8>,
    front: &'static str,
    start: &'static str,
    name: &[u8],
) -> Result<(), AllocError>
    ensures { OnOk result (text.new.items ≡ text.old.items ++ (front.entry.now
        ++ concat (start.entry.now ∷ name.now ∷ codes " " ∷ []))) }
{
    push_parts(
        text,
        &[
            Part::Text(front),
            Part::Text(start),
            Part::Bytes(name),
            Part::Text(" "),
        ],
    )
}

/// Returns whether a net is an input.
fn is_input(circuit: &Circuit, net: u32) -> bool
    ensures { result ≡ is_input circuit.now net }
{
    circuit.inputs.as_slice().iter().any(|input| *input == net)
}

/// Appends the port of the clock that no net is, if it is needed.
fn push_clock_port(
    ports: &mut Vec<u8>,
    netlist: &Lines<'_>,
    circuit: &Circuit,
) -> Result<(), AllocError>
    ensures { OnOk result (ports.new.items
        ≡ ports.old.items ++ clock_ports netlist.now circuit.now) }
{
    if needs_clock(netlist, circuit) {
        push_parts(ports, &[Part::Text(", \\#clock ")])
    } else {
        Ok(())
    }
}

/// Appends the declarations of ports and wires.
pub(crate) fn push_declarations(
    text: &mut Vec<u8>,
    netlist: &Lines<'_>,
    circuit: &Circuit,
) -> Result<(), AllocError>
    ensures { OnOk result (text.new.items
        ≡ text.old.items ++ declarations netlist.now circuit.now) }
{
    push_inputs(text, circuit, NetText::Input)?;
    push_outputs(text, circuit, NetText::Output)?;
    push_clock(text, netlist, circuit)?;
    push_wires(text, circuit)
}

/// Declares an input.
fn push_input(text: &mut Vec<u8>, circuit: &Circuit, net: u32) -> Result<(), AllocError>
    ensures { OnOk result (text.new.items ≡ text.old.items ++ input_line circuit.now net) }
{
    push_parts(
        text,
        &[
            Part::Text("  input \\"),
            Part::Bytes(net_name(circuit, net)),
            Part::Text(" ;\n"),
        ],
    )
}

/// Declares an output.
fn push_output(text: &mut Vec<u8>, circuit: &Circuit, net: u32) -> Result<(), AllocError>
    ensures { OnOk result (text.new.items ≡ text.old.items ++ output_line circuit.now net) }
{
    push_output_port(text, circuit, net, "  output ")?;
    push_parts(text, &[Part::Text(";\n")])
}

/// Declares the clock that no net is, if it is needed.
fn push_clock(text: &mut Vec<u8>, netlist: &Lines<'_>, circuit: &Circuit) -> Result<(), AllocError>
    ensures { OnOk result (text.new.items
        ≡ text.old.items ++ clock_line netlist.now circuit.now) }
{
    if needs_clock(netlist, circuit) {
        push_parts(text, &[Part::Text("  input \\#clock ;\n")])
    } else {
        Ok(())
    }
}

/// Declares the wires of all nets.
fn push_wires(text: &mut Vec<u8>, circuit: &Circuit) -> Result<(), AllocError>
    ensures { OnOk result (text.new.items ≡ text.old.items
        ++ flat_map wire_line (range_with_len 0 (length circuit.now.nets))) }
{
    push_wires_of(text, circuit.nets.len())
}

/// Declares the wires of the first nets, of which there are `count`.
fn push_wires_of(text: &mut Vec<u8>, count: usize) -> Result<(), AllocError>
    ensures { OnOk result (text.new.items
        ≡ text.old.items ++ flat_map wire_line (range_with_len 0 count)) }
{
    for net in 0..count {
        push_wire(text, net)?;
    }
    Ok(())
}

/// Declares the wire of a net.
fn push_wire(text: &mut Vec<u8>, net: usize) -> Result<(), AllocError>
    ensures { OnOk result (text.new.items ≡ text.old.items ++ wire_line net) }
{
    push_parts(
        text,
        &[
            Part::Text("  wire \\#"),
            Part::Long(net as u64),
            Part::Text(" ;\n"),
        ],
    )
}

/// Appends that an input drives the wire of its net.
fn push_drive(text: &mut Vec<u8>, circuit: &Circuit, net: u32) -> Result<(), AllocError>
    ensures { OnOk result (text.new.items ≡ text.old.items ++ drives_line circuit.now net) }
{
    push_parts(
        text,
        &[
            Part::Text("  assign \\#"),
            Part::Number(net),
            Part::Text(" = \\"),
            Part::Bytes(net_name(circuit, net)),
            Part::Text(" ;\n"),
        ],
    )
}

/// Appends that the wire of an output's net drives the output.
fn push_show(text: &mut Vec<u8>, circuit: &Circuit, net: u32) -> Result<(), AllocError>
    ensures { OnOk result (text.new.items ≡ text.old.items ++ shows_line circuit.now net) }
{
    push_output_port(text, circuit, net, "  assign ")?;
    push_parts(
        text,
        &[Part::Text("= \\#"), Part::Number(net), Part::Text(" ;\n")],
    )
}
