//! What is wrong with the pads of the ports, in words.
use crate::lines::{block_line, write_line};
use crate::named::{net_name, write_net};
use crate::subject::Subject;
use cluster::Block;
use line_text::Sink;
use text_parts::{Part, Pen};

/// The kind of a port.
#[derive(Clone, Copy, PartialEq, Eq)]
pub(crate) enum Port {
    Input,
    Output,
}

impl Port {
    fn word(self) -> &'static str {
        match self {
            Port::Input => "input",
            Port::Output => "output",
        }
    }

    /// The net of the pad, if the block is a pad of such a port.
    fn net_at(self, block: Block) -> Option<u32> {
        match (self, block) {
            (Port::Input, Block::InputPad(net)) => Some(net),
            (Port::Output, Block::OutputPad(net)) => Some(net),
            _ => None,
        }
    }

    /// The nets of the circuit's ports, in order.
    fn nets<'a>(self, subject: Subject<'a>) -> &'a [u32] {
        match self {
            Port::Input => subject.circuit.inputs.as_slice(),
            Port::Output => subject.circuit.outputs.as_slice(),
        }
    }
}

/// Writes the first pad that isn't the one of the circuit's next input or output, or the port that
/// has no pad.
pub(crate) fn write_ports<E: Sink>(pen: &mut Pen<'_, E>, subject: Subject<'_>, port: Port) {
    let nets = port.nets(subject);
    let mut number = 0_usize;
    for (block, laid) in subject.layout.blocks().iter().enumerate() {
        if let Some(net) = port.net_at(laid.block()) {
            if nets.get(number) != Some(&net) {
                write_line(pen, ".net", block_line(subject.layout, block));
                write_pad(pen, subject, port, net, nets.get(number));
                return;
            }
            number = number.saturating_add(1);
        }
    }
    if let Some(net) = nets.get(number) {
        pen.write(&[
            Part::Text(".net: no pad for the "),
            Part::Text(port.word()),
            Part::Text(" "),
            Part::Bytes(net_name(subject.circuit, *net)),
        ]);
    }
}

/// Writes that a pad is of another port than the next one.
fn write_pad<E: Sink>(
    pen: &mut Pen<'_, E>,
    subject: Subject<'_>,
    port: Port,
    net: u32,
    next: Option<&u32>,
) {
    pen.write(&[Part::Text(port.word()), Part::Text(" pad ")]);
    write_net(pen, subject, net);
    match next {
        Some(next) => {
            pen.write(&[
                Part::Text(": the netlist's next "),
                Part::Text(port.word()),
                Part::Text(" is "),
                Part::Bytes(net_name(subject.circuit, *next)),
            ]);
        }
        None => {
            pen.write(&[
                Part::Text(": the netlist has no more "),
                Part::Text(port.word()),
                Part::Text("s"),
            ]);
        }
    }
}
