//! Compares the print of a layout's packing with the `.net` file.
ghost use Rattle.std.specs.Prelude.{◌≡◌, decimal, map, slice_get};
ghost use Rattle.std.specs.List.{flat_map, range_with_len};
ghost use Rattle.layout_files.specs.Prelude.{net_name, ble_line, feed_or_open, laid_lines, net_text, or_open, line_of, word_after_space, text_of};
ghost use Rattle.layout_files.specs.Cursors.{IsSame, left_after};
ghost use Rattle.layout_files.specs.Printing.{cluster_lines, global_lines};

use crate::cursor::Cursor;
use crate::laid_names::{cluster_name, net_name};
use arch_file::Arch;
use blif::Circuit;
use cluster::Block;
use implements::Feed;
use layouts::{LaidBle, LaidBlock, Layout};
use line_text::TextError;
use strip_files::{File, FileFault};
use text_parts::Part;

/// Compares the print of the packing with the `.net` file.
pub(crate) fn compare_net(
    circuit: &Circuit,
    arch: &Arch,
    text: &[u8],
    layout: &Layout,
) -> Result<(), TextError<FileFault>>
    ensures { IsSame result text.now (net_text circuit.now arch.now layout.now) }
{
    let mut print = Cursor::new(text);
    print_globals(&mut print, circuit, layout.globals());
    print_blocks(&mut print, circuit, arch, layout.blocks());
    print.outcome(File::Net, text)
}

/// Prints the lines of the global nets.
fn print_globals(print: &mut Cursor<'_>, circuit: &Circuit, globals: &[u32])
    ensures { print.new ≡ left_after print.old (text_of (global_lines circuit.now globals.now)) }
{
    for net in globals {
        print.print(&[
            Part::Text(".global "),
            Part::Bytes(net_name(circuit, *net)),
            Part::Text("\n"),
        ]);
    }
    if globals.is_empty() {
        return;
    }
    print.print(&[Part::Text("\n")])
}

fn print_blocks(print: &mut Cursor<'_>, circuit: &Circuit, arch: &Arch, blocks: &[LaidBlock])
    ensures { print.new ≡ left_after print.old (text_of (flat_map (laid_lines circuit.now arch.now) blocks.now)) }
{
    for laid in blocks {
        print_block(print, circuit, arch, laid);
    }
}

fn print_block(print: &mut Cursor<'_>, circuit: &Circuit, arch: &Arch, laid: &LaidBlock)
    ensures { print.new ≡ left_after print.old (text_of (laid_lines circuit.now arch.now laid.now)) }
{
    match laid.block() {
        Block::InputPad(net) => {
            let name = net_name(circuit, net);
            print.print(&[
                Part::Text(".input "),
                Part::Bytes(name),
                Part::Text("\npinlist: "),
                Part::Bytes(name),
                Part::Text("\n\n"),
            ])
        }
        Block::OutputPad(net) => {
            let name = net_name(circuit, net);
            print.print(&[
                Part::Text(".output out:"),
                Part::Bytes(name),
                Part::Text("\npinlist: "),
                Part::Bytes(name),
                Part::Text("\n\n"),
            ])
        }
        Block::Cluster(_) => print_cluster(print, circuit, arch, laid),
    }
}

fn print_cluster(print: &mut Cursor<'_>, circuit: &Circuit, arch: &Arch, laid: &LaidBlock)
    ensures { print.new ≡ left_after print.old (text_of (cluster_lines circuit.now arch.now laid.now)) }
{
    print.print(&[
        Part::Text(".clb "),
        Part::Bytes(cluster_name(circuit, laid.bles())),
        Part::Text("\npinlist:"),
    ]);
    print_pins(print, circuit, laid.pins());
    print.print(&[Part::Text("\n")]);
    print_bles(print, circuit, arch, laid.bles());
    print.print(&[Part::Text("\n")])
}

/// Prints the net on each pin, or `open`.
fn print_pins(print: &mut Cursor<'_>, circuit: &Circuit, pins: &[Option<u32>])
    ensures { print.new ≡ left_after print.old (flat_map word_after_space (map (or_open (net_name circuit.now)) pins.now)) }
{
    for pin in pins {
        print.print(&[Part::Text(" "), Part::Bytes(net_or_open(circuit, *pin))]);
    }
}

/// The name of the net on a pin, or `open`.
fn net_or_open(circuit: &Circuit, pin: Option<u32>) -> &[u8]
    ensures { result.now ≡ or_open (net_name circuit.now) pin }
{
    match pin {
        Some(net) => net_name(circuit, net),
        None => b"open",
    }
}

fn print_bles(print: &mut Cursor<'_>, circuit: &Circuit, arch: &Arch, bles: &[LaidBle])
    ensures { print.new ≡ left_after print.old (text_of (map (ble_line circuit.now arch.now) bles.now)) }
{
    for ble in bles {
        print_ble(print, circuit, arch, ble);
    }
}

/// Prints the line of a BLE.
fn print_ble(print: &mut Cursor<'_>, circuit: &Circuit, arch: &Arch, ble: &LaidBle)
    ensures { print.new ≡ left_after print.old (line_of (ble_line circuit.now arch.now ble.now)) }
{
    print.print(&[
        Part::Text("subblock: "),
        Part::Bytes(net_name(circuit, ble.name())),
    ]);
    print_inputs(print, arch.lut_size, ble.inputs());
    print_pin(print, ble.output());
    print_pin(print, ble.clock());
    print.print(&[Part::Text("\n")])
}

/// Where the input at this index comes from, if there is one.
fn feed_at(inputs: &[Feed], place: usize) -> Option<Feed>
    ensures { result ≡ slice_get inputs.now place }
{
    inputs.get(place).copied()
}

/// Prints where the inputs come from, one word for each input of a table.
fn print_inputs(print: &mut Cursor<'_>, lut_size: u32, inputs: &[Feed])
    ensures { print.new ≡ left_after print.old (flat_map (λ place. word_after_space (feed_or_open (slice_get inputs.now place))) (range_with_len 0 lut_size)) }
{
    for place in 0..lut_size as usize {
        print_feed(print, feed_at(inputs, place));
    }
}

/// Prints where an input comes from, or `open`.
fn print_feed(print: &mut Cursor<'_>, feed: Option<Feed>)
    ensures { print.new ≡ left_after print.old (word_after_space (feed_or_open feed)) }
{
    match feed {
        Some(Feed::Pin(pin)) => print.print(&[Part::Text(" "), Part::Long(pin as u64)]),
        Some(Feed::Ble(place)) => print.print(&[Part::Text(" ble_"), Part::Long(place as u64)]),
        None => print.print(&[Part::Text(" open")]),
    }
}

/// Prints the number of a pin, or `open`.
fn print_pin(print: &mut Cursor<'_>, pin: Option<usize>)
    ensures { print.new ≡ left_after print.old (word_after_space (or_open decimal pin)) }
{
    match pin {
        Some(number) => print.print(&[Part::Text(" "), Part::Long(number as u64)]),
        None => print.print(&[Part::Text(" open")]),
    }
}
