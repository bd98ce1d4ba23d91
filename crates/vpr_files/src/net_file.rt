//! The `.net` file: the global nets of a packed circuit, and its blocks with the nets on their
//! pins.
ghost use Rattle.std.specs.Prelude.{◌≡◌, ◌<◌, length, map};
ghost use Rattle.std.specs.List.{flat_map};
ghost use Rattle.vpr_files.specs.Prelude.{Cluster, block_name, blocks_of, elements_in, net_name, pins_of, Writes};
ghost use Rattle.vpr_files.specs.BlockClusters.{HasCluster};
ghost use Rattle.vpr_files.specs.NetFile.{block_lines, element_line, net_text_of, or_open};
ghost use Rattle.vpr_files.specs.TextLines.{word_after_space, text_of};
ghost use Rattle.vpr_files.specs.FileParts.{global_lines};

use crate::pin_words::write_element;
use crate::writing::{end_line, write_word};
use blif::Circuit;
use cluster::{Block, Packed};
use line_text::{Failed, Sink, write_slices};

/// Writes the `.net` file of a packed circuit. If the sink fails, it has taken a beginning of the
/// file.
///
/// - A line `.global NET` for each global net, in order, followed by an empty line if there are
///   any.
/// - Each block, followed by an empty line: `.input NET` or `.output out:NET` with `pinlist: NET`,
///   or `.clb NAME` with `pinlist:` and a word for each pin, the net that it carries or `open`, and
///   for each BLE `subblock: NAME`, a word for each input of a table, and the numbers of its output
///   pin and its clock pin, or `open`. An input is `ble_I` if the cluster's BLE I, from 0, drives
///   it, otherwise the number of its pin, and `open` if there is no input.
pub fn net_text<W: Sink>(packed: &Packed, sink: &mut W) -> Result<(), Failed>
    ensures { Writes W.contents W.has_failed sink.old sink.new (net_text_of packed.now) result }
{
    write_globals(packed, sink)?;
    write_blocks(packed, sink)
}

/// Writes the lines of the global nets.
fn write_globals<W: Sink>(packed: &Packed, sink: &mut W) -> Result<(), Failed>
    ensures { Writes W.contents W.has_failed sink.old sink.new (text_of (global_lines packed.now))
        result }
{
    let mut some = false;
    for number in 0..packed.net_count() {
        let net = packed.net(number);
        if net.global {
            write_slices(
                sink,
                &[b".global ", net_name(packed.circuit(), net.net), b"\n"],
            )?;
            some = true;
        }
    }
    if some { end_line(sink) } else { Ok(()) }
}

fn write_blocks<W: Sink>(packed: &Packed, sink: &mut W) -> Result<(), Failed>
    ensures { Writes W.contents W.has_failed sink.old sink.new
        (text_of (flat_map (block_lines packed.now) (blocks_of packed.now))) result }
{
    for number in 0..packed.block_count() {
        write_block(packed, packed.block(number), sink)?;
    }
    Ok(())
}

fn write_block<W: Sink>(packed: &Packed, block: Block, sink: &mut W) -> Result<(), Failed>
    requires { HasCluster packed.now block }
    ensures { Writes W.contents W.has_failed sink.old sink.new
        (text_of (block_lines packed.now block)) result }
{
    let circuit = packed.circuit();
    match block {
        Block::InputPad(net) => {
            let name = net_name(circuit, net);
            write_slices(sink, &[b".input ", name, b"\npinlist: ", name, b"\n\n"])
        }
        Block::OutputPad(net) => {
            let name = net_name(circuit, net);
            write_slices(
                sink,
                &[b".output out:", name, b"\npinlist: ", name, b"\n\n"],
            )
        }
        Block::Cluster(cluster) => write_cluster(packed, cluster as usize, sink),
    }
}

fn write_cluster<W: Sink>(packed: &Packed, cluster: usize, sink: &mut W) -> Result<(), Failed>
    requires { cluster < length packed.now.clusters }
    ensures { Writes W.contents W.has_failed sink.old sink.new
        (text_of (block_lines packed.now (Cluster cluster))) result }
{
    write_slices(
        sink,
        &[b".clb ", cluster_name(packed, cluster), b"\npinlist:"],
    )?;
    write_pins(packed, cluster, sink)?;
    end_line(sink)?;
    write_elements(packed, cluster, sink)?;
    end_line(sink)
}

/// Writes the net on each pin of the cluster, or `open`.
fn write_pins<W: Sink>(packed: &Packed, cluster: usize, sink: &mut W) -> Result<(), Failed>
    requires { cluster < length packed.now.clusters }
    ensures { Writes W.contents W.has_failed sink.old sink.new
        (flat_map word_after_space (map (or_open (net_name packed.now.circuit)) (pins_of
        packed.now cluster)))
        result }
{
    for pin in 0..packed.arch().pins.as_slice().len() {
        write_word(sink, pin_name(packed.circuit(), packed.pin(cluster, pin)))?;
    }
    Ok(())
}

/// Writes the lines of the cluster's BLEs.
fn write_elements<W: Sink>(packed: &Packed, cluster: usize, sink: &mut W) -> Result<(), Failed>
    requires { cluster < length packed.now.clusters }
    ensures { Writes W.contents W.has_failed sink.old sink.new
        (text_of (map (element_line packed.now cluster) (elements_in packed.now cluster))) result }
{
    let _ = packed.circuit();
    for number in packed.cluster(cluster) {
        let ble = packed.ble(*number as usize);
        write_element(packed, cluster, ble, sink)?;
    }
    Ok(())
}

/// The name of a net of the circuit, or no bytes if there is no such net.
pub fn net_name(circuit: &Circuit, net: u32) -> &[u8]
    ensures { result.now ≡ net_name circuit.now net }
{
    let names = &circuit.nets;
    if (net as usize) < names.len() {
        names.name(net as usize)
    } else {
        &[]
    }
}

/// The name of the net that a pin carries, or `open`.
fn pin_name(circuit: &Circuit, carried: Option<u32>) -> &[u8]
    ensures { result.now ≡ or_open (net_name circuit.now) carried }
{
    match carried {
        Some(net) => net_name(circuit, net),
        None => b"open",
    }
}

/// The name of a cluster: that of its first BLE's output.
pub(crate) fn cluster_name(packed: &Packed, cluster: usize) -> &[u8]
    requires { cluster < length packed.now.clusters }
    ensures { result.now ≡ block_name packed.now (Cluster cluster) }
{
    match packed.cluster(cluster).first() {
        Some(seed) => net_name(packed.circuit(), packed.ble(*seed as usize).output),
        None => &[],
    }
}
