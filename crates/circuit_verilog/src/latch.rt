//! The latch of a BLE.
ghost use Rattle.std.specs.Prelude.{◌≡◌, ◌++◌, None, OnOk, Some};
ghost use Rattle.std.specs.List.{list_any};
ghost use Rattle.implements.specs.Layouts.{traced_ble};
ghost use Rattle.table_rows.specs.CellLines.{args_at, init_in};
ghost use Rattle.circuit_verilog.specs.Parts.{bit_text, clock_name, edge_of, initial_text, is_bit, store_text, when_text};
ghost use Rattle.circuit_verilog.specs.Verilog.{declared_text, is_free_edge, latch_edge, needs_clock, plain_text, state_text, stored_text};

use crate::parts::push_parts;
use arch_file::Arch;
use blif::{Circuit, Latch};
use configuration_text::{clock_of, latch_words};
use layouts::{LaidBle, LaidBlock};
use line_text::{Lines, is_word};
use std::alloc::AllocError;
use text_parts::Part;

/// When a latch stores.
#[derive(Clone, Copy)]
pub(crate) enum StoreEdge {
    /// At a rising edge of its clock.
    Rising,
    /// At a falling edge.
    Falling,
    /// While its control is 1.
    High,
    /// While its control is 0.
    Low,
    /// At a rising edge of a clock that no net of the circuit is.
    Free,
}

/// When a latch of this type stores, if a net controls it.
fn edge_of(kind: &[u8]) -> StoreEdge
    ensures { result ≡ edge_of kind.now }
{
    if is_word(kind, "re") {
        StoreEdge::Rising
    } else if is_word(kind, "fe") {
        StoreEdge::Falling
    } else if is_word(kind, "ah") {
        StoreEdge::High
    } else if is_word(kind, "al") {
        StoreEdge::Low
    } else {
        StoreEdge::Free
    }
}

/// When a latch stores.
fn latch_edge(netlist: &Lines<'_>, latch: Latch) -> StoreEdge
    ensures { result ≡ latch_edge netlist.now latch }
{
    match latch.control {
        Some(_) => edge_of(latch_words(netlist, latch.line).kind),
        None => StoreEdge::Free,
    }
}

/// Returns whether a latch stores at a clock that no net of the circuit is.
fn is_free(netlist: &Lines<'_>, latch: Latch) -> bool
    ensures { result ≡ is_free_edge (latch_edge netlist.now latch) }
{
    match latch_edge(netlist, latch) {
        StoreEdge::Free => true,
        StoreEdge::Rising => false,
        StoreEdge::Falling => false,
        StoreEdge::High => false,
        StoreEdge::Low => false,
    }
}

/// Returns whether a latch of the circuit needs a clock that no net is.
pub(crate) fn needs_clock(netlist: &Lines<'_>, circuit: &Circuit) -> bool
    ensures { result ≡ needs_clock netlist.now circuit.now }
{
    any_is_free(netlist, circuit.latches.as_slice())
}

/// Returns whether one of these latches stores at a clock that no net of the circuit is.
fn any_is_free(netlist: &Lines<'_>, latches: &[Latch]) -> bool
    ensures { result ≡ list_any (λ latch. is_free_edge (latch_edge netlist.now latch))
        latches.now }
{
    latches.iter().any(|latch| is_free(netlist, *latch))
}

/// Appends what becomes of the value of a BLE's table: its latch stores it, or it goes to the wire
/// of its net.
pub(crate) fn push_state(
    text: &mut Vec<u8>,
    netlist: &Lines<'_>,
    arch: &Arch,
    laid: &LaidBlock,
    ble: &LaidBle,
    latch: Option<Latch>,
) -> Result<(), AllocError>
    ensures { OnOk result (text.new.items ≡ text.old.items
        ++ state_text netlist.now arch.now laid.now ble.now latch) }
{
    match latch {
        Some(latch) => push_stored(text, netlist, arch, laid, ble, latch),
        None => push_plain(text, ble.name()),
    }
}

/// Appends that what a table gives goes to the wire of its net.
fn push_plain(text: &mut Vec<u8>, net: u32) -> Result<(), AllocError>
    ensures { OnOk result (text.new.items ≡ text.old.items ++ plain_text net) }
{
    push_parts(
        text,
        &[
            Part::Text("  assign \\#"),
            Part::Number(net),
            Part::Text(" = \\#t"),
            Part::Number(net),
            Part::Text(" ;\n"),
        ],
    )
}

/// Appends the latch of a BLE.
fn push_stored(
    text: &mut Vec<u8>,
    netlist: &Lines<'_>,
    arch: &Arch,
    laid: &LaidBlock,
    ble: &LaidBle,
    latch: Latch,
) -> Result<(), AllocError>
    ensures { OnOk result (text.new.items ≡ text.old.items
        ++ stored_text netlist.now arch.now laid.now ble.now latch) }
{
    push_declared(text, ble)?;
    push_initial(text, latch_words(netlist, latch.line).init, ble.name())?;
    push_store(
        text,
        latch_edge(netlist, latch),
        ble.name(),
        clock_of(arch, laid, ble),
    )
}

/// Declares the register of the latch of a BLE, whose value goes to the wire of its net.
fn push_declared(text: &mut Vec<u8>, ble: &LaidBle) -> Result<(), AllocError>
    ensures { OnOk result (text.new.items ≡ text.old.items ++ declared_text ble.now.name) }
{
    let net = ble.name();
    push_parts(
        text,
        &[
            Part::Text("  reg \\#q"),
            Part::Number(net),
            Part::Text(" ;\n  assign \\#"),
            Part::Number(net),
            Part::Text(" = \\#q"),
            Part::Number(net),
            Part::Text(" ;\n"),
        ],
    )
}

/// Appends that initial value of the latch that drives a net, if it is known.
fn push_initial(text: &mut Vec<u8>, init: &[u8], net: u32) -> Result<(), AllocError>
    ensures { OnOk result (text.new.items ≡ text.old.items ++ initial_text init.now net) }
{
    if is_bit(init) {
        push_bit(text, init, net)
    } else {
        Ok(())
    }
}

/// Appends that the latch that drives a net starts with this bit.
fn push_bit(text: &mut Vec<u8>, init: &[u8], net: u32) -> Result<(), AllocError>
    ensures { OnOk result (text.new.items ≡ text.old.items ++ bit_text init.now net) }
{
    push_parts(
        text,
        &[
            Part::Text("  initial \\#q"),
            Part::Number(net),
            Part::Text(" = 1'b"),
            Part::Bytes(init),
            Part::Text(";\n"),
        ],
    )
}

/// Returns whether an initial value is 0 or 1.
fn is_bit(init: &[u8]) -> bool
    ensures { result ≡ is_bit init.now }
{
    is_word(init, "0") || is_word(init, "1")
}

/// Appends the statement by which the latch that drives a net stores.
fn push_store(
    text: &mut Vec<u8>,
    edge: StoreEdge,
    net: u32,
    clock: Option<u32>,
) -> Result<(), AllocError>
    ensures { OnOk result (text.new.items
        ≡ text.old.items ++ store_text edge net (clock_name clock)) }
{
    match edge {
        StoreEdge::Rising => push_when(text, "  always @(posedge ", clock, ") ", "<= ", net),
        StoreEdge::Falling => push_when(text, "  always @(negedge ", clock, ") ", "<= ", net),
        StoreEdge::High => push_when(text, "  always @* if (", clock, ") ", "= ", net),
        StoreEdge::Low => push_when(text, "  always @* if (!", clock, ") ", "= ", net),
        StoreEdge::Free => push_when(text, "  always @(posedge ", None, ") ", "<= ", net),
    }
}

/// Appends a statement that stores what the table gives, with the clock between two texts.
fn push_when(
    text: &mut Vec<u8>,
    front: &'static str,
    clock: Option<u32>,
    back: &'static str,
    becomes: &'static str,
    net: u32,
) -> Result<(), AllocError>
    ensures { OnOk result (text.new.items ≡ text.old.items
        ++ when_text front.entry.now (clock_name clock) back.entry.now becomes.entry.now net) }
{
    push_clock(text, front, clock)?;
    push_parts(
        text,
        &[
            Part::Text(back),
            Part::Text("\\#q"),
            Part::Number(net),
            Part::Text(" "),
            Part::Text(becomes),
            Part::Text("\\#t"),
            Part::Number(net),
            Part::Text(" ;\n"),
        ],
    )
}

/// Appends a text and the name of a clock.
fn push_clock(text: &mut Vec<u8>, front: &'static str, clock: Option<u32>) -> Result<(), AllocError>
    ensures { OnOk result (text.new.items
        ≡ text.old.items ++ (front.entry.now ++ clock_name clock)) }
{
    match clock {
        Some(net) => push_parts(
            text,
            &[
                Part::Text(front),
                Part::Text("\\#"),
                Part::Number(net),
                Part::Text(" "),
            ],
        ),
        None => push_parts(text, &[Part::Text(front), Part::Text("\\#clock ")]),
    }
}
