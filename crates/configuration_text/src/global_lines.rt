//! The lines of global nets.
ghost use Rattle.std.specs.Prelude.{◌≡◌, ◌++◌, ◌==◌, ◌&&◌, IfOk, filter, is_some, map, option_map, slice_get, if◌then◌else◌};
ghost use Rattle.std.specs.List.{enumerate_from};
ghost use Rattle.std.specs.Option.{option_to_list};
ghost use Rattle.configuration_text.specs.Prelude.{driver_of_net, drivers_as, global_lines, lines_text, Feeds, ble_at};

use crate::ble_places::ble_numbers;
use crate::design::Design;
use crate::feeds::place_at;
use crate::line_bytes::push_feeds;
use cluster::Block;
use configuration::Driver;
use layouts::{LaidBle, LaidBlock};
use std::alloc::{AllocError, Global};

/// Appends the lines of the global nets.
pub(crate) fn push_globals(
    alloc: Global,
    text: &mut Vec<u8>,
    design: Design<'_>,
) -> Result<(), AllocError>
    ensures { IfOk result (λ _. text.new.items ≡ text.old.items
        ++ lines_text (global_lines design.entry.arch.now design.entry.layout.now)) }
{
    for (number, net) in design.layout.globals().iter().enumerate() {
        let driver = driver_of(alloc, design, *net)?;
        push_fed(text, number, driver)?;
    }
    Ok(())
}

/// Appends the line of a global net, if something drives it.
fn push_fed(text: &mut Vec<u8>, number: usize, driver: Option<Driver>) -> Result<(), AllocError>
    ensures { IfOk result (λ _. text.new.items ≡ text.old.items
        ++ lines_text (map (Feeds number) (option_to_list driver))) }
{
    match driver {
        Some(driver) => push_feeds(text, number, driver),
        None => Ok(()),
    }
}

/// What drives the net: the first of all.
fn driver_of(alloc: Global, design: Design<'_>, net: u32) -> Result<Option<Driver>, AllocError>
    ensures { IfOk result (λ driver.
        driver ≡ driver_of_net design.entry.arch.now design.entry.layout.now net) }
{
    for laid in design.layout.blocks() {
        if let Some(driver) = driver_in(alloc, design, laid, net)? {
            return Ok(Some(driver));
        }
    }
    Ok(None)
}

/// The first that drives the net in the block.
fn driver_in(
    alloc: Global,
    design: Design<'_>,
    laid: &LaidBlock,
    net: u32,
) -> Result<Option<Driver>, AllocError>
    ensures { IfOk result (λ driver. driver ≡ slice_get (drivers_as design.entry.arch.now
        design.entry.layout.now laid.now net laid.now.block) 0) }
{
    match laid.block() {
        Block::InputPad(input) => Ok(pad_driver(laid, input, net)),
        Block::OutputPad(_) => Ok(None),
        Block::Cluster(_) => match driving_index(laid.bles(), net) {
            Some(index) => Ok(Some(ble_driver(alloc, design, laid, index)?)),
            None => Ok(None),
        },
    }
}

/// The pad, if it drives the net.
fn pad_driver(laid: &LaidBlock, input: u32, net: u32) -> Option<Driver>
    ensures { result ≡ (if input == net then Some (Driver.PadAt laid.now.place) else None) }
{
    if input == net {
        Some(Driver::PadAt(laid.place()))
    } else {
        None
    }
}

/// The index of the first BLE whose net leaves the block and is this net.
fn driving_index(bles: &[LaidBle], net: u32) -> Option<usize>
    ensures { result ≡ option_map (λ ble. ble.0) (slice_get
        (filter (λ ble. (ble.1.name == net) && is_some ble.1.output) (enumerate_from 0 bles.now))
        0) }
{
    for (index, ble) in bles.iter().enumerate() {
        if leaves_as(ble, net) {
            return Some(index);
        }
    }
    None
}

/// Whether the BLE drives the net, and it leaves the block.
fn leaves_as(ble: &LaidBle, net: u32) -> bool
    ensures { result ≡ ((ble.now.name == net) && is_some ble.now.output) }
{
    ble.name() == net && ble.output().is_some()
}

/// The place of the block's BLE at this index.
fn ble_driver(
    alloc: Global,
    design: Design<'_>,
    laid: &LaidBlock,
    index: usize,
) -> Result<Driver, AllocError>
    ensures { IfOk result (λ driver. driver
        ≡ Driver.BleAt (ble_at design.entry.arch.now design.entry.layout.now laid.now index)) }
{
    let numbers = ble_numbers(alloc, design.arch, design.layout, laid)?;
    Ok(Driver::BleAt(place_at(laid, numbers.as_slice(), index)))
}
