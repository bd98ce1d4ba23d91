//! The faults of pins in words: the path, the line and what is wrong.
use crate::route_wishes::GivenSize;
use desk_common::write_line;
use line_text::{Failed, LineFault, Sink};
use pin_file::{PinFileFault, PinLine};
use pinned_places::{PinFault, PinFaultKind};
use text_parts::{Part, write_parts};

/// Writes that a pin file is too long.
pub(crate) fn tell_too_long<E: Sink>(teller: &mut E, path: &str) -> Result<(), Failed> {
    write_parts(
        teller,
        &[
            Part::Text(path),
            Part::Text(": longer than 1048576 bytes\n"),
        ],
    )
}

/// Writes the fault of a pin file.
pub(crate) fn tell_file_fault<E: Sink>(
    teller: &mut E,
    path: &str,
    fault: PinFileFault,
) -> Result<(), Failed> {
    let (line, words) = match fault {
        PinFileFault::Text(LineFault::NotAscii(line)) => {
            (
                line,
                "a letter with an accent, or another byte that is not ASCII\n",
            )
        }
        PinFileFault::Text(LineFault::LineTooLong(line)) => {
            (line, "a joined line is longer than 262,144 bytes\n")
        }
        PinFileFault::NotAPin(line) => (line, "not a name, a column, a row and a pad\n"),
    };
    write_line(teller, path, line)?;
    write_parts(teller, &[Part::Text(words)])
}

/// Writes why a pin can't be met on a device of that size.
pub(crate) fn tell_pin_fault<E: Sink>(
    teller: &mut E,
    path: &str,
    pins: &[PinLine<'_>],
    size: GivenSize,
    fault: PinFault,
) -> Result<(), Failed> {
    write_line(teller, path, fault.line)?;
    for pin in pins {
        if pin.line == fault.line {
            return write_pin(teller, *pin, size, fault.kind);
        }
    }
    Ok(())
}

/// Writes why that pin can't be met.
fn write_pin<'x, E: Sink>(
    teller: &mut E,
    pin: PinLine<'x>,
    size: GivenSize,
    kind: PinFaultKind,
) -> Result<(), Failed> {
    let name = Part::Bytes(pin.name);
    match kind {
        PinFaultKind::NoPad => {
            write_parts(
                teller,
                &[Part::Text("no input and no output is called "), name],
            )?;
        }
        PinFaultKind::NoPlace => {
            write_place(teller, pin)?;
            return write_size(teller, size);
        }
        PinFaultKind::NamedBefore(line) => {
            write_parts(
                teller,
                &[
                    name,
                    Part::Text(" has its place by line "),
                    Part::Number(line),
                ],
            )?;
        }
        PinFaultKind::TakenBefore(line) => {
            write_place(teller, pin)?;
            write_parts(
                teller,
                &[Part::Text(" is taken by line "), Part::Number(line)],
            )?;
        }
    }
    write_parts(teller, &[Part::Text("\n")])
}

/// Writes a pin's place.
fn write_place<E: Sink>(teller: &mut E, pin: PinLine<'_>) -> Result<(), Failed> {
    write_parts(teller, &[Part::Text("column "), Part::Number(pin.place.x)])?;
    write_parts(teller, &[Part::Text(" row "), Part::Number(pin.place.y)])?;
    write_parts(
        teller,
        &[Part::Text(" pad "), Part::Number(pin.place.subblock)],
    )
}

/// Writes where a device of that size has pads.
fn write_size<E: Sink>(teller: &mut E, size: GivenSize) -> Result<(), Failed> {
    let words = " is not a pad of the device: pads are in columns 1 to ";
    write_parts(teller, &[Part::Text(words), Part::Number(size.columns)])?;
    write_parts(teller, &[Part::Text(", in rows 0 and ")])?;
    write_parts(teller, &[Part::Number(size.rows + 1), Part::Text("\n")])
}
