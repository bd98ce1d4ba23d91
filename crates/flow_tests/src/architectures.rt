//! The fault of each text that isn't an architecture, and the number of tracks that pins reach.
ghost use Rattle.std.specs.Prelude.{◌≤◌};
ghost use Rattle.arch_file.specs.declared.arch.TheConstants.{MAX_TRACKS};

use arch_file::{ArchError, ArchFault, ArchFaultKind, ArchKeyword, read_arch};
use fixtures::ARCHITECTURE;
use line_text::{LineError, LineFault};
use std::alloc::{AllocError, Global};

/// The smallest architecture's text, with the lines of these numbers replaced.
fn with_changes(alloc: Global, changes: &[(usize, &str)]) -> Result<String, AllocError> {
    let mut text = String::new(alloc);
    for (place, own) in ARCHITECTURE.lines().enumerate() {
        let mut line: &str = own;
        for (number, other) in changes {
            if *number == place + 1 {
                line = other;
            }
        }
        text.push_str(line)?;
        text.push_str("\n")?;
    }
    Ok(text)
}

/// The reader's result for a text: its fault, or `ok`.
fn told_of(alloc: Global, text: &[u8]) -> Result<String, AllocError> {
    match read_arch(alloc, text, 2) {
        Ok(_) => String::from_str(alloc, "ok"),
        Err(error) => error.to_string(alloc),
    }
}

/// The reader's result for characters.
fn read_text(alloc: Global, text: &str) -> Result<String, AllocError> {
    told_of(alloc, text.as_bytes())
}

/// The number of a line, lines in its place, and the result.
const ROWS: [(usize, &str, &str); 35] = [
    (1, "io_rat 0", "4 BadNumber 1"),
    (1, "io_rat 9", "8 OverLimit 1"),
    (1, "io_rat 2\nio_rat 2", "2 Repeated 2"),
    (5, "inpin class: 0 north", "7 BadSide 5"),
    (7, "outpin class: 0 top", "6 BadClass 7"),
    (8, "", "6 BadClass 0"),
    (15, "switch_block_type wilton", "5 NotProfile 15"),
    (1, "io_rat 2 3", "4 BadNumber 1"),
    (1, "io_rat 2\nio_rat", "2 Repeated 2"),
    (2, "chan_width_io 0.5", "5 NotProfile 2"),
    (3, "chan_width_x", "4 BadNumber 3"),
    (3, "chan_width_x gaussian", "5 NotProfile 3"),
    (4, "chan_width_y uniform one", "4 BadNumber 4"),
    (9, "subblock 1", "1 Unknown 9"),
    (9, "", "3 Missing 0"),
    (11, "Fc_type relative", "5 NotProfile 11"),
    (12, "Fc_output 1 2", "4 BadNumber 12"),
    (17, "R_minW_nmos\nC_ipin 1 2\nT_ipin x", "ok"),
    (5, "inpin 0 bottom", "1 Unknown 5"),
    (5, "inpin class:", "6 BadClass 5"),
    (5, "inpin class: 0 global north", "6 BadClass 5"),
    (6, "inpin class: 0 left left", "7 BadSide 6"),
    (6, "inpin class: 2 global left", "6 BadClass 8"),
    (
        7,
        "outpin class: 1 top\noutpin class: 1 top",
        "6 BadClass 0",
    ),
    (8, "inpin class: 2 global global", "7 BadSide 8"),
    (
        16,
        "segment frequency: 1 length: 1 Frac_cb: 1 Frac_sb:",
        "4 BadNumber 16",
    ),
    (
        16,
        "segment frequency: 1 length: 2 Frac_cb: 1 Frac_sb: 1",
        "5 NotProfile 16",
    ),
    (
        16,
        "segment frequency: 1 length: 1 length: 1 Frac_cb: 1 Frac_sb: 1",
        "5 NotProfile 16",
    ),
    (
        16,
        "segment frequency: 1 length: 1 Frac_cb: 1",
        "5 NotProfile 16",
    ),
    (1, "io_rat 8", "ok"),
    (10, "subblock_lut_size 8", "ok"),
    (10, "subblock_lut_size 9", "8 OverLimit 10"),
    (9, "subblocks_per_clb 16", "6 BadClass 0"),
    (9, "subblocks_per_clb 17", "8 OverLimit 9"),
    (
        17,
        "segment frequency: 1 length: 1 Frac_cb: 1 Frac_sb: 1",
        "5 NotProfile 17",
    ),
];

/// The result for the smallest architecture with one line changed.
fn told_with(alloc: Global, number: usize, line: &str) -> Result<String, AllocError> {
    let text = with_changes(alloc, &[(number, line)])?;
    read_text(alloc, text.as_str())
}

/// Returns whether the result is that one, and memory sufficed.
fn is(told: Result<String, AllocError>, want: &str) -> bool {
    match told {
        Ok(told) => told.as_str() == want,
        Err(_) => false,
    }
}

/// The number of the first row with another result.
fn first_wrong(alloc: Global) -> Option<usize> {
    for (place, (number, line, want)) in ROWS.iter().enumerate() {
        if !is(told_with(alloc, *number, line), want) {
            return Some(place);
        }
    }
    None
}

/// The result for a text with two faults.
fn told_of_two(alloc: Global) -> Result<String, AllocError> {
    let text = with_changes(alloc, &[(1, "io_rat 9"), (17, "switch \u{e9}")])?;
    read_text(alloc, text.as_str())
}

/// The reader's results for the text's prefixes: each row is for the lengths after the previous
/// row's, up to its own.
const BEGINNINGS: [(usize, &str); 78] = [
    (0, "3 Missing 0"),
    (5, "1 Unknown 1"),
    (7, "4 BadNumber 1"),
    (9, "3 Missing 0"),
    (21, "1 Unknown 2"),
    (23, "4 BadNumber 2"),
    (25, "3 Missing 0"),
    (36, "1 Unknown 3"),
    (38, "4 BadNumber 3"),
    (44, "5 NotProfile 3"),
    (46, "4 BadNumber 3"),
    (48, "3 Missing 0"),
    (59, "1 Unknown 4"),
    (61, "4 BadNumber 4"),
    (67, "5 NotProfile 4"),
    (69, "4 BadNumber 4"),
    (71, "3 Missing 0"),
    (82, "1 Unknown 5"),
    (84, "6 BadClass 5"),
    (91, "7 BadSide 5"),
    (93, "3 Missing 0"),
    (104, "1 Unknown 6"),
    (106, "6 BadClass 6"),
    (111, "7 BadSide 6"),
    (113, "3 Missing 0"),
    (125, "1 Unknown 7"),
    (127, "6 BadClass 7"),
    (131, "7 BadSide 7"),
    (133, "3 Missing 0"),
    (144, "1 Unknown 8"),
    (153, "6 BadClass 8"),
    (157, "7 BadSide 8"),
    (159, "3 Missing 0"),
    (175, "1 Unknown 9"),
    (177, "4 BadNumber 9"),
    (179, "3 Missing 0"),
    (195, "1 Unknown 10"),
    (197, "4 BadNumber 10"),
    (199, "3 Missing 0"),
    (205, "1 Unknown 11"),
    (207, "4 BadNumber 11"),
    (216, "5 NotProfile 11"),
    (218, "3 Missing 0"),
    (226, "1 Unknown 12"),
    (228, "4 BadNumber 12"),
    (230, "3 Missing 0"),
    (237, "1 Unknown 13"),
    (239, "4 BadNumber 13"),
    (241, "3 Missing 0"),
    (246, "1 Unknown 14"),
    (248, "4 BadNumber 14"),
    (250, "3 Missing 0"),
    (255, "1 Unknown 15"),
    (256, "3 Missing 0"),
    (266, "1 Unknown 15"),
    (268, "4 BadNumber 15"),
    (273, "5 NotProfile 15"),
    (275, "3 Missing 0"),
    (281, "1 Unknown 16"),
    (283, "5 NotProfile 16"),
    (294, "4 BadNumber 16"),
    (296, "5 NotProfile 16"),
    (304, "4 BadNumber 16"),
    (306, "5 NotProfile 16"),
    (319, "4 BadNumber 16"),
    (321, "5 NotProfile 16"),
    (334, "4 BadNumber 16"),
    (336, "5 NotProfile 16"),
    (345, "4 BadNumber 16"),
    (348, "5 NotProfile 16"),
    (357, "4 BadNumber 16"),
    (360, "ok"),
    (368, "4 BadNumber 16"),
    (373, "ok"),
    (381, "4 BadNumber 16"),
    (388, "ok"),
    (393, "1 Unknown 17"),
    (466, "ok"),
];

/// The result for a text's first `length` bytes.
fn told_of_beginning(alloc: Global, text: &[u8], length: usize) -> Result<String, AllocError> {
    match text.get(..length) {
        Some(beginning) => told_of(alloc, beginning),
        None => String::from_str(alloc, "the text is shorter"),
    }
}

/// The length of the text's first prefix with another result.
fn first_wrong_beginning(alloc: Global, text: &[u8]) -> Option<usize> {
    let mut length = 0usize;
    for (last, want) in BEGINNINGS.iter() {
        for next in length..last.saturating_add(1) {
            if !is(told_of_beginning(alloc, text, next), want) {
                return Some(next);
            }
        }
        length = last.saturating_add(1);
    }
    None
}

/// Returns whether each prefix of the smallest architecture has its result.
fn answers_beginnings(alloc: Global) -> bool {
    match with_changes(alloc, &[]) {
        Ok(text) => first_wrong_beginning(alloc, text.as_bytes()).is_none(),
        Err(_) => false,
    }
}

/// Returns whether the results are right at the limits of a text.
fn tells_limits(alloc: Global) -> bool {
    is(read_text(alloc, ""), "3 Missing 0")
        && is(told_of_two(alloc), "9 NotAscii 17")
        && is(told_with_inputs(alloc, 127), "ok")
        && is(told_with_inputs(alloc, 128), "8 OverLimit 133")
        && is(told_with_outputs(alloc, 16), "ok")
        && is(told_of_blanks(alloc, 1_048_576), "3 Missing 0")
        && is(told_of_blanks(alloc, 1_048_577), "8 OverLimit 0")
}

/// `count` lines of pins.
fn pins(alloc: Global, count: u32, line: &str) -> Result<String, AllocError> {
    let mut pins = String::new(alloc);
    for _ in 0..count {
        pins.push_str(line)?;
    }
    Ok(pins)
}

/// The result with `count` more inputs.
fn told_with_inputs(alloc: Global, count: u32) -> Result<String, AllocError> {
    let inputs = pins(alloc, count, "inpin class: 0 left\n")?;
    told_with(alloc, 6, inputs.as_str())
}

/// The result with `count` outputs and the largest clusters.
fn told_with_outputs(alloc: Global, count: u32) -> Result<String, AllocError> {
    let outputs = pins(alloc, count, "outpin class: 1 top\n")?;
    let text = with_changes(alloc, &[(7, outputs.as_str()), (9, "subblocks_per_clb 16")])?;
    read_text(alloc, text.as_str())
}

/// The result for `count` blanks.
fn told_of_blanks(alloc: Global, count: usize) -> Result<String, AllocError> {
    let text = vec![in alloc; b' '; count]?;
    told_of(alloc, text.as_slice())
}

/// The numbers of tracks that outputs, inputs and pads reach, for an architecture with that
/// `fc_type`.
fn tracks_reached(alloc: Global, fc_type: &str, tracks: u32) -> Result<[u32; 3], ArchError>
    requires few { 1 ≤ tracks }
    requires many { tracks ≤ MAX_TRACKS }
{
    let changes = [
        (11, fc_type),
        (12, "Fc_output 0.5"),
        (13, "Fc_input 3.9"),
        (14, "Fc_pad 0"),
    ];
    let Ok(text) = with_changes(alloc, &changes) else {
        return Err(ArchError::NoMemory);
    };
    let arch = read_arch(alloc, text.as_bytes(), tracks)?;
    Ok([arch.fc_output, arch.fc_input, arch.fc_pad])
}

/// Returns whether outputs, inputs and pads reach these numbers of tracks.
fn reach(found: Result<[u32; 3], ArchError>, want: [u32; 3]) -> bool {
    match found {
        Ok(found) => found == want,
        Err(_) => false,
    }
}

/// Returns whether tracks are counted down.
fn counts_tracks_down(alloc: Global) -> bool {
    reach(tracks_reached(alloc, "Fc_type fractional", 5), [2, 5, 1])
        && reach(tracks_reached(alloc, "Fc_type absolute", 64), [1, 3, 1])
        && reach(tracks_reached(alloc, "Fc_type absolute", 1), [1, 1, 1])
}

/// Returns whether faults are shown with number, name and line.
fn tells_faults(alloc: Global) -> bool {
    let missing = ArchFault {
        line: 0,
        kind: ArchFaultKind::Missing(ArchKeyword::IoRat),
    };
    let long: ArchError = LineError::Fault(LineFault::LineTooLong(12)).told_as();
    is(missing.to_string(alloc), "3 Missing 0")
        && is(long.to_string(alloc), "10 LineTooLong 12")
        && missing.number() == 3
        && missing.name() == "Missing"
}

#[test]
fn architectures(rt: HostRuntime) {
    let alloc = rt.alloc();
    assert_eq!(rt; first_wrong(alloc), None);
    assert!(rt; answers_beginnings(alloc));
    assert!(rt; tells_limits(alloc));
    assert!(rt; tells_faults(alloc));
    assert!(rt; counts_tracks_down(alloc));
}
