//! The fault of each text that isn't a netlist, and of each prefix of one that is, and a circuit
//! with latches and clocks.
use blif::{BlifError, Latch, read_blif};
use std::alloc::{AllocError, Global};

/// The reader's result for a text whose tables have at most two inputs: its fault, or `ok`.
fn answer(alloc: Global, text: &str) -> Result<String, AllocError> {
    answer_to(alloc, text.as_bytes())
}

/// The reader's result for bytes.
fn answer_to(alloc: Global, text: &[u8]) -> Result<String, AllocError> {
    match read_blif(alloc, text, 2) {
        Ok(_circuit) => String::from_str(alloc, "ok"),
        Err(error) => error.to_string(alloc),
    }
}

/// Texts, and their results.
const ROWS: [(&str, &str); 27] = [
    ("", "9 NoModel 0"),
    (".inputs a\n.model m\n", "9 NoModel 1"),
    (
        ".model m\n.inputs a\n.outputs f f\n.names a f\n",
        "7 RepeatedOutput 3 f",
    ),
    (
        ".model m\n.inputs a\n.names a f\n1 1\n.names a f\n1 1\n",
        "5 TwoDrivers 5 f",
    ),
    (".model m\n.outputs f\n.names z f\n1 1\n", "6 Undriven 3 z"),
    (
        ".model m\n.outputs z\n.inputs a\n.names a f\n2 1\n",
        "2 BadCover 5",
    ),
    (".model m\n.inputs d\n.latch d q re\n", "8 BadLatch 3"),
    (".model m\n.subckt x a=b\n", "1 Unknown 2"),
    (".model m \\\n", "ok"),
    (".model m\n.outputs f\n.names f f\n1 1\n", "ok"),
    (".model m\n.names g\n.area 3\n", "ok"),
    (
        ".model m\n.inputs a \\\nb\n.outputs f # one\n.names a b f\n11 1\n00 0\n.end\n",
        "3 MixedCover 7",
    ),
    (
        ".model m\n.inputs a b c\n.outputs f\n.names a b c f\n111 1\n",
        "4 TooWide 4",
    ),
    (".model m\n.inputs \u{7f}\n", "11 NotAscii 2"),
    (".subckt x\n", "1 Unknown 1"),
    (".inputs a a\n", "5 TwoDrivers 1 a"),
    (".model m\n.model m\n", "1 Unknown 2"),
    (".model m\n1 1\n", "1 Unknown 2"),
    (".model m\n.names f\n1\n.area 3\n1\n", "1 Unknown 5"),
    (".model m\n.end\n.inputs a\n", "1 Unknown 3"),
    (".model m\n.names\n", "2 BadCover 2"),
    (".model m\n.names f\n1 1\n", "2 BadCover 3"),
    (
        ".model m\n.outputs z\n.inputs a\n.names a z w\n",
        "6 Undriven 2 z",
    ),
    (".model m\n.latch d q re c\n", "6 Undriven 2 d"),
    (
        ".model m\n.clock c\n.names a c\n1 1\n.inputs a\n",
        "5 TwoDrivers 3 c",
    ),
    (
        ".model m\n.clock c\n.names a c\n1 1\n.inputs a c\n",
        "5 TwoDrivers 5 c",
    ),
    (
        ".model m\n.names c\n.clock c\n.end\n.inputs c\n",
        "5 TwoDrivers 3 c",
    ),
];

/// Returns whether the result is that one, and memory sufficed.
fn is(told: Result<String, AllocError>, want: &str) -> bool {
    match told {
        Ok(told) => told.as_str() == want,
        Err(_) => false,
    }
}

/// The number of the first row with another result.
fn first_wrong(alloc: Global) -> Option<usize> {
    for (number, (text, want)) in ROWS.iter().enumerate() {
        if !is(answer(alloc, text), want) {
            return Some(number);
        }
    }
    None
}

/// A small netlist.
const SMALL: &[u8] = b".model t\n.inputs a b\n.outputs f\n.names a b f\n11 1\n.end\n";

/// The reader's results for its prefixes: each row is for the lengths after the previous row's, up
/// to its own.
const BEGINNINGS: [(usize, &str); 17] = [
    (0, "9 NoModel 0"),
    (5, "1 Unknown 1"),
    (9, "ok"),
    (15, "1 Unknown 2"),
    (21, "ok"),
    (28, "1 Unknown 3"),
    (30, "ok"),
    (32, "6 Undriven 3 f"),
    (37, "1 Unknown 4"),
    (39, "2 BadCover 4"),
    (41, "5 TwoDrivers 4 a"),
    (43, "5 TwoDrivers 4 b"),
    (45, "ok"),
    (48, "2 BadCover 5"),
    (50, "ok"),
    (53, "1 Unknown 6"),
    (55, "ok"),
];

/// The length of the first prefix of the small netlist with another result.
fn first_wrong_beginning(alloc: Global) -> Option<usize> {
    let mut length = 0usize;
    for (last, want) in BEGINNINGS.iter() {
        for next in length..last.saturating_add(1) {
            let Some(beginning) = SMALL.get(..next) else {
                return Some(next);
            };
            if !is(answer_to(alloc, beginning), want) {
                return Some(next);
            }
        }
        length = last.saturating_add(1);
    }
    None
}

/// A netlist with two latches and two clocks.
const LATCHES: &str =
    ".model\n.outputs q\n.inputs a\n.names a f\n1 1\n.latch f q re c 0\n.latch f r 2\n.clock c a c\n";

/// Its nets are q a f c r.
fn latches_and_clocks(alloc: Global) -> Result<bool, BlifError> {
    let circuit = read_blif(alloc, LATCHES.as_bytes(), 2)?;
    let latches = [
        Latch {
            line: 6,
            input: 2,
            output: 0,
            control: Some(3),
        },
        Latch {
            line: 7,
            input: 2,
            output: 4,
            control: None,
        },
    ];
    let is_so = circuit.model.as_bytes() == b"top".as_slice()
        && circuit.inputs.as_slice() == [1, 3].as_slice()
        && circuit.outputs.as_slice() == [0].as_slice()
        && circuit.latches.as_slice() == latches.as_slice();
    drop(circuit);
    Ok(is_so)
}

/// A text of `count` bytes.
fn long_text(alloc: Global, count: usize) -> Result<Vec<u8>, AllocError> {
    let mut text = b".model m\n".to_vec(alloc)?;
    for _ in 9..count {
        text.push(b'\n')?;
    }
    Ok(text)
}

/// The result for such a text.
fn long_told(alloc: Global, count: usize) -> Result<String, AllocError> {
    let text = long_text(alloc, count)?;
    match read_blif(alloc, text.as_slice(), 2) {
        Ok(_circuit) => String::from_str(alloc, "ok"),
        Err(error) => error.to_string(alloc),
    }
}

/// A text with `count` nets.
fn wide_text(alloc: Global, count: u32) -> Result<String, AllocError> {
    let mut text = String::from_str(alloc, ".model m\n.inputs")?;
    for net in 0..count {
        let name = format!(in alloc; " n{net}")?;
        text.push_str(name.as_str())?;
    }
    Ok(text)
}

/// The result for `count` nets, and more lines.
fn wide_told(alloc: Global, lines: &str) -> Result<String, AllocError> {
    let mut text = wide_text(alloc, 8192)?;
    text.push_str(lines)?;
    answer(alloc, text.as_str())
}

/// Returns whether the results are right at the limits of a text.
fn tells_limits(alloc: Global) -> bool {
    is(long_told(alloc, 1_048_576), "ok")
        && is(long_told(alloc, 1_048_577), "10 OverLimit 0")
        && is(wide_told(alloc, ""), "ok")
        && is(
            wide_told(alloc, "\n.clock n0\n.outputs n8192\n"),
            "10 OverLimit 4",
        )
}

#[test]
fn netlists(rt: HostRuntime) {
    let alloc = rt.alloc();
    assert_eq!(rt; first_wrong(alloc), None);
    assert_eq!(rt; first_wrong_beginning(alloc), None);
    assert!(rt; matches!(latches_and_clocks(alloc), Ok(true)));
    assert!(rt; tells_limits(alloc));
}
