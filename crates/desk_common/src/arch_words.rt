//! The faults of an architecture file in words.

use crate::file_lines::write_place;
use arch_file::{ArchFault, ArchFaultKind, ArchKeyword};
use line_text::{Failed, Sink};
use text_parts::{Part, write_parts};

/// Writes what is wrong with the architecture file of that path, in one line: the path, the fault's
/// line if it has one, and the fault.
pub fn write_arch_fault<E: Sink>(
    teller: &mut E,
    path: &str,
    fault: ArchFault,
) -> Result<(), Failed> {
    let keyword = keyword_in(fault.kind).map_or("", text_of);
    write_place(teller, path, fault.line)?;
    let words = [
        Part::Text(words_of(fault.kind)),
        Part::Text(keyword),
        Part::Text(profile_of(fault.kind)),
        Part::Text("\n"),
    ];
    write_parts(teller, words.as_slice())
}

/// The keyword that a fault names.
fn keyword_in(kind: ArchFaultKind) -> Option<ArchKeyword> {
    match kind {
        ArchFaultKind::Missing(keyword) | ArchFaultKind::NotProfile(keyword) => Some(keyword),
        _ => None,
    }
}

/// A fault in words, up to the keyword that it names.
fn words_of(kind: ArchFaultKind) -> &'static str {
    match kind {
        ArchFaultKind::Unknown => {
            "the first word is not a keyword of an architecture file, or a pin has no `class:`"
        }
        ArchFaultKind::Repeated => "an earlier line already has this keyword",
        ArchFaultKind::Missing(_) => "no line has the keyword ",
        ArchFaultKind::BadNumber => {
            "too few words, too many words, or a word that is not a number of the right kind"
        }
        ArchFaultKind::NotProfile(_) => "this value is not supported: ",
        ArchFaultKind::BadClass => {
            "the pins must be: class 0 for the inputs, class 1 for one output of each subblock, class 2 for one clock"
        }
        ArchFaultKind::BadSide => "a pin's sides are one to four of top, bottom, left and right",
        ArchFaultKind::OverLimit => "a number or the length of the text is above its limit",
        ArchFaultKind::NotAscii => "a letter with an accent, or another byte that is not ASCII",
        ArchFaultKind::LineTooLong => "a joined line is longer than 262,144 bytes",
    }
}

/// What a line with a keyword must say, if a fault says that it has another value.
fn profile_of(kind: ArchFaultKind) -> &'static str {
    let ArchFaultKind::NotProfile(keyword) = kind else {
        return "";
    };
    match keyword {
        ArchKeyword::ChanWidthIo => " must be 1",
        ArchKeyword::ChanWidthX | ArchKeyword::ChanWidthY => " must be uniform 1",
        ArchKeyword::FcType => " must be absolute or fractional",
        ArchKeyword::SwitchBlockType => " must be subset",
        ArchKeyword::Segment => {
            " must be one line with frequency: 1 length: 1 Frac_cb: 1 Frac_sb: 1"
        }
        _ => "",
    }
}

fn text_of(keyword: ArchKeyword) -> &'static str {
    match keyword {
        ArchKeyword::IoRat => "io_rat",
        ArchKeyword::ChanWidthIo => "chan_width_io",
        ArchKeyword::ChanWidthX => "chan_width_x",
        ArchKeyword::ChanWidthY => "chan_width_y",
        ArchKeyword::Inpin => "inpin",
        ArchKeyword::Outpin => "outpin",
        ArchKeyword::SubblocksPerClb => "subblocks_per_clb",
        ArchKeyword::SubblockLutSize => "subblock_lut_size",
        ArchKeyword::FcType => "Fc_type",
        ArchKeyword::FcOutput => "Fc_output",
        ArchKeyword::FcInput => "Fc_input",
        ArchKeyword::FcPad => "Fc_pad",
        ArchKeyword::SwitchBlockType => "switch_block_type",
        ArchKeyword::Segment => "segment",
    }
}
