//! The tool that prints a page for a browser.
ghost use Rattle.std.specs.Prelude.{◌≡◌, map, option_map, IfOk, OnErr};
ghost use Rattle.desk_replies.specs.Prelude.{Writes, named_act};
ghost use Rattle.desk_replies.specs.Asked.{IsPageAskedFor};
ghost use Rattle.desk_replies.specs.Paged.{AreScriptTexts, IsPage, IsPageOfActs, IsPageShown, IsPageWith, device_text, number_in, sink_text, size_text};

use crate::lines::Lines;
use crate::outdated::tell_outdated;
use crate::overuse::{ServedScript, device_with};
use crate::page_items::write_page_of;
use crate::page_texts::PageTexts;
use crate::script_input::{acts_of, lines_of, replies_of};
use crate::states::{NameState, present_states};
use desk_common::{
    ALONE, COLUMNS, DEVICE, FILE, FileRole, FileTexts, Outcome, ROWS, TRACKS, read_input,
};
use indexmap::IndexMap;
use line_text::{Failed, Sink, Source, decimal_u32};
use option_words::{Given, OptionWord, Program};
use script_replies::{Replies, accounts_of};
use script_text::Act;
use std::alloc::Global;
use text_parts::{Part, write_parts};

const NO_FILE: &str = "give a script";

/// The tool and its options.
pub const TOOL: Program = Program {
    name: "page",
    about: "Prints one HTML file for a browser, from a script and what fpgad printed for it, which it reads from standard input",
    after_help: "\
The page has the strips with their names, and of each tenancy its placement and routes: zoom with the wheel, drag, search for a net
or a block, click one to see its driver, its readers and its wires, show the use of channels. It says the state of each tenancy, and
the line whose reply tells it last. A button shows the longest path of a routed netlist, stop by stop. It lists the refused lines with their numbers, their replies and advice: the first 100 of them.
With the rows and tracks it also says where the routing of an Unrouted tenancy was left overused, and by which nets; for that the
netlist is placed and routed again; if it was changed, that is not known. The page needs nothing else. A name or a line of the script is never markup in it. NAME.html#TENANCY/NET opens with that net.

Example: fpgad --arch my.arch --tracks 8 --columns 10 < my.script > my.out; fpgad_desk page --arch my.arch my.script < my.out > my.html",
    options: &[
        OptionWord {
            name: "arch",
            help: "Give it if fpgad was given it: then the script has no architecture at its beginning",
            ..FILE
        },
        OptionWord {
            help: "Columns of the device, 1 to 256; without it the page ends with the last strip",
            default: None,
            ..COLUMNS
        },
        OptionWord {
            help: "Tracks of each channel, 1 to 64; without it use is shown against the highest used track",
            default: None,
            ..TRACKS
        },
        OptionWord {
            help: "Rows of the device, 1 to 64; without it overused nodes are not shown",
            default: None,
            ..ROWS
        },
        DEVICE,
        OptionWord {
            name: "script",
            value_name: "SCRIPT",
            help: "The script",
            ..ALONE
        },
    ],
};

/// The script, and the sizes of its device if they are given.
#[derive(Clone, Copy)]
pub struct PageWishes<'a> {
    script: &'a str,
    columns: Option<&'a str>,
    tracks: Option<&'a str>,
    rows: Option<&'a str>,
    /// The architecture's file; without it the script begins with the architecture.
    arch: Option<&'a str>,
}

/// What the options ask for, or why they are refused.
pub fn wishes_of<'a>(given: &Given<'a>) -> Result<PageWishes<'a>, &'static str>
    ensures asked { IfOk result (IsPageAskedFor given.now) }
    ensures refused { OnErr result ((wishes : PageWishes) → IsPageAskedFor given.now wishes → ⊥) }
{
    Ok(PageWishes {
        script: given.text("script").ok_or(NO_FILE)?,
        columns: given.text("columns"),
        tracks: given.text("tracks"),
        rows: given.text("rows"),
        arch: given.text("arch"),
    })
}

/// Reads the script, and what was printed for its lines, and prints the page.
pub fn run<F: FileTexts + AllocGlobal, R: Source, W: Sink, E: Sink>(
    files: &F,
    wishes: PageWishes<'_>,
    reader: &mut R,
    writer: &mut W,
    teller: &mut E,
) -> Result<(), Outcome>
    ensures { IfOk result (λ _. IsPageShown W.contents W.has_failed writer.old writer.new
        (F.text files.now) (R.remaining reader.old) wishes.entry) }
{
    let script = files.read_text(FileRole::Script, wishes.script, u64::MAX, teller)?;
    let alloc = files.alloc();
    let Some(path) = wishes.arch else {
        let lines = lines_of(script.as_slice(), true);
        return print(alloc, wishes, lines, reader, writer, teller);
    };
    let arch = files.read_text(FileRole::Architecture, path, u64::MAX, teller)?;
    let lines = Lines {
        text: script.as_slice(),
        architecture: arch.as_slice(),
        number: 1,
    };
    print(alloc, wishes, lines, reader, writer, teller)
}

/// Reads what was printed for these lines, and prints the page.
fn print<R: Source, W: Sink, E: Sink>(
    alloc: Global,
    wishes: PageWishes<'_>,
    lines: Lines<'_>,
    reader: &mut R,
    writer: &mut W,
    teller: &mut E,
) -> Result<(), Outcome>
    ensures { IfOk result (λ _. IsPage W.contents W.has_failed writer.old writer.new
        (R.remaining reader.old) wishes.entry lines.entry) }
{
    let printed = read_input(alloc, reader)?;
    let script = acts_of(alloc, lines)?;
    let acts = script.as_slice();
    let replies = replies_of(alloc, acts, printed.as_slice())?;
    print_acts(alloc, wishes, lines, acts, &replies, writer, teller)
}

/// Prints the page of these acts and their replies.
fn print_acts<W: Sink, E: Sink>(
    alloc: Global,
    wishes: PageWishes<'_>,
    lines: Lines<'_>,
    acts: &[Act<&[u8]>],
    replies: &Replies<'_, '_>,
    writer: &mut W,
    teller: &mut E,
) -> Result<(), Outcome>
    ensures { IfOk result (λ _. IsPageOfActs W.contents W.has_failed writer.old writer.new
        wishes.entry lines.entry (map named_act acts.now) replies.now) }
{
    let (rows, tracks) = (number_in(wishes.rows), number_in(wishes.tracks));
    let served = ServedScript {
        acts,
        replies,
        device: device_with(lines.architecture, rows, tracks),
    };
    print_served(alloc, wishes, lines, served, writer, teller)
}

/// Prints the page of a script that was served.
fn print_served<W: Sink, E: Sink>(
    alloc: Global,
    wishes: PageWishes<'_>,
    lines: Lines<'_>,
    served: ServedScript<'_>,
    writer: &mut W,
    teller: &mut E,
) -> Result<(), Outcome>
    ensures { IfOk result (λ _. IsPageWith W.contents W.has_failed writer.old writer.new
        wishes.entry lines.entry served.entry.device (map named_act served.entry.acts.now)
        served.entry.replies.now) }
{
    let states = present_states(alloc, served.acts, served.replies)?;
    let texts = texts_of(alloc, wishes, lines, served.replies, &states)?;
    let accounts = accounts_of(alloc, served.acts, served.replies)?;
    for account in &accounts {
        tell_outdated(*account, "not shown", teller);
    }
    write_page_of(alloc, served, &states, &accounts, &texts, writer).or(Err(Outcome::OutputFailed))
}

/// The number that an option gives, if it does.
fn number_in(text: Option<&str>) -> Option<u32>
    ensures { result ≡ number_in text.entry }
{
    decimal_u32(text?.as_bytes())
}

/// The texts about the script and the device. Fails if memory runs out.
fn texts_of(
    alloc: Global,
    wishes: PageWishes<'_>,
    lines: Lines<'_>,
    replies: &Replies<'_, '_>,
    states: &IndexMap<&[u8], NameState<'_>>,
) -> Result<PageTexts, Outcome>
    ensures texts { IfOk result (AreScriptTexts lines.entry replies.now states.now.entries) }
    ensures device { IfOk result (λ texts. sink_text texts.device ≡ device_text wishes.entry) }
{
    let mut texts = PageTexts::new(alloc);
    texts.fill(alloc, lines, replies, states)?;
    write_device(wishes, &mut texts.device).or(Err(Outcome::NoMemory))?;
    Ok(texts)
}

/// Writes the sizes of the device that are given.
fn write_device<W: Sink>(wishes: PageWishes<'_>, writer: &mut W) -> Result<(), Failed>
    ensures { Writes W.contents W.has_failed writer.old writer.new (device_text wishes.entry)
        result }
{
    write_size("columns", wishes.columns, writer)?;
    write_size("tracks", wishes.tracks, writer)
}

/// Writes a size, if it is given.
fn write_size<W: Sink>(word: &'static str, size: Option<&str>, writer: &mut W) -> Result<(), Failed>
    ensures { Writes W.contents W.has_failed writer.old writer.new
        (size_text word.now (option_map (λ text. text.now) size.entry)) result }
{
    match size {
        Some(size) => write_parts(
            writer,
            &[
                Part::Text(word),
                Part::Text(" "),
                Part::Text(size),
                Part::Text("\n"),
            ],
        ),
        None => Ok(()),
    }
}
