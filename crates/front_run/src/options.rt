//! The command line.
ghost use Rattle.std.specs.Prelude.{◌≡◌, IfOk, true};
ghost use Rattle.front_lines.specs.Speakers.{tag_in};
ghost use Rattle.tagged_lines.specs.Tags.{is_tag};

use clap::Error;
use front_lines::Speaker;
use option_words::{Given, OptionWord, Program, Takes, read_words, refusal};
use std::alloc::{AllocError, Global};
use std::convert::AsStr;
use tagged_lines::owner_of;

/// What follows the options in the help.
const HELP: &str = "\
Standard input and output are the client's. A client says lines without a tag, and reads
the replies without it. A netlist is handed over when its `.` has come.
The operator says lines without `op`. Each is handed over between two lines `op echo ID ..`.

Status: 0 the client has said all, 1 a file or the client failed, 2 the options are refused,
  4 memory ran out

Example: socat -t9999 UNIX-LISTEN:al.sock,fork SYSTEM:'fpgad_front --name al --id $$ in replies'
All of it: docs/LIVE.md";

/// The program for its options.
const PROGRAM: Program = Program {
    name: "fpgad_front",
    about: "Stands between one client and fpgad_live: what the client says has its tag",
    after_help: HELP,
    options: &[
        OptionWord {
            name: "name",
            value_name: "NAME",
            help: "Whose lines these are, 1 to 32 letters, digits and `_`",
            takes: Takes::Text,
            default: None,
        },
        OptionWord {
            name: "operator",
            value_name: "",
            help: "They are the operator's, in place of --name",
            takes: Takes::Nothing,
            default: None,
        },
        OptionWord {
            name: "id",
            value_name: "ID",
            help: "An id that no other connection has, 1 to 32 letters, digits, `-` and `_`",
            takes: Takes::GivenText,
            default: None,
        },
        OptionWord {
            name: "requests",
            value_name: "REQUESTS",
            help: "The FIFO or file that the service reads",
            takes: Takes::Alone,
            default: None,
        },
        OptionWord {
            name: "replies",
            value_name: "REPLIES",
            help: "The file that the service appends its output to",
            takes: Takes::Alone,
            default: None,
        },
    ],
};

const BAD_NAME: &str = "--name has 1 to 32 letters, digits and `_`";

const BAD_ID: &str = "--id has 1 to 32 letters, digits, `-` and `_`";

const NOBODY: &str = "give --name NAME or --operator, and not both";

const MISSING: &str = "an option is missing";

const NO_MEMORY: &str = "memory ran out";

/// A command line: who the client speaks as, and the paths of the files.
#[derive(Drop)]
pub struct FrontLine<'a> {
    pub speaker: Speaker,
    pub requests: &'a str,
    pub replies: &'a str,
    ghost tag_lawful: { is_tag (tag_in speaker) ≡ true },
}

/// What these words say, the first being the program's name. An error is clap's; a request for help
/// is one.
pub fn read_line<'a, S: AsStr>(alloc: Global, words: &'a [S]) -> Result<FrontLine<'a>, Error> {
    let given = read_words(alloc, &PROGRAM, words)?;
    let line = line_of(alloc, &given);
    drop(given);
    match line {
        Ok(line) => Ok(line),
        Err(why) => Err(refusal(alloc, &PROGRAM, words, why)),
    }
}

/// The command line that the options give, or why they are refused.
fn line_of<'a>(alloc: Global, given: &Given<'a>) -> Result<FrontLine<'a>, &'static str> {
    let id = given.text("id").ok_or(MISSING)?;
    let requests = given.text("requests").ok_or(MISSING)?;
    let replies = given.text("replies").ok_or(MISSING)?;
    match (given.text("name"), given.is_given("operator")) {
        (Some(name), false) => Ok(FrontLine {
            speaker: tenant(alloc, name, id)?,
            requests,
            replies,
        }),
        (None, true) => Ok(FrontLine {
            speaker: operator(alloc, id)?,
            requests,
            replies,
        }),
        _ => Err(NOBODY),
    }
}

/// The tenant of that name, on the connection with that id.
fn tenant(alloc: Global, name: &str, id: &str) -> Result<Speaker, &'static str>
    ensures { IfOk result (λ speaker. is_tag (tag_in speaker) ≡ true) }
{
    if !is_name(name.as_bytes()) {
        return Err(BAD_NAME);
    }
    Ok(Speaker::Tenant(tag_of(alloc, name, id)?))
}

/// The operator, on the connection with that id.
fn operator(alloc: Global, id: &str) -> Result<Speaker, &'static str>
    ensures { IfOk result (λ speaker. is_tag (tag_in speaker) ≡ true) }
{
    let tag = tag_of(alloc, "op", id)?;
    drop(tag);
    match Vec::from_slice(alloc, id.as_bytes()) {
        Ok(id) => Ok(Speaker::Operator(id)),
        Err(_) => Err(NO_MEMORY),
    }
}

/// `@NAME/ID`, if the id is one.
fn tag_of(alloc: Global, name: &str, id: &str) -> Result<Vec<u8>, &'static str>
    ensures { IfOk result (λ tag. is_tag tag.items ≡ true) }
{
    let Ok(tag) = name_with_id(alloc, name, id) else {
        return Err(NO_MEMORY);
    };
    if owner_of(&tag).is_some() && is_tag(&tag) {
        Ok(tag)
    } else {
        drop(tag);
        Err(BAD_ID)
    }
}

/// `@NAME/ID`.
fn name_with_id(alloc: Global, name: &str, id: &str) -> Result<Vec<u8>, AllocError> {
    let mut tag = Vec::new(alloc);
    tag.push(b'@')?;
    tag.extend_from_slice(name.as_bytes())?;
    tag.push(b'/')?;
    tag.extend_from_slice(id.as_bytes())?;
    Ok(tag)
}

/// Whether these bytes can be a name.
fn is_name(name: &[u8]) -> bool {
    !name.is_empty()
        && name.len() <= 32
        && name
            .iter()
            .all(|byte| byte.is_ascii_alphanumeric() || *byte == b'_')
}

/// Whether these bytes can be a tag.
fn is_tag(tag: &[u8]) -> bool
    ensures { result ≡ is_tag tag.now }
{
    tag.iter().all(|byte| *byte != b' ' && *byte != b'\n')
}
