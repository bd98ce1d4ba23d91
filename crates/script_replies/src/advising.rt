//! From a reply to advice.
ghost use Rattle.std.specs.Prelude.{◌≡◌};
ghost use Rattle.script_replies.specs.Usage.{first_word, is_refusal};

use crate::advice::{
    Advice, NetlistAdvice, OperatorAdvice, RoutingAdvice, SessionAdvice, StateAdvice, TenantAdvice,
};
use line_text::{decimal_u32, is_word, skip_blanks, split_word};

/// What the first line of a reply means, and what may be done, if it is a refusal or reports a
/// failed routing.
pub fn advice_for(is_operator: bool, reply: &[u8]) -> Option<Advice> {
    let (first, rest) = next_word(reply);
    if is_word(first, "refused") {
        return if is_operator {
            operator_refusal(rest)
        } else {
            tenant_refusal(rest)
        };
    }
    if is_word(first, "line") {
        return session_refusal(rest);
    }
    if is_word(first, "status") {
        return routing_failure(rest);
    }
    if is_operator {
        return step_failure(first);
    }
    None
}

/// Returns whether a reply is a refusal, by its first word.
pub fn is_refusal(reply: &[u8]) -> bool
    ensures { result ≡ is_refusal reply.now }
{
    let (first, _) = next_word(reply);
    is_word(first, "refused") || is_word(first, "line")
}

/// The line of a netlist that a reply refuses: `refused 4 BadBlif FAULT LINE`. `None` for another
/// reply, and for a fault of the whole text.
pub(crate) fn netlist_line(reply: &[u8]) -> Option<u32> {
    let (first, rest) = next_word(reply);
    let (_, rest) = next_word(rest);
    let (name, rest) = next_word(rest);
    let (_, rest) = next_word(rest);
    let (line, _) = next_word(rest);
    if !is_word(first, "refused") || !is_word(name, "BadBlif") {
        return None;
    }
    let line = decimal_u32(line)?;
    (line > 0).then_some(line)
}

/// The next word and the rest after it; empty at the end of the line.
fn next_word(line: &[u8]) -> (&[u8], &[u8])
    ensures { result.0.now ≡ first_word line.now }
{
    split_word(skip_blanks(line))
}

/// Advice for `NUMBER NAME` to the operator.
fn operator_refusal(words: &[u8]) -> Option<Advice> {
    let (number, _) = next_word(words);
    match decimal_u32(number)? {
        1 => Some(Advice::Operator(OperatorAdvice::NoMemory)),
        2 => Some(Advice::Operator(OperatorAdvice::NoRoom)),
        3 => Some(Advice::Operator(OperatorAdvice::TooManyStrips)),
        4 => Some(Advice::Operator(OperatorAdvice::BadWidth)),
        5 => Some(Advice::Operator(OperatorAdvice::NoSuchTenancy)),
        6 => Some(Advice::Operator(OperatorAdvice::IdsSpent)),
        7 => Some(Advice::Operator(OperatorAdvice::NameInUse)),
        _ => None,
    }
}

/// Advice for `NUMBER NAME CAUSE..` to a tenant.
fn tenant_refusal(words: &[u8]) -> Option<Advice> {
    let (number, rest) = next_word(words);
    let (_, cause) = next_word(rest);
    let (first, _) = next_word(cause);
    match decimal_u32(number)? {
        1 => Some(Advice::Tenant(TenantAdvice::NoMemory)),
        2 => Some(Advice::Tenant(TenantAdvice::JournalFull)),
        3 => Some(Advice::State(state_advice(first)?)),
        4 => Some(Advice::Netlist(netlist_fault(decimal_u32(first)?)?)),
        5 => Some(Advice::Tenant(TenantAdvice::CannotPack)),
        6 if is_word(first, "pads") => Some(Advice::Tenant(TenantAdvice::TooFewPads)),
        6 => Some(Advice::Tenant(TenantAdvice::TooFewBlocks)),
        7 => Some(Advice::Tenant(TenantAdvice::BadEffort)),
        _ => None,
    }
}

/// Advice for a command that is refused in that state.
fn state_advice(state: &[u8]) -> Option<StateAdvice> {
    match state {
        b"Empty" => Some(StateAdvice::Empty),
        b"Loaded" => Some(StateAdvice::Loaded),
        b"Packed" => Some(StateAdvice::Packed),
        b"Placed" => Some(StateAdvice::Placed),
        b"Routed" => Some(StateAdvice::Routed),
        b"Unrouted" => Some(StateAdvice::Unrouted),
        b"Packing" | b"Placing" | b"Routing" => Some(StateAdvice::Running),
        _ => None,
    }
}

/// Advice for the number of a netlist's fault.
fn netlist_fault(number: u32) -> Option<NetlistAdvice> {
    match number {
        1 => Some(NetlistAdvice::Unknown),
        2 => Some(NetlistAdvice::BadCover),
        3 => Some(NetlistAdvice::MixedCover),
        4 => Some(NetlistAdvice::TooWide),
        5 => Some(NetlistAdvice::TwoDrivers),
        6 => Some(NetlistAdvice::Undriven),
        7 => Some(NetlistAdvice::RepeatedOutput),
        8 => Some(NetlistAdvice::BadLatch),
        9 => Some(NetlistAdvice::NoModel),
        10 => Some(NetlistAdvice::OverLimit),
        11 => Some(NetlistAdvice::NotAscii),
        12 => Some(NetlistAdvice::LineTooLong),
        _ => None,
    }
}

/// Advice for `NUMBER NAME` to a session's line.
fn session_refusal(words: &[u8]) -> Option<Advice> {
    let (number, _) = next_word(words);
    match decimal_u32(number)? {
        1 => Some(Advice::Session(SessionAdvice::UnknownCommand)),
        2 => Some(Advice::Session(SessionAdvice::BadNumber)),
        3 => Some(Advice::Session(SessionAdvice::UnfinishedUpload)),
        4 => Some(Advice::Session(SessionAdvice::Evicted)),
        _ => None,
    }
}

/// Advice for `STATE STEPS ENDING` of a status.
fn routing_failure(words: &[u8]) -> Option<Advice> {
    let (_, rest) = next_word(words);
    let (_, ending) = next_word(rest);
    let (word, _) = next_word(ending);
    if is_word(word, "gaveup") {
        Some(Advice::Routing(RoutingAdvice::GaveUp))
    } else if is_word(word, "nopath") {
        Some(Advice::Routing(RoutingAdvice::NoPath))
    } else {
        None
    }
}

/// Advice for the outcome of a step.
fn step_failure(word: &[u8]) -> Option<Advice> {
    if is_word(word, "nomemory") {
        Some(Advice::Operator(OperatorAdvice::StepLacksMemory))
    } else if is_word(word, "full") {
        Some(Advice::Operator(OperatorAdvice::JournalFull))
    } else if is_word(word, "gone") {
        Some(Advice::Operator(OperatorAdvice::NoSuchTenancy))
    } else {
        None
    }
}
