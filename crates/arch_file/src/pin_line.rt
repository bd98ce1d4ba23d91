//! Reads the line of a pin: its class and its sides.
ghost use Rattle.std.specs.Prelude.{ℕ, ◌≡◌, ◌<◌, ◌++◌, ◌∷◌, [], List, IfOk, Some, nat_lt, true, false};
ghost use Rattle.arch_file.specs.declared.arch.TheConstants.{MAX_INPUTS};
ghost use Rattle.arch_file.specs.Readings.{FindsLeast};
ghost use Rattle.arch_file.specs.PinLine.{class_faults, class_fits, class_of, pin_in, pin_line_faults, sides_of};
ghost use Rattle.arch_file.specs.Pins.{clock_count, has_side, input_count, is_clock_class, is_input_class};
ghost use Rattle.arch_file.specs.SideWords.{Shows};
ghost use Rattle.arch_file.specs.declared.arch.Pin.{Pin};

use crate::arch::{MAX_INPUTS, Pin, PinClass, Sides};
use crate::fault::{ArchFaultKind, ArchKeyword};
use line_text::{Line, is_word};

/// The meaning of the words after a pin's class.
#[derive(Clone, Copy)]
struct SideWords {
    sides: Sides,
    is_global: bool,
    /// Each word is a side or `global`, and none occurs twice.
    is_lawful: bool,
}

impl SideWords {
    /// The meaning of no words.
    fn none() -> Self
        ensures { Shows result [] }
    {
        SideWords {
            sides: Sides {
                top: false,
                bottom: false,
                left: false,
                right: false,
            },
            is_global: false,
            is_lawful: true,
        }
    }

    /// Adds one more word.
    fn with(self, word: &[u8]) -> Self
        ensures { (before : List (List ℕ)) → Shows self before →
            Shows result (before ++ word.now ∷ []) }
    {
        let mut more = self;
        if is_word(word, "top") {
            more.is_lawful &= !more.sides.top;
            more.sides.top = true;
            return more;
        }
        if is_word(word, "bottom") {
            more.is_lawful &= !more.sides.bottom;
            more.sides.bottom = true;
            return more;
        }
        if is_word(word, "left") {
            more.is_lawful &= !more.sides.left;
            more.sides.left = true;
            return more;
        }
        if is_word(word, "right") {
            more.is_lawful &= !more.sides.right;
            more.sides.right = true;
            return more;
        }
        if is_word(word, "global") {
            more.is_lawful &= !more.is_global;
            more.is_global = true;
            return more;
        }
        more.is_lawful = false;
        more
    }

    /// Reads all words of the line.
    fn of(line: &Line<'_, '_>) -> Self
        ensures { Shows result line.now.words }
    {
        let words = line.words();
        let mut read = SideWords::none();
        for word in words {
            read = read.with(word);
        }
        read
    }
}

/// Whether the pin can be reached on some side.
fn has_side(sides: Sides) -> bool
    ensures { result ≡ has_side sides }
{
    sides.top || sides.bottom || sides.left || sides.right
}

/// The class that the word names.
fn class_of(word: &[u8]) -> Option<PinClass>
    ensures { result ≡ class_of word.now }
{
    if is_word(word, "0") {
        return Some(PinClass::Input);
    }
    if is_word(word, "1") {
        return Some(PinClass::Output);
    }
    if is_word(word, "2") {
        return Some(PinClass::Clock);
    }
    None
}

/// Whether the keyword allows pins of this class: inputs and outputs that aren't global, and a
/// clock that is.
fn class_fits(keyword: ArchKeyword, class: PinClass, is_global: bool) -> bool
    ensures { result ≡ class_fits keyword (Some class) is_global }
{
    match (keyword, class) {
        (ArchKeyword::Inpin, PinClass::Input) => !is_global,
        (ArchKeyword::Inpin, PinClass::Clock) => is_global,
        (ArchKeyword::Outpin, PinClass::Output) => !is_global,
        _ => false,
    }
}

/// The pin of a class word and the line after it, or the least fault. `inputs` is the number of
/// inputs before it, and `has_clock` whether there is a clock before it.
fn pin_of(
    keyword: ArchKeyword,
    class: &[u8],
    sides: &Line<'_, '_>,
    inputs: u32,
    has_clock: bool,
) -> Result<Pin, ArchFaultKind>
    ensures faults { (pins : List Pin) → inputs ≡ input_count pins →
        has_clock ≡ nat_lt 0 (clock_count pins)
        → FindsLeast (class_faults pins keyword (class_of class.now) sides.now.words) result }
    ensures class { IfOk result (λ pin. class_of class.now ≡ Some pin.class) }
    ensures sides { IfOk result (λ pin. pin.sides ≡ sides_of sides.now.words) }
    ensures reached { IfOk result (λ pin. has_side pin.sides ≡ true) }
    ensures clock { IfOk result (λ pin. is_clock_class pin.class ≡ true → has_clock ≡ false) }
    ensures room { IfOk result (λ pin. is_input_class pin.class ≡ true → inputs < MAX_INPUTS) }
{
    let read = SideWords::of(sides);
    let Some(class) = class_of(class) else {
        return Err(ArchFaultKind::BadClass);
    };
    if !class_fits(keyword, class, read.is_global) {
        return Err(ArchFaultKind::BadClass);
    }
    if class == PinClass::Clock && has_clock {
        return Err(ArchFaultKind::BadClass);
    }
    if !read.is_lawful || !has_side(read.sides) {
        return Err(ArchFaultKind::BadSide);
    }
    if class == PinClass::Input && inputs >= MAX_INPUTS {
        return Err(ArchFaultKind::OverLimit);
    }
    Ok(Pin {
        class,
        sides: read.sides,
    })
}

/// The pin of a line after its keyword, or the least fault. `inputs` is the number of inputs before
/// it, and `has_clock` whether there is a clock before it.
#[tactic(auto, unfolding(crate::specs::PinLine::pin_line_faults, crate::specs::PinLine::pin_in))]
pub(crate) fn pin_in(
    keyword: ArchKeyword,
    line: &Line<'_, '_>,
    inputs: u32,
    has_clock: bool,
) -> Result<Pin, ArchFaultKind>
    ensures faults { (pins : List Pin) → inputs ≡ input_count pins →
        has_clock ≡ nat_lt 0 (clock_count pins)
        → FindsLeast (pin_line_faults pins keyword line.now.words) result }
    ensures value { IfOk result (λ pin. pin_in line.now.words ≡ Some pin) }
    ensures reached { IfOk result (λ pin. has_side pin.sides ≡ true) }
    ensures clock { IfOk result (λ pin. is_clock_class pin.class ≡ true → has_clock ≡ false) }
    ensures room { IfOk result (λ pin. is_input_class pin.class ≡ true → inputs < MAX_INPUTS) }
{
    match line.split_first() {
        None => Err(ArchFaultKind::Unknown),
        Some((word, rest)) => {
            if !is_word(word, "class:") {
                return Err(ArchFaultKind::Unknown);
            }
            match rest.split_first() {
                None => Err(ArchFaultKind::BadClass),
                Some((class, sides)) => pin_of(keyword, class, &sides, inputs, has_clock),
            }
        }
    }
}
