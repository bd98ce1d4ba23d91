//! A name that is held.
ghost use Rattle.std.specs.Prelude.{◌≡◌, ◌≢◌, ◌<◌, ◌++◌, ◌∷◌, [], ℕ, List, None, Some, length, true, IfOk, MatchBool, MatchResult, OnErr, OnOk};
ghost use Rattle.live_machine.specs.Prelude.{is_one_line, Blank, ends_text, rest_of};
ghost use Rattle.live_machine.specs.Held.{HearsForm, HearsHeld, HearsIn, IsSaidBy, IsSaidText, PutsItem, TakesFirst, TakesLostItems, begins_with_wait, calls_off, gives_up, has_items, is_lost_text};
ghost use Rattle.live_machine.specs.declared.held.OpenText.TheVariants.{Begun, Lost, NoText};

use crate::item_lines::{ItemLines, form_of};
use backlog::{Backlog, Turn};
use sessions::{LineForm, SessionLine, TextKind, is_point, without_cr};
use std::alloc::{AllocError, Global};
use std::marker::Model;
use std::mem;
use tagged_lines::split_tag;
use tenant_slot::Command;

/// The text that a name is in after its last item.
#[derive(Drop)]
pub(crate) enum OpenText {
    /// None.
    NoText,
    /// One with these lines so far.
    Begun(ItemLines),
    /// One that was lost, and whose end hasn't come.
    Lost,
}

/// As many items wait as can be counted.
#[derive(Clone, Copy, PartialEq, Eq)]
pub(crate) struct TooManyItems;

/// A name that is held, the id of the tenancy in which it said what waits, and what waits.
#[derive(Drop)]
pub(crate) struct Hold {
    alloc: Global,
    name: Vec<u8>,
    id: u32,
    items: Backlog<ItemLines>,
    text: OpenText,
}

impl Model for Hold {
    ghost use Rattle.live_machine.specs.Held.{AreSaid, Held};

    ghost Value = { Held };

    ghost view = { λ h. record { name = h.name.items; id = h.id; items = h.items; text = h.text } };

    ghost invariant = { λ h.
        AreSaid (record { name = h.name.items; id = h.id; items = h.items; text = h.text }) };
}

impl Hold {
    /// The name, held by that `wait`.
    ///
    /// # Errors
    /// `AllocError` if memory runs out.
    pub(crate) fn new(alloc: Global, name: &[u8], id: u32, wait: &[u8]) -> Result<Self, AllocError>
        requires { IsSaidBy name.now wait.now }
        ensures { IfOk result (λ hold.
            hold ≡ record {
              name = name.now;
              id = id;
              items = Some (wait.now ∷ []) ∷ [];
              text = NoText;
            }) }
    {
        let name = Vec::from_slice(alloc, name)?;
        let items = one_item(alloc, wait)?;
        Ok(Hold {
            alloc,
            name,
            id,
            items,
            text: OpenText::NoText,
        })
    }

    /// The name.
    pub(crate) fn name(&self) -> &[u8]
        ensures { result.now ≡ self.now.name }
    {
        self.name.as_slice()
    }

    /// The id of the tenancy in which it said what waits.
    pub(crate) fn id(&self) -> u32
        ensures { result ≡ self.now.id }
    {
        self.id
    }

    /// A line of the name comes, and waits.
    ///
    /// # Errors
    /// `TooManyItems` if no more items can be counted. Nothing changes then.
    pub(crate) fn hear(&mut self, line: &[u8]) -> Result<(), TooManyItems>
        requires { IsSaidBy self.old.name line.now }
        ensures ok { OnOk result (HearsHeld self.old line.now self.new) }
        ensures err { OnErr result (self.new ≡ self.old) }
        ensures name { self.new.name ≡ self.old.name }
        ensures id { self.new.id ≡ self.old.id }
    {
        if !self.items.has_room() {
            return Err(TooManyItems);
        }
        let text = mem::replace(&mut self.text, OpenText::NoText);
        self.text = hear_in(self.alloc, &mut self.items, text, line);
        Ok(())
    }

    /// Whether the line ends the `wait`.
    pub(crate) fn calls_off(&self, line: &[u8]) -> bool
        ensures { result ≡ calls_off self.now.text line.now }
    {
        match &self.text {
            OpenText::NoText => gives_up(form_of(line)),
            OpenText::Begun(_) | OpenText::Lost => false,
        }
    }

    /// Whether its first item is a `wait`.
    pub(crate) fn is_waiting(&self) -> bool
        ensures { result ≡ begins_with_wait self.now.items }
    {
        begins_with_wait(&self.items)
    }

    /// Whether it has an item.
    pub(crate) fn has_items(&self) -> bool
        ensures { result ≡ has_items self.now.items }
    {
        !self.items.is_empty()
    }

    /// Whether it is in a text that was lost.
    pub(crate) fn has_lost_text(&self) -> bool
        ensures { result ≡ is_lost_text self.now.text }
    {
        matches!(&self.text, OpenText::Lost)
    }

    /// Takes its first item.
    pub(crate) fn take(&mut self) -> Turn<ItemLines>
        ensures { TakesFirst self.old result self.new }
    {
        self.items.take()
    }

    /// Takes its items that were lost and come next. Returns their number.
    pub(crate) fn take_lost(&mut self) -> u64
        ensures { TakesLostItems self.old result self.new }
    {
        self.items.take_lost()
    }

    /// Takes the text in which it is.
    pub(crate) fn take_text(&mut self) -> OpenText
        ensures text { result ≡ self.old.text }
        ensures rest { self.new ≡ record self.old { text = NoText } }
        ensures said { IsSaidText self.old.name result }
    {
        mem::replace(&mut self.text, OpenText::NoText)
    }
}

/// An item of that line alone.
fn one_item(alloc: Global, line: &[u8]) -> Result<Backlog<ItemLines>, AllocError>
    requires { is_one_line line.now ≡ true }
    ensures { IfOk result (λ items. items ≡ Some (line.now ∷ []) ∷ []) }
{
    let mut items = Backlog::new(alloc);
    items.put(ItemLines::of(alloc, line)?);
    if items.first().is_none() {
        return Err(AllocError);
    }
    Ok(items)
}

/// Whether the first of the items is a `wait`.
fn begins_with_wait(items: &Backlog<ItemLines>) -> bool
    ensures { result ≡ begins_with_wait items.now }
{
    match items.first() {
        Some(lines) => lines.is_wait(),
        None => false,
    }
}

/// A line comes while its name is in that text. Returns the text after it.
fn hear_in(alloc: Global, items: &mut Backlog<ItemLines>, text: OpenText, line: &[u8]) -> OpenText
    requires room { length items.old < 18446744073709551615 }
    requires one { is_one_line line.now ≡ true }
    ensures { (name : List ℕ) (id : ℕ) →
        HearsHeld (record { name = name; id = id; items = items.old; text = text }) line.now
        (record { name = name; id = id; items = items.new; text = result }) }
{
    match text {
        OpenText::NoText => hear_form(alloc, items, form_of(line), line),
        OpenText::Begun(lines) => hear_begun(items, lines, line),
        OpenText::Lost => hear_lost(items, line),
    }
}

/// A line of that form comes, outside of texts. Returns the text after it.
fn hear_form(alloc: Global, items: &mut Backlog<ItemLines>, form: LineForm, line: &[u8]) -> OpenText
    requires room { length items.old < 18446744073709551615 }
    requires one { is_one_line line.now ≡ true }
    ensures { (name : List ℕ) (id : ℕ) →
        HearsForm form (record { name = name; id = id; items = items.old; text = NoText }) line.now
        (record { name = name; id = id; items = items.new; text = result }) }
{
    match form {
        LineForm::Begins(_) => text_of(ItemLines::of(alloc, line)),
        LineForm::Asks(item) => {
            if has_word(item) {
                put(items, ItemLines::of(alloc, line));
            }
            OpenText::NoText
        }
    }
}

/// A line comes while its name is in a text with these lines. Returns the text after it.
fn hear_begun(items: &mut Backlog<ItemLines>, lines: ItemLines, line: &[u8]) -> OpenText
    requires room { length items.old < 18446744073709551615 }
    requires one { is_one_line line.now ≡ true }
    ensures { (name : List ℕ) (id : ℕ) →
        HearsIn (Begun lines) (ends_text (rest_of line.now))
        (record { name = name; id = id; items = items.old; text = Begun lines }) line.now
        (record { name = name; id = id; items = items.new; text = result }) }
{
    let lines = lines.with_line(line);
    if ends_text(line) {
        put(items, lines);
        OpenText::NoText
    } else {
        text_of(lines)
    }
}

/// A line comes while its name is in a text that was lost. Returns the text after it.
fn hear_lost(items: &mut Backlog<ItemLines>, line: &[u8]) -> OpenText
    requires room { length items.old < 18446744073709551615 }
    ensures { (name : List ℕ) (id : ℕ) →
        HearsIn Lost (ends_text (rest_of line.now))
        (record { name = name; id = id; items = items.old; text = Lost }) line.now
        (record { name = name; id = id; items = items.new; text = result }) }
{
    if ends_text(line) {
        items.put_lost();
        OpenText::NoText
    } else {
        OpenText::Lost
    }
}

/// A text with these lines so far, or one that was lost.
fn text_of(lines: Result<ItemLines, AllocError>) -> OpenText
    ensures { MatchResult lines (λ lines. result ≡ Begun lines) (λ _. result ≡ Lost) }
{
    match lines {
        Ok(lines) => OpenText::Begun(lines),
        Err(_) => OpenText::Lost,
    }
}

/// Puts an item after all others, as itself or as one that was lost.
fn put(items: &mut Backlog<ItemLines>, lines: Result<ItemLines, AllocError>)
    requires { length items.old < 18446744073709551615 }
    ensures { MatchResult lines (λ lines. PutsItem items.old lines items.new)
        (λ _. items.new ≡ items.old ++ None ∷ []) }
{
    match lines {
        Ok(lines) => items.put(lines),
        Err(_) => items.put_lost(),
    }
}

/// Whether the line is the last one of a text.
fn ends_text(line: &[u8]) -> bool
    ensures { result ≡ ends_text (rest_of line.now) }
{
    let (_, rest) = split_tag(line);
    is_point(without_cr(rest))
}

/// Whether a line that asks that has a word.
fn has_word(item: SessionLine) -> bool
    ensures { MatchBool result (item ≢ Blank) (item ≡ Blank) }
{
    !matches!(item, SessionLine::Blank)
}

/// Whether the command gives the running job up.
fn gives_up(form: LineForm) -> bool
    ensures { result ≡ gives_up form }
{
    match form {
        LineForm::Begins(TextKind::Change) => true,
        LineForm::Begins(TextKind::Upload) => false,
        LineForm::Asks(SessionLine::Command(Command::Cancel)) => true,
        LineForm::Asks(SessionLine::Command(Command::Withdraw)) => true,
        LineForm::Asks(_) => false,
    }
}
