//! A pen for the tokens of JSON.
ghost use Rattle.std.specs.Prelude.{◌≡◌, ◌++◌, ◌∷◌, [], IfOk, MatchResult, OnOk};
ghost use Rattle.std.specs.List.{flat_map};
ghost use Rattle.json.specs.Token.{begin_array, begin_object, end_array, end_object, key};
ghost use Rattle.json.specs.Tree.{json_tokens};
ghost use Rattle.json_text.specs.Values.{member_of, member_tokens, number_of, readable, scalar_json, tokens_text};

use itoa::Buffer;
use json::{Pretty, Token};
use std::alloc::{AllocError, Global};
use std::marker::Model;

/// What stands in place of a name that is not UTF-8.
const UNREADABLE: &str = "?";

/// A value that is no list and no object.
#[derive(Clone, Copy)]
pub enum Scalar<'a> {
    Null,
    Number(u64),
    /// A number, or `null` if it is not known.
    Known(Option<u64>),
    Text(&'a str),
    /// The bytes of a name; `?` is written if they are not UTF-8.
    Name(&'a [u8]),
}

/// A member of an object: its name and its value.
pub type Member<'a> = (&'a str, Scalar<'a>);

/// Writes JSON into memory, token by token. Its value is the list of the tokens. Commas and lines
/// are the pen's; that brackets match is its user's concern.
#[derive(Drop)]
pub struct JsonPen {
    out: Pretty<Global>,
}

impl Model for JsonPen {
    ghost use Rattle.std.specs.Prelude.{List};
    ghost use Rattle.json.specs.Token.{Token as SpecToken, tokens_code};

    ghost Value = { List SpecToken };

    ghost coded = { tokens_code };

    ghost view = { λ pen. pen.out };
}

impl JsonPen {
    /// A pen that has written nothing.
    pub fn new(alloc: Global) -> Self
        ensures { result ≡ [] }
    {
        JsonPen {
            out: Pretty::new(alloc),
        }
    }

    /// The text of the tokens, with a line feed at its end, if all of them were written: `written`
    /// is how that ended. Fails if memory runs out.
    pub fn into_text(self, written: Result<(), AllocError>) -> Result<Vec<u8>, AllocError>
        ensures { IfOk result (λ text.
            MatchResult written (λ _. text.items ≡ tokens_text self) (λ _. ⊥)) }
    {
        written?;
        let mut text = self.out.into_inner();
        text.push(b'\n')?;
        Ok(text)
    }

    /// Begins an object.
    pub fn open_object(&mut self) -> Result<(), AllocError>
        ensures { OnOk result (self.new ≡ self.old ++ begin_object ∷ []) }
    {
        self.out.token(Token::BeginObject)
    }

    /// Ends an object.
    pub fn close_object(&mut self) -> Result<(), AllocError>
        ensures { OnOk result (self.new ≡ self.old ++ end_object ∷ []) }
    {
        self.out.token(Token::EndObject)
    }

    /// Begins a list.
    pub fn open_list(&mut self) -> Result<(), AllocError>
        ensures { OnOk result (self.new ≡ self.old ++ begin_array ∷ []) }
    {
        self.out.token(Token::BeginArray)
    }

    /// Ends a list.
    pub fn close_list(&mut self) -> Result<(), AllocError>
        ensures { OnOk result (self.new ≡ self.old ++ end_array ∷ []) }
    {
        self.out.token(Token::EndArray)
    }

    /// Writes the name of a member, whose value comes next.
    pub fn key(&mut self, name: &str) -> Result<(), AllocError>
        ensures { OnOk result (self.new ≡ self.old ++ key name.now ∷ []) }
    {
        self.out.token(Token::Key(name))
    }

    /// Writes a value that is no list and no object.
    pub fn scalar(&mut self, value: Scalar<'_>) -> Result<(), AllocError>
        ensures { OnOk result (self.new ≡ self.old ++ json_tokens (scalar_json value.entry)) }
    {
        match value {
            Scalar::Null => self.out.token(Token::Null),
            Scalar::Number(count) => self.number(count),
            Scalar::Known(Some(count)) => self.number(count),
            Scalar::Known(None) => self.out.token(Token::Null),
            Scalar::Text(text) => self.out.token(Token::String(text)),
            Scalar::Name(bytes) => self.out.token(Token::String(readable(bytes))),
        }
    }

    /// Writes a number.
    fn number(&mut self, count: u64) -> Result<(), AllocError>
        ensures { OnOk result (self.new ≡ self.old ++ json_tokens (number_of count)) }
    {
        let mut digits = Buffer::new();
        self.out.token(Token::Number(digits.format(count)))
    }

    /// Writes members of an object.
    pub fn members(&mut self, members: &[Member<'_>]) -> Result<(), AllocError>
        ensures { OnOk result (self.new ≡ self.old
            ++ flat_map (λ one. member_tokens (member_of one)) members.now) }
    {
        for one in members {
            self.member(*one)?;
        }
        Ok(())
    }

    /// Writes a member.
    fn member(&mut self, one: Member<'_>) -> Result<(), AllocError>
        ensures { OnOk result (self.new ≡ self.old ++ member_tokens (member_of one.entry)) }
    {
        let (name, value) = one;
        self.key(name)?;
        self.scalar(value)
    }

    /// Writes an object with these members.
    pub fn object(&mut self, members: &[Member<'_>]) -> Result<(), AllocError>
        ensures { OnOk result (self.new ≡ self.old
            ++ (begin_object ∷ (flat_map (λ one. member_tokens (member_of one)) members.now
            ++ end_object ∷ []))) }
    {
        self.open_object()?;
        self.members(members)?;
        self.close_object()
    }
}

/// The bytes as a text; `?` if they are not UTF-8.
fn readable(bytes: &[u8]) -> &str
    ensures { result.now ≡ readable bytes.now }
{
    match str::from_utf8(bytes) {
        Ok(text) => text,
        Err(_) => UNREADABLE,
    }
}
