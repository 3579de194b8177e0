// What was read of a unit so far.

ghost use Rattle.std.specs.Prelude.{◌≡◌, ◌<◌, ℕ, List, length, true, cond, OnOk};
ghost use Rattle.std.specs.BTreeSet.{contains_text};
ghost use Rattle.mm_token.specs.Cut.{IsGood};
ghost use Rattle.mm_token.specs.Tokens.{token_value, is_class_name, is_class_key};

use crate::names::Names;
use crate::piece::Shape;
use crate::text::encoded;
use crate::token::{Kind, Token};
use crate::words::{begins_class, is_keyword, number};
use mm_base::place::Place;
use mm_base::text::Text;
use sqlite_items::Items;
use std::alloc::{AllocError, Global};

/// The files and tokens so far, and the names that matter for what follows.
#[derive(Drop)]
pub struct Unit {
    pub files: Items<Text>,
    pub list: Items<Token>,
    pub bytes: u64,
    /// The names of the files that directives named.
    pub included: Names,
    pub classes: Names,
    /// Whether the last token says that a class name follows.
    pub awaiting: bool,
}

impl Unit {
    ghost use Rattle.std.specs.Prelude.{◌≡◌, ◌+◌, ◌<◌, ◌^◌, length, IsTrue, OnOk};
    ghost use Rattle.mm_token.specs.Characters.{is_text};
    ghost use Rattle.mm_token.specs.Cut.{IsGood};
    ghost use Rattle.mm_token.specs.Tokens.{nothing_read, was_included, file_start, with_file, with_token, kind_of_word, token_of, token_value};
    ghost use Rattle.mm_token.specs.Unit.{state_of, Agrees, Becomes, IsTokenShape};

    pub fn new(alloc: Global) -> Unit
        ensures { Becomes result nothing_read }
    {
        Unit {
            files: Items::new(alloc),
            list: Items::new(alloc),
            bytes: 0,
            included: Names::new(alloc),
            classes: Names::new(alloc),
            awaiting: false,
        }
    }

    /// Whether a directive named the file before.
    pub fn has(&self, name: &str) -> bool
        requires { Agrees self.now }
        ensures { result ≡ was_included (state_of self.now) name.now }
    {
        self.included.has(name)
    }

    /// Where the next file begins.
    pub fn start(&self) -> Place
        requires { length self.now.files < 2 ^ 32 }
        ensures { result ≡ file_start (state_of self.now) }
    {
        Place {
            file: self.files.len() as u32,
            line: 1,
            col: 1,
        }
    }

    /// Begins a file of this many bytes.
    pub fn begin(&mut self, alloc: Global, name: &str, size: u64) -> Result<(), AllocError>
        requires agrees { Agrees self.old }
        requires fits { self.old.bytes + size < 2 ^ 64 }
        ensures { OnOk result (Becomes self.new (with_file (state_of self.old) name.now size)) }
    {
        let text = Text::from_str(alloc, name)?;
        if !self.files.is_empty() {
            self.included.add(alloc, name)?;
        }
        self.files.push(text)?;
        self.bytes += size;
        Ok(())
    }

    /// What a word is behind the tokens so far.
    fn kind_of(&self, word: &str) -> Kind
        requires { Agrees self.now }
        ensures { result ≡ kind_of_word self.now.list word.now }
    {
        if is_keyword(word) {
            Kind::Key
        } else if self.awaiting || self.classes.has(word) {
            Kind::Class
        } else {
            Kind::Word
        }
    }

    /// Adds a token.
    fn add(&mut self, alloc: Global, token: Token) -> Result<(), AllocError>
        requires { Agrees self.old }
        ensures { OnOk result (Becomes self.new (with_token (state_of self.old) token)) }
    {
        note_class(&mut self.classes, alloc, &token)?;
        self.awaiting = announces_class(&token);
        self.list.push(token)?;
        Ok(())
    }

    /// Adds the token that a piece is.
    pub fn push(
        &mut self,
        alloc: Global,
        shape: Shape,
        text: &[u32],
        place: Place,
    ) -> Result<(), AllocError>
        requires agrees { Agrees self.old }
        requires shape { IsTokenShape shape }
        requires good { IsGood shape text.now }
        requires some { 0 < length text.now }
        requires text { IsTrue (is_text text.now) }
        ensures { OnOk result (Becomes self.new (with_token (state_of self.old) (token_of self.old.list (record { kind = shape; text = text.now }) place))) }
    {
        let spelled = encoded(alloc, text)?;
        let kind = match shape {
            Shape::Word => self.kind_of(spelled.as_str()),
            Shape::Number => Kind::Number,
            _ => Kind::Mark,
        };
        let value = value_of(shape, text);
        let text = Text::from_string(spelled);
        self.add(
            alloc,
            Token {
                kind,
                value,
                text,
                place,
            },
        )
    }
}

/// Adds the name of a class.
fn note_class(classes: &mut Names, alloc: Global, token: &Token) -> Result<(), AllocError>
    ensures { OnOk result ((word : List ℕ) → contains_text classes.new.set word ≡ cond (is_class_name word token.now) true (contains_text classes.old.set word)) }
{
    match token.kind {
        Kind::Class => classes.add(alloc, token.text.as_str()),
        _ => Ok(()),
    }
}

/// Whether a class name follows the token.
fn announces_class(token: &Token) -> bool
    ensures { result ≡ is_class_key token.now }
{
    match token.kind {
        Kind::Key => begins_class(token.text.as_str()),
        _ => false,
    }
}

/// The value of a number, and 0 of anything else.
fn value_of(shape: Shape, text: &[u32]) -> u32
    requires some { 0 < length text.now }
    requires good { IsGood shape text.now }
    ensures { result ≡ token_value shape text.now }
{
    match shape {
        Shape::Number => match number(text) {
            Ok(n) => n,
            Err(_) => unreachable!(),
        },
        _ => 0,
    }
}
