// Classes.

ghost use Rattle.std.specs.Prelude.{◌≡◌, ◌≤◌, ◌∷◌, length, map, IsTrue};
ghost use Rattle.mm_grammar.specs.Grammar.{opt, has};
ghost use Rattle.mm_cursor.specs.Cursor.{Answers};
ghost use Rattle.mm_syntax.specs.Rules as rules;
ghost use Rattle.mm_syntax.specs.Symbols.{symbol_of, number_of};
ghost use Rattle.mm_parse_class.specs.Parts.{class_keys, class_declaration};

use crate::{base, build, item};
use mm_cursor::{Cursor, Stop};
use mm_syntax::decl::Decl;
use mm_syntax::part::ClassBody;
use mm_syntax::symbol::Symbol;
use mm_token::token::Token;
use sqlite_items::{Boxed, Items};
use std::alloc::Global;

/// The bases and the members of a class, where it is defined.
fn class_body(
    alloc: Global,
    cursor: &mut Cursor<'_>,
    nesting: usize,
) -> Result<Option<Boxed<ClassBody>>, Stop>
    ensures reads { Answers (opt (rules.class_body nesting)) cursor.old result cursor.new }
    ensures shorter { length cursor.new ≤ length cursor.old }
{
    if cursor.eat(&[Symbol::Colon]).is_some() {
        let bases = base::base_list(alloc, cursor)?;
        let members = item::items(alloc, cursor, nesting)?;
        return Ok(Some(build::class_body(alloc, bases, members)?));
    }
    if cursor.eat(&[Symbol::OpenBrace]).is_some() {
        let members = item::members(alloc, cursor, nesting)?;
        return Ok(Some(build::class_body(alloc, Items::new(alloc), members)?));
    }
    Ok(None)
}

/// The declaration or the definition of a class whose first word was taken. `start` is the tokens from that word on.
pub fn class(
    alloc: Global,
    cursor: &mut Cursor<'_>,
    start: &[Token],
    word: &Token,
    nesting: usize,
) -> Result<Boxed<Decl>, Stop>
    requires first { start.now ≡ word.now ∷ cursor.old }
    requires key { IsTrue (has (number_of (symbol_of word.now)) (map number_of class_keys)) }
    ensures reads { Answers (class_declaration nesting) start.now result cursor.new }
    ensures shorter { length cursor.new ≤ length cursor.old }
{
    let name = cursor.take(&[Symbol::Class])?;
    let body = class_body(alloc, cursor, nesting)?;
    let used = start.len() - cursor.rest().len();
    cursor.take(&[Symbol::Semicolon])?;
    Ok(build::class_decl(alloc, &start[..used], word, name, body)?)
}
