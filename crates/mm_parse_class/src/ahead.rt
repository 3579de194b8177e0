// What stands next, and words and marks that may be left out.

ghost use Rattle.std.specs.Prelude.{◌≡◌, ◌≤◌, [], ◌∷◌, length, map, Option};
ghost use Rattle.mm_grammar.specs.Grammar.{give, opt, Reads};
ghost use Rattle.mm_syntax.specs.declared.symbol.Symbol.TheVariants as k;
ghost use Rattle.mm_syntax.specs.BuiltDeclarations as bd;
ghost use Rattle.mm_syntax.specs.Rules.{units, token, accesses};
ghost use Rattle.mm_parse_class.specs.Parts.{Foresees, semicolon_if};

use mm_base::place::Place;
use mm_cursor::Cursor;
use mm_syntax::name::Access;
use mm_syntax::symbol::Symbol;
use mm_syntax::taken;

/// Whether `(` stands next.
pub fn is_open_next(cursor: &Cursor<'_>) -> bool
    ensures { Foresees (k.Open ∷ []) cursor.now result }
{
    Cursor::new(cursor.rest()).eat(&[Symbol::Open]).is_some()
}

/// The place of `virtual`, where it stands next.
pub fn virtual_word(cursor: &mut Cursor<'_>) -> Option<Place>
    ensures reads { Reads units (give bd.place_if (opt (token (k.Virtual ∷ [])))) cursor.old result cursor.new }
    ensures shorter { length cursor.new ≤ length cursor.old }
{
    match cursor.eat(&[Symbol::Virtual]) {
        Some(word) => Some(word.place),
        None => None,
    }
}

/// The access that stands next.
pub fn access(cursor: &mut Cursor<'_>) -> Option<Access>
    ensures reads { Reads units (give bd.access_if (opt (token accesses))) cursor.old result cursor.new }
    ensures shorter { length cursor.new ≤ length cursor.old }
{
    match cursor.eat(&[Symbol::Public, Symbol::Protected, Symbol::Private]) {
        Some(word) => Some(taken::access_word(word)),
        None => None,
    }
}

/// Takes a `;` that stands next. Whether there is one leaves nothing in a tree.
pub fn semicolon(cursor: &mut Cursor<'_>)
    ensures reads { Reads units semicolon_if cursor.old tt cursor.new }
    ensures shorter { length cursor.new ≤ length cursor.old }
{
    cursor.eat(&[Symbol::Semicolon]);
}
