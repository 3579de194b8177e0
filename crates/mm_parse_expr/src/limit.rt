// How many tokens may still come before one is past the limit.

ghost use Rattle.std.specs.Prelude.{◌≡◌, ◌≤◌, length, take};
ghost use Rattle.mm_parse_expr.specs.Longest.{ends_count, room_after};

use mm_base::limits::MAX_TOKEN_RUN;
use mm_syntax::symbol::{Symbol, classify};
use mm_token::token::Token;

/// Whether the count of tokens begins anew after this one: at `;`, `{` and `}`.
pub fn ends_count(token: &Token) -> bool
    ensures { result ≡ ends_count token.now }
{
    matches!(
        classify(token),
        Symbol::Semicolon | Symbol::OpenBrace | Symbol::CloseBrace
    )
}

/// How many tokens may stand from this one on. It looks back at no more than so many.
pub fn room(tokens: &[Token], at: usize) -> usize
    requires { at ≤ length tokens.now }
    ensures { result ≡ room_after (take at tokens.now) }
{
    let mut room = MAX_TOKEN_RUN;
    let mut before = at;
    while room > 0 && before > 0 {
        before -= 1;
        if ends_count(&tokens[before]) {
            return room;
        }
        room -= 1;
    }
    room
}
