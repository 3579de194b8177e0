// Where a unit is too long since its last `;`, `{` or `}`.

ghost use Rattle.mm_parse_unit.specs.Reading.{IsFirstPast};

use mm_base::limits::MAX_TOKEN_RUN;
use mm_parse_expr::limit::ends_count;
use mm_token::token::Token;

/// The index of the first token past the limit, or the number of tokens.
pub fn first_past(tokens: &[Token]) -> usize
    ensures { IsFirstPast tokens.now result }
{
    let mut count = 0;
    let mut at = 0;
    while count < MAX_TOKEN_RUN && at < tokens.len() {
        count = if ends_count(&tokens[at]) {
            0
        } else {
            count + 1
        };
        at += 1;
    }
    at
}
