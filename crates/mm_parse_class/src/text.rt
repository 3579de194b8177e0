// The text of a class.

ghost use Rattle.std.specs.Prelude.{◌≡◌, ◌∷◌, IfOk};
ghost use Rattle.mm_syntax.specs.BuiltDeclarations.{texts};

use mm_base::text::Text;
use mm_token::token::Token;
use std::alloc::{AllocError, Global};

/// The texts of the tokens, with a blank between each two.
pub fn texts(alloc: Global, tokens: &[Token]) -> Result<Text, AllocError>
    ensures { IfOk result (λ v. v ≡ texts tokens.now) }
{
    match tokens {
        [] => Ok(Text::from_string(String::new(alloc))),
        [first, rest @ ..] => joined(alloc, first, rest),
    }
}

fn joined(alloc: Global, first: &Token, rest: &[Token]) -> Result<Text, AllocError>
    ensures { IfOk result (λ v. v ≡ texts (first.now ∷ rest.now)) }
{
    let mut text = String::from_str(alloc, first.text.as_str())?;
    for token in rest {
        text.push_str(" ")?;
        text.push_str(token.text.as_str())?;
    }
    Ok(Text::from_string(text))
}
