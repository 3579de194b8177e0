// Numbers.

ghost use Rattle.std.specs.Prelude.{◌≡◌, ◌&&◌, true};
ghost use Rattle.std.specs.List.{list_all};
ghost use Rattle.std.specs.Char.{is_ascii_digit};
ghost use Rattle.std.specs.Option.{SomeIff};
ghost use Rattle.std.specs.Str.Parse.{digits_value};
ghost use Rattle.mm_c.specs.Tokens.{are_digits, digits_in, has_suffix, is_number, number_in};

use mm_base::num::read_decimal;
use mm_c::tree::CNumber;

fn are_all_digits(text: &[u8]) -> bool
    ensures { result ≡ list_all is_ascii_digit text.now }
{
    text.iter().all(|b| b.is_ascii_digit())
}

fn are_digits(text: &[u8]) -> bool
    ensures { result ≡ are_digits text.now }
{
    match text {
        [] => false,
        [digit] => digit.is_ascii_digit(),
        [first, rest @ ..] => first.is_ascii_digit() && *first != b'0' && are_all_digits(rest),
    }
}

#[tactic(auto, using(crate::proofs::Suffix::suffix_none, crate::proofs::Suffix::suffix_last))]
fn has_suffix(text: &[u8]) -> bool
    ensures { result ≡ has_suffix text.now }
{
    !text.is_empty() && text[text.len() - 1] == b'u'
}

#[tactic(auto, using(crate::proofs::Suffix::digits_all, crate::proofs::Suffix::digits_front))]
fn digits(text: &[u8]) -> &[u8]
    ensures { result.now ≡ digits_in text.now }
{
    if has_suffix(text) {
        &text[..text.len() - 1]
    } else {
        text
    }
}

/// The number that is spelled, where a token can be it.
pub fn read_number(text: &[u8]) -> Option<CNumber>
    ensures { SomeIff result ((are_digits (digits_in text.now) && is_number (number_in text.now)) ≡ true) (number_in text.now) }
{
    let digits = digits(text);
    if !are_digits(digits) {
        return None;
    }
    let value = read_decimal(digits)?;
    let is_unsigned = has_suffix(text);
    if is_unsigned || value < 2147483648 {
        Some(CNumber { value, is_unsigned })
    } else {
        None
    }
}
