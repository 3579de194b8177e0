// Reserved words, numbers and directives.

ghost use Rattle.std.specs.Prelude.{◌≡◌, ◌+◌, ◌<◌, ◌≤◌, ◌^◌, ◌&&◌, ◌==◌, not, nat_lt, length, slice_index, position, IsTrue, MatchOption, MatchResult, Some, None};
ghost use Rattle.std.specs.List.{list_all, list_any};
ghost use Rattle.std.specs.Str.{bytes_eq};
ghost use Rattle.std.specs.Option.{SomeIff};
ghost use Rattle.std.specs.Str.Parse.{digits_value};
ghost use Rattle.mm_token.specs.Characters.{is_text, is_blank as blank, is_digit as digit};
ghost use Rattle.mm_token.specs.Words.{is_keyword as keyword, begins_class as class_begun, has_suffix, digits_of, is_decimal as decimal, past_blanks as behind_blanks, past_word as behind_word, ends_line as line_ended, named_up_to as named_to, named_by, included_name as name_included, is_pragma_once as pragma_once};
ghost use Rattle.mm_token.specs.Runs.{NumberFault, NumberValue, IsRunOf};
ghost use lib.Utf8.{scalar as character};

/// What is wrong with a piece of a text.
#[derive(Clone, Copy)]
pub enum Wrong {
    /// Nothing begins a token here, or a number isn't one.
    NoToken,
    /// A comment has no end.
    Unclosed,
    /// A number is too great.
    Range,
    /// A directive is none that is known.
    Directive,
}

const KEYWORDS: [&str; 74] = [
    "asm",
    "auto",
    "bool",
    "break",
    "case",
    "catch",
    "char",
    "class",
    "const",
    "const_cast",
    "continue",
    "default",
    "delete",
    "do",
    "double",
    "dynamic_cast",
    "else",
    "enum",
    "explicit",
    "export",
    "extern",
    "false",
    "float",
    "for",
    "friend",
    "goto",
    "if",
    "inline",
    "int",
    "long",
    "mutable",
    "namespace",
    "new",
    "operator",
    "private",
    "protected",
    "public",
    "register",
    "reinterpret_cast",
    "return",
    "short",
    "signed",
    "sizeof",
    "static",
    "static_cast",
    "struct",
    "switch",
    "template",
    "this",
    "throw",
    "true",
    "try",
    "typedef",
    "typeid",
    "typename",
    "union",
    "unsigned",
    "using",
    "virtual",
    "void",
    "volatile",
    "wchar_t",
    "while",
    "and",
    "and_eq",
    "bitand",
    "bitor",
    "compl",
    "not",
    "not_eq",
    "or",
    "or_eq",
    "xor",
    "xor_eq",
];

fn is_listed(words: &[&str], word: &str) -> bool
    ensures { result ≡ list_any (λ k. bytes_eq k.now word.now) words.now }
{
    for other in words {
        if *other == word {
            return true;
        }
    }
    false
}

/// Whether the word is reserved.
#[tactic(auto, unfolding(crate::specs::Words::is_keyword))]
pub fn is_keyword(word: &str) -> bool
    ensures { result ≡ keyword word.now }
{
    is_listed(&KEYWORDS, word)
}

/// Whether the word says that the next one is a class name.
#[tactic(auto, unfolding(crate::specs::Words::begins_class))]
pub fn begins_class(word: &str) -> bool
    ensures { result ≡ class_begun word.now }
{
    word == "class" || word == "struct"
}

fn is_character(c: u32) -> bool
    ensures { result ≡ character c }
{
    char::from_u32(c).is_some()
}

fn is_blank(c: u32) -> bool
    ensures { result ≡ blank c }
{
    c == 32 || 9 <= c && c <= 13
}

fn is_digit(c: u32) -> bool
    ensures { result ≡ digit c }
{
    48 <= c && c <= 57
}

/// How many characters stand before the first number that is none.
pub fn text_len(text: &[u32]) -> usize
    ensures { IsRunOf character text.now result }
{
    let mut n = 0;
    while n < text.len() && is_character(text[n]) {
        n += 1;
    }
    n
}

fn is_suffixed(text: &[u32]) -> bool
    requires { 0 < length text.now }
    ensures { result ≡ has_suffix text.now }
{
    let last = text[text.len() - 1];
    last == 117 || last == 85
}

fn all_digits(digits: &[u32]) -> bool
    ensures { result ≡ list_all digit digits.now }
{
    digits.iter().all(|c| is_digit(*c))
}

/// Whether a 0 stands before other digits.
fn is_led(digits: &[u32]) -> bool
    ensures { result ≡ (slice_index digits.now 0 == 48 && nat_lt 1 (length digits.now)) }
{
    digits.len() > 1 && digits[0] == 48
}

fn is_decimal(digits: &[u32]) -> bool
    ensures { result ≡ decimal digits.now }
{
    all_digits(digits) & !is_led(digits)
}

/// The value of digits, where it has 32 bits.
fn value(digits: &[u32]) -> Option<u32>
    requires { IsTrue (list_all digit digits.now) }
    ensures { SomeIff result (digits_value 10 digits.now < 2 ^ 32) (digits_value 10 digits.now) }
{
    let mut value: u64 = 0;
    for c in digits {
        value = value * 10 + u64::from(*c - 48);
        if value > 4_294_967_295 {
            return None;
        }
    }
    Some(value as u32)
}

/// The value of a number.
pub fn number(text: &[u32]) -> Result<u32, Wrong>
    requires { 0 < length text.now }
    ensures { MatchResult result (λ n. NumberValue text.now n) (λ w. NumberFault text.now w) }
{
    let suffixed = is_suffixed(text);
    let digits = if suffixed {
        &text[..text.len() - 1]
    } else {
        text
    };
    if !is_decimal(digits) {
        return Err(Wrong::NoToken);
    }
    let greatest = if suffixed { u32::MAX } else { 2_147_483_647 };
    match value(digits) {
        Some(n) => {
            if n <= greatest {
                Ok(n)
            } else {
                Err(Wrong::Range)
            }
        }
        None => Err(Wrong::Range),
    }
}

/// What stands behind the white space at the front.
fn past_blanks(text: &[u32]) -> &[u32]
    ensures { result.now ≡ behind_blanks text.now }
{
    let mut n = 0;
    while n < text.len() && is_blank(text[n]) {
        n += 1;
    }
    &text[n..]
}

/// What stands behind this word, where the text begins with it.
fn past_word<'a>(word: &[u8], text: &'a [u32]) -> Option<&'a [u32]>
    ensures { MatchOption result (behind_word word.now text.now ≡ None) (λ rest. behind_word word.now text.now ≡ Some rest.now) }
{
    let mut n = 0;
    for w in word {
        if n >= text.len() {
            return None;
        }
        if text[n] != u32::from(*w) {
            return None;
        }
        n += 1;
    }
    Some(&text[n..])
}

/// Whether only white space is left.
fn ends_line(text: &[u32]) -> bool
    ensures { result ≡ line_ended text.now }
{
    text.iter().all(|c| is_blank(*c))
}

/// The name behind its opening quote, where the next quote stands at `n`.
fn named_up_to(text: &[u32], n: usize) -> Option<&[u32]>
    requires { n < length text.now }
    ensures { MatchOption result (named_to (Some n) text.now ≡ None) (λ name. named_to (Some n) text.now ≡ Some name.now) }
{
    if n == 0 {
        return None;
    }
    if !ends_line(&text[n + 1..]) {
        return None;
    }
    Some(&text[..n])
}

/// Where the first quote stands.
fn quote_at(text: &[u32]) -> Option<usize>
    ensures { result ≡ position (λ c. c == 34) text.now }
{
    text.iter().position(|c| *c == 34)
}

/// The name behind its opening quote.
fn named(text: &[u32]) -> Option<&[u32]>
    ensures { MatchOption result (named_by (Some text.now) ≡ None) (λ name. named_by (Some text.now) ≡ Some name.now) }
{
    match quote_at(text) {
        Some(n) => named_up_to(text, n),
        None => None,
    }
}

fn is_text_whole(text: &[u32]) -> bool
    ensures { result ≡ is_text text.now }
{
    text.iter().all(|c| is_character(*c))
}

/// The name that a line includes, where it is such a directive.
#[tactic(auto, unfolding(crate::specs::Words::included_name))]
pub fn included_name(line: &[u32]) -> Option<&[u32]>
    requires { 0 < length line.now }
    ensures { MatchOption result (name_included line.now ≡ None) (λ name. name_included line.now ≡ Some name.now) }
{
    if !is_text_whole(line) {
        return None;
    }
    let Some(rest) = past_word(b"include", past_blanks(&line[1..])) else {
        return None;
    };
    match past_word(b"\"", past_blanks(rest)) {
        Some(rest) => named(rest),
        None => None,
    }
}

/// Whether a line is `#pragma once`.
#[tactic(auto, unfolding(crate::specs::Words::is_pragma_once))]
pub fn is_pragma_once(line: &[u32]) -> bool
    requires { 0 < length line.now }
    ensures { result ≡ pragma_once line.now }
{
    if !is_text_whole(line) {
        return false;
    }
    let Some(rest) = past_word(b"pragma", past_blanks(&line[1..])) else {
        return false;
    };
    match rest {
        [first, more @ ..] => {
            if !is_blank(*first) {
                return false;
            }
            match past_word(b"once", past_blanks(more)) {
                Some(rest) => ends_line(rest),
                None => false,
            }
        }
        [] => false,
    }
}
