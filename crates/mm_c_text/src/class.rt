// What the grammar knows of a token.

ghost use Rattle.std.specs.Prelude.{◌≡◌, map};
ghost use Rattle.mm_c.specs.Tokens.{classes, class_in, class_of_other, is_word_byte, is_run};
ghost use Rattle.std.specs.List.{list_all};
ghost use Rattle.mm_c_text.specs.Classes.{number_of, entry_of};

use crate::number::read_number;

/// A word or mark of the grammar, a name, or a number.
#[derive(Clone, Copy)]
pub enum Class {
    /// A name that the prelude doesn't declare.
    Name,
    /// `mm_put`
    Put,
    /// `mm_get`
    Get,
    /// `mm_more`
    More,
    /// `mm_trap`
    Trap,
    /// `mm_new`
    New,
    /// `0`
    Zero,
    /// `0u`
    ZeroUnsigned,
    /// `1`
    One,
    /// `2147483647`
    Largest,
    /// A number that stands in no rule.
    Number,
    /// `(`
    Open,
    /// `)`
    Close,
    /// `{`
    OpenBrace,
    /// `}`
    CloseBrace,
    /// `[`
    OpenBracket,
    /// `]`
    CloseBracket,
    /// `;`
    Semicolon,
    /// `,`
    Comma,
    /// `=`
    Assign,
    /// `*`
    Star,
    /// `+`
    Plus,
    /// `-`
    Minus,
    /// `/`
    Slash,
    /// `%`
    Percent,
    /// `<`
    Less,
    /// `>`
    Greater,
    /// `<=`
    LessEqual,
    /// `>=`
    GreaterEqual,
    /// `==`
    EqualEqual,
    /// `!=`
    NotEqual,
    /// `typedef`
    Typedef,
    /// `static`
    Static,
    /// `const`
    Const,
    /// `inline`
    Inline,
    /// `void`
    Void,
    /// `int`
    Int,
    /// `unsigned`
    Unsigned,
    /// `long`
    Long,
    /// `char`
    Char,
    /// `short`
    Short,
    /// `if`
    If,
    /// `else`
    Else,
    /// `while`
    While,
    /// `break`
    Break,
    /// `continue`
    Continue,
    /// `return`
    Return,
    /// `extern`
    Extern,
    /// No token of any rule.
    Unknown,
    /// No token: the end of the text.
    End,
}

/// Its number, by which the rules name it.
pub fn number(class: Class) -> u32
    ensures { result ≡ number_of class }
{
    match class {
        Class::Name => 0,
        Class::Put => 1,
        Class::Get => 2,
        Class::More => 3,
        Class::Trap => 4,
        Class::New => 5,
        Class::Zero => 10,
        Class::ZeroUnsigned => 11,
        Class::One => 12,
        Class::Largest => 13,
        Class::Number => 14,
        Class::Open => 20,
        Class::Close => 21,
        Class::OpenBrace => 22,
        Class::CloseBrace => 23,
        Class::OpenBracket => 24,
        Class::CloseBracket => 25,
        Class::Semicolon => 26,
        Class::Comma => 27,
        Class::Assign => 28,
        Class::Star => 29,
        Class::Plus => 30,
        Class::Minus => 31,
        Class::Slash => 32,
        Class::Percent => 33,
        Class::Less => 34,
        Class::Greater => 35,
        Class::LessEqual => 36,
        Class::GreaterEqual => 37,
        Class::EqualEqual => 38,
        Class::NotEqual => 39,
        Class::Typedef => 40,
        Class::Static => 41,
        Class::Const => 42,
        Class::Inline => 43,
        Class::Void => 44,
        Class::Int => 45,
        Class::Unsigned => 46,
        Class::Long => 47,
        Class::Char => 48,
        Class::Short => 49,
        Class::If => 50,
        Class::Else => 51,
        Class::While => 52,
        Class::Break => 53,
        Class::Continue => 54,
        Class::Return => 55,
        Class::Extern => 56,
        Class::Unknown => 99,
        Class::End => 100,
    }
}

pub fn is_word_byte(byte: u8) -> bool
    ensures { result ≡ is_word_byte byte }
{
    byte.is_ascii_alphanumeric() || byte == b'_'
}

fn are_word_bytes(text: &[u8]) -> bool
    ensures { result ≡ list_all is_word_byte text.now }
{
    text.iter().all(|b| is_word_byte(*b))
}

fn is_run(text: &[u8]) -> bool
    ensures { result ≡ is_run text.now }
{
    match text {
        [] => false,
        [first, rest @ ..] => {
            is_word_byte(*first) && !first.is_ascii_digit() && are_word_bytes(rest)
        }
    }
}

// the class of what is no word and no mark of the grammar
fn other(text: &[u8]) -> Class
    ensures { number_of result ≡ class_of_other text.now }
{
    if is_run(text) {
        Class::Name
    } else if read_number(text).is_some() {
        Class::Number
    } else {
        Class::Unknown
    }
}

/// A word or mark of the grammar, and its class.
#[derive(Clone, Copy)]
struct Entry {
    text: &'static [u8],
    class: Class,
}

// the class beside this text
fn look(table: &[Entry], text: &[u8]) -> Class
    ensures { number_of result ≡ class_in (map entry_of table.now) text.now }
{
    for entry in table {
        if entry.text == text {
            return entry.class;
        }
    }
    other(text)
}

/// The class of the token with this text.
pub fn classify(text: &[u8]) -> Class
    ensures { number_of result ≡ class_in classes text.now }
{
    look(
        &[
            Entry {
                text: b"(",
                class: Class::Open,
            },
            Entry {
                text: b")",
                class: Class::Close,
            },
            Entry {
                text: b"{",
                class: Class::OpenBrace,
            },
            Entry {
                text: b"}",
                class: Class::CloseBrace,
            },
            Entry {
                text: b"[",
                class: Class::OpenBracket,
            },
            Entry {
                text: b"]",
                class: Class::CloseBracket,
            },
            Entry {
                text: b";",
                class: Class::Semicolon,
            },
            Entry {
                text: b",",
                class: Class::Comma,
            },
            Entry {
                text: b"=",
                class: Class::Assign,
            },
            Entry {
                text: b"*",
                class: Class::Star,
            },
            Entry {
                text: b"+",
                class: Class::Plus,
            },
            Entry {
                text: b"-",
                class: Class::Minus,
            },
            Entry {
                text: b"/",
                class: Class::Slash,
            },
            Entry {
                text: b"%",
                class: Class::Percent,
            },
            Entry {
                text: b"<",
                class: Class::Less,
            },
            Entry {
                text: b">",
                class: Class::Greater,
            },
            Entry {
                text: b"<=",
                class: Class::LessEqual,
            },
            Entry {
                text: b">=",
                class: Class::GreaterEqual,
            },
            Entry {
                text: b"==",
                class: Class::EqualEqual,
            },
            Entry {
                text: b"!=",
                class: Class::NotEqual,
            },
            Entry {
                text: b"typedef",
                class: Class::Typedef,
            },
            Entry {
                text: b"static",
                class: Class::Static,
            },
            Entry {
                text: b"const",
                class: Class::Const,
            },
            Entry {
                text: b"inline",
                class: Class::Inline,
            },
            Entry {
                text: b"void",
                class: Class::Void,
            },
            Entry {
                text: b"int",
                class: Class::Int,
            },
            Entry {
                text: b"unsigned",
                class: Class::Unsigned,
            },
            Entry {
                text: b"long",
                class: Class::Long,
            },
            Entry {
                text: b"char",
                class: Class::Char,
            },
            Entry {
                text: b"short",
                class: Class::Short,
            },
            Entry {
                text: b"if",
                class: Class::If,
            },
            Entry {
                text: b"else",
                class: Class::Else,
            },
            Entry {
                text: b"while",
                class: Class::While,
            },
            Entry {
                text: b"break",
                class: Class::Break,
            },
            Entry {
                text: b"continue",
                class: Class::Continue,
            },
            Entry {
                text: b"return",
                class: Class::Return,
            },
            Entry {
                text: b"extern",
                class: Class::Extern,
            },
            Entry {
                text: b"mm_put",
                class: Class::Put,
            },
            Entry {
                text: b"mm_get",
                class: Class::Get,
            },
            Entry {
                text: b"mm_more",
                class: Class::More,
            },
            Entry {
                text: b"mm_trap",
                class: Class::Trap,
            },
            Entry {
                text: b"mm_new",
                class: Class::New,
            },
            Entry {
                text: b"0",
                class: Class::Zero,
            },
            Entry {
                text: b"0u",
                class: Class::ZeroUnsigned,
            },
            Entry {
                text: b"1",
                class: Class::One,
            },
            Entry {
                text: b"2147483647",
                class: Class::Largest,
            },
        ],
        text,
    )
}
