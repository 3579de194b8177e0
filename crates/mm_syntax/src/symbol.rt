// Which of the grammar's words and marks a token is.

ghost use Rattle.std.specs.Prelude.{◌≡◌};
ghost use Rattle.mm_syntax.specs.Symbols.{key_of, mark_of, symbol_of, number_of};

use mm_token::token::{Kind, Token};

/// What the grammar knows of a token.
#[derive(Clone, Copy)]
pub enum Symbol {
    /// An identifier that names no class.
    Word,
    /// An identifier that names a class.
    Class,
    /// A number.
    Number,
    /// `bool`
    Bool,
    /// `break`
    Break,
    /// `class`
    ClassKey,
    /// `continue`
    Continue,
    /// `do`
    Do,
    /// `dynamic_cast`
    DynamicCast,
    /// `else`
    Else,
    /// `false`
    False,
    /// `for`
    For,
    /// `if`
    If,
    /// `int`
    Int,
    /// `new`
    New,
    /// `private`
    Private,
    /// `protected`
    Protected,
    /// `public`
    Public,
    /// `return`
    Return,
    /// `struct`
    StructKey,
    /// `this`
    This,
    /// `true`
    True,
    /// `unsigned`
    Unsigned,
    /// `virtual`
    Virtual,
    /// `void`
    Void,
    /// `while`
    While,
    /// `{`
    OpenBrace,
    /// `}`
    CloseBrace,
    /// `(`
    Open,
    /// `)`
    Close,
    /// `;`
    Semicolon,
    /// `:`
    Colon,
    /// `::`
    Scope,
    /// `,`
    Comma,
    /// `.`
    Dot,
    /// `->`
    Arrow,
    /// `~`
    Tilde,
    /// `=`
    Assign,
    /// `+`
    Plus,
    /// `-`
    Minus,
    /// `*`
    Star,
    /// `/`
    Slash,
    /// `%`
    Percent,
    /// `!`
    Not,
    /// `&`
    And,
    /// `<`
    Less,
    /// `>`
    Greater,
    /// `<=`
    LessEqual,
    /// `>=`
    GreaterEqual,
    /// `==`
    EqualEqual,
    /// `!=`
    NotEqual,
    /// `&&`
    AndAnd,
    /// `||`
    OrOr,
    /// `?`
    Question,
    /// `+=`
    PlusAssign,
    /// `-=`
    MinusAssign,
    /// `*=`
    StarAssign,
    /// `/=`
    SlashAssign,
    /// `%=`
    PercentAssign,
    /// `++`
    PlusPlus,
    /// `--`
    MinusMinus,
    /// A reserved word that no rule has.
    Other,
}

/// Its number, by which the rules name it.
pub fn number(symbol: Symbol) -> u32
    ensures { result ≡ number_of symbol }
{
    symbol as u32
}

fn key(text: &str) -> Symbol
    ensures { result ≡ key_of text.now }
{
    match text {
        "bool" => Symbol::Bool,
        "break" => Symbol::Break,
        "class" => Symbol::ClassKey,
        "continue" => Symbol::Continue,
        "do" => Symbol::Do,
        "dynamic_cast" => Symbol::DynamicCast,
        "else" => Symbol::Else,
        "false" => Symbol::False,
        "for" => Symbol::For,
        "if" => Symbol::If,
        "int" => Symbol::Int,
        "new" => Symbol::New,
        "private" => Symbol::Private,
        "protected" => Symbol::Protected,
        "public" => Symbol::Public,
        "return" => Symbol::Return,
        "struct" => Symbol::StructKey,
        "this" => Symbol::This,
        "true" => Symbol::True,
        "unsigned" => Symbol::Unsigned,
        "virtual" => Symbol::Virtual,
        "void" => Symbol::Void,
        "while" => Symbol::While,
        _ => Symbol::Other,
    }
}

fn mark(text: &str) -> Symbol
    ensures { result ≡ mark_of text.now }
{
    match text {
        "{" => Symbol::OpenBrace,
        "}" => Symbol::CloseBrace,
        "(" => Symbol::Open,
        ")" => Symbol::Close,
        ";" => Symbol::Semicolon,
        ":" => Symbol::Colon,
        "::" => Symbol::Scope,
        "," => Symbol::Comma,
        "." => Symbol::Dot,
        "->" => Symbol::Arrow,
        "~" => Symbol::Tilde,
        "=" => Symbol::Assign,
        "+" => Symbol::Plus,
        "-" => Symbol::Minus,
        "*" => Symbol::Star,
        "/" => Symbol::Slash,
        "%" => Symbol::Percent,
        "!" => Symbol::Not,
        "&" => Symbol::And,
        "<" => Symbol::Less,
        ">" => Symbol::Greater,
        "<=" => Symbol::LessEqual,
        ">=" => Symbol::GreaterEqual,
        "==" => Symbol::EqualEqual,
        "!=" => Symbol::NotEqual,
        "&&" => Symbol::AndAnd,
        "||" => Symbol::OrOr,
        "?" => Symbol::Question,
        "+=" => Symbol::PlusAssign,
        "-=" => Symbol::MinusAssign,
        "*=" => Symbol::StarAssign,
        "/=" => Symbol::SlashAssign,
        "%=" => Symbol::PercentAssign,
        "++" => Symbol::PlusPlus,
        "--" => Symbol::MinusMinus,
        _ => Symbol::Other,
    }
}

/// What the grammar knows of this token.
pub fn classify(token: &Token) -> Symbol
    ensures { result ≡ symbol_of token.now }
{
    match token.kind {
        Kind::Word => Symbol::Word,
        Kind::Class => Symbol::Class,
        Kind::Number => Symbol::Number,
        Kind::Key => key(token.text.as_str()),
        Kind::Mark => mark(token.text.as_str()),
    }
}
