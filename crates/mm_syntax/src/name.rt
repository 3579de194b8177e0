// Names, numbers and the words and marks that differ between alternatives.

ghost use Rattle.std.specs.Prelude.{◌≡◌};
ghost use Rattle.std.specs.Option.{option_copied};
ghost use Rattle.mm_syntax.specs.Numbers.{is_suffix, is_unsigned};

use mm_base::place::Place;
use mm_base::text::Text;

/// A name with its place.
#[derive(Drop)]
pub struct Name {
    pub text: Text,
    pub place: Place,
}

/// A number.
#[derive(Drop)]
pub struct Number {
    /// With the suffix, where there is one.
    pub text: Text,
    pub value: u32,
}

impl Number {
    /// Whether it has the suffix.
    pub fn has_suffix(&self) -> bool
        ensures { result ≡ is_unsigned self.now.text }
    {
        is_last_suffix(self.text.as_bytes().last())
    }
}

fn is_last_suffix(last: Option<&u8>) -> bool
    ensures { result ≡ is_suffix (option_copied last.entry) }
{
    match last {
        Some(last) => *last == b'u' || *last == b'U',
        None => false,
    }
}

/// Who may use a member or a base.
#[derive(Clone, Copy)]
pub enum Access {
    Public,
    Protected,
    Private,
}

/// The word that begins a class.
#[derive(Clone, Copy)]
pub enum ClassKey {
    Class,
    Struct,
}

/// What a mark before a declared name makes of its type.
#[derive(Clone, Copy)]
pub enum Indirection {
    /// `*`
    Pointer,
    /// `&`
    Reference,
}

/// The mark before a declared name, with its place.
#[derive(Clone, Copy)]
pub struct DeclaratorMark {
    pub kind: Indirection,
    pub place: Place,
}

/// Operators before their operand.
#[derive(Clone, Copy)]
pub enum UnaryOperator {
    Plus,
    Minus,
    Not,
    /// `*`
    Indirection,
    /// `&`
    AddressOf,
    /// `++`
    Increment,
    /// `--`
    Decrement,
}

/// Operators after their operand.
#[derive(Clone, Copy)]
pub enum StepOperator {
    /// `++`
    Increment,
    /// `--`
    Decrement,
}

/// Operators between two operands, but for those that assign.
#[derive(Clone, Copy)]
pub enum BinaryOperator {
    Or,
    And,
    Equal,
    NotEqual,
    Less,
    Greater,
    LessOrEqual,
    GreaterOrEqual,
    Plus,
    Minus,
    Times,
    Divide,
    Remainder,
}

/// Operators that assign.
#[derive(Clone, Copy)]
pub enum AssignOperator {
    /// `=`
    Set,
    /// `+=`
    Plus,
    /// `-=`
    Minus,
    /// `*=`
    Times,
    /// `/=`
    Divide,
    /// `%=`
    Remainder,
}

/// What stands between an object and its member.
#[derive(Clone, Copy)]
pub enum MemberOperator {
    /// `.`
    Dot,
    /// `->`
    Arrow,
}
