// What a token is in a tree.

ghost use Rattle.std.specs.Prelude.{◌≡◌, IfOk};
ghost use Rattle.mm_syntax.specs.Symbols.{symbol_of};
ghost use Rattle.mm_syntax.specs.Built.{name_of, number_of_token, mark_of, unary_for, step_for, binary_for, assign_for, member_for, leaf_for, type_for, word_type, class_type};
ghost use Rattle.mm_syntax.specs.BuiltDeclarations.{access_for, key_for};

use crate::expr::{ExprKind, TypeName, TypeNameKind};
use crate::name::{
    Access, AssignOperator, BinaryOperator, ClassKey, DeclaratorMark, Indirection, MemberOperator,
    Name, Number, StepOperator, UnaryOperator,
};
use crate::symbol::{Symbol, classify};
use mm_base::text::Text;
use mm_token::token::Token;
use std::alloc::{AllocError, Global};

fn text(alloc: Global, token: &Token) -> Result<Text, AllocError>
    ensures { IfOk result (λ v. v ≡ token.now.text) }
{
    Text::from_str(alloc, token.text.as_str())
}

/// The token as a name.
pub fn name(alloc: Global, token: &Token) -> Result<Name, AllocError>
    ensures { IfOk result (λ v. v ≡ name_of token.now) }
{
    Ok(Name {
        text: text(alloc, token)?,
        place: token.place,
    })
}

fn number(alloc: Global, token: &Token) -> Result<Number, AllocError>
    ensures { IfOk result (λ v. v ≡ number_of_token token.now) }
{
    Ok(Number {
        text: text(alloc, token)?,
        value: token.value,
    })
}

/// The token as the mark before a declared name: `*`, and else `&`.
pub fn declarator_mark(token: &Token) -> DeclaratorMark
    ensures { result ≡ mark_of token.now }
{
    let kind = match classify(token) {
        Symbol::Star => Indirection::Pointer,
        _ => Indirection::Reference,
    };
    DeclaratorMark {
        kind,
        place: token.place,
    }
}

/// The token as an operator before its operand, the last of them where it is none.
pub fn unary_operator(token: &Token) -> UnaryOperator
    ensures { result ≡ unary_for (symbol_of token.now) }
{
    match classify(token) {
        Symbol::Plus => UnaryOperator::Plus,
        Symbol::Minus => UnaryOperator::Minus,
        Symbol::Not => UnaryOperator::Not,
        Symbol::Star => UnaryOperator::Indirection,
        Symbol::And => UnaryOperator::AddressOf,
        Symbol::PlusPlus => UnaryOperator::Increment,
        _ => UnaryOperator::Decrement,
    }
}

/// The token as an operator after its operand, `--` where it is none.
pub fn step_operator(token: &Token) -> StepOperator
    ensures { result ≡ step_for (symbol_of token.now) }
{
    match classify(token) {
        Symbol::PlusPlus => StepOperator::Increment,
        _ => StepOperator::Decrement,
    }
}

/// The token as an operator between two operands, `%` where it is none.
pub fn binary_operator(token: &Token) -> BinaryOperator
    ensures { result ≡ binary_for (symbol_of token.now) }
{
    match classify(token) {
        Symbol::OrOr => BinaryOperator::Or,
        Symbol::AndAnd => BinaryOperator::And,
        Symbol::EqualEqual => BinaryOperator::Equal,
        Symbol::NotEqual => BinaryOperator::NotEqual,
        Symbol::Less => BinaryOperator::Less,
        Symbol::Greater => BinaryOperator::Greater,
        Symbol::LessEqual => BinaryOperator::LessOrEqual,
        Symbol::GreaterEqual => BinaryOperator::GreaterOrEqual,
        Symbol::Plus => BinaryOperator::Plus,
        Symbol::Minus => BinaryOperator::Minus,
        Symbol::Star => BinaryOperator::Times,
        Symbol::Slash => BinaryOperator::Divide,
        _ => BinaryOperator::Remainder,
    }
}

/// The token as an operator that assigns, `%=` where it is none.
pub fn assign_operator(token: &Token) -> AssignOperator
    ensures { result ≡ assign_for (symbol_of token.now) }
{
    match classify(token) {
        Symbol::Assign => AssignOperator::Set,
        Symbol::PlusAssign => AssignOperator::Plus,
        Symbol::MinusAssign => AssignOperator::Minus,
        Symbol::StarAssign => AssignOperator::Times,
        Symbol::SlashAssign => AssignOperator::Divide,
        _ => AssignOperator::Remainder,
    }
}

/// The token as what stands before a member, `->` where it is none.
pub fn member_operator(token: &Token) -> MemberOperator
    ensures { result ≡ member_for (symbol_of token.now) }
{
    match classify(token) {
        Symbol::Dot => MemberOperator::Dot,
        _ => MemberOperator::Arrow,
    }
}

/// The token as an expression: a number, a word of the language, or a name.
pub fn leaf_kind(alloc: Global, token: &Token) -> Result<ExprKind, AllocError>
    ensures { IfOk result (λ v. v ≡ leaf_for (symbol_of token.now) token.now) }
{
    Ok(match classify(token) {
        Symbol::Number => ExprKind::Number(number(alloc, token)?),
        Symbol::True => ExprKind::True,
        Symbol::False => ExprKind::False,
        Symbol::This => ExprKind::This,
        _ => ExprKind::Name(text(alloc, token)?),
    })
}

/// The token as a type: `void`, `bool`, and else `int`.
pub fn word_type_name(token: &Token) -> TypeName
    ensures { result ≡ word_type token.now }
{
    let kind = match classify(token) {
        Symbol::Void => TypeNameKind::Void,
        Symbol::Bool => TypeNameKind::Bool,
        _ => TypeNameKind::Int,
    };
    TypeName {
        kind,
        place: token.place,
    }
}

/// The token as a class that is a type.
pub fn class_type_name(alloc: Global, token: &Token) -> Result<TypeName, AllocError>
    ensures { IfOk result (λ v. v ≡ class_type token.now) }
{
    let kind = TypeNameKind::Class(text(alloc, token)?);
    Ok(TypeName {
        kind,
        place: token.place,
    })
}

/// The token as an access: `public`, `protected`, and else `private`.
pub fn access_word(token: &Token) -> Access
    ensures { result ≡ access_for (symbol_of token.now) }
{
    match classify(token) {
        Symbol::Public => Access::Public,
        Symbol::Protected => Access::Protected,
        _ => Access::Private,
    }
}

/// The token as the word that begins a class: `struct`, and else `class`.
pub fn class_key(token: &Token) -> ClassKey
    ensures { result ≡ key_for (symbol_of token.now) }
{
    match classify(token) {
        Symbol::StructKey => ClassKey::Struct,
        _ => ClassKey::Class,
    }
}
