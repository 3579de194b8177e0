// One function for each rule of expressions, and for each part that is read by itself.

ghost use Rattle.std.specs.Prelude.{◌≡◌, ◌<◌, ◌≤◌, ◌+◌, length, IfOk, OnSome};
ghost use Rattle.mm_grammar.specs.Grammar.{name, give, many, opt};
ghost use Rattle.mm_cursor.specs.Cursor.{Answers};
ghost use Rattle.mm_syntax.specs.Built as b;
ghost use Rattle.mm_syntax.specs.Rules as rules;
ghost use Rattle.mm_syntax.specs.Rules.{link};
ghost use Rattle.mm_parse_expr.specs.Parts.{part_at, operators_at, target, member, closing};

use crate::build;
use mm_cursor::{Cursor, Stop};
use mm_syntax::expr::{Expr, ExprKind};
use mm_syntax::name::Name;
use mm_syntax::part::{Begun, End, Suffix};
use mm_syntax::symbol::Symbol;
use mm_token::token::Token;
use sqlite_items::{Boxed, Items};
use std::alloc::Global;

/// expr: or, and what may end it.
#[cycle(expr)]
pub fn expr(alloc: Global, cursor: &mut Cursor<'_>) -> Result<Boxed<Begun>, Stop>
    ensures reads { Answers (name rules.expr) cursor.old result cursor.new }
    ensures shorter { length cursor.new ≤ length cursor.old }
{
    let left = chain(alloc, cursor, 0)?;
    let end = end(alloc, cursor)?;
    Ok(build::ended(alloc, left, end)?)
}

/// `?` expr `:` expr; or an assigning operator and expr; or nothing.
#[cycle(expr)]
fn end(alloc: Global, cursor: &mut Cursor<'_>) -> Result<Option<Boxed<End>>, Stop>
    ensures reads { Answers (opt rules.end) cursor.old result cursor.new }
    ensures shorter { length cursor.new ≤ length cursor.old }
{
    if let Some(mark) = cursor.eat(&[Symbol::Question]) {
        let yes = expr(alloc, cursor)?;
        cursor.take(&[Symbol::Colon])?;
        let no = expr(alloc, cursor)?;
        return Ok(Some(build::chosen(alloc, mark, yes, no)?));
    }
    match cursor.eat(&[
        Symbol::Assign,
        Symbol::PlusAssign,
        Symbol::MinusAssign,
        Symbol::StarAssign,
        Symbol::SlashAssign,
        Symbol::PercentAssign,
    ]) {
        Some(op) => {
            let right = expr(alloc, cursor)?;
            Ok(Some(build::assigned(alloc, op, right)?))
        }
        None => Ok(None),
    }
}

fn operators(level: usize) -> &'static [Symbol]
    ensures { result.now ≡ operators_at level }
{
    match level {
        0 => &[Symbol::OrOr],
        1 => &[Symbol::AndAnd],
        2 => &[Symbol::EqualEqual, Symbol::NotEqual],
        3 => &[
            Symbol::Less,
            Symbol::Greater,
            Symbol::LessEqual,
            Symbol::GreaterEqual,
        ],
        4 => &[Symbol::Plus, Symbol::Minus],
        _ => &[Symbol::Star, Symbol::Slash, Symbol::Percent],
    }
}

/// The chain of this level, from `||` at 0 to `*` at 5; at 6 a unary expression. All operators that bind more tightly are
/// folded in one call, from the tightest on.
#[cycle(expr)]
fn chain(alloc: Global, cursor: &mut Cursor<'_>, level: usize) -> Result<Boxed<Begun>, Stop>
    requires { level ≤ 6 }
    ensures reads { Answers (part_at level) cursor.old result cursor.new }
    ensures shorter { length cursor.new ≤ length cursor.old }
{
    let mut left = unary(alloc, cursor)?;
    let mut at = 6;
    while level < at {
        at -= 1;
        left = links(alloc, cursor, at, left)?;
    }
    Ok(left)
}

/// The operators of this level that follow what stands to their left, each with its right operand.
#[cycle(expr)]
fn links(
    alloc: Global,
    cursor: &mut Cursor<'_>,
    level: usize,
    left: Boxed<Begun>,
) -> Result<Boxed<Begun>, Stop>
    requires { level < 6 }
    ensures reads { Answers (give (b.joined left) (many (link (part_at (level + 1)) (operators_at level)))) cursor.old result cursor.new }
    ensures shorter { length cursor.new ≤ length cursor.old }
{
    let mut left = left;
    while let Some(op) = cursor.eat(operators(level)) {
        let right = chain(alloc, cursor, level + 1)?;
        left = build::operated(alloc, left, op, right)?;
    }
    Ok(left)
}

/// An operator and unary; or `new`; or postfix.
#[cycle(expr)]
fn unary(alloc: Global, cursor: &mut Cursor<'_>) -> Result<Boxed<Begun>, Stop>
    ensures reads { Answers (name rules.unary) cursor.old result cursor.new }
    ensures shorter { length cursor.new ≤ length cursor.old }
{
    if let Some(op) = cursor.eat(&[
        Symbol::Plus,
        Symbol::Minus,
        Symbol::Not,
        Symbol::Star,
        Symbol::And,
        Symbol::PlusPlus,
        Symbol::MinusMinus,
    ]) {
        let operand = unary(alloc, cursor)?;
        return Ok(build::prefixed(alloc, op, operand)?);
    }
    if let Some(word) = cursor.eat(&[Symbol::New]) {
        let kind = made(alloc, cursor)?;
        return Ok(build::at_word(alloc, word, kind)?);
    }
    postfix(alloc, cursor)
}

/// What follows `new`.
#[cycle(expr)]
fn made(alloc: Global, cursor: &mut Cursor<'_>) -> Result<Boxed<ExprKind>, Stop>
    ensures reads { Answers rules.after_new cursor.old result cursor.new }
    ensures shorter { length cursor.new ≤ length cursor.old }
{
    let class = cursor.take(&[Symbol::Class])?;
    if cursor.eat(&[Symbol::Open]).is_some() {
        let args = inside(alloc, cursor)?;
        return Ok(build::made(alloc, class, Some(args))?);
    }
    Ok(build::made(alloc, class, None)?)
}

/// A primary expression and its suffixes.
#[cycle(expr)]
fn postfix(alloc: Global, cursor: &mut Cursor<'_>) -> Result<Boxed<Begun>, Stop>
    ensures reads { Answers (name rules.postfix) cursor.old result cursor.new }
    ensures shorter { length cursor.new ≤ length cursor.old }
{
    let mut left = primary(alloc, cursor)?;
    while let Some(suffix) = suffix(alloc, cursor)? {
        left = build::with_suffix(alloc, left, suffix)?;
    }
    Ok(left)
}

/// Arguments, or a member, or a step, where one of them follows.
#[cycle(expr)]
fn suffix(alloc: Global, cursor: &mut Cursor<'_>) -> Result<Option<Boxed<Suffix>>, Stop>
    ensures reads { Answers (opt rules.suffix) cursor.old result cursor.new }
    ensures shorter { length cursor.new ≤ length cursor.old }
    ensures takes { IfOk result (λ v. OnSome v (length cursor.new < length cursor.old)) }
{
    if cursor.eat(&[Symbol::Open]).is_some() {
        let args = inside(alloc, cursor)?;
        return Ok(Some(build::called(alloc, args)?));
    }
    if let Some(op) = cursor.eat(&[Symbol::Dot, Symbol::Arrow]) {
        let suffix = selected(alloc, cursor, op)?;
        return Ok(Some(suffix));
    }
    match cursor.eat(&[Symbol::PlusPlus, Symbol::MinusMinus]) {
        Some(op) => Ok(Some(build::stepped(alloc, op)?)),
        None => Ok(None),
    }
}

/// What follows the mark of a member: a class before `::`, which is optional, and a name.
fn selected(alloc: Global, cursor: &mut Cursor<'_>, op: &Token) -> Result<Boxed<Suffix>, Stop>
    ensures reads { Answers (member op.now) cursor.old result cursor.new }
    ensures shorter { length cursor.new ≤ length cursor.old }
{
    if let Some(class) = cursor.eat(&[Symbol::Class]) {
        cursor.take(&[Symbol::Scope])?;
        let word = cursor.take(&[Symbol::Word])?;
        return Ok(build::member(alloc, op, Some(class), word)?);
    }
    let word = cursor.take(&[Symbol::Word])?;
    Ok(build::member(alloc, op, None, word)?)
}

/// A number, a word or a name; an expression in parentheses; a `dynamic_cast`; or a class and a name in it.
#[cycle(expr)]
fn primary(alloc: Global, cursor: &mut Cursor<'_>) -> Result<Boxed<Begun>, Stop>
    ensures reads { Answers (name rules.primary) cursor.old result cursor.new }
    ensures shorter { length cursor.new ≤ length cursor.old }
{
    if let Some(leaf) = cursor.eat(&[
        Symbol::Number,
        Symbol::True,
        Symbol::False,
        Symbol::This,
        Symbol::Word,
    ]) {
        return Ok(build::leaf(alloc, leaf)?);
    }
    if let Some(first) = cursor.eat(&[Symbol::Open]) {
        let inner = closed(alloc, cursor)?;
        return Ok(build::enclosed(alloc, first, inner)?);
    }
    if let Some(word) = cursor.eat(&[Symbol::DynamicCast]) {
        return cast(alloc, cursor, word);
    }
    scoped(alloc, cursor)
}

/// A class, `::` and a name.
fn scoped(alloc: Global, cursor: &mut Cursor<'_>) -> Result<Boxed<Begun>, Stop>
    ensures reads { Answers rules.scoped cursor.old result cursor.new }
    ensures shorter { length cursor.new ≤ length cursor.old }
{
    let class = cursor.take(&[Symbol::Class])?;
    cursor.take(&[Symbol::Scope])?;
    let word = cursor.take(&[Symbol::Word])?;
    Ok(build::scoped(alloc, class, word)?)
}

/// What follows `dynamic_cast`: the class in its brackets, and the operand in parentheses.
#[cycle(expr)]
fn cast(alloc: Global, cursor: &mut Cursor<'_>, word: &Token) -> Result<Boxed<Begun>, Stop>
    ensures reads { Answers (give (λ v. b.cast word.now v.0 v.1) rules.cast_to) cursor.old result cursor.new }
    ensures shorter { length cursor.new ≤ length cursor.old }
{
    let class = target(alloc, cursor)?;
    cursor.take(&[Symbol::Open])?;
    let operand = closed(alloc, cursor)?;
    Ok(build::cast(alloc, word, class, operand)?)
}

/// `<`, a class, `*` and `>`.
fn target(alloc: Global, cursor: &mut Cursor<'_>) -> Result<Boxed<Name>, Stop>
    ensures reads { Answers target cursor.old result cursor.new }
    ensures shorter { length cursor.new ≤ length cursor.old }
{
    cursor.take(&[Symbol::Less])?;
    let class = cursor.take(&[Symbol::Class])?;
    cursor.take(&[Symbol::Star])?;
    cursor.take(&[Symbol::Greater])?;
    Ok(build::target(alloc, class)?)
}

/// An expression and the `)` after it.
#[cycle(expr)]
pub fn closed(alloc: Global, cursor: &mut Cursor<'_>) -> Result<Boxed<Begun>, Stop>
    ensures reads { Answers closing cursor.old result cursor.new }
    ensures shorter { length cursor.new ≤ length cursor.old }
{
    let inner = expr(alloc, cursor)?;
    cursor.take(&[Symbol::Close])?;
    Ok(inner)
}

/// The arguments that follow `(`, of which there may be none, and the `)` after them.
#[cycle(expr)]
pub fn inside(alloc: Global, cursor: &mut Cursor<'_>) -> Result<Items<Expr>, Stop>
    ensures reads { Answers rules.inside cursor.old result cursor.new }
    ensures shorter { length cursor.new ≤ length cursor.old }
{
    if cursor.eat(&[Symbol::Close]).is_some() {
        return Ok(Items::new(alloc));
    }
    let args = args(alloc, cursor)?;
    cursor.take(&[Symbol::Close])?;
    Ok(args)
}

/// Expressions with a comma between each two.
#[cycle(expr)]
pub fn args(alloc: Global, cursor: &mut Cursor<'_>) -> Result<Items<Expr>, Stop>
    ensures reads { Answers (name rules.args) cursor.old result cursor.new }
    ensures shorter { length cursor.new ≤ length cursor.old }
{
    let first = expr(alloc, cursor)?;
    let mut list = build::single(alloc, first)?;
    while cursor.eat(&[Symbol::Comma]).is_some() {
        let next = expr(alloc, cursor)?;
        build::push(&mut list, next)?;
    }
    Ok(list)
}
