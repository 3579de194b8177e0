// Trees of statements, from their tokens and parts.

ghost use Rattle.std.specs.Prelude.{◌≡◌, IfOk, Some, None};
ghost use Rattle.mm_syntax.specs.BuiltStatements as bs;
ghost use Rattle.mm_parse_stmt.specs.Parts.{head_of, repeated};

use mm_base::place::Place;
use mm_syntax::expr::Expr;
use mm_syntax::part::Begun;
use mm_syntax::stmt::{ForStart, Stmt, StmtKind};
use mm_token::token::Token;
use sqlite_items::{Boxed, Items};
use std::alloc::{AllocError, Global};

/// What stands in the parentheses of `for`.
#[derive(Drop)]
pub struct ForHead {
    pub start: ForStart,
    pub condition: Option<Expr>,
    pub step: Option<Expr>,
}

fn statement(alloc: Global, kind: StmtKind, place: Place) -> Result<Boxed<Stmt>, AllocError>
    ensures { IfOk result (λ v. v ≡ bs.statement kind place) }
{
    Boxed::new(alloc, Stmt { kind, place })
}

/// The tree of a statement whose first token says all.
pub fn at_token(alloc: Global, kind: StmtKind, token: &Token) -> Result<Boxed<Stmt>, AllocError>
    ensures { IfOk result (λ v. v ≡ bs.statement kind token.now.place) }
{
    statement(alloc, kind, token.place)
}

/// The tree of a block.
pub fn block(alloc: Global, brace: &Token, stmts: Items<Stmt>) -> Result<Boxed<Stmt>, AllocError>
    ensures { IfOk result (λ v. v ≡ bs.block brace.now stmts) }
{
    statement(alloc, StmtKind::Block(stmts), brace.place)
}

fn value(part: Option<Boxed<Begun>>) -> Option<Expr>
    ensures { result ≡ bs.value_of part }
{
    match part {
        None => None,
        Some(part) => {
            let Begun { tree, .. } = part.into_inner();
            Some(tree)
        }
    }
}

/// The tree of `return`, with a value or without.
pub fn returned(
    alloc: Global,
    word: &Token,
    part: Option<Boxed<Begun>>,
) -> Result<Boxed<Stmt>, AllocError>
    ensures { IfOk result (λ v. v ≡ bs.returned word.now part) }
{
    statement(alloc, StmtKind::Return(value(part)), word.place)
}

/// The tree of `if` without `else`.
pub fn branched(
    alloc: Global,
    word: &Token,
    condition: Boxed<Begun>,
    body: Boxed<Stmt>,
) -> Result<Boxed<Stmt>, AllocError>
    ensures { IfOk result (λ v. v ≡ bs.branched word.now condition body None) }
{
    let Begun { tree, .. } = condition.into_inner();
    statement(alloc, StmtKind::If(tree, body), word.place)
}

/// The tree of `if` with `else`.
pub fn chosen(
    alloc: Global,
    word: &Token,
    condition: Boxed<Begun>,
    body: Boxed<Stmt>,
    other: Boxed<Stmt>,
) -> Result<Boxed<Stmt>, AllocError>
    ensures { IfOk result (λ v. v ≡ bs.branched word.now condition body (Some other)) }
{
    let Begun { tree, .. } = condition.into_inner();
    statement(alloc, StmtKind::Choose(tree, body, other), word.place)
}

/// The tree of `while`.
pub fn looped(
    alloc: Global,
    word: &Token,
    condition: Boxed<Begun>,
    body: Boxed<Stmt>,
) -> Result<Boxed<Stmt>, AllocError>
    ensures { IfOk result (λ v. v ≡ bs.looped word.now condition body) }
{
    let Begun { tree, .. } = condition.into_inner();
    statement(alloc, StmtKind::While(tree, body), word.place)
}

/// The tree of `do`.
pub fn done_while(
    alloc: Global,
    word: &Token,
    body: Boxed<Stmt>,
    condition: Boxed<Begun>,
) -> Result<Boxed<Stmt>, AllocError>
    ensures { IfOk result (λ v. v ≡ bs.done_while word.now body condition) }
{
    let Begun { tree, .. } = condition.into_inner();
    statement(alloc, StmtKind::Do(body, tree), word.place)
}

/// The parts in the parentheses of `for` together.
pub fn head(
    alloc: Global,
    start: Boxed<ForStart>,
    condition: Option<Boxed<Begun>>,
    step: Option<Boxed<Begun>>,
) -> Result<Boxed<ForHead>, AllocError>
    ensures { IfOk result (λ v. v ≡ head_of start condition step) }
{
    let condition = value(condition);
    let step = value(step);
    Boxed::new(
        alloc,
        ForHead {
            start: start.into_inner(),
            condition,
            step,
        },
    )
}

/// The tree of `for`.
pub fn repeated(
    alloc: Global,
    word: &Token,
    head: Boxed<ForHead>,
    body: Boxed<Stmt>,
) -> Result<Boxed<Stmt>, AllocError>
    ensures { IfOk result (λ v. v ≡ repeated word.now head body) }
{
    let ForHead {
        start,
        condition,
        step,
    } = head.into_inner();
    statement(
        alloc,
        StmtKind::For(start, condition, step, body),
        word.place,
    )
}
