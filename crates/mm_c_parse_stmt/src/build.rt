// Trees of statements and blocks, from their parts. They are handed on in boxes, and built in functions of their own,
// which keeps the frames of the recursion small.

ghost use Rattle.std.specs.Prelude.{◌≡◌, [], ◌∷◌, ◌++◌, IfOk, OnOk};
ghost use Rattle.mm_c.specs.View.{block_view, code_view, stmt_view};
ghost use Rattle.mm_c.specs.Tree as t;

use mm_c::tree::{CAtom, CBlock, CLocal, CStmt};
use sqlite_items::{Boxed, Items};
use std::alloc::{AllocError, Global};

/// A block.
#[inline(never)]
pub fn block(
    alloc: Global,
    locals: Items<CLocal>,
    body: Items<CStmt>,
) -> Result<Boxed<CBlock>, AllocError>
    ensures { IfOk result (λ b. block_view b ≡ t.block locals (code_view body)) }
{
    Boxed::new(alloc, CBlock { locals, body })
}

/// An `if` without `else`.
#[inline(never)]
pub fn if_only(alloc: Global, test: CAtom, body: Boxed<CBlock>) -> Result<Boxed<CStmt>, AllocError>
    ensures { IfOk result (λ s. stmt_view s ≡ t.if_only test (block_view body)) }
{
    Boxed::new(alloc, CStmt::If(test, body.into_inner()))
}

/// An `if` with `else`.
#[inline(never)]
pub fn if_else(
    alloc: Global,
    test: CAtom,
    body: Boxed<CBlock>,
    other: Boxed<CBlock>,
) -> Result<Boxed<CStmt>, AllocError>
    ensures { IfOk result (λ s. stmt_view s ≡ t.if_else test (block_view body) (block_view other)) }
{
    Boxed::new(
        alloc,
        CStmt::IfElse(test, body.into_inner(), other.into_inner()),
    )
}

/// A `while`.
#[inline(never)]
pub fn forever(alloc: Global, body: Boxed<CBlock>) -> Result<Boxed<CStmt>, AllocError>
    ensures { IfOk result (λ s. stmt_view s ≡ t.forever (block_view body)) }
{
    Boxed::new(alloc, CStmt::While(body.into_inner()))
}

/// Adds a statement to a list.
#[inline(never)]
pub fn push(list: &mut Items<CStmt>, next: Boxed<CStmt>) -> Result<(), AllocError>
    ensures { OnOk result (list.new ≡ list.old ++ next ∷ []) }
{
    list.push(next.into_inner())?;
    Ok(())
}
