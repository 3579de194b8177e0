//! Statements, with numbers for names.

ghost use Rattle.std.specs.Prelude.{◌≡◌, map, IfOk};
ghost use Rattle.mm_c.specs.View as c;
ghost use Rattle.mm_c_placed.specs.Tree.{◌⨾◌, Code};
ghost use Rattle.mm_c_placed.specs.View.{stmt_view, code_view};
ghost use Rattle.mm_c_places.specs.Placed.{own_local, with_locals, placed_stmt, placed_block, placed_code};
ghost use Rattle.mm_c_resolve.specs.Named.{places_in, numbers_in};

use crate::locals::Declared;
use crate::names::{Globals, address, assigned, call, local, operand};
use mm_c::tree::{CBlock, CLocal, CStmt};
use mm_c_placed::tree::{Local, PlacedStmt};
use sqlite_items::Items;
use std::alloc::{AllocError, Global};

fn own_locals(
    alloc: Global,
    locals: &Declared<'_>,
    of: &[CLocal],
) -> Result<Items<Local>, AllocError>
    ensures { IfOk result (λ q. q ≡ map (own_local (places_in locals.now)) of.now) }
{
    let mut all = Items::new(alloc);
    for one in of {
        let found = local(locals, &one.name);
        all.push(Local {
            place: found.place,
            kind: one.kind,
        })?;
    }
    Ok(all)
}

// the statement that a block begins with, if it has locals
#[tactic(auto, using(crate::proofs::Codes::code_rules))]
fn block_start(
    alloc: Global,
    globals: &Globals<'_>,
    locals: &Declared<'_>,
    of: &[CLocal],
) -> Result<Items<PlacedStmt>, AllocError>
    ensures { IfOk result (λ q. (more : Code) → code_view q ⨾ more
        ≡ with_locals (numbers_in globals.now) (places_in locals.now) of.now more) }
{
    let mut all = Items::new(alloc);
    match of {
        [] => Ok(all),
        [_, ..] => {
            let own = own_locals(alloc, locals, of)?;
            all.push(PlacedStmt::Locals(own))?;
            Ok(all)
        }
    }
}

#[tactic(auto, using(crate::proofs::Codes::code_rules))]
#[cycle(place_stmt)]
fn place_stmt(
    alloc: Global,
    globals: &Globals<'_>,
    locals: &Declared<'_>,
    stmt: &CStmt,
) -> Result<PlacedStmt, AllocError>
    ensures { IfOk result (λ q. stmt_view q
        ≡ placed_stmt (numbers_in globals.now) (places_in locals.now) (c.stmt_view stmt.now)) }
{
    match stmt {
        CStmt::Assign(name, right) => {
            let to = local(locals, name);
            assigned(alloc, globals, locals, to, right)
        }
        CStmt::Store(cell, to, atom) => Ok(PlacedStmt::Store(
            *cell,
            address(locals, to),
            operand(locals, atom),
        )),
        CStmt::Call(of) => call(alloc, globals, locals, None, of),
        CStmt::If(atom, block) => {
            let first = place_block(alloc, globals, locals, block)?;
            Ok(PlacedStmt::If(operand(locals, atom), first, Items::new(alloc)))
        }
        CStmt::IfElse(atom, block, other) => {
            let first = place_block(alloc, globals, locals, block)?;
            let second = place_block(alloc, globals, locals, other)?;
            Ok(PlacedStmt::If(operand(locals, atom), first, second))
        }
        CStmt::While(block) => {
            let body = place_block(alloc, globals, locals, block)?;
            Ok(PlacedStmt::While(body))
        }
        CStmt::Break => Ok(PlacedStmt::Break),
        CStmt::Continue => Ok(PlacedStmt::Continue),
        CStmt::Return => Ok(PlacedStmt::Return),
        CStmt::ReturnValue(atom) => Ok(PlacedStmt::ReturnValue(operand(locals, atom))),
    }
}

/// A block, whose locals are set anew by its first statement.
#[tactic(auto, using(crate::proofs::Codes::code_rules))]
#[cycle(place_stmt)]
pub fn place_block(
    alloc: Global,
    globals: &Globals<'_>,
    locals: &Declared<'_>,
    block: &CBlock,
) -> Result<Items<PlacedStmt>, AllocError>
    ensures { IfOk result (λ q. code_view q
        ≡ placed_block (numbers_in globals.now) (places_in locals.now) (c.block_view block.now)) }
{
    let code = place_code(alloc, globals, locals, block.body.as_slice())?;
    let mut all = block_start(alloc, globals, locals, block.locals.as_slice())?;
    all.append(code)?;
    Ok(all)
}

#[tactic(auto, using(crate::proofs::Codes::code_rules))]
#[cycle(place_stmt)]
fn place_code(
    alloc: Global,
    globals: &Globals<'_>,
    locals: &Declared<'_>,
    stmts: &[CStmt],
) -> Result<Items<PlacedStmt>, AllocError>
    ensures { IfOk result (λ q. code_view q
        ≡ placed_code (numbers_in globals.now) (places_in locals.now) (c.code_view stmts.now)) }
{
    let mut all = Items::new(alloc);
    for stmt in stmts {
        all.push(place_stmt(alloc, globals, locals, stmt)?)?;
    }
    Ok(all)
}
