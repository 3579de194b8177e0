//! The locals of a function, by their names.

ghost use Rattle.std.specs.Prelude.{◌≡◌, ◌++◌, map, OnOk, IfOk};
ghost use Rattle.mm_c.specs.View.{stmt_view, block_view, code_view, function_view};
ghost use Rattle.mm_c.specs.WellFormed.{locals_of, code_locals, stmt_locals, kinds_of};
ghost use Rattle.mm_c_places.specs.Locals.{all_locals};
ghost use Rattle.mm_c_places.specs.Places.{names_of};
ghost use Rattle.mm_c_resolve.specs.Numbering.{AreNumbered, texts};
ghost use Rattle.mm_c_resolve.specs.Held.{seen, AreDeclared};

use crate::numbers::{Numbering, number_names};
use mm_c::tree::{CBlock, CFn, CKind, CLocal, CStmt};
use std::alloc::{AllocError, Global};

/// The places of a function's locals by their names, and the kinds of the locals.
#[derive(Drop)]
pub struct Declared<'a> {
    pub places: Numbering<'a>,
    pub kinds: Vec<CKind>,
}

#[tactic(auto, using(crate::proofs::Walk::local_rules))]
fn push_own<'a>(all: &mut Vec<&'a CLocal>, locals: &'a [CLocal]) -> Result<(), AllocError>
    ensures { OnOk result (seen all.new.items ≡ seen all.old.items ++ locals.now) }
{
    for local in locals {
        all.push(local)?;
    }
    Ok(())
}

#[tactic(auto, using(crate::proofs::Walk::local_rules))]
#[cycle(push_locals)]
fn push_in_stmt<'a>(all: &mut Vec<&'a CLocal>, stmt: &'a CStmt) -> Result<(), AllocError>
    ensures { OnOk result
        (seen all.new.items ≡ seen all.old.items ++ stmt_locals (stmt_view stmt.now)) }
{
    match stmt {
        CStmt::Assign(_, _) => Ok(()),
        CStmt::Store(_, _, _) => Ok(()),
        CStmt::Call(_) => Ok(()),
        CStmt::If(_, block) => push_in_block(all, block),
        CStmt::IfElse(_, block, other) => {
            push_in_block(all, block)?;
            push_in_block(all, other)
        }
        CStmt::While(block) => push_in_block(all, block),
        CStmt::Break => Ok(()),
        CStmt::Continue => Ok(()),
        CStmt::Return => Ok(()),
        CStmt::ReturnValue(_) => Ok(()),
    }
}

#[tactic(auto, using(crate::proofs::Walk::local_rules))]
#[cycle(push_locals)]
fn push_in_block<'a>(all: &mut Vec<&'a CLocal>, block: &'a CBlock) -> Result<(), AllocError>
    ensures { OnOk result
        (seen all.new.items ≡ seen all.old.items ++ locals_of (block_view block.now)) }
{
    push_own(all, block.locals.as_slice())?;
    push_in_code(all, block.body.as_slice())
}

#[tactic(auto, using(crate::proofs::Walk::local_rules))]
#[cycle(push_locals)]
fn push_in_code<'a>(all: &mut Vec<&'a CLocal>, stmts: &'a [CStmt]) -> Result<(), AllocError>
    ensures { OnOk result
        (seen all.new.items ≡ seen all.old.items ++ code_locals (code_view stmts.now)) }
{
    for stmt in stmts {
        push_in_stmt(all, stmt)?;
    }
    Ok(())
}

// the parameters, and then the locals of all blocks
#[tactic(auto, using(crate::proofs::Walk::local_rules))]
fn locals_of<'a>(alloc: Global, function: &'a CFn) -> Result<Vec<&'a CLocal>, AllocError>
    ensures { IfOk result (λ v. seen v.items ≡ all_locals (function_view function.now)) }
{
    let mut all = Vec::new(alloc);
    push_own(&mut all, function.params.as_slice())?;
    push_in_block(&mut all, &function.body)?;
    Ok(all)
}

fn names_of<'a>(alloc: Global, locals: &[&'a CLocal]) -> Result<Vec<&'a str>, AllocError>
    ensures { IfOk result (λ v. texts v.items ≡ names_of (seen locals.now)) }
{
    let mut names = Vec::new(alloc);
    for local in locals {
        names.push(local.name.as_str())?;
    }
    Ok(names)
}

fn kinds_of(alloc: Global, locals: &[&CLocal]) -> Result<Vec<CKind>, AllocError>
    ensures { IfOk result (λ v. v.items ≡ kinds_of (seen locals.now)) }
{
    let mut kinds = Vec::new(alloc);
    for local in locals {
        kinds.push(local.kind)?;
    }
    Ok(kinds)
}

/// The locals of a function.
pub fn declare<'a>(alloc: Global, function: &'a CFn) -> Result<Declared<'a>, AllocError>
    ensures { IfOk result (λ d. AreDeclared d (all_locals (function_view function.now))) }
{
    let locals = locals_of(alloc, function)?;
    let names = names_of(alloc, locals.as_slice())?;
    let places = number_names(alloc, names.as_slice())?;
    let kinds = kinds_of(alloc, locals.as_slice())?;
    Ok(Declared { places, kinds })
}
