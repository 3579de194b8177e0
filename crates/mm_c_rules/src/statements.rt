// Statements, and what stands inside them.

ghost use Rattle.std.specs.Prelude.{◌≡◌, ◌∷◌, [], not, OnOk, IfOk};
ghost use Rattle.mm_c.specs.View.{stmt_view, block_view, code_view};
ghost use Rattle.mm_c.specs.WellFormed.{kind_in, assign_fits, is_tag, stored_fits, returned_fits, stmt_fits, stmt_breaks, block_breaks, code_breaks};
ghost use Rattle.mm_c_rules.specs.Scopes.{here_at, here_view};
ghost use Rattle.mm_c_rules.specs.Keeps.{keeps, left_of};
ghost use Rattle.mm_c_rules.specs.Places.{inner};

use crate::here::{Here, Place};
use crate::operands::{address_fits, fits};
use crate::right::{call_fits, right_fits};
use mm_base::text::Text;
use mm_c::tree::{CAtom, CBlock, CExpr, CKind, CStmt};
use mm_c::value::CCell;
use mm_c_names::names::result_number;
use mm_c_names::scope::Scope;
use std::alloc::AllocError;

fn assign_fits(here: &Here<'_, '_>, name: &Text, right: &CExpr) -> bool
    ensures { result ≡ assign_fits (here_view here.now) (kind_in here.now.scope.now name.now) right.now }
{
    match here.scope.kind_in(name) {
        Some(kind) => right_fits(here, kind, right),
        None => false,
    }
}

fn is_tag(atom: &CAtom) -> bool
    ensures { result ≡ is_tag atom.now }
{
    match atom {
        CAtom::Name(_) => false,
        CAtom::Number(number) => number.value < 65536,
        CAtom::Negative(_) => false,
        CAtom::Least => false,
    }
}

fn stored_fits(here: &Here<'_, '_>, cell: CCell, atom: &CAtom) -> bool
    ensures { result ≡ stored_fits (here_view here.now) cell atom.now }
{
    match cell {
        CCell::Int => fits(here, CKind::Int, atom),
        CCell::Unsigned => fits(here, CKind::Unsigned, atom),
        CCell::Short => is_tag(atom),
        CCell::Pointer => fits(here, CKind::Pointer, atom),
    }
}

fn returned_fits(here: &Here<'_, '_>, atom: &CAtom) -> bool
    ensures { result ≡ returned_fits (here_view here.now) here.now.place.result atom.now }
{
    match here.place.result {
        Some(kind) => fits(here, kind, atom),
        None => false,
    }
}

// a statement by itself
#[tactic(auto, using(crate::proofs::Rules::view_rules))]
fn stmt_fits(stmt: &CStmt, here: &Here<'_, '_>) -> bool
    ensures { result ≡ stmt_fits (here_view here.now) (stmt_view stmt.now) }
{
    match stmt {
        CStmt::Assign(name, right) => assign_fits(here, name, right),
        CStmt::Store(cell, address, atom) => {
            address_fits(here, address) && stored_fits(here, *cell, atom)
        }
        CStmt::Call(call) => call_fits(here, call),
        CStmt::If(atom, _) => fits(here, CKind::Int, atom),
        CStmt::IfElse(atom, _, _) => fits(here, CKind::Int, atom),
        CStmt::While(_) => !here.place.inside_inline,
        CStmt::Break => here.place.in_loop,
        CStmt::Continue => here.place.in_loop,
        CStmt::Return => result_number(here.place.result) == 0,
        CStmt::ReturnValue(atom) => returned_fits(here, atom),
    }
}

/// Counts one that keeps its rule off what is left.
pub fn counted(keeps_it: bool, left: &mut usize) -> bool
    ensures keeps { result ≡ keeps_it }
    ensures left { left.new ≡ left_of left.old (not keeps_it ∷ []) }
{
    if keeps_it {
        *left = left.saturating_sub(1);
    }
    keeps_it
}

/// Whether a statement and those inside it keep the rules. One is taken off `left` for each that
/// stands before the first that doesn't.
#[cycle(stmt_keeps)]
pub fn stmt_keeps<'a>(
    stmt: &'a CStmt,
    place: &Place<'_, 'a>,
    scope: &mut Scope<'a>,
    left: &mut usize,
) -> Result<bool, AllocError>
    ensures keeps { IfOk result (λ b. b ≡ keeps (stmt_breaks (here_at place.now scope.old) (stmt_view stmt.now))) }
    ensures left { OnOk result (left.new ≡ left_of left.old (stmt_breaks (here_at place.now scope.old) (stmt_view stmt.now))) }
    ensures scope { OnOk result (scope.new ≡ scope.old) }
{
    let here = Here {
        place: *place,
        scope: &*scope,
    };
    if !counted(stmt_fits(stmt, &here), left) {
        return Ok(false);
    }
    inner_keeps(stmt, place, scope, left)
}

// the statements inside a statement
#[cycle(stmt_keeps)]
fn inner_keeps<'a>(
    stmt: &'a CStmt,
    place: &Place<'_, 'a>,
    scope: &mut Scope<'a>,
    left: &mut usize,
) -> Result<bool, AllocError>
    ensures keeps { IfOk result (λ b. b ≡ keeps (inner (here_at place.now scope.old) (stmt_view stmt.now))) }
    ensures left { OnOk result (left.new ≡ left_of left.old (inner (here_at place.now scope.old) (stmt_view stmt.now))) }
    ensures scope { OnOk result (scope.new ≡ scope.old) }
{
    match stmt {
        CStmt::Assign(_, _) => Ok(true),
        CStmt::Store(_, _, _) => Ok(true),
        CStmt::Call(_) => Ok(true),
        CStmt::If(_, block) => block_keeps(block, place, scope, left),
        CStmt::IfElse(_, block, other) => {
            if !block_keeps(block, place, scope, left)? {
                return Ok(false);
            }
            block_keeps(other, place, scope, left)
        }
        CStmt::While(block) => {
            let inside = Place {
                in_loop: true,
                ..*place
            };
            block_keeps(block, &inside, scope, left)
        }
        CStmt::Break => Ok(true),
        CStmt::Continue => Ok(true),
        CStmt::Return => Ok(true),
        CStmt::ReturnValue(_) => Ok(true),
    }
}

/// The same of a block.
#[cycle(stmt_keeps)]
pub fn block_keeps<'a>(
    block: &'a CBlock,
    place: &Place<'_, 'a>,
    scope: &mut Scope<'a>,
    left: &mut usize,
) -> Result<bool, AllocError>
    ensures keeps { IfOk result (λ b. b ≡ keeps (block_breaks (here_at place.now scope.old) (block_view block.now))) }
    ensures left { OnOk result (left.new ≡ left_of left.old (block_breaks (here_at place.now scope.old) (block_view block.now))) }
    ensures scope { OnOk result (scope.new ≡ scope.old) }
{
    let locals = block.locals.as_slice();
    scope.enter(locals)?;
    let keeps = code_keeps(block.body.as_slice(), place, scope, left)?;
    scope.leave(locals.len())?;
    Ok(keeps)
}

#[cycle(stmt_keeps)]
fn code_keeps<'a>(
    stmts: &'a [CStmt],
    place: &Place<'_, 'a>,
    scope: &mut Scope<'a>,
    left: &mut usize,
) -> Result<bool, AllocError>
    ensures keeps { IfOk result (λ b. b ≡ keeps (code_breaks (here_at place.now scope.old) (code_view stmts.now))) }
    ensures left { OnOk result (left.new ≡ left_of left.old (code_breaks (here_at place.now scope.old) (code_view stmts.now))) }
    ensures scope { OnOk result (scope.new ≡ scope.old) }
{
    for stmt in stmts {
        if !stmt_keeps(stmt, place, scope, left)? {
            return Ok(false);
        }
    }
    Ok(true)
}
