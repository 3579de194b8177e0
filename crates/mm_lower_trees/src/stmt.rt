// The code of statements. Temporaries from t on are free.

ghost use Rattle.std.specs.Prelude.{◌≡◌, ◌+◌, ◌^◌, ◌<◌, suc, max, IfOk, OnOk};
ghost use Rattle.mm_core.specs.Tree.{while_do};
ghost use Rattle.mm_core.specs.View.{expr_view, stmt_view, stmts_view, returns};
ghost use Rattle.mm_c.specs.declared.tree.CExpr.TheVariants as expr;
ghost use Rattle.mm_c.specs.Tree as tree;
ghost use Rattle.mm_c.specs.Tree.{◌⨾◌};
ghost use Rattle.mm_c.specs.View.{code_view};
ghost use Rattle.mm_simulate.specs.Lowered as lowered;
ghost use Rattle.mm_simulate.specs.Lowered.{reach, reach_stmt, reach_stmts};
ghost use Rattle.mm_lower_trees.specs.Named.{text_of};
ghost use Rattle.mm_lower_trees.specs.Scopes.{IsIn, StmtIsIn, StmtsAreIn, code_in, stmt_in, stmts_in, for_in};
ghost use Rattle.mm_lower_trees.specs.Steps as steps;

use crate::effect::lower_effect;
use crate::expr::lower_expr;
use crate::name::{Name, plain};
use crate::node::{int_name, name_for};
use crate::scope::Scope;
use crate::write::{block, if_or, only_if, set};
use mm_c::tree::{CExpr, CStmt};
use mm_core::tree::{CoreExpr, CoreStmt};
use sqlite_items::Items;
use std::alloc::{AllocError, Global};

// The loop is left where the name holds 0.
fn break_unless(alloc: Global, code: &mut Items<CStmt>, test: Name) -> Result<(), AllocError>
    ensures { OnOk result (code_view code.new ≡ code_view code.old ⨾ lowered.break_unless (text_of test)) }
{
    let nothing = Items::new(alloc);
    let mut leave = Items::new(alloc);
    leave.push(CStmt::Break)?;
    if_or(alloc, code, test, nothing, leave)
}

// A loop whose turns are this code.
fn forever(alloc: Global, code: &mut Items<CStmt>, turn: Items<CStmt>) -> Result<(), AllocError>
    ensures { OnOk result (code_view code.new ≡ code_view code.old ⨾ tree.just (tree.forever (lowered.block_of (code_view turn)))) }
{
    code.push(CStmt::While(block(alloc, turn)))
}

// The beginning of a turn: what stands there but in the first one, and then the temporary t is 1.
fn turn_after(alloc: Global, t: u32, before: Items<CStmt>) -> Result<Items<CStmt>, AllocError>
    ensures { IfOk result (λ turn. code_view turn ≡ lowered.only_if (lowered.i_ t) (code_view before) ⨾ lowered.set (lowered.i_ t) (expr.Atom (lowered.plain 1))) }
{
    let mut turn = Items::new(alloc);
    only_if(alloc, &mut turn, int_name(t), before)?;
    set(alloc, &mut turn, int_name(t), CExpr::Atom(plain(1)))?;
    Ok(turn)
}

// A loop whose turns are this code, in the first of which the temporary t is 0.
fn forever_from(
    alloc: Global,
    code: &mut Items<CStmt>,
    t: u32,
    turn: Items<CStmt>,
) -> Result<(), AllocError>
    ensures { OnOk result (code_view code.new ≡ code_view code.old ⨾ (lowered.set (lowered.i_ t) (expr.Atom (lowered.plain 0)) ⨾ tree.just (tree.forever (lowered.block_of (code_view turn))))) }
{
    set(alloc, code, int_name(t), CExpr::Atom(plain(0)))?;
    forever(alloc, code, turn)
}

// A condition, where a loop is left that doesn't hold it.
fn lower_test(
    alloc: Global,
    scope: &Scope,
    e: &CoreExpr,
    t: u32,
    code: &mut Items<CStmt>,
) -> Result<(), AllocError>
    requires lowered { IsIn scope.now (expr_view e.now) }
    requires few { t + reach (expr_view e.now) < 2 ^ 32 }
    ensures { OnOk result (code_view code.new ≡ code_view code.old ⨾ (code_in scope.now t (expr_view e.now) ⨾ lowered.break_unless (lowered.i_ t))) }
{
    lower_expr(alloc, scope, e, t, code)?;
    break_unless(alloc, code, int_name(t))
}

// A `return`.
fn lower_return(
    alloc: Global,
    scope: &Scope,
    value: &Option<CoreExpr>,
    t: u32,
    code: &mut Items<CStmt>,
) -> Result<(), AllocError>
    requires lowered { StmtIsIn scope.now (returns value.now) }
    requires few { t + reach_stmt (returns value.now) < 2 ^ 32 }
    ensures { OnOk result (code_view code.new ≡ code_view code.old ⨾ stmt_in scope.now t (returns value.now)) }
{
    match value {
        None => code.push(CStmt::Return),
        Some(e) => {
            let ty = lower_expr(alloc, scope, e, t, code)?;
            let result = name_for(&ty, t).atom(alloc)?;
            code.push(CStmt::ReturnValue(result))
        }
    }
}

// Whether a step is an empty block.
#[tactic(auto, using(mm_core::proofs::Views::core_rules))]
fn is_nothing(step: &CoreStmt) -> bool
    ensures { result ≡ steps.is_nothing (stmt_view step.now) }
{
    match step {
        CoreStmt::Block(ss) => ss.as_slice().first().is_none(),
        CoreStmt::Do(_)
        | CoreStmt::If(_, _, _)
        | CoreStmt::While(_, _)
        | CoreStmt::DoWhile(_, _)
        | CoreStmt::For(_, _, _)
        | CoreStmt::Break
        | CoreStmt::Continue
        | CoreStmt::Return(_)
        | CoreStmt::Make(_) => false,
    }
}

// Whether a step is an expression, which can't end the turn.
#[tactic(auto, using(mm_core::proofs::Views::core_rules))]
fn is_run(step: &CoreStmt) -> bool
    ensures { result ≡ steps.is_run (stmt_view step.now) }
{
    match step {
        CoreStmt::Do(_) => true,
        CoreStmt::Block(_)
        | CoreStmt::If(_, _, _)
        | CoreStmt::While(_, _)
        | CoreStmt::DoWhile(_, _)
        | CoreStmt::For(_, _, _)
        | CoreStmt::Break
        | CoreStmt::Continue
        | CoreStmt::Return(_)
        | CoreStmt::Make(_) => false,
    }
}

// What stands before a step's code: a step that may end the turn leaves none due for the next.
fn before_step(alloc: Global, step: &CoreStmt, t: u32) -> Result<Items<CStmt>, AllocError>
    ensures { IfOk result (λ code. code_view code ≡ lowered.step_in t (stmt_view step.now) tree.done) }
{
    let mut code = Items::new(alloc);
    if !is_run(step) {
        set(alloc, &mut code, int_name(t), CExpr::Atom(plain(0)))?;
    }
    Ok(code)
}

/// The code of a statement, behind the code so far.
#[cycle(stmt)]
#[tactic(auto, using(mm_c::proofs::Views::code_rules, mm_core::proofs::Views::core_rules))]
pub fn lower_stmt(
    alloc: Global,
    scope: &Scope,
    s: &CoreStmt,
    t: u32,
    code: &mut Items<CStmt>,
) -> Result<(), AllocError>
    requires lowered { StmtIsIn scope.now (stmt_view s.now) }
    requires few { t + reach_stmt (stmt_view s.now) < 2 ^ 32 }
    ensures { OnOk result (code_view code.new ≡ code_view code.old ⨾ stmt_in scope.now t (stmt_view s.now)) }
{
    match s {
        CoreStmt::Block(ss) => lower_stmts(alloc, scope, ss.as_slice(), t, code),
        CoreStmt::Do(e) => lower_effect(alloc, scope, e, t, code),
        CoreStmt::If(e, first, second) => {
            lower_expr(alloc, scope, e, t, code)?;
            let mut one = Items::new(alloc);
            lower_stmts(alloc, scope, first.as_slice(), t, &mut one)?;
            let mut other = Items::new(alloc);
            lower_stmts(alloc, scope, second.as_slice(), t, &mut other)?;
            if_or(alloc, code, int_name(t), one, other)
        }
        CoreStmt::While(e, ss) => lower_while(alloc, scope, e, ss.as_slice(), t, code),
        CoreStmt::DoWhile(ss, e) => {
            let mut before = Items::new(alloc);
            lower_test(alloc, scope, e, t + 1, &mut before)?;
            let mut turn = turn_after(alloc, t, before)?;
            lower_stmts(alloc, scope, ss.as_slice(), t + 1, &mut turn)?;
            forever_from(alloc, code, t, turn)
        }
        CoreStmt::For(e, step, ss) => {
            if is_nothing(step.get()) {
                lower_while(alloc, scope, e, ss.as_slice(), t, code)
            } else {
                lower_for(alloc, scope, e, step.get(), ss.as_slice(), t, code)
            }
        }
        CoreStmt::Break => code.push(CStmt::Break),
        CoreStmt::Continue => code.push(CStmt::Continue),
        CoreStmt::Return(value) => lower_return(alloc, scope, value, t, code),
        CoreStmt::Make(_) => unreachable!(),
    }
}

// A `while`.
#[cycle(stmt)]
fn lower_while(
    alloc: Global,
    scope: &Scope,
    e: &CoreExpr,
    ss: &[CoreStmt],
    t: u32,
    code: &mut Items<CStmt>,
) -> Result<(), AllocError>
    requires lowered { IsIn scope.now (expr_view e.now) × StmtsAreIn scope.now (stmts_view ss.now) }
    requires few { t + max (reach (expr_view e.now)) (reach_stmts (stmts_view ss.now)) < 2 ^ 32 }
    ensures { OnOk result (code_view code.new ≡ code_view code.old ⨾ stmt_in scope.now t (while_do (expr_view e.now) (stmts_view ss.now))) }
{
    let mut turn = Items::new(alloc);
    lower_test(alloc, scope, e, t, &mut turn)?;
    lower_stmts(alloc, scope, ss, t, &mut turn)?;
    forever(alloc, code, turn)
}

// A `for` with a step.
#[cycle(stmt)]
fn lower_for(
    alloc: Global,
    scope: &Scope,
    e: &CoreExpr,
    step: &CoreStmt,
    ss: &[CoreStmt],
    t: u32,
    code: &mut Items<CStmt>,
) -> Result<(), AllocError>
    requires lowered { IsIn scope.now (expr_view e.now) × StmtIsIn scope.now (stmt_view step.now) × StmtsAreIn scope.now (stmts_view ss.now) }
    requires few { t + suc (max (reach (expr_view e.now)) (max (reach_stmt (stmt_view step.now)) (reach_stmts (stmts_view ss.now)))) < 2 ^ 32 }
    ensures { OnOk result (code_view code.new ≡ code_view code.old ⨾ for_in scope.now t (expr_view e.now) (stmt_view step.now) (stmts_view ss.now)) }
{
    let mut before = before_step(alloc, step, t)?;
    lower_stmt(alloc, scope, step, t + 1, &mut before)?;
    let mut turn = turn_after(alloc, t, before)?;
    lower_test(alloc, scope, e, t + 1, &mut turn)?;
    lower_stmts(alloc, scope, ss, t + 1, &mut turn)?;
    forever_from(alloc, code, t, turn)
}

// The code of statements, one after another.
#[cycle(stmt)]
fn lower_stmts(
    alloc: Global,
    scope: &Scope,
    ss: &[CoreStmt],
    t: u32,
    code: &mut Items<CStmt>,
) -> Result<(), AllocError>
    requires lowered { StmtsAreIn scope.now (stmts_view ss.now) }
    requires few { t + reach_stmts (stmts_view ss.now) < 2 ^ 32 }
    ensures { OnOk result (code_view code.new ≡ code_view code.old ⨾ stmts_in scope.now t (stmts_view ss.now)) }
{
    for s in ss {
        lower_stmt(alloc, scope, s, t, code)?;
    }
    Ok(())
}
