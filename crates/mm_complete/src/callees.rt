// The functions that bodies call.

ghost use Rattle.std.specs.Prelude.{◌≡◌, ◌++◌, OnOk, map};
ghost use Rattle.mm_core.specs.View.{expr_view, exprs_view, stmt_view, stmts_view, body_view, function_view};
ghost use Rattle.mm_complete.specs.Callees.{callees, all_callees, stmt_callees, stmts_callees, body_callees, called_by};

use mm_core::tree::{CoreExpr, CoreFn, CoreStmt};
use sqlite_items::Items;
use std::alloc::AllocError;

#[cycle(expr)]
#[tactic(auto, using(mm_core::proofs::Views::core_rules, crate::proofs::Walks::list_rules))]
fn add_expr(e: &CoreExpr, list: &mut Items<u32>) -> Result<(), AllocError>
    ensures { OnOk result (list.new ≡ list.old ++ callees (expr_view e.now)) }
{
    match e {
        CoreExpr::Int(_)
        | CoreExpr::Unsigned(_)
        | CoreExpr::Bool(_)
        | CoreExpr::Null(_)
        | CoreExpr::Local(_)
        | CoreExpr::New(_)
        | CoreExpr::StepLocal(_, _) => Ok(()),
        CoreExpr::SetLocal(_, e)
        | CoreExpr::Field(_, e)
        | CoreExpr::NotNull(e)
        | CoreExpr::Move(_, e)
        | CoreExpr::Convert(_, e)
        | CoreExpr::Not(e)
        | CoreExpr::StepField(_, _, e) => add_expr(e.get(), list),
        CoreExpr::SetField(_, d, e)
        | CoreExpr::Binary(_, d, e)
        | CoreExpr::And(d, e)
        | CoreExpr::Or(d, e)
        | CoreExpr::Compound(_, _, d, e) => {
            add_expr(d.get(), list)?;
            add_expr(e.get(), list)
        }
        CoreExpr::Choose(c, d, e) => {
            add_expr(c.get(), list)?;
            add_expr(d.get(), list)?;
            add_expr(e.get(), list)
        }
        CoreExpr::Call(f, es) | CoreExpr::OpenCall(f, es) => {
            list.push(*f)?;
            add_exprs(es.as_slice(), list)
        }
        CoreExpr::VirtualCall(_, e, es) => {
            add_expr(e.get(), list)?;
            add_exprs(es.as_slice(), list)
        }
        CoreExpr::Builtin(_, es) => add_exprs(es.as_slice(), list),
    }
}

#[cycle(expr)]
fn add_exprs(es: &[CoreExpr], list: &mut Items<u32>) -> Result<(), AllocError>
    ensures { OnOk result (list.new ≡ list.old ++ all_callees (exprs_view es.now)) }
{
    for e in es {
        add_expr(e, list)?;
    }
    Ok(())
}

#[cycle(stmt)]
#[tactic(auto, using(mm_core::proofs::Views::core_rules, crate::proofs::Walks::list_rules))]
fn add_stmt(s: &CoreStmt, list: &mut Items<u32>) -> Result<(), AllocError>
    ensures { OnOk result (list.new ≡ list.old ++ stmt_callees (stmt_view s.now)) }
{
    match s {
        CoreStmt::Block(ss) => add_stmts(ss.as_slice(), list),
        CoreStmt::Do(e) => add_expr(e, list),
        CoreStmt::If(e, ss, ts) => {
            add_expr(e, list)?;
            add_stmts(ss.as_slice(), list)?;
            add_stmts(ts.as_slice(), list)
        }
        CoreStmt::While(e, ss) => {
            add_expr(e, list)?;
            add_stmts(ss.as_slice(), list)
        }
        CoreStmt::DoWhile(ss, e) => {
            add_stmts(ss.as_slice(), list)?;
            add_expr(e, list)
        }
        CoreStmt::For(e, s, ss) => {
            add_expr(e, list)?;
            add_stmt(s.get(), list)?;
            add_stmts(ss.as_slice(), list)
        }
        CoreStmt::Break | CoreStmt::Continue | CoreStmt::Make(_) => Ok(()),
        CoreStmt::Return(Some(e)) => add_expr(e, list),
        CoreStmt::Return(None) => Ok(()),
    }
}

#[cycle(stmt)]
fn add_stmts(ss: &[CoreStmt], list: &mut Items<u32>) -> Result<(), AllocError>
    ensures { OnOk result (list.new ≡ list.old ++ stmts_callees (stmts_view ss.now)) }
{
    for s in ss {
        add_stmt(s, list)?;
    }
    Ok(())
}

fn add_body(body: &Option<CoreStmt>, list: &mut Items<u32>) -> Result<(), AllocError>
    ensures { OnOk result (list.new ≡ list.old ++ body_callees (body_view body.now)) }
{
    match body {
        Some(s) => add_stmt(s, list),
        None => Ok(()),
    }
}

/// The functions that any of these call, one for each call.
pub fn add_called(functions: &[CoreFn], list: &mut Items<u32>) -> Result<(), AllocError>
    ensures { OnOk result (list.new ≡ list.old ++ called_by (map function_view functions.now)) }
{
    for function in functions {
        add_body(&function.body, list)?;
    }
    Ok(())
}
