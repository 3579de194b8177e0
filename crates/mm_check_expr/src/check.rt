//! The parts of an expression in order, then the node itself.

ghost use Rattle.std.specs.Prelude.{◌≡◌};
ghost use Rattle.mm_core.specs.View.{expr_view as core_view};
ghost use Rattle.mm_syntax.specs.View.{expr_view, exprs_view};
ghost use Rattle.mm_syntax.specs.Tree.{unary, step, binary, choose, assign, call};
ghost use Rattle.mm_checks.specs.Checks.{Gives, Answers};
ghost use Rattle.mm_check_expr.specs.Demands.{no_function};
ghost use Rattle.mm_typing.specs.Typed.{typed_view, typeds_view};
ghost use Rattle.mm_typing.specs.Calls.{callee};
ghost use Rattle.mm_typing.specs.Judge.{judge, judge_all, judge_as};
ghost use Rattle.mm_typing.specs.Typing.{Types, Faults, TypesAs, FaultsAs};
ghost use Rattle.mm_check_expr.specs.Callee.{callee_view, name_in};

use crate::calls::{Callee, find_callee, make_call, make_name};
use crate::convert::{as_type, refuse};
use crate::nodes::{
    make_assign, make_boolean, make_choose, make_number, make_operation, make_step, make_unary,
};
use crate::operators::{assignment, operation};
use mm_base::code::Code;
use mm_base::place::Place;
use mm_checks::CheckEnd;
use mm_classes::class::Ty;
use mm_core::tree::CoreExpr;
use mm_scopes::env::Env;
use mm_syntax::expr::{Expr, ExprKind};
use mm_syntax::name::{AssignOperator, BinaryOperator, StepOperator, UnaryOperator};
use mm_typing::typed::TypedExpr;
use sqlite_items::Items;
use std::alloc::Global;

#[cycle(check)]
fn check(alloc: Global, env: &Env, e: &Expr) -> Result<TypedExpr, CheckEnd>
    ensures { Gives typed_view result (judge env.now (expr_view e.now)) }
{
    match &e.kind {
        ExprKind::Number(n) => Ok(make_number(n)),
        ExprKind::True => Ok(make_boolean(true)),
        ExprKind::False => Ok(make_boolean(false)),
        ExprKind::Name(text) => make_name(alloc, env, e.place, text.as_str()),
        ExprKind::Unary(op, a) => check_unary(alloc, env, *op, e.place, a.get()),
        ExprKind::Step(a, op, at) => check_step(alloc, env, a.get(), *op, *at),
        ExprKind::Binary(a, op, at, b) => check_binary(alloc, env, a.get(), *op, *at, b.get()),
        ExprKind::Choose(c, at, a, b) => check_choose(alloc, env, c.get(), *at, a.get(), b.get()),
        ExprKind::Assign(a, op, at, b) => check_assign(alloc, env, a.get(), *op, *at, b.get()),
        ExprKind::Call(f, es) => check_call(alloc, env, f.get(), es.as_slice()),
        ExprKind::This => refuse(alloc, Code::N0, e.place, ""),
        ExprKind::Scoped(_, _) => refuse(alloc, Code::N0, e.place, ""),
        ExprKind::Cast(_, _) => refuse(alloc, Code::N0, e.place, ""),
        ExprKind::New(_) => refuse(alloc, Code::N0, e.place, ""),
        ExprKind::Make(_, _) => refuse(alloc, Code::N0, e.place, ""),
        ExprKind::Member(_, _, _, _, _) => refuse(alloc, Code::N0, e.place, ""),
    }
}

#[cycle(check)]
fn check_unary(
    alloc: Global,
    env: &Env,
    op: UnaryOperator,
    place: Place,
    a: &Expr,
) -> Result<TypedExpr, CheckEnd>
    ensures { Gives typed_view result (judge env.now (unary place op (expr_view a.now))) }
{
    let x = check(alloc, env, a)?;
    make_unary(alloc, op, place, a, x)
}

#[cycle(check)]
fn check_step(
    alloc: Global,
    env: &Env,
    a: &Expr,
    op: StepOperator,
    at: Place,
) -> Result<TypedExpr, CheckEnd>
    ensures { Gives typed_view result (judge env.now (step at (expr_view a.now) op at)) }
{
    let x = check(alloc, env, a)?;
    make_step(alloc, op, at, x)
}

#[cycle(check)]
fn check_binary(
    alloc: Global,
    env: &Env,
    a: &Expr,
    op: BinaryOperator,
    at: Place,
    b: &Expr,
) -> Result<TypedExpr, CheckEnd>
    ensures { Gives typed_view result (judge env.now (binary at (expr_view a.now) op at (expr_view b.now))) }
{
    let left = check(alloc, env, a)?;
    let right = check(alloc, env, b)?;
    make_operation(alloc, operation(op), at, op.spelling(), a, b, left, right)
}

#[cycle(check)]
fn check_choose(
    alloc: Global,
    env: &Env,
    c: &Expr,
    at: Place,
    a: &Expr,
    b: &Expr,
) -> Result<TypedExpr, CheckEnd>
    ensures { Gives typed_view result (judge env.now (choose at (expr_view c.now) at (expr_view a.now) (expr_view b.now))) }
{
    let d = check(alloc, env, c)?;
    let x = check(alloc, env, a)?;
    let y = check(alloc, env, b)?;
    make_choose(alloc, at, c, d, x, y)
}

#[cycle(check)]
fn check_assign(
    alloc: Global,
    env: &Env,
    a: &Expr,
    op: AssignOperator,
    at: Place,
    b: &Expr,
) -> Result<TypedExpr, CheckEnd>
    ensures { Gives typed_view result (judge env.now (assign at (expr_view a.now) op at (expr_view b.now))) }
{
    let x = check(alloc, env, a)?;
    let y = check(alloc, env, b)?;
    make_assign(alloc, assignment(op), at, op.spelling(), b, x, y)
}

#[cycle(check)]
fn check_call(alloc: Global, env: &Env, f: &Expr, es: &[Expr]) -> Result<TypedExpr, CheckEnd>
    ensures { Gives typed_view result (judge env.now (call f.now.place (expr_view f.now) (exprs_view es.now))) }
{
    let callee = check_callee(alloc, env, f)?;
    let args = check_all(alloc, env, es)?;
    make_call(alloc, env, f, callee, args)
}

// What stands before the parentheses of a call.
#[cycle(check)]
fn check_callee(alloc: Global, env: &Env, e: &Expr) -> Result<Callee, CheckEnd>
    ensures { Gives (callee_view env.now (name_in (expr_view e.now))) result (callee env.now (expr_view e.now) (judge env.now (expr_view e.now))) }
{
    match &e.kind {
        ExprKind::Name(text) => find_callee(alloc, env, e.place, text.as_str()),
        _ => check_no_function(alloc, env, e),
    }
}

// The same, where it is no name.
#[cycle(check)]
fn check_no_function(alloc: Global, env: &Env, e: &Expr) -> Result<Callee, CheckEnd>
    ensures { Gives (callee_view env.now (name_in (expr_view e.now))) result (no_function (judge env.now (expr_view e.now))) }
{
    let _value = check(alloc, env, e)?;
    Ok(Callee::NoFunction)
}

#[cycle(check)]
fn check_all(alloc: Global, env: &Env, es: &[Expr]) -> Result<Items<TypedExpr>, CheckEnd>
    ensures { Gives typeds_view result (judge_all env.now (exprs_view es.now)) }
{
    let mut args = Items::new(alloc);
    for e in es {
        args.push(check(alloc, env, e)?)?;
    }
    Ok(args)
}

/// The checked expression with its type, or the first fault.
pub fn check_expr(alloc: Global, env: &Env, e: &Expr) -> Result<TypedExpr, CheckEnd>
    ensures is { Gives typed_view result (judge env.now (expr_view e.now)) }
    ensures answers { Answers typed_view (Types env.now (expr_view e.now)) (Faults env.now (expr_view e.now)) result }
{
    check(alloc, env, e)
}

fn check_to(alloc: Global, env: &Env, to: Ty, e: &Expr) -> Result<CoreExpr, CheckEnd>
    ensures { Gives core_view result (judge_as env.now to (expr_view e.now)) }
{
    let x = check(alloc, env, e)?;
    as_type(alloc, to, e, x)
}

/// The checked expression, converted to a type, or the first fault. That of a condition is `bool`.
pub fn check_as(alloc: Global, env: &Env, to: Ty, e: &Expr) -> Result<CoreExpr, CheckEnd>
    ensures is { Gives core_view result (judge_as env.now to (expr_view e.now)) }
    ensures answers { Answers core_view (TypesAs env.now to (expr_view e.now)) (FaultsAs env.now to (expr_view e.now)) result }
{
    check_to(alloc, env, to, e)
}
