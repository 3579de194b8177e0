//! What each node makes of its typed operands, or its own fault.

ghost use Rattle.std.specs.Prelude.{◌≡◌, ◌&&◌, Ok};
ghost use Rattle.mm_base.specs.Num.{to_int};
ghost use Rattle.mm_core.specs.View.{expr_view as core_view};
ghost use Rattle.mm_core.specs.Tree.{bool};
ghost use Rattle.mm_syntax.specs.View.{expr_view};
ghost use Rattle.mm_checks.specs.Checks.{Gives, at};
ghost use Rattle.mm_check_expr.specs.Demands.{demanded, both_demanded, place_demanded};
ghost use Rattle.mm_base.specs.declared.code.TheConstants.Code.{S12};
ghost use Rattle.mm_typing.specs.Typed.{typed, typed_view, number_typed};
ghost use Rattle.mm_core.specs.Valid.{is_arithmetic, is_number};
ghost use Rattle.mm_typing.specs.Conversions.{converts, unconverted};
ghost use Rattle.mm_typing.specs.Operators.{wrong_unary, wrong_choice, are_branches, operated, plus, minus, negated, both_of, either_of, chosen, set, changed, stepped, one, zero_of, place_in, own_change, own_unary, own_step, own_operation, own_choose, own_assign};

use crate::convert::{convert, convert_boxed, need_converts, refuse};
use crate::operators::change;
use crate::types::{
    are_branch_types, common_type, is_arithmetic_type, is_number_type, joined_type, promoted_type,
    result_type,
};
use mm_base::code::Code;
use mm_base::place::Place;
use mm_checks::{CheckEnd, need};
use mm_classes::class::Ty;
use mm_core::part::{Change, Operator};
use mm_core::tree::CoreExpr;
use mm_syntax::expr::Expr;
use mm_syntax::name::{Number, StepOperator, UnaryOperator};
use mm_typing::typed::{Assignment, Kind, Operation, TypedExpr};
use sqlite_items::Boxed;
use std::alloc::Global;

// ---- leaves

// The `int` that is congruent modulo 2^32.
fn signed(value: u32) -> i32
    ensures { result ≡ to_int value }
{
    if value < 0x8000_0000 {
        value as i32
    } else {
        -((0xffff_ffff - value) as i32) - 1
    }
}

fn value(core: CoreExpr, ty: Ty) -> TypedExpr
    ensures { result ≡ record { core = core; ty = ty; kind = Kind.Value } }
{
    TypedExpr {
        core,
        ty,
        kind: Kind::Value,
    }
}

pub(crate) fn make_number(n: &Number) -> TypedExpr
    ensures { typed_view result ≡ number_typed n.now }
{
    if n.has_suffix() {
        return value(CoreExpr::Unsigned(n.value), Ty::Unsigned);
    }
    let kind = if n.value == 0 {
        Kind::Zero
    } else {
        Kind::Value
    };
    TypedExpr {
        core: CoreExpr::Int(signed(n.value)),
        ty: Ty::Int,
        kind,
    }
}

pub(crate) fn make_boolean(b: bool) -> TypedExpr
    ensures { typed_view result ≡ typed (bool b) Ty.Bool }
{
    value(CoreExpr::Bool(b), Ty::Bool)
}

// ---- what operators make

fn operate(alloc: Global, op: Operator, x: TypedExpr, y: TypedExpr) -> Result<TypedExpr, CheckEnd>
    ensures { Gives typed_view result (Ok (operated op (typed_view x) (typed_view y))) }
{
    let to = common_type(&x.ty, &y.ty);
    let ty = result_type(op, &x.ty, &y.ty);
    let left = convert_boxed(alloc, x, &to)?;
    let right = convert_boxed(alloc, y, &to)?;
    Ok(value(CoreExpr::Binary(op, left, right), ty))
}

fn make_plus(alloc: Global, x: TypedExpr) -> Result<TypedExpr, CheckEnd>
    ensures { Gives typed_view result (Ok (plus (typed_view x))) }
{
    let ty = promoted_type(&x.ty);
    let core = convert(alloc, x, &ty)?;
    Ok(value(core, ty))
}

fn zero(ty: &Ty) -> CoreExpr
    ensures { core_view result ≡ zero_of ty.now }
{
    match ty {
        Ty::Unsigned => CoreExpr::Unsigned(0),
        _ => CoreExpr::Int(0),
    }
}

fn make_minus(alloc: Global, x: TypedExpr) -> Result<TypedExpr, CheckEnd>
    ensures { Gives typed_view result (Ok (minus (typed_view x))) }
{
    let ty = promoted_type(&x.ty);
    let zero = zero(&ty);
    operate(alloc, Operator::Subtract, value(zero, ty), x)
}

fn make_not(alloc: Global, x: TypedExpr) -> Result<TypedExpr, CheckEnd>
    ensures { Gives typed_view result (Ok (negated (typed_view x))) }
{
    let test = convert_boxed(alloc, x, &Ty::Bool)?;
    Ok(value(CoreExpr::Not(test), Ty::Bool))
}

fn make_both(alloc: Global, x: TypedExpr, y: TypedExpr) -> Result<TypedExpr, CheckEnd>
    ensures { Gives typed_view result (Ok (both_of (typed_view x) (typed_view y))) }
{
    let left = convert_boxed(alloc, x, &Ty::Bool)?;
    let right = convert_boxed(alloc, y, &Ty::Bool)?;
    Ok(value(CoreExpr::And(left, right), Ty::Bool))
}

fn make_either(alloc: Global, x: TypedExpr, y: TypedExpr) -> Result<TypedExpr, CheckEnd>
    ensures { Gives typed_view result (Ok (either_of (typed_view x) (typed_view y))) }
{
    let left = convert_boxed(alloc, x, &Ty::Bool)?;
    let right = convert_boxed(alloc, y, &Ty::Bool)?;
    Ok(value(CoreExpr::Or(left, right), Ty::Bool))
}

fn make_chosen(
    alloc: Global,
    c: TypedExpr,
    x: TypedExpr,
    y: TypedExpr,
) -> Result<TypedExpr, CheckEnd>
    ensures { Gives typed_view result (Ok (chosen (typed_view c) (typed_view x) (typed_view y))) }
{
    let ty = joined_type(&x.ty, &y.ty);
    let test = convert_boxed(alloc, c, &Ty::Bool)?;
    let left = convert_boxed(alloc, x, &ty)?;
    let right = convert_boxed(alloc, y, &ty)?;
    Ok(value(CoreExpr::Choose(test, left, right), ty))
}

fn make_set(alloc: Global, local: u32, ty: &Ty, y: TypedExpr) -> Result<TypedExpr, CheckEnd>
    ensures { Gives typed_view result (Ok (set local ty.now (typed_view y))) }
{
    let core = convert_boxed(alloc, y, ty)?;
    Ok(value(CoreExpr::SetLocal(local, core), *ty))
}

fn make_changed(
    alloc: Global,
    op: Operator,
    local: u32,
    ty: &Ty,
    y: TypedExpr,
) -> Result<TypedExpr, CheckEnd>
    ensures { Gives typed_view result (Ok (changed op local ty.now (typed_view y))) }
{
    let old = value(CoreExpr::Local(local), *ty);
    let new = operate(alloc, op, old, y)?;
    make_set(alloc, local, ty, new)
}

fn make_stepped(by: Change, local: u32, ty: &Ty) -> TypedExpr
    ensures { typed_view result ≡ stepped by local ty.now }
{
    value(CoreExpr::StepLocal(local, by), *ty)
}

fn make_one() -> TypedExpr
    ensures { typed_view result ≡ one }
{
    value(CoreExpr::Int(1), Ty::Int)
}

// ---- their checks

// The number of the variable that an expression is.
fn need_place(alloc: Global, x: &TypedExpr, place: Place, text: &str) -> Result<u32, CheckEnd>
    ensures { Gives (λ l. l) result (place_in (typed_view x.now) (at S12 place text.now)) }
{
    match &x.kind {
        Kind::Local(local) => Ok(*local),
        Kind::Value | Kind::Zero => {
            need(alloc, false, Code::S12, place, text)?;
            Ok(0)
        }
    }
}

// The number of the variable, which has a type that operators change, and what changes it is arithmetic.
fn need_change(
    alloc: Global,
    place: Place,
    text: &str,
    x: &TypedExpr,
    y: &Ty,
) -> Result<u32, CheckEnd>
    ensures { Gives (λ l. l) result (place_demanded (place_in (typed_view x.now) (at S12 place text.now)) (is_number x.now.ty && is_arithmetic y.now) (at S12 place text.now)) }
{
    let local = need_place(alloc, x, place, text)?;
    let fits = is_number_type(&x.ty) && is_arithmetic_type(y);
    need(alloc, fits, Code::S12, place, text)?;
    Ok(local)
}

fn make_change(
    alloc: Global,
    op: Operator,
    place: Place,
    text: &str,
    x: TypedExpr,
    y: TypedExpr,
) -> Result<TypedExpr, CheckEnd>
    ensures { Gives typed_view result (own_change op (at S12 place text.now) (typed_view x) (typed_view y)) }
{
    let local = need_change(alloc, place, text, &x, &y.ty)?;
    make_changed(alloc, op, local, &x.ty, y)
}

fn need_plus(alloc: Global, place: Place, x: TypedExpr) -> Result<TypedExpr, CheckEnd>
    ensures { Gives typed_view result (demanded (is_arithmetic x.ty) (wrong_unary UnaryOperator.Plus place) (plus (typed_view x))) }
{
    need(alloc, is_arithmetic_type(&x.ty), Code::S12, place, "+")?;
    make_plus(alloc, x)
}

fn need_minus(alloc: Global, place: Place, x: TypedExpr) -> Result<TypedExpr, CheckEnd>
    ensures { Gives typed_view result (demanded (is_arithmetic x.ty) (wrong_unary UnaryOperator.Minus place) (minus (typed_view x))) }
{
    need(alloc, is_arithmetic_type(&x.ty), Code::S12, place, "-")?;
    make_minus(alloc, x)
}

fn need_not(alloc: Global, a: &Expr, x: TypedExpr) -> Result<TypedExpr, CheckEnd>
    ensures { Gives typed_view result (demanded (converts x.ty Ty.Bool) (unconverted (expr_view a.now)) (negated (typed_view x))) }
{
    need_converts(alloc, &x.ty, &Ty::Bool, a)?;
    make_not(alloc, x)
}

pub(crate) fn make_unary(
    alloc: Global,
    op: UnaryOperator,
    place: Place,
    a: &Expr,
    x: TypedExpr,
) -> Result<TypedExpr, CheckEnd>
    ensures { Gives typed_view result (own_unary op place (expr_view a.now) (typed_view x)) }
{
    match op {
        UnaryOperator::Plus => need_plus(alloc, place, x),
        UnaryOperator::Minus => need_minus(alloc, place, x),
        UnaryOperator::Not => need_not(alloc, a, x),
        UnaryOperator::Indirection => refuse(alloc, Code::N0, place, ""),
        UnaryOperator::AddressOf => refuse(alloc, Code::N0, place, ""),
        UnaryOperator::Increment => make_change(alloc, Operator::Add, place, "++", x, make_one()),
        UnaryOperator::Decrement => {
            make_change(alloc, Operator::Subtract, place, "--", x, make_one())
        }
    }
}

pub(crate) fn make_step(
    alloc: Global,
    op: StepOperator,
    place: Place,
    x: TypedExpr,
) -> Result<TypedExpr, CheckEnd>
    ensures { Gives typed_view result (own_step op place (typed_view x)) }
{
    let local = need_place(alloc, &x, place, op.spelling())?;
    need(
        alloc,
        is_number_type(&x.ty),
        Code::S12,
        place,
        op.spelling(),
    )?;
    Ok(make_stepped(change(op), local, &x.ty))
}

// Both operands of `&&` or `||`.
fn need_tests(alloc: Global, a: &Expr, b: &Expr, x: &Ty, y: &Ty) -> Result<(), CheckEnd>
    ensures { Gives (λ u. u) result (both_demanded (converts x.now Ty.Bool) (unconverted (expr_view a.now)) (converts y.now Ty.Bool) (unconverted (expr_view b.now))) }
{
    need_converts(alloc, x, &Ty::Bool, a)?;
    need_converts(alloc, y, &Ty::Bool, b)
}

fn need_both(
    alloc: Global,
    a: &Expr,
    b: &Expr,
    x: TypedExpr,
    y: TypedExpr,
) -> Result<TypedExpr, CheckEnd>
    ensures { Gives typed_view result (own_operation Operation.And (unconverted (expr_view a.now)) (expr_view a.now) (expr_view b.now) (typed_view x) (typed_view y)) }
{
    need_tests(alloc, a, b, &x.ty, &y.ty)?;
    make_both(alloc, x, y)
}

fn need_either(
    alloc: Global,
    a: &Expr,
    b: &Expr,
    x: TypedExpr,
    y: TypedExpr,
) -> Result<TypedExpr, CheckEnd>
    ensures { Gives typed_view result (own_operation Operation.Or (unconverted (expr_view a.now)) (expr_view a.now) (expr_view b.now) (typed_view x) (typed_view y)) }
{
    need_tests(alloc, a, b, &x.ty, &y.ty)?;
    make_either(alloc, x, y)
}

fn need_operands(
    alloc: Global,
    op: Operator,
    place: Place,
    text: &str,
    x: TypedExpr,
    y: TypedExpr,
) -> Result<TypedExpr, CheckEnd>
    ensures { Gives typed_view result (demanded (is_arithmetic x.ty && is_arithmetic y.ty) (at S12 place text.now) (operated op (typed_view x) (typed_view y))) }
{
    let fits = is_arithmetic_type(&x.ty) && is_arithmetic_type(&y.ty);
    need(alloc, fits, Code::S12, place, text)?;
    operate(alloc, op, x, y)
}

pub(crate) fn make_operation(
    alloc: Global,
    op: Operation,
    place: Place,
    text: &str,
    a: &Expr,
    b: &Expr,
    x: TypedExpr,
    y: TypedExpr,
) -> Result<TypedExpr, CheckEnd>
    ensures { Gives typed_view result (own_operation op (at S12 place text.now) (expr_view a.now) (expr_view b.now) (typed_view x) (typed_view y)) }
{
    match op {
        Operation::And => need_both(alloc, a, b, x, y),
        Operation::Or => need_either(alloc, a, b, x, y),
        Operation::Two(op) => need_operands(alloc, op, place, text, x, y),
    }
}

fn need_choice(
    alloc: Global,
    place: Place,
    c: &Expr,
    d: &Ty,
    x: &Ty,
    y: &Ty,
) -> Result<(), CheckEnd>
    ensures { Gives (λ u. u) result (both_demanded (converts d.now Ty.Bool) (unconverted (expr_view c.now)) (are_branches x.now y.now) (wrong_choice place)) }
{
    need_converts(alloc, d, &Ty::Bool, c)?;
    need(alloc, are_branch_types(x, y), Code::S12, place, "?")
}

pub(crate) fn make_choose(
    alloc: Global,
    place: Place,
    c: &Expr,
    d: TypedExpr,
    x: TypedExpr,
    y: TypedExpr,
) -> Result<TypedExpr, CheckEnd>
    ensures { Gives typed_view result (own_choose place (expr_view c.now) (typed_view d) (typed_view x) (typed_view y)) }
{
    need_choice(alloc, place, c, &d.ty, &x.ty, &y.ty)?;
    make_chosen(alloc, d, x, y)
}

// The number of the variable, to whose type the value converts.
fn need_set(
    alloc: Global,
    place: Place,
    text: &str,
    b: &Expr,
    x: &TypedExpr,
    y: &Ty,
) -> Result<u32, CheckEnd>
    ensures { Gives (λ l. l) result (place_demanded (place_in (typed_view x.now) (at S12 place text.now)) (converts y.now x.now.ty) (unconverted (expr_view b.now))) }
{
    let local = need_place(alloc, x, place, text)?;
    need_converts(alloc, y, &x.ty, b)?;
    Ok(local)
}

fn make_assigned(
    alloc: Global,
    place: Place,
    text: &str,
    b: &Expr,
    x: TypedExpr,
    y: TypedExpr,
) -> Result<TypedExpr, CheckEnd>
    ensures { Gives typed_view result (own_assign Assignment.Set (at S12 place text.now) (expr_view b.now) (typed_view x) (typed_view y)) }
{
    let local = need_set(alloc, place, text, b, &x, &y.ty)?;
    make_set(alloc, local, &x.ty, y)
}

pub(crate) fn make_assign(
    alloc: Global,
    op: Assignment,
    place: Place,
    text: &str,
    b: &Expr,
    x: TypedExpr,
    y: TypedExpr,
) -> Result<TypedExpr, CheckEnd>
    ensures { Gives typed_view result (own_assign op (at S12 place text.now) (expr_view b.now) (typed_view x) (typed_view y)) }
{
    match op {
        Assignment::Set => make_assigned(alloc, place, text, b, x, y),
        Assignment::Change(op) => make_change(alloc, op, place, text, x, y),
    }
}
