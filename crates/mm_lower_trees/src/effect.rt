// The code of an expression whose value is not used.

ghost use Rattle.std.specs.Prelude.{◌≡◌, ◌+◌, ◌^◌, ◌<◌, OnOk};
ghost use Rattle.mm_core.specs.Heads.{type_at};
ghost use Rattle.mm_core.specs.View.{expr_view};
ghost use Rattle.mm_c.specs.declared.tree.CAtom.TheVariants as atom;
ghost use Rattle.mm_c.specs.declared.tree.CExpr.TheVariants as expr;
ghost use Rattle.mm_c.specs.declared.tree.COperator.TheVariants as o;
ghost use Rattle.mm_c.specs.Tree.{◌⨾◌};
ghost use Rattle.mm_c.specs.View.{code_view};
ghost use Rattle.mm_simulate.specs.Lowered as lowered;
ghost use Rattle.mm_simulate.specs.Lowered.{reach};
ghost use Rattle.mm_lower_trees.specs.Named.{text_of};
ghost use Rattle.mm_lower_trees.specs.Scopes.{IsIn, effect_in};

use crate::callee::callee;
use crate::expr::{lower_all, lower_expr};
use crate::name::{Name, plain, word};
use crate::node::{builtin_text, int_name, step_parts};
use crate::scope::Scope;
use crate::write::{set, trap_if};
use mm_c::tree::{CAtom, CCall, CExpr, COperator, CStmt};
use mm_classes::class::Ty;
use mm_core::part::Change;
use mm_core::tree::CoreExpr;
use sqlite_items::Items;
use std::alloc::{AllocError, Global};

// A local of `int` steps, or traps at the end of its range.
fn step_int_only(
    alloc: Global,
    code: &mut Items<CStmt>,
    t: u32,
    local: Name,
    by: COperator,
    end: CAtom,
) -> Result<(), AllocError>
    ensures { OnOk result (code_view code.new ≡ code_view code.old ⨾ (lowered.set (lowered.i_ t) (expr.Binary (atom.Name (text_of local)) o.Equal end) ⨾ lowered.overflow_if (lowered.i_ t) ⨾ lowered.set (text_of local) (expr.Binary (atom.Name (text_of local)) by (lowered.plain 1)))) }
{
    let value = local.atom(alloc)?;
    let test = CExpr::Binary(value, COperator::Equal, end);
    set(alloc, code, int_name(t), test)?;
    trap_if(alloc, code, int_name(t), 1)?;
    let value = local.atom(alloc)?;
    set(alloc, code, local, CExpr::Binary(value, by, plain(1)))
}

// A local steps up or down.
fn step_only(
    alloc: Global,
    scope: &Scope,
    code: &mut Items<CStmt>,
    t: u32,
    local: u32,
    change: Change,
) -> Result<(), AllocError>
    ensures { OnOk result (code_view code.new ≡ code_view code.old ⨾ lowered.step_only t local change (type_at scope.now.locals.now local)) }
{
    let ty = scope.type_at(local);
    let name = Name::Local(local as usize);
    let (by, end) = step_parts(change);
    match &ty {
        Ty::Unsigned => {
            let value = name.atom(alloc)?;
            set(alloc, code, name, CExpr::Binary(value, by, word(1)))
        }
        Ty::Void | Ty::Bool | Ty::Int | Ty::Ptr(_) | Ty::Ref(_) => {
            step_int_only(alloc, code, t, name, by, end)
        }
    }
}

/// The code of an expression, behind the code so far: neither the result of a call nor the old value of a step is kept.
#[tactic(auto, using(mm_c::proofs::Views::code_rules, mm_core::proofs::Views::core_rules))]
pub fn lower_effect(
    alloc: Global,
    scope: &Scope,
    e: &CoreExpr,
    t: u32,
    code: &mut Items<CStmt>,
) -> Result<(), AllocError>
    requires lowered { IsIn scope.now (expr_view e.now) }
    requires few { t + reach (expr_view e.now) < 2 ^ 32 }
    ensures { OnOk result (code_view code.new ≡ code_view code.old ⨾ effect_in scope.now t (expr_view e.now)) }
{
    match e {
        CoreExpr::Call(function, es) => {
            let atoms = lower_all(alloc, scope, es.as_slice(), t, code)?;
            let name = callee(alloc, scope, *function)?;
            code.push(CStmt::Call(CCall::Named(name, atoms)))
        }
        CoreExpr::Builtin(builtin, es) => {
            let atoms = lower_all(alloc, scope, es.as_slice(), t, code)?;
            let name = builtin_text(alloc, *builtin)?;
            code.push(CStmt::Call(CCall::Named(name, atoms)))
        }
        CoreExpr::StepLocal(x, change) => step_only(alloc, scope, code, t, *x, *change),
        CoreExpr::Int(_)
        | CoreExpr::Unsigned(_)
        | CoreExpr::Bool(_)
        | CoreExpr::Null(_)
        | CoreExpr::Local(_)
        | CoreExpr::SetLocal(_, _)
        | CoreExpr::Field(_, _)
        | CoreExpr::SetField(_, _, _)
        | CoreExpr::NotNull(_)
        | CoreExpr::Move(_, _)
        | CoreExpr::Convert(_, _)
        | CoreExpr::Binary(_, _, _)
        | CoreExpr::Not(_)
        | CoreExpr::And(_, _)
        | CoreExpr::Or(_, _)
        | CoreExpr::Choose(_, _, _)
        | CoreExpr::VirtualCall(_, _, _)
        | CoreExpr::OpenCall(_, _)
        | CoreExpr::New(_)
        | CoreExpr::StepField(_, _, _)
        | CoreExpr::Compound(_, _, _, _) => {
            lower_expr(alloc, scope, e, t, code)?;
            Ok(())
        }
    }
}
