// The code of expressions: the value goes to the temporary of its type's kind and the number t. Only temporaries from
// t on change, of as many numbers as the tree reaches.

ghost use Rattle.std.specs.Prelude.{◌≡◌, ◌+◌, ◌^◌, ◌<◌, IfOk, OnOk};
ghost use Rattle.mm_core.specs.View.{expr_view, exprs_view};
ghost use Rattle.mm_c.specs.Tree.{◌⨾◌};
ghost use Rattle.mm_c.specs.View.{code_view};
ghost use Rattle.mm_simulate.specs.Lowered.{reach, reach_all};
ghost use Rattle.mm_lower_trees.specs.Scopes.{IsIn, AreIn, type_in, code_in, all_in, atoms_in};

use crate::node::{
    and_then, call_builtin, call_function, convert, int_name, load_bool, load_int, load_local,
    load_word, name_for, negate, operate, or_else, step_local, store_local,
};
use crate::scope::Scope;
use crate::types::branch_type;
use crate::write::if_or;
use mm_c::tree::{CAtom, CStmt};
use mm_classes::class::Ty;
use mm_core::tree::CoreExpr;
use sqlite_items::Items;
use std::alloc::{AllocError, Global};

/// The code of an expression, behind the code so far; answers its type.
#[cycle(expr)]
#[tactic(auto, using(mm_c::proofs::Views::code_rules, mm_core::proofs::Views::core_rules))]
pub fn lower_expr(
    alloc: Global,
    scope: &Scope,
    e: &CoreExpr,
    t: u32,
    code: &mut Items<CStmt>,
) -> Result<Ty, AllocError>
    requires lowered { IsIn scope.now (expr_view e.now) }
    requires few { t + reach (expr_view e.now) < 2 ^ 32 }
    ensures code { OnOk result (code_view code.new ≡ code_view code.old ⨾ code_in scope.now t (expr_view e.now)) }
    ensures value { IfOk result (λ found. found ≡ type_in scope.now (expr_view e.now)) }
{
    match e {
        CoreExpr::Int(z) => load_int(alloc, code, t, *z),
        CoreExpr::Unsigned(n) => load_word(alloc, code, t, *n),
        CoreExpr::Bool(b) => load_bool(alloc, code, t, *b),
        CoreExpr::Local(x) => load_local(alloc, scope, code, t, *x),
        CoreExpr::SetLocal(x, e) => {
            let ty = lower_expr(alloc, scope, e.get(), t, code)?;
            store_local(alloc, scope, code, t, *x, &ty)
        }
        CoreExpr::Convert(target, e) => {
            let ty = lower_expr(alloc, scope, e.get(), t, code)?;
            convert(alloc, code, t, *target, &ty)
        }
        CoreExpr::Binary(operator, left, right) => {
            let ty = lower_expr(alloc, scope, left.get(), t, code)?;
            lower_expr(alloc, scope, right.get(), t + 1, code)?;
            operate(alloc, code, t, *operator, &ty)
        }
        CoreExpr::Not(e) => {
            lower_expr(alloc, scope, e.get(), t, code)?;
            negate(alloc, code, t)
        }
        CoreExpr::And(left, right) => {
            lower_expr(alloc, scope, left.get(), t, code)?;
            let mut rest = Items::new(alloc);
            lower_expr(alloc, scope, right.get(), t, &mut rest)?;
            and_then(alloc, code, t, rest)
        }
        CoreExpr::Or(left, right) => {
            lower_expr(alloc, scope, left.get(), t, code)?;
            let mut rest = Items::new(alloc);
            lower_expr(alloc, scope, right.get(), t, &mut rest)?;
            or_else(alloc, code, t, rest)
        }
        CoreExpr::Choose(test, first, second) => {
            lower_expr(alloc, scope, test.get(), t, code)?;
            let mut one = Items::new(alloc);
            let ty = lower_expr(alloc, scope, first.get(), t, &mut one)?;
            let mut other = Items::new(alloc);
            let other_ty = lower_expr(alloc, scope, second.get(), t, &mut other)?;
            if_or(alloc, code, int_name(t), one, other)?;
            Ok(branch_type(&ty, &other_ty))
        }
        CoreExpr::Call(function, es) => {
            let atoms = lower_all(alloc, scope, es.as_slice(), t, code)?;
            call_function(alloc, scope, code, t, *function, atoms)
        }
        CoreExpr::Builtin(builtin, es) => {
            let atoms = lower_all(alloc, scope, es.as_slice(), t, code)?;
            call_builtin(alloc, code, t, *builtin, atoms)
        }
        CoreExpr::StepLocal(x, change) => step_local(alloc, scope, code, t, *x, *change),
        CoreExpr::Null(_)
        | CoreExpr::Field(_, _)
        | CoreExpr::SetField(_, _, _)
        | CoreExpr::NotNull(_)
        | CoreExpr::Move(_, _)
        | CoreExpr::VirtualCall(_, _, _)
        | CoreExpr::OpenCall(_, _)
        | CoreExpr::New(_)
        | CoreExpr::StepField(_, _, _)
        | CoreExpr::Compound(_, _, _, _) => unreachable!(),
    }
}

/// The code of arguments, whose values go to t and the temporaries after it; answers those.
#[cycle(expr)]
pub fn lower_all(
    alloc: Global,
    scope: &Scope,
    es: &[CoreExpr],
    t: u32,
    code: &mut Items<CStmt>,
) -> Result<Items<CAtom>, AllocError>
    requires lowered { AreIn scope.now (exprs_view es.now) }
    requires few { t + reach_all (exprs_view es.now) < 2 ^ 32 }
    ensures code { OnOk result (code_view code.new ≡ code_view code.old ⨾ all_in scope.now t (exprs_view es.now)) }
    ensures atoms { IfOk result (λ atoms. atoms ≡ atoms_in scope.now t (exprs_view es.now)) }
{
    let mut atoms = Items::new(alloc);
    let mut at = t;
    for e in es {
        let ty = lower_expr(alloc, scope, e, at, code)?;
        atoms.push(name_for(&ty, at).atom(alloc)?)?;
        at += 1;
    }
    Ok(atoms)
}
