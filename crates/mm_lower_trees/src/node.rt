// The code of nodes behind that of their parts. A part's value stands in the temporary of its type's kind and the
// number t; so does the node's.

ghost use Rattle.std.specs.Prelude.{◌≡◌, ◌+◌, ◌^◌, ◌<◌, if◌then◌else◌, map, slice_get, IfOk, OnOk};
ghost use Rattle.mm_classes.specs.declared.class.Ty.TheVariants as type;
ghost use Rattle.mm_core.specs.declared.part.Target.TheVariants as target;
ghost use Rattle.mm_core.specs.Heads.{type_at};
ghost use Rattle.mm_core.specs.Valid as valid;
ghost use Rattle.mm_core.specs.View.{function_view};
ghost use Rattle.mm_c.specs.declared.tree.CAtom.TheVariants as atom;
ghost use Rattle.mm_c.specs.declared.tree.CCall.TheVariants as call;
ghost use Rattle.mm_c.specs.declared.tree.CExpr.TheVariants as expr;
ghost use Rattle.mm_c.specs.declared.tree.COperator.TheVariants as o;
ghost use Rattle.mm_c.specs.Tree as tree;
ghost use Rattle.mm_c.specs.Tree.{◌⨾◌};
ghost use Rattle.mm_c.specs.View.{code_view};
ghost use Rattle.mm_simulate.specs.Lowered as lowered;
ghost use Rattle.mm_lower_trees.specs.Named.{text_of};
ghost use Rattle.mm_lower_trees.specs.Scopes.{named_in};

use crate::callee::callee;
use crate::name::{Name, plain, word};
use crate::operator::{Operands, on_ints, on_words, operator_in_c};
use crate::scope::Scope;
use crate::types::{kind_of, operator_type, type_of_builtin, type_of_target};
use crate::write::{if_or, only_if, set, trap_if};
use mm_base::text::Text;
use mm_base::world::Builtin;
use mm_c::tree::{CAtom, CCall, CExpr, CKind, CNumber, COperator, CStmt};
use mm_classes::class::Ty;
use mm_core::part::{Change, Operator, Target};
use sqlite_items::Items;
use std::alloc::{AllocError, Global};

/// The greatest `int`.
const GREATEST: u32 = 2_147_483_647;

/// The `int` temporary of a number.
pub fn int_name(t: u32) -> Name
    ensures { text_of result ≡ lowered.i_ t }
{
    Name::Temporary(CKind::Int, t)
}

// The `unsigned` temporary of a number.
fn word_name(t: u32) -> Name
    ensures { text_of result ≡ lowered.u_ t }
{
    Name::Temporary(CKind::Unsigned, t)
}

// The temporary of a number for pointers.
fn pointer_name(t: u32) -> Name
    ensures { text_of result ≡ lowered.p_ t }
{
    Name::Temporary(CKind::Pointer, t)
}

/// The temporary for a value of a type.
pub fn name_for(ty: &Ty, t: u32) -> Name
    ensures { text_of result ≡ lowered.of_ ty.now t }
{
    Name::Temporary(kind_of(ty), t)
}

// A number of `int`; no number token of C is negative.
fn int_atom(z: i32) -> CAtom
    ensures { result ≡ lowered.int_atom z }
{
    if z == i32::MIN {
        return CAtom::Least;
    }
    if z < 0 {
        let value = z.unsigned_abs();
        let is_unsigned = false;
        return CAtom::Negative(CNumber { value, is_unsigned });
    }
    plain(z.unsigned_abs())
}

/// A number.
pub fn load_int(alloc: Global, code: &mut Items<CStmt>, t: u32, z: i32) -> Result<Ty, AllocError>
    ensures code { OnOk result (code_view code.new ≡ code_view code.old ⨾ lowered.set (lowered.i_ t) (expr.Atom (lowered.int_atom z))) }
    ensures value { IfOk result (λ found. found ≡ type.Int) }
{
    set(alloc, code, int_name(t), CExpr::Atom(int_atom(z)))?;
    Ok(Ty::Int)
}

/// A number of `unsigned`.
pub fn load_word(alloc: Global, code: &mut Items<CStmt>, t: u32, n: u32) -> Result<Ty, AllocError>
    ensures code { OnOk result (code_view code.new ≡ code_view code.old ⨾ lowered.set (lowered.u_ t) (expr.Atom (lowered.word n))) }
    ensures value { IfOk result (λ found. found ≡ type.Unsigned) }
{
    set(alloc, code, word_name(t), CExpr::Atom(word(n)))?;
    Ok(Ty::Unsigned)
}

/// A `bool`.
pub fn load_bool(alloc: Global, code: &mut Items<CStmt>, t: u32, b: bool) -> Result<Ty, AllocError>
    ensures code { OnOk result (code_view code.new ≡ code_view code.old ⨾ lowered.set (lowered.i_ t) (expr.Atom (lowered.plain (lowered.bit b)))) }
    ensures value { IfOk result (λ found. found ≡ type.Bool) }
{
    let bit = if b { plain(1) } else { plain(0) };
    set(alloc, code, int_name(t), CExpr::Atom(bit))?;
    Ok(Ty::Bool)
}

/// A local's value.
pub fn load_local(
    alloc: Global,
    scope: &Scope,
    code: &mut Items<CStmt>,
    t: u32,
    local: u32,
) -> Result<Ty, AllocError>
    ensures code { OnOk result (code_view code.new ≡ code_view code.old ⨾ lowered.set (lowered.of_ (type_at scope.now.locals.now local) t) (expr.Atom (atom.Name (lowered.v_ local)))) }
    ensures value { IfOk result (λ found. found ≡ type_at scope.now.locals.now local) }
{
    let ty = scope.type_at(local);
    let value = Name::Local(local as usize).atom(alloc)?;
    set(alloc, code, name_for(&ty, t), CExpr::Atom(value))?;
    Ok(ty)
}

/// A local gets a value of a type.
pub fn store_local(
    alloc: Global,
    scope: &Scope,
    code: &mut Items<CStmt>,
    t: u32,
    local: u32,
    ty: &Ty,
) -> Result<Ty, AllocError>
    ensures code { OnOk result (code_view code.new ≡ code_view code.old ⨾ lowered.set (lowered.v_ local) (expr.Atom (atom.Name (lowered.of_ ty.now t)))) }
    ensures value { IfOk result (λ found. found ≡ type_at scope.now.locals.now local) }
{
    let value = name_for(ty, t).atom(alloc)?;
    set(alloc, code, Name::Local(local as usize), CExpr::Atom(value))?;
    Ok(scope.type_at(local))
}

/// A value of a type, converted.
pub fn convert(
    alloc: Global,
    code: &mut Items<CStmt>,
    t: u32,
    target: Target,
    ty: &Ty,
) -> Result<Ty, AllocError>
    ensures code { OnOk result (code_view code.new ≡ code_view code.old ⨾ lowered.conversion t target ty.now) }
    ensures value { IfOk result (λ found. found ≡ valid.type_of_target target) }
{
    match target {
        Target::Bool => {
            let value = name_for(ty, t).atom(alloc)?;
            let test = CExpr::Binary(value, COperator::NotEqual, zero_of(ty));
            set(alloc, code, int_name(t), test)?;
        }
        Target::Int => to_int(alloc, code, t, ty)?,
        Target::Unsigned => {
            let value = int_name(t).text(alloc)?;
            set(alloc, code, word_name(t), CExpr::ToUnsigned(value))?;
        }
    }
    Ok(type_of_target(target))
}

/// The zero of a type, or null, as an operand.
pub fn zero_of(ty: &Ty) -> CAtom
    ensures { result ≡ lowered.zero_atom ty.now }
{
    match ty {
        Ty::Unsigned => word(0),
        Ty::Void | Ty::Bool | Ty::Int | Ty::Ptr(_) | Ty::Ref(_) => plain(0),
    }
}

// A value of a type, converted to `int`.
fn to_int(alloc: Global, code: &mut Items<CStmt>, t: u32, ty: &Ty) -> Result<(), AllocError>
    ensures { OnOk result (code_view code.new ≡ code_view code.old ⨾ lowered.conversion t target.Int ty.now) }
{
    match ty {
        Ty::Unsigned => {
            let value = word_name(t).text(alloc)?;
            set(alloc, code, int_name(t), CExpr::ToInt(value))
        }
        Ty::Void | Ty::Bool | Ty::Int | Ty::Ptr(_) | Ty::Ref(_) => Ok(()),
    }
}

// Two pointers.
fn on_pointers(
    alloc: Global,
    code: &mut Items<CStmt>,
    t: u32,
    operator: Operator,
    to: Name,
) -> Result<(), AllocError>
    requires { t + 1 < 2 ^ 32 }
    ensures { OnOk result (code_view code.new ≡ code_view code.old ⨾ lowered.set (text_of to) (expr.Binary (atom.Name (lowered.p_ t)) (lowered.op_in_c operator) (atom.Name (lowered.p_ (t + 1))))) }
{
    let left = pointer_name(t).atom(alloc)?;
    let right = pointer_name(t + 1).atom(alloc)?;
    set(
        alloc,
        code,
        to,
        CExpr::Binary(left, operator_in_c(operator), right),
    )
}

/// An operator on two operands of a type, in t and the next temporary.
pub fn operate(
    alloc: Global,
    code: &mut Items<CStmt>,
    t: u32,
    operator: Operator,
    ty: &Ty,
) -> Result<Ty, AllocError>
    requires { t + 3 < 2 ^ 32 }
    ensures code { OnOk result (code_view code.new ≡ code_view code.old ⨾ lowered.operator t operator ty.now (if valid.compares operator then type.Bool else ty.now)) }
    ensures value { IfOk result (λ found. found ≡ if valid.compares operator then type.Bool else ty.now) }
{
    let result = operator_type(operator, ty);
    let to = name_for(&result, t);
    match ty {
        Ty::Unsigned => {
            let left = word_name(t);
            let right = word_name(t + 1);
            let test = int_name(t + 1);
            on_words(alloc, code, operator, Operands { left, right, test }, to)?;
        }
        Ty::Ptr(_) | Ty::Ref(_) => on_pointers(alloc, code, t, operator, to)?,
        Ty::Void | Ty::Bool | Ty::Int => {
            let left = int_name(t);
            let right = int_name(t + 1);
            let test = int_name(t + 2);
            on_ints(alloc, code, operator, Operands { left, right, test }, to)?;
        }
    }
    Ok(result)
}

/// The opposite of a `bool`.
pub fn negate(alloc: Global, code: &mut Items<CStmt>, t: u32) -> Result<Ty, AllocError>
    ensures code { OnOk result (code_view code.new ≡ code_view code.old ⨾ lowered.set (lowered.i_ t) (expr.Binary (atom.Name (lowered.i_ t)) o.Equal (lowered.plain 0))) }
    ensures value { IfOk result (λ found. found ≡ type.Bool) }
{
    let value = int_name(t).atom(alloc)?;
    let test = CExpr::Binary(value, COperator::Equal, plain(0));
    set(alloc, code, int_name(t), test)?;
    Ok(Ty::Bool)
}

/// The second of two `bool`s, where the first, in t, is true.
pub fn and_then(
    alloc: Global,
    code: &mut Items<CStmt>,
    t: u32,
    second: Items<CStmt>,
) -> Result<Ty, AllocError>
    ensures code { OnOk result (code_view code.new ≡ code_view code.old ⨾ lowered.only_if (lowered.i_ t) (code_view second)) }
    ensures value { IfOk result (λ found. found ≡ type.Bool) }
{
    only_if(alloc, code, int_name(t), second)?;
    Ok(Ty::Bool)
}

/// The second of two `bool`s, where the first, in t, is false.
pub fn or_else(
    alloc: Global,
    code: &mut Items<CStmt>,
    t: u32,
    second: Items<CStmt>,
) -> Result<Ty, AllocError>
    ensures code { OnOk result (code_view code.new ≡ code_view code.old ⨾ lowered.if_or (lowered.i_ t) tree.done (code_view second)) }
    ensures value { IfOk result (λ found. found ≡ type.Bool) }
{
    let nothing = Items::new(alloc);
    if_or(alloc, code, int_name(t), nothing, second)?;
    Ok(Ty::Bool)
}

// A call, whose result, where it has one, is of a type.
fn call_for(
    alloc: Global,
    code: &mut Items<CStmt>,
    t: u32,
    ty: &Ty,
    call: CCall,
) -> Result<(), AllocError>
    ensures { OnOk result (code_view code.new ≡ code_view code.old ⨾ lowered.called_for t ty.now call) }
{
    match ty {
        Ty::Void => code.push(CStmt::Call(call)),
        Ty::Bool | Ty::Int | Ty::Unsigned | Ty::Ptr(_) | Ty::Ref(_) => {
            set(alloc, code, name_for(ty, t), CExpr::Call(call))
        }
    }
}

/// A call of a function of the program.
pub fn call_function(
    alloc: Global,
    scope: &Scope,
    code: &mut Items<CStmt>,
    t: u32,
    function: u32,
    atoms: Items<CAtom>,
) -> Result<Ty, AllocError>
    ensures code { OnOk result (code_view code.new ≡ code_view code.old ⨾ lowered.called_for t (valid.result_of_function (slice_get (map function_view scope.now.functions.now) function)) (call.Named (named_in scope.now function) atoms)) }
    ensures value { IfOk result (λ found. found ≡ valid.result_of_function (slice_get (map function_view scope.now.functions.now) function)) }
{
    let ty = scope.result_of(function);
    let name = callee(alloc, scope, function)?;
    call_for(alloc, code, t, &ty, CCall::Named(name, atoms))?;
    Ok(ty)
}

/// The name of a built-in function.
pub fn builtin_text(alloc: Global, builtin: Builtin) -> Result<Text, AllocError>
    ensures { IfOk result (λ t. t ≡ lowered.builtin_name builtin) }
{
    match builtin {
        Builtin::Put => Text::from_str(alloc, "mm_put"),
        Builtin::Get => Text::from_str(alloc, "mm_get"),
        Builtin::More => Text::from_str(alloc, "mm_more"),
    }
}

/// A call of a built-in function.
pub fn call_builtin(
    alloc: Global,
    code: &mut Items<CStmt>,
    t: u32,
    builtin: Builtin,
    atoms: Items<CAtom>,
) -> Result<Ty, AllocError>
    ensures code { OnOk result (code_view code.new ≡ code_view code.old ⨾ lowered.called_for t (valid.type_answered builtin) (call.Named (lowered.builtin_name builtin) atoms)) }
    ensures value { IfOk result (λ found. found ≡ valid.type_answered builtin) }
{
    let name = builtin_text(alloc, builtin)?;
    let ty = type_of_builtin(builtin);
    call_for(alloc, code, t, &ty, CCall::Named(name, atoms))?;
    Ok(ty)
}

// A local of `unsigned` steps.
fn step_word(
    alloc: Global,
    code: &mut Items<CStmt>,
    t: u32,
    local: Name,
    by: COperator,
) -> Result<(), AllocError>
    ensures { OnOk result (code_view code.new ≡ code_view code.old ⨾ (lowered.set (lowered.u_ t) (expr.Atom (atom.Name (text_of local))) ⨾ lowered.set (text_of local) (expr.Binary (atom.Name (text_of local)) by (lowered.word 1)))) }
{
    let old = local.atom(alloc)?;
    set(alloc, code, word_name(t), CExpr::Atom(old))?;
    let value = local.atom(alloc)?;
    set(alloc, code, local, CExpr::Binary(value, by, word(1)))
}

// A local of `int` steps, or traps at the end of its range.
fn step_int(
    alloc: Global,
    code: &mut Items<CStmt>,
    t: u32,
    local: Name,
    by: COperator,
    end: CAtom,
) -> Result<(), AllocError>
    requires { t + 1 < 2 ^ 32 }
    ensures { OnOk result (code_view code.new ≡ code_view code.old ⨾ (lowered.set (lowered.i_ t) (expr.Atom (atom.Name (text_of local))) ⨾ lowered.set (lowered.i_ (t + 1)) (expr.Binary (atom.Name (text_of local)) o.Equal end) ⨾ lowered.overflow_if (lowered.i_ (t + 1)) ⨾ lowered.set (text_of local) (expr.Binary (atom.Name (text_of local)) by (lowered.plain 1)))) }
{
    let old = local.atom(alloc)?;
    set(alloc, code, int_name(t), CExpr::Atom(old))?;
    let value = local.atom(alloc)?;
    let test = CExpr::Binary(value, COperator::Equal, end);
    set(alloc, code, int_name(t + 1), test)?;
    trap_if(alloc, code, int_name(t + 1), 1)?;
    let value = local.atom(alloc)?;
    set(alloc, code, local, CExpr::Binary(value, by, plain(1)))
}

/// The operator of a step, and the `int` that can't step.
pub fn step_parts(change: Change) -> (COperator, CAtom)
    ensures operator { result.0 ≡ lowered.change_in_c change }
    ensures end { result.1 ≡ lowered.step_end change }
{
    match change {
        Change::Up => (COperator::Add, plain(GREATEST)),
        Change::Down => (COperator::Subtract, CAtom::Least),
    }
}

/// A local steps up or down; its old value is the node's.
pub fn step_local(
    alloc: Global,
    scope: &Scope,
    code: &mut Items<CStmt>,
    t: u32,
    local: u32,
    change: Change,
) -> Result<Ty, AllocError>
    requires { t + 2 < 2 ^ 32 }
    ensures code { OnOk result (code_view code.new ≡ code_view code.old ⨾ lowered.step_code t local change (type_at scope.now.locals.now local)) }
    ensures value { IfOk result (λ found. found ≡ type_at scope.now.locals.now local) }
{
    let ty = scope.type_at(local);
    let name = Name::Local(local as usize);
    let (by, end) = step_parts(change);
    match &ty {
        Ty::Unsigned => step_word(alloc, code, t, name, by)?,
        Ty::Void | Ty::Bool | Ty::Int | Ty::Ptr(_) | Ty::Ref(_) => {
            step_int(alloc, code, t, name, by, end)?;
        }
    }
    Ok(ty)
}
