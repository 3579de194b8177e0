// Questions to types.

ghost use Rattle.std.specs.Prelude.{◌≡◌, if◌then◌else◌};
ghost use Rattle.mm_classes.specs.declared.class.Ty.TheVariants as ty;
ghost use Rattle.mm_core.specs.Heads as heads;
ghost use Rattle.mm_core.specs.Valid as valid;
ghost use Rattle.mm_agree.specs.Agree as agree;

use mm_base::world::Builtin;
use mm_c::tree::CKind;
use mm_classes::class::Ty;
use mm_core::part::{Operator, Target};

/// The kind of the names that hold a type's values.
pub fn kind_of(ty: &Ty) -> CKind
    ensures { result ≡ agree.kind_of ty.now }
{
    match ty {
        Ty::Void | Ty::Bool | Ty::Int => CKind::Int,
        Ty::Unsigned => CKind::Unsigned,
        Ty::Ptr(_) | Ty::Ref(_) => CKind::Pointer,
    }
}

/// The pointer type in place of a reference.
pub fn as_pointer(ty: &Ty) -> Ty
    ensures { result ≡ valid.as_pointer ty.now }
{
    match ty {
        Ty::Ref(class) => Ty::Ptr(*class),
        Ty::Void | Ty::Bool | Ty::Int | Ty::Unsigned | Ty::Ptr(_) => *ty,
    }
}

/// The number of a type: no two types have one.
fn type_code(ty: &Ty) -> u64
    ensures { result ≡ heads.type_code ty.now }
{
    match ty {
        Ty::Void => 0,
        Ty::Bool => 1,
        Ty::Int => 2,
        Ty::Unsigned => 3,
        Ty::Ptr(class) => u64::from(class.number) * 2 + 4,
        Ty::Ref(class) => u64::from(class.number) * 2 + 5,
    }
}

/// Whether two types are one.
pub fn is_same(left: &Ty, right: &Ty) -> bool
    ensures { result ≡ heads.same_type left.now right.now }
{
    type_code(left) == type_code(right)
}

/// The type of a choice between two values.
pub fn branch_type(first: &Ty, second: &Ty) -> Ty
    ensures { result ≡ if heads.same_type first.now second.now then first.now else valid.as_pointer first.now }
{
    if is_same(first, second) {
        *first
    } else {
        as_pointer(first)
    }
}

/// Whether the value of an operator is a `bool`.
pub fn compares(operator: Operator) -> bool
    ensures { result ≡ valid.compares operator }
{
    match operator {
        Operator::Add
        | Operator::Subtract
        | Operator::Multiply
        | Operator::Divide
        | Operator::Remainder => false,
        Operator::Less
        | Operator::Greater
        | Operator::LessEqual
        | Operator::GreaterEqual
        | Operator::Equal
        | Operator::NotEqual => true,
    }
}

/// The type of an operator's value, by that of its operands.
pub fn operator_type(operator: Operator, operand: &Ty) -> Ty
    ensures { result ≡ if valid.compares operator then ty.Bool else operand.now }
{
    if compares(operator) {
        Ty::Bool
    } else {
        *operand
    }
}

/// The type that a conversion gives.
pub fn type_of_target(target: Target) -> Ty
    ensures { result ≡ valid.type_of_target target }
{
    match target {
        Target::Bool => Ty::Bool,
        Target::Int => Ty::Int,
        Target::Unsigned => Ty::Unsigned,
    }
}

/// The type of what a built-in function gives.
pub fn type_of_builtin(builtin: Builtin) -> Ty
    ensures { result ≡ valid.type_answered builtin }
{
    match builtin {
        Builtin::Put => Ty::Void,
        Builtin::Get | Builtin::More => Ty::Int,
    }
}
