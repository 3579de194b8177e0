//! Types of operands and results.

ghost use Rattle.std.specs.Prelude.{◌≡◌};
ghost use Rattle.mm_core.specs.Heads.{same_type, type_code};
ghost use Rattle.mm_core.specs.Valid.{is_arithmetic, is_number};
ghost use Rattle.mm_typing.specs.Conversions.{is_unsigned_type, is_void, common, joined, converts};
ghost use Rattle.mm_typing.specs.Operators.{promoted, result_of, are_branches};

use crate::operators::is_comparison;
use mm_classes::class::Ty;
use mm_core::part::Operator;

pub(crate) fn is_arithmetic_type(ty: &Ty) -> bool
    ensures { result ≡ is_arithmetic ty.now }
{
    matches!(ty, Ty::Bool | Ty::Int | Ty::Unsigned)
}

pub(crate) fn is_number_type(ty: &Ty) -> bool
    ensures { result ≡ is_number ty.now }
{
    matches!(ty, Ty::Int | Ty::Unsigned)
}

fn is_unsigned(ty: &Ty) -> bool
    ensures { result ≡ is_unsigned_type ty.now }
{
    matches!(ty, Ty::Unsigned)
}

fn is_void_type(ty: &Ty) -> bool
    ensures { result ≡ is_void ty.now }
{
    matches!(ty, Ty::Void)
}

fn code(ty: &Ty) -> u64
    ensures { result ≡ type_code ty.now }
{
    match ty {
        Ty::Void => 0,
        Ty::Bool => 1,
        Ty::Int => 2,
        Ty::Unsigned => 3,
        Ty::Ptr(class) => class.number as u64 * 2 + 4,
        Ty::Ref(class) => class.number as u64 * 2 + 5,
    }
}

pub(crate) fn is_same(a: &Ty, b: &Ty) -> bool
    ensures { result ≡ same_type a.now b.now }
{
    code(a) == code(b)
}

pub(crate) fn common_type(a: &Ty, b: &Ty) -> Ty
    ensures { result ≡ common a.now b.now }
{
    if is_unsigned(a) || is_unsigned(b) {
        Ty::Unsigned
    } else {
        Ty::Int
    }
}

pub(crate) fn result_type(op: Operator, a: &Ty, b: &Ty) -> Ty
    ensures { result ≡ result_of op a.now b.now }
{
    if is_comparison(op) {
        Ty::Bool
    } else {
        common_type(a, b)
    }
}

pub(crate) fn promoted_type(a: &Ty) -> Ty
    ensures { result ≡ promoted a.now }
{
    common_type(a, a)
}

pub(crate) fn joined_type(a: &Ty, b: &Ty) -> Ty
    ensures { result ≡ joined a.now b.now }
{
    if is_same(a, b) { *a } else { common_type(a, b) }
}

pub(crate) fn is_convertible(from: &Ty, to: &Ty) -> bool
    ensures { result ≡ converts from.now to.now }
{
    is_arithmetic_type(from) && is_arithmetic_type(to)
}

pub(crate) fn are_branch_types(a: &Ty, b: &Ty) -> bool
    ensures { result ≡ are_branches a.now b.now }
{
    (is_arithmetic_type(a) && is_arithmetic_type(b)) || (is_void_type(a) && is_void_type(b))
}
