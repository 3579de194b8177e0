//! Typed expressions.

use mm_classes::class::Ty;
use mm_core::part::Operator;
use mm_core::tree::CoreExpr;

/// What an expression is beside its type.
#[derive(Clone, Copy, PartialEq, Eq, Debug)]
pub enum Kind {
    /// A value, and no more.
    Value,
    /// The literal `0`, in parentheses or not: the only null pointer constant.
    Zero,
    /// The variable of this number, which may be assigned.
    Local(u32),
}

/// A checked expression, its type and its kind.
#[derive(Drop)]
pub struct TypedExpr {
    pub core: CoreExpr,
    pub ty: Ty,
    pub kind: Kind,
}

/// What an operator between two operands does.
#[derive(Clone, Copy, PartialEq, Eq, Debug)]
pub enum Operation {
    And,
    Or,
    /// Of arithmetic operands, after they are converted to one type.
    Two(Operator),
}

/// What an operator that assigns does.
#[derive(Clone, Copy, PartialEq, Eq, Debug)]
pub enum Assignment {
    Set,
    /// The operator on the old value and the right side.
    Change(Operator),
}
