//! Arguments and their conversions.

use mm_classes::class::Ty;

/// An argument of a call, as far as its conversions ask.
#[derive(Clone, Copy, PartialEq, Eq, Debug)]
pub struct Arg {
    /// Its type; that of a class lvalue is the reference to the class.
    pub ty: Ty,
    /// It is the literal `0`, in parentheses or not.
    pub zero: bool,
    /// It is an lvalue.
    pub lvalue: bool,
}

/// How good a conversion is, the best first.
#[derive(Clone, Copy, PartialEq, Eq, Debug)]
pub enum Rank {
    Exact,
    Promotion,
    Conversion,
}

/// The conversion of an argument to the type of a parameter.
#[derive(Clone, Copy, PartialEq, Eq, Debug)]
pub struct Conv {
    pub rank: Rank,
    pub from: Ty,
    pub to: Ty,
}

/// How one conversion stands to another.
#[derive(Clone, Copy, PartialEq, Eq, Debug)]
pub enum Order {
    Better,
    Worse,
    Neither,
}
