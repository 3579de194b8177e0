// The code of operators, with the tests before those that may trap. No operation of the code is stuck.

ghost use Rattle.std.specs.Prelude.{◌≡◌, IfOk, OnOk};
ghost use Rattle.mm_c.specs.declared.tree.CAtom.TheVariants as atom;
ghost use Rattle.mm_c.specs.declared.tree.CExpr.TheVariants as expr;
ghost use Rattle.mm_c.specs.declared.tree.COperator.TheVariants as o;
ghost use Rattle.mm_c.specs.Tree.{◌⨾◌};
ghost use Rattle.mm_c.specs.View.{code_view};
ghost use Rattle.mm_simulate.specs.Lowered as lowered;
ghost use Rattle.mm_lower_trees.specs.Named.{text_of};

use crate::name::{Name, plain, word};
use crate::write::{if_or, only_if, set, trap_if};
use mm_c::tree::{CAtom, CExpr, CNumber, COperator, CStmt};
use mm_core::part::Operator;
use sqlite_items::Items;
use std::alloc::{AllocError, Global};

/// The greatest `int`.
const GREATEST: u32 = 2_147_483_647;

/// Where the operands of an operator stand, and a name that is free for tests.
#[derive(Clone, Copy, Debug, PartialEq, Eq)]
pub struct Operands {
    pub left: Name,
    pub right: Name,
    pub test: Name,
}

fn minus_one() -> CAtom
    ensures { result ≡ lowered.minus_one }
{
    CAtom::Negative(CNumber {
        value: 1,
        is_unsigned: false,
    })
}

// A name gets the value of an operator.
fn compute(
    alloc: Global,
    code: &mut Items<CStmt>,
    to: Name,
    left: CAtom,
    by: COperator,
    right: CAtom,
) -> Result<(), AllocError>
    ensures { OnOk result (code_view code.new ≡ code_view code.old ⨾ lowered.set (text_of to) (expr.Binary left by right)) }
{
    set(alloc, code, to, CExpr::Binary(left, by, right))
}

// Whether one name's number is less than another's, after the test got a bound by the right operand.
fn bound_by(
    alloc: Global,
    at: Operands,
    bound: CAtom,
    by: COperator,
    low: Name,
    high: Name,
) -> Result<Items<CStmt>, AllocError>
    ensures { IfOk result (λ code. code_view code ≡ lowered.test_by (text_of at.test) bound by (atom.Name (text_of at.right)) (atom.Name (text_of low)) (atom.Name (text_of high))) }
{
    let mut code = Items::new(alloc);
    compute(alloc, &mut code, at.test, bound, by, at.right.atom(alloc)?)?;
    let low = low.atom(alloc)?;
    let high = high.atom(alloc)?;
    compute(alloc, &mut code, at.test, low, COperator::Less, high)?;
    Ok(code)
}

// Whether the sum is no `int`.
fn sum_test(alloc: Global, code: &mut Items<CStmt>, at: Operands) -> Result<(), AllocError>
    ensures { OnOk result (code_view code.new ≡ code_view code.old ⨾ lowered.sum_test (text_of at.left) (text_of at.right) (text_of at.test)) }
{
    let right = at.right.atom(alloc)?;
    compute(alloc, code, at.test, right, COperator::Less, plain(0))?;
    let least = CAtom::Least;
    let low = bound_by(alloc, at, least, COperator::Subtract, at.left, at.test)?;
    let greatest = plain(GREATEST);
    let high = bound_by(alloc, at, greatest, COperator::Subtract, at.test, at.left)?;
    if_or(alloc, code, at.test, low, high)
}

// Whether the difference is no `int`.
fn difference_test(alloc: Global, code: &mut Items<CStmt>, at: Operands) -> Result<(), AllocError>
    ensures { OnOk result (code_view code.new ≡ code_view code.old ⨾ lowered.difference_test (text_of at.left) (text_of at.right) (text_of at.test)) }
{
    let right = at.right.atom(alloc)?;
    compute(alloc, code, at.test, right, COperator::Less, plain(0))?;
    let greatest = plain(GREATEST);
    let high = bound_by(alloc, at, greatest, COperator::Add, at.test, at.left)?;
    let least = CAtom::Least;
    let low = bound_by(alloc, at, least, COperator::Add, at.left, at.test)?;
    if_or(alloc, code, at.test, high, low)
}

// Whether the left operand is past the quotient of a bound by the right one: of the first where it is above 0, else
// of the second.
fn bound_test(
    alloc: Global,
    code: &mut Items<CStmt>,
    at: Operands,
    above: CAtom,
    below: CAtom,
) -> Result<(), AllocError>
    ensures { OnOk result (code_view code.new ≡ code_view code.old ⨾ lowered.bound_test (text_of at.left) (text_of at.right) (text_of at.test) above below) }
{
    let left = at.left.atom(alloc)?;
    compute(alloc, code, at.test, plain(0), COperator::Less, left)?;
    let high = bound_by(alloc, at, above, COperator::Divide, at.test, at.left)?;
    let low = bound_by(alloc, at, below, COperator::Divide, at.left, at.test)?;
    if_or(alloc, code, at.test, high, low)
}

// Whether the left operand is the least `int` and the right one -1.
fn minus_test(alloc: Global, code: &mut Items<CStmt>, at: Operands) -> Result<(), AllocError>
    ensures { OnOk result (code_view code.new ≡ code_view code.old ⨾ lowered.minus_test (text_of at.left) (text_of at.right) (text_of at.test)) }
{
    let right = at.right.atom(alloc)?;
    compute(alloc, code, at.test, right, COperator::Equal, minus_one())?;
    let mut branch = Items::new(alloc);
    let left = at.left.atom(alloc)?;
    compute(
        alloc,
        &mut branch,
        at.test,
        left,
        COperator::Equal,
        CAtom::Least,
    )?;
    only_if(alloc, code, at.test, branch)
}

// Whether the product is no `int`, where the right operand isn't above 0.
fn low_test(alloc: Global, code: &mut Items<CStmt>, at: Operands) -> Result<(), AllocError>
    ensures { OnOk result (code_view code.new ≡ code_view code.old ⨾ lowered.low_test (text_of at.left) (text_of at.right) (text_of at.test)) }
{
    let right = at.right.atom(alloc)?;
    compute(alloc, code, at.test, right, COperator::Less, minus_one())?;
    let mut below = Items::new(alloc);
    bound_test(alloc, &mut below, at, CAtom::Least, plain(GREATEST))?;
    let mut minus = Items::new(alloc);
    minus_test(alloc, &mut minus, at)?;
    if_or(alloc, code, at.test, below, minus)
}

// Whether the product is no `int`.
fn product_test(alloc: Global, code: &mut Items<CStmt>, at: Operands) -> Result<(), AllocError>
    ensures { OnOk result (code_view code.new ≡ code_view code.old ⨾ lowered.product_test (text_of at.left) (text_of at.right) (text_of at.test)) }
{
    let right = at.right.atom(alloc)?;
    compute(alloc, code, at.test, plain(0), COperator::Less, right)?;
    let mut above = Items::new(alloc);
    bound_test(alloc, &mut above, at, plain(GREATEST), CAtom::Least)?;
    let mut low = Items::new(alloc);
    low_test(alloc, &mut low, at)?;
    if_or(alloc, code, at.test, above, low)
}

// Trap 2 where the right operand is this zero.
fn zero_trap(
    alloc: Global,
    code: &mut Items<CStmt>,
    at: Operands,
    zero: CAtom,
) -> Result<(), AllocError>
    ensures { OnOk result (code_view code.new ≡ code_view code.old ⨾ lowered.zero_trap (text_of at.right) zero (text_of at.test)) }
{
    let right = at.right.atom(alloc)?;
    compute(alloc, code, at.test, right, COperator::Equal, zero)?;
    trap_if(alloc, code, at.test, 2)
}

// The operator on the operands.
fn apply(
    alloc: Global,
    code: &mut Items<CStmt>,
    at: Operands,
    by: COperator,
    to: Name,
) -> Result<(), AllocError>
    ensures { OnOk result (code_view code.new ≡ code_view code.old ⨾ lowered.set (text_of to) (expr.Binary (atom.Name (text_of at.left)) by (atom.Name (text_of at.right)))) }
{
    let left = at.left.atom(alloc)?;
    let right = at.right.atom(alloc)?;
    compute(alloc, code, to, left, by, right)
}

// The operator, behind a test that tells where its value is no `int`.
fn unless_over(
    alloc: Global,
    code: &mut Items<CStmt>,
    at: Operands,
    by: COperator,
    to: Name,
) -> Result<(), AllocError>
    ensures { OnOk result (code_view code.new ≡ code_view code.old ⨾ lowered.unless_over by (text_of at.left) (text_of at.right) (text_of at.test) (text_of to)) }
{
    trap_if(alloc, code, at.test, 1)?;
    apply(alloc, code, at, by, to)
}

/// The operator of C of the same name.
pub fn operator_in_c(operator: Operator) -> COperator
    ensures { result ≡ lowered.op_in_c operator }
{
    match operator {
        Operator::Add => COperator::Add,
        Operator::Subtract => COperator::Subtract,
        Operator::Multiply => COperator::Multiply,
        Operator::Divide => COperator::Divide,
        Operator::Remainder => COperator::Remainder,
        Operator::Less => COperator::Less,
        Operator::Greater => COperator::Greater,
        Operator::LessEqual => COperator::LessEqual,
        Operator::GreaterEqual => COperator::GreaterEqual,
        Operator::Equal => COperator::Equal,
        Operator::NotEqual => COperator::NotEqual,
    }
}

// A quotient or a remainder of two `int`s.
fn divide_ints(
    alloc: Global,
    code: &mut Items<CStmt>,
    at: Operands,
    by: COperator,
    to: Name,
) -> Result<(), AllocError>
    ensures { OnOk result (code_view code.new ≡ code_view code.old ⨾ (lowered.zero_trap (text_of at.right) (lowered.plain 0) (text_of at.test) ⨾ (lowered.minus_test (text_of at.left) (text_of at.right) (text_of at.test) ⨾ lowered.unless_over by (text_of at.left) (text_of at.right) (text_of at.test) (text_of to)))) }
{
    zero_trap(alloc, code, at, plain(0))?;
    minus_test(alloc, code, at)?;
    unless_over(alloc, code, at, by, to)
}

/// An operator on two numbers in `int` names.
pub fn on_ints(
    alloc: Global,
    code: &mut Items<CStmt>,
    operator: Operator,
    at: Operands,
    to: Name,
) -> Result<(), AllocError>
    ensures { OnOk result (code_view code.new ≡ code_view code.old ⨾ lowered.on_int operator (text_of at.left) (text_of at.right) (text_of at.test) (text_of to)) }
{
    match operator {
        Operator::Add => {
            sum_test(alloc, code, at)?;
            unless_over(alloc, code, at, COperator::Add, to)
        }
        Operator::Subtract => {
            difference_test(alloc, code, at)?;
            unless_over(alloc, code, at, COperator::Subtract, to)
        }
        Operator::Multiply => {
            product_test(alloc, code, at)?;
            unless_over(alloc, code, at, COperator::Multiply, to)
        }
        Operator::Divide => divide_ints(alloc, code, at, COperator::Divide, to),
        Operator::Remainder => divide_ints(alloc, code, at, COperator::Remainder, to),
        Operator::Less => apply(alloc, code, at, COperator::Less, to),
        Operator::Greater => apply(alloc, code, at, COperator::Greater, to),
        Operator::LessEqual => apply(alloc, code, at, COperator::LessEqual, to),
        Operator::GreaterEqual => apply(alloc, code, at, COperator::GreaterEqual, to),
        Operator::Equal => apply(alloc, code, at, COperator::Equal, to),
        Operator::NotEqual => apply(alloc, code, at, COperator::NotEqual, to),
    }
}

/// An operator on two numbers in `unsigned` names.
pub fn on_words(
    alloc: Global,
    code: &mut Items<CStmt>,
    operator: Operator,
    at: Operands,
    to: Name,
) -> Result<(), AllocError>
    ensures { OnOk result (code_view code.new ≡ code_view code.old ⨾ lowered.on_word operator (text_of at.left) (text_of at.right) (text_of at.test) (text_of to)) }
{
    match operator {
        Operator::Divide => {
            zero_trap(alloc, code, at, word(0))?;
            apply(alloc, code, at, COperator::Divide, to)
        }
        Operator::Remainder => {
            zero_trap(alloc, code, at, word(0))?;
            apply(alloc, code, at, COperator::Remainder, to)
        }
        Operator::Add => apply(alloc, code, at, COperator::Add, to),
        Operator::Subtract => apply(alloc, code, at, COperator::Subtract, to),
        Operator::Multiply => apply(alloc, code, at, COperator::Multiply, to),
        Operator::Less => apply(alloc, code, at, COperator::Less, to),
        Operator::Greater => apply(alloc, code, at, COperator::Greater, to),
        Operator::LessEqual => apply(alloc, code, at, COperator::LessEqual, to),
        Operator::GreaterEqual => apply(alloc, code, at, COperator::GreaterEqual, to),
        Operator::Equal => apply(alloc, code, at, COperator::Equal, to),
        Operator::NotEqual => apply(alloc, code, at, COperator::NotEqual, to),
    }
}
