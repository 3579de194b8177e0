// Operators and conversions on values.

ghost use Rattle.std.specs.Prelude.{◌≡◌, List, Option, slice_get};
ghost use Rattle.mm_c.specs.Memory as c;
ghost use Rattle.mm_c.specs.CMeaning as m;
ghost use Rattle.mm_c_memory.specs.Held.{Holds, moved_to};

use crate::memory::Memory;
use mm_c::tree::{CKind, COperator};
use mm_c::value::{CCell, CValue};

/// What a local of a kind holds at first.
#[inline]
pub fn zero_of(kind: CKind) -> CValue
    ensures { result ≡ m.zero_of kind }
{
    match kind {
        CKind::Int => CValue::Int(0),
        CKind::Unsigned => CValue::Unsigned(0),
        CKind::Long => CValue::Long(0),
        CKind::Pointer => CValue::Null,
    }
}

// `0`, by the kind of what receives it.
#[inline(always)]
fn zero_for(kind: CKind) -> CValue
    ensures { result ≡ m.zero_for kind }
{
    match kind {
        CKind::Int => CValue::Int(0),
        CKind::Unsigned => CValue::Int(0),
        CKind::Long => CValue::Long(0),
        CKind::Pointer => CValue::Null,
    }
}

/// A value as what receives it holds it.
#[inline(always)]
#[tactic(auto, using(crate::proofs::Numbers::fitted_int, crate::proofs::Numbers::fitted_unsigned))]
pub fn fitted(kind: CKind, value: CValue) -> CValue
    ensures { result ≡ m.fitted kind value }
{
    match kind {
        CKind::Int => value,
        CKind::Unsigned => value,
        _ => fitted_zero(kind, value),
    }
}

#[inline(always)]
fn fitted_zero(kind: CKind, value: CValue) -> CValue
    ensures { result ≡ m.fitted kind value }
{
    match value {
        CValue::Int(0) => zero_for(kind),
        _ => value,
    }
}

#[inline(always)]
fn kind_of(value: CValue) -> CKind
    ensures { result ≡ m.kind_of value }
{
    match value {
        CValue::Int(_) => CKind::Int,
        CValue::Unsigned(_) => CKind::Unsigned,
        CValue::Long(_) => CKind::Long,
        CValue::Null => CKind::Pointer,
        CValue::At(_, _) => CKind::Pointer,
    }
}

// A number where a cell for tags receives it.
fn as_tag(value: CValue) -> CValue
    ensures { result ≡ m.as_tag value }
{
    match value {
        CValue::Int(n) if n >= 0 => CValue::Unsigned(n as u32),
        _ => value,
    }
}

/// A value as a cell holds it.
#[inline]
pub fn fitted_in(cell: CCell, value: CValue) -> CValue
    ensures { result ≡ m.fitted_in cell value }
{
    match cell {
        CCell::Int => value,
        CCell::Unsigned => value,
        CCell::Short => as_tag(value),
        CCell::Pointer => fitted(CKind::Pointer, value),
    }
}

#[inline(always)]
fn truth(holds: bool) -> Option<CValue>
    ensures { result ≡ m.truth holds }
{
    Some(CValue::Int(if holds { 1 } else { 0 }))
}

#[inline(always)]
fn on_ints(operator: COperator, x: i32, y: i32) -> Option<CValue>
    ensures { result ≡ m.on_ints operator x y }
{
    match operator {
        COperator::Add => x.checked_add(y).map(CValue::Int),
        COperator::Subtract => x.checked_sub(y).map(CValue::Int),
        COperator::Multiply => x.checked_mul(y).map(CValue::Int),
        COperator::Divide => x.checked_div(y).map(CValue::Int),
        COperator::Remainder => x.checked_rem(y).map(CValue::Int),
        COperator::Less => truth(x < y),
        COperator::Greater => truth(y < x),
        COperator::LessEqual => truth(x <= y),
        COperator::GreaterEqual => truth(y <= x),
        COperator::Equal => truth(x <= y && y <= x),
        COperator::NotEqual => truth(!(x <= y && y <= x)),
    }
}

fn on_unsigned(operator: COperator, x: u32, y: u32) -> Option<CValue>
    ensures { result ≡ m.on_unsigned operator x y }
{
    match operator {
        COperator::Add => Some(CValue::Unsigned(x.wrapping_add(y))),
        COperator::Subtract => Some(CValue::Unsigned(x.wrapping_sub(y))),
        COperator::Multiply => Some(CValue::Unsigned(x.wrapping_mul(y))),
        COperator::Divide => {
            if y == 0 {
                None
            } else {
                Some(CValue::Unsigned(x / y))
            }
        }
        COperator::Remainder => {
            if y == 0 {
                None
            } else {
                Some(CValue::Unsigned(x % y))
            }
        }
        COperator::Less => truth(x < y),
        COperator::Greater => truth(y < x),
        COperator::LessEqual => truth(x <= y),
        COperator::GreaterEqual => truth(y <= x),
        COperator::Equal => truth(x == y),
        COperator::NotEqual => truth(x != y),
    }
}

fn on_longs(operator: COperator, x: i32, y: i32) -> Option<CValue>
    ensures { result ≡ m.on_longs operator x y }
{
    match operator {
        COperator::Add => x.checked_add(y).map(CValue::Long),
        _ => None,
    }
}

#[inline(always)]
fn same_pointer(p: CValue, q: CValue) -> bool
    ensures { result ≡ m.same_pointer p q }
{
    match p {
        CValue::Null => matches!(q, CValue::Null),
        CValue::At(block, offset) => match q {
            CValue::At(other, past) => block == other && offset == past,
            _ => false,
        },
        _ => false,
    }
}

// What is added to a pointer.
fn offset_in(value: CValue) -> Option<i32>
    ensures { result ≡ m.offset_in value }
{
    match value {
        CValue::Int(z) => Some(z),
        CValue::Long(z) => Some(z),
        _ => None,
    }
}

// A pointer and an offset from it, which stays within the block or points just past it.
fn moved(memory: &Memory, pointer: CValue, by: Option<i32>) -> Option<CValue>
    ensures { (blocks : List c.Block) → Holds blocks memory.now → result ≡ m.moved blocks pointer by }
{
    match pointer {
        CValue::At(block, from) => match by {
            Some(by) => moved_in(
                block,
                i64::from(from) + i64::from(by),
                memory.size_of(block),
            ),
            None => None,
        },
        _ => None,
    }
}

fn moved_in(block: usize, to: i64, size: Option<u32>) -> Option<CValue>
    ensures { result ≡ moved_to block to size }
{
    match size {
        Some(size) if to >= 0 && to <= i64::from(size) => Some(CValue::At(block, to as u32)),
        _ => None,
    }
}

// An operator, the first operand of which is a pointer.
#[inline(always)]
fn on_pointers(memory: &Memory, operator: COperator, p: CValue, value: CValue) -> Option<CValue>
    ensures { (blocks : List c.Block) → Holds blocks memory.now → result ≡ m.on_pointers blocks operator p value }
{
    match operator {
        COperator::Add => moved(memory, p, offset_in(value)),
        COperator::Equal => truth(same_pointer(p, fitted(CKind::Pointer, value))),
        COperator::NotEqual => truth(!same_pointer(p, fitted(CKind::Pointer, value))),
        _ => None,
    }
}

// An operator on operands of one kind.
#[inline(always)]
fn on_alike(memory: &Memory, operator: COperator, x: CValue, y: CValue) -> Option<CValue>
    ensures { (blocks : List c.Block) → Holds blocks memory.now → result ≡ m.on_alike blocks operator x y }
{
    match x {
        CValue::Int(a) => match y {
            CValue::Int(b) => on_ints(operator, a, b),
            _ => None,
        },
        CValue::Unsigned(a) => match y {
            CValue::Unsigned(b) => on_unsigned(operator, a, b),
            _ => None,
        },
        CValue::Long(a) => match y {
            CValue::Long(b) => on_longs(operator, a, b),
            _ => None,
        },
        CValue::Null => on_pointers(memory, operator, x, y),
        CValue::At(_, _) => on_pointers(memory, operator, x, y),
    }
}

#[inline(always)]
fn beside(x: CValue, y: CValue) -> CValue
    ensures { result ≡ m.beside x y }
{
    match x {
        CValue::Long(_) => fitted(CKind::Long, y),
        _ => y,
    }
}

/// An operator on two values, or nothing where it is stuck. A `0` is what the other operand's kind
/// receives.
#[inline(always)]
#[tactic(auto, using(crate::proofs::Numbers::operate_ints))]
pub fn operate(memory: &Memory, operator: COperator, x: CValue, y: CValue) -> Option<CValue>
    ensures { (blocks : List c.Block) → Holds blocks memory.now → result ≡ m.operate blocks operator x y }
{
    match x {
        CValue::Int(a) => match y {
            CValue::Int(b) => on_ints(operator, a, b),
            _ => operate_any(memory, operator, x, y),
        },
        _ => operate_any(memory, operator, x, y),
    }
}

// An operator on any two values.
#[inline(always)]
fn operate_any(memory: &Memory, operator: COperator, x: CValue, y: CValue) -> Option<CValue>
    ensures { (blocks : List c.Block) → Holds blocks memory.now → result ≡ m.operate blocks operator x y }
{
    on_alike(memory, operator, fitted(kind_of(y), x), beside(x, y))
}

/// A value as an `int`, where it is one or an `unsigned`.
#[inline]
pub fn as_int(value: CValue) -> Option<CValue>
    ensures { result ≡ m.as_int value }
{
    match value {
        CValue::Int(z) => Some(CValue::Int(z)),
        CValue::Unsigned(n) => Some(CValue::Int(n.cast_signed())),
        _ => None,
    }
}

/// A value as an `unsigned`, where it is one or an `int`.
#[inline]
pub fn as_unsigned(value: CValue) -> Option<CValue>
    ensures { result ≡ m.as_unsigned value }
{
    match value {
        CValue::Int(z) => Some(CValue::Unsigned(z.cast_unsigned())),
        CValue::Unsigned(n) => Some(CValue::Unsigned(n)),
        _ => None,
    }
}

/// The number that an index is.
#[inline]
pub fn as_index(value: CValue) -> Option<i64>
    ensures { result ≡ m.as_index value }
{
    match value {
        CValue::Int(z) => Some(i64::from(z)),
        CValue::Long(z) => Some(i64::from(z)),
        CValue::Unsigned(n) => Some(i64::from(n)),
        _ => None,
    }
}
