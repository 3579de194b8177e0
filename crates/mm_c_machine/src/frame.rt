// Frames, one behind another on a list of values. A frame is what stands from its base on.

ghost use Rattle.std.specs.Prelude.{◌≡◌, ℕ, ◌+◌, ◌-◌, ◌<◌, ◌≤◌, pos, List, [], ◌∷◌, ◌++◌, length, map, drop, take, replicate, All, OnOk, set};
ghost use Rattle.mm_c.specs.declared.value.CValue.TheVariants.{Int};
ghost use Rattle.mm_c_placed.specs.Meaning.{operand_of, start};
ghost use Rattle.mm_c_placed.specs.Ready.{IsInOperand, AreIn};
ghost use Rattle.mm_c_machine.specs.Frames.{fitted_all, with_zeros};

use mm_c::tree::CKind;
use mm_c::value::CValue;
use mm_c_memory::operate;
use mm_c_placed::tree::{Local, Operand};
use std::alloc::AllocError;

/// A place holds a value from now on. Each variant is written on its own, so that the bytes that a
/// value doesn't use stay where they are: a read right behind it then need not wait for them.
#[inline(always)]
pub fn put(values: &mut Vec<CValue>, at: usize, value: CValue)
    requires { at < length values.old.items }
    ensures { values.new.items ≡ set values.old.items at value }
{
    match value {
        CValue::Int(number) => values[at] = CValue::Int(number),
        CValue::Unsigned(number) => values[at] = CValue::Unsigned(number),
        CValue::Long(number) => values[at] = CValue::Long(number),
        CValue::Null => values[at] = CValue::Null,
        CValue::At(block, offset) => values[at] = CValue::At(block, offset),
    }
}

/// What an operand is in the frame at a base.
#[inline(always)]
pub fn read(values: &[CValue], base: usize, a: Operand) -> CValue
    requires { IsInOperand (length (drop base values.now)) a }
    ensures { result ≡ operand_of (start (drop base values.now)) a }
{
    match a {
        Operand::Place(x) => values[base + x as usize],
        Operand::Value(v) => v,
    }
}

/// Puts what operands are behind all values.
pub fn push_operands(
    values: &mut Vec<CValue>,
    base: usize,
    args: &[Operand],
) -> Result<(), AllocError>
    requires { All (IsInOperand (length (drop base values.old.items))) args.now }
    ensures { OnOk result (values.new.items ≡ values.old.items ++ map (operand_of (start (drop base values.old.items))) args.now) }
{
    for a in args {
        let v = read(values.as_slice(), base, *a);
        values.push(v)?;
    }
    Ok(())
}

/// Puts what operands are behind all values, as parameters of these kinds receive them.
#[inline]
pub fn push_given(
    values: &mut Vec<CValue>,
    base: usize,
    params: &[CKind],
    args: &[Operand],
) -> Result<(), AllocError>
    requires many { length args.now ≡ length params.now }
    requires fit { All (IsInOperand (length (drop base values.old.items))) args.now }
    ensures { OnOk result (values.new.items ≡ values.old.items ++ fitted_all params.now (map (operand_of (start (drop base values.old.items))) args.now)) }
{
    for i in 0..args.len() {
        let v = read(values.as_slice(), base, args[i]);
        values.reserve(1)?;
        values.push_reserved(operate::fitted(params[i], v));
    }
    Ok(())
}

/// Puts zeros behind all values, up to a length.
#[inline]
pub fn fill(values: &mut Vec<CValue>, len: usize) -> Result<(), AllocError>
    ensures { OnOk result (values.new.items ≡ values.old.items ++ replicate (len - length values.old.items) (Int (pos 0))) }
{
    if len <= values.len() {
        return Ok(());
    }
    values.resize(len, CValue::Int(0))
}

/// Locals of the frame at a base are zero or null.
#[inline]
pub fn clear(values: &mut Vec<CValue>, base: usize, xs: &[Local])
    requires { AreIn (length (drop base values.old.items)) xs.now }
    ensures frame { drop base values.new.items ≡ with_zeros xs.now (drop base values.old.items) }
    ensures below { take base values.new.items ≡ take base values.old.items }
{
    for x in xs {
        values[base + x.place as usize] = operate::zero_of(x.kind);
    }
}
