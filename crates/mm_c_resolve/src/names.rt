//! Operands, right sides and calls, with numbers for names.

ghost use Rattle.std.specs.Prelude.{◌≡◌, IfOk};
ghost use Rattle.mm_c_placed.specs.View.{stmt_view};
ghost use Rattle.mm_c_places.specs.Places.{callee_at};
ghost use Rattle.mm_c_places.specs.Placed.{opposite, number, operand, operands, address, index, local_of, target, call, assigned};
ghost use Rattle.mm_c_resolve.specs.Named.{places_in, numbers_in};

use crate::locals::Declared;
use crate::numbers::{Numbering, find};
use mm_base::num::to_signed;
use mm_base::text::Text;
use mm_base::world::Builtin;
use mm_c::tree::{CAddress, CAtom, CCall, CExpr, CIndex, CKind, CNumber};
use mm_c::value::CValue;
use mm_c_placed::tree::{Address, Callee, Index, Local, Operand, PlacedStmt, Right, Target};
use sqlite_items::Items;
use std::alloc::{AllocError, Global};

/// The numbers of a program's functions and arrays by their names.
#[derive(Drop)]
pub struct Globals<'a> {
    pub functions: Numbering<'a>,
    pub arrays: Numbering<'a>,
}

fn place(locals: &Declared<'_>, name: &Text) -> u32
    ensures { result ≡ (places_in locals.now).place name.now }
{
    find(&locals.places, name.as_str())
}

/// A local: its place and its kind.
pub fn local(locals: &Declared<'_>, name: &Text) -> Local
    ensures { result ≡ local_of (places_in locals.now) name.now }
{
    let place = place(locals, name);
    match locals.kinds.get(place as usize) {
        Some(kind) => Local { place, kind: *kind },
        None => Local {
            place,
            kind: CKind::Int,
        },
    }
}

/// The `int` that is congruent modulo 2^32 to the opposite of a number.
pub fn opposite(of: u32) -> i32
    ensures { result ≡ opposite of }
{
    to_signed(0u32.wrapping_sub(of))
}

fn number(of: CNumber) -> CValue
    ensures { result ≡ number of }
{
    if of.is_unsigned {
        return CValue::Unsigned(of.value);
    }
    CValue::Int(to_signed(of.value))
}

/// An operand.
pub fn operand(locals: &Declared<'_>, atom: &CAtom) -> Operand
    ensures { result ≡ operand (places_in locals.now) atom.now }
{
    match atom {
        CAtom::Name(name) => Operand::Place(place(locals, name)),
        CAtom::Number(value) => Operand::Value(number(*value)),
        CAtom::Negative(value) => Operand::Value(CValue::Int(opposite(value.value))),
        CAtom::Least => Operand::Value(CValue::Int(-2_147_483_648)),
    }
}

fn operands(
    alloc: Global,
    locals: &Declared<'_>,
    atoms: &[CAtom],
) -> Result<Items<Operand>, AllocError>
    ensures { IfOk result (λ q. q ≡ operands (places_in locals.now) atoms.now) }
{
    let mut all = Items::new(alloc);
    for atom in atoms {
        all.push(operand(locals, atom))?;
    }
    Ok(all)
}

/// The place of a cell.
pub fn address(locals: &Declared<'_>, of: &CAddress) -> Address
    ensures { result ≡ address (places_in locals.now) of.now }
{
    Address {
        pointer: place(locals, &of.pointer),
        offset: of.offset.value,
    }
}

fn index(locals: &Declared<'_>, of: &CIndex) -> Index
    ensures { result ≡ index (places_in locals.now) of.now }
{
    match of {
        CIndex::Name(name) => Index::Place(place(locals, name)),
        CIndex::Tag(tag) => Index::Tag(address(locals, tag)),
    }
}

/// A function by its name: one of the prelude, or one of the program.
pub fn callee(globals: &Globals<'_>, function: &Text) -> Callee
    ensures { result ≡ callee_at (numbers_in globals.now) function.now }
{
    let name = function.as_bytes();
    if b"mm_put".as_slice() == name {
        return Callee::Asks(Builtin::Put);
    }
    if b"mm_get".as_slice() == name {
        return Callee::Asks(Builtin::Get);
    }
    if b"mm_more".as_slice() == name {
        return Callee::Asks(Builtin::More);
    }
    if b"mm_trap".as_slice() == name {
        return Callee::Trap;
    }
    if b"mm_new".as_slice() == name {
        return Callee::New;
    }
    Callee::Function(find(&globals.functions, function.as_str()))
}

/// A call, whose result the local receives.
#[tactic(auto, using(mm_c_placed::proofs::Views::placed_rules))]
pub fn call(
    alloc: Global,
    globals: &Globals<'_>,
    locals: &Declared<'_>,
    to: Option<Local>,
    of: &CCall,
) -> Result<PlacedStmt, AllocError>
    ensures { IfOk result (λ q.
        stmt_view q ≡ call (numbers_in globals.now) (places_in locals.now) to of.now) }
{
    match of {
        CCall::Named(name, atoms) => {
            let values = operands(alloc, locals, atoms.as_slice())?;
            Ok(PlacedStmt::Call(to, Target::Named(callee(globals, name)), values))
        }
        CCall::Element(array, at, atoms) => {
            let values = operands(alloc, locals, atoms.as_slice())?;
            let array = find(&globals.arrays, array.as_str());
            let at = place(locals, at);
            Ok(PlacedStmt::Call(to, Target::Element(array, at), values))
        }
    }
}

/// An assignment to a local.
#[tactic(auto, using(mm_c_placed::proofs::Views::placed_rules))]
pub fn assigned(
    alloc: Global,
    globals: &Globals<'_>,
    locals: &Declared<'_>,
    to: Local,
    right: &CExpr,
) -> Result<PlacedStmt, AllocError>
    ensures { IfOk result (λ q.
        stmt_view q ≡ assigned (numbers_in globals.now) (places_in locals.now) to right.now) }
{
    let right = match right {
        CExpr::Atom(a) => Right::Copy(operand(locals, a)),
        CExpr::Binary(a, o, b) => Right::Binary(operand(locals, a), *o, operand(locals, b)),
        CExpr::ToInt(name) => Right::ToInt(place(locals, name)),
        CExpr::ToUnsigned(name) => Right::ToUnsigned(place(locals, name)),
        CExpr::Load(cell, from) => Right::Load(*cell, address(locals, from)),
        CExpr::Index(array, at) => {
            let array = find(&globals.arrays, array.as_str());
            Right::Index(array, index(locals, at))
        }
        CExpr::Call(c) => return call(alloc, globals, locals, Some(to), c),
    };
    Ok(PlacedStmt::Assign(to, right))
}
