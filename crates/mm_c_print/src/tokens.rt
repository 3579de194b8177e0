// Tokens, operands and right sides, each put at the end of the text.

ghost use Rattle.std.specs.Prelude.{◌≡◌, codes, [], ◌∷◌, ◌++◌, if◌then◌else◌, OnOk, flat_map};
ghost use Rattle.mm_c.specs.Printing.{separator, written, text_of, number_text, suffix, kind_tokens, atom_tokens, operator_token, cell_tokens, address_tokens, place_tokens, next_of, joined, arguments_tokens, call_tokens, index_tokens, right_tokens};

use mm_c::tree::{CAddress, CAtom, CCall, CExpr, CIndex, CKind, CNumber, COperator};
use mm_c::value::CCell;
use itoa::Buffer;
use std::alloc::AllocError;

fn ends_line(token: &[u8]) -> bool
    ensures { (if result then 10 else 32) ≡ separator token.now }
{
    token == b";".as_slice() || token == b"{".as_slice() || token == b"}".as_slice()
}

pub fn put_token(out: &mut Vec<u8>, token: &[u8]) -> Result<(), AllocError>
    ensures { OnOk result (out.new.items ≡ out.old.items ++ written token.now) }
{
    out.extend_from_slice(token)?;
    let separator = if ends_line(token) { b'\n' } else { b' ' };
    out.push(separator)?;
    Ok(())
}

fn suffix_of(is_unsigned: bool) -> &'static [u8]
    ensures { result.now ≡ suffix is_unsigned }
{
    if is_unsigned {
        return b"u";
    }
    b""
}

pub fn put_number(out: &mut Vec<u8>, number: CNumber) -> Result<(), AllocError>
    ensures { OnOk result (out.new.items ≡ out.old.items ++ written (number_text number)) }
{
    let mut buffer = Buffer::new();
    out.extend_from_slice(buffer.format(number.value).as_bytes())?;
    out.extend_from_slice(suffix_of(number.is_unsigned))?;
    out.push(b' ')?;
    Ok(())
}

pub fn put_kind(out: &mut Vec<u8>, kind: CKind) -> Result<(), AllocError>
    ensures { OnOk result (out.new.items ≡ out.old.items ++ text_of (kind_tokens kind)) }
{
    match kind {
        CKind::Int => put_token(out, b"int"),
        CKind::Unsigned => put_token(out, b"unsigned"),
        CKind::Long => put_token(out, b"long"),
        CKind::Pointer => out.extend_from_slice(b"char * "),
    }
}

pub fn put_atom(out: &mut Vec<u8>, atom: &CAtom) -> Result<(), AllocError>
    ensures { OnOk result (out.new.items ≡ out.old.items ++ text_of (atom_tokens atom.now)) }
{
    match atom {
        CAtom::Name(name) => put_token(out, name.as_bytes()),
        CAtom::Number(n) => put_number(out, *n),
        CAtom::Negative(n) => {
            put_token(out, b"-")?;
            put_number(out, *n)
        }
        CAtom::Least => out.extend_from_slice(b"( - 2147483647 - 1 ) "),
    }
}

fn put_operator(out: &mut Vec<u8>, operator: COperator) -> Result<(), AllocError>
    ensures { OnOk result (out.new.items ≡ out.old.items ++ written (operator_token operator)) }
{
    match operator {
        COperator::Add => put_token(out, b"+"),
        COperator::Subtract => put_token(out, b"-"),
        COperator::Multiply => put_token(out, b"*"),
        COperator::Divide => put_token(out, b"/"),
        COperator::Remainder => put_token(out, b"%"),
        COperator::Less => put_token(out, b"<"),
        COperator::Greater => put_token(out, b">"),
        COperator::LessEqual => put_token(out, b"<="),
        COperator::GreaterEqual => put_token(out, b">="),
        COperator::Equal => put_token(out, b"=="),
        COperator::NotEqual => put_token(out, b"!="),
    }
}

fn put_cell(out: &mut Vec<u8>, cell: CCell) -> Result<(), AllocError>
    ensures { OnOk result (out.new.items ≡ out.old.items ++ text_of (cell_tokens cell)) }
{
    match cell {
        CCell::Int => put_token(out, b"int"),
        CCell::Unsigned => put_token(out, b"unsigned"),
        CCell::Short => out.extend_from_slice(b"unsigned short "),
        CCell::Pointer => out.extend_from_slice(b"char * "),
    }
}

fn put_address(out: &mut Vec<u8>, address: &CAddress) -> Result<(), AllocError>
    ensures { OnOk result (out.new.items ≡ out.old.items ++ text_of (address_tokens address.now)) }
{
    out.extend_from_slice(b"* ) ( ")?;
    put_token(out, address.pointer.as_bytes())?;
    put_token(out, b"+")?;
    put_number(out, address.offset)?;
    put_token(out, b")")
}

pub fn put_place(out: &mut Vec<u8>, cell: CCell, address: &CAddress) -> Result<(), AllocError>
    ensures { OnOk result (out.new.items ≡ out.old.items ++ text_of (place_tokens cell address.now)) }
{
    out.extend_from_slice(b"* ( ")?;
    put_cell(out, cell)?;
    put_address(out, address)
}

fn put_atoms(out: &mut Vec<u8>, atoms: &[CAtom]) -> Result<(), AllocError>
    ensures { OnOk result (out.new.items ≡ out.old.items ++ text_of (joined atom_tokens atoms.now)) }
{
    let Some((first, others)) = atoms.split_first() else {
        return Ok(());
    };
    put_atom(out, first)?;
    for atom in others {
        put_token(out, b",")?;
        put_atom(out, atom)?;
    }
    Ok(())
}

fn put_arguments(out: &mut Vec<u8>, atoms: &[CAtom]) -> Result<(), AllocError>
    ensures { OnOk result (out.new.items ≡ out.old.items ++ text_of (arguments_tokens atoms.now)) }
{
    put_token(out, b"(")?;
    put_atoms(out, atoms)?;
    put_token(out, b")")
}

pub fn put_call(out: &mut Vec<u8>, call: &CCall) -> Result<(), AllocError>
    ensures { OnOk result (out.new.items ≡ out.old.items ++ text_of (call_tokens call.now)) }
{
    match call {
        CCall::Named(name, atoms) => {
            put_token(out, name.as_bytes())?;
            put_arguments(out, atoms.as_slice())
        }
        CCall::Element(array, index, atoms) => {
            put_token(out, array.as_bytes())?;
            put_token(out, b"[")?;
            put_token(out, index.as_bytes())?;
            put_token(out, b"]")?;
            put_arguments(out, atoms.as_slice())
        }
    }
}

fn put_index(out: &mut Vec<u8>, index: &CIndex) -> Result<(), AllocError>
    ensures { OnOk result (out.new.items ≡ out.old.items ++ text_of (index_tokens index.now)) }
{
    match index {
        CIndex::Name(name) => put_token(out, name.as_bytes()),
        CIndex::Tag(address) => put_place(out, CCell::Short, address),
    }
}

fn put_cast(out: &mut Vec<u8>, kind: &[u8], name: &[u8]) -> Result<(), AllocError>
    ensures { OnOk result (out.new.items ≡ out.old.items ++ text_of (codes "(" ∷ kind.now ∷ codes ")" ∷ name.now ∷ [])) }
{
    put_token(out, b"(")?;
    put_token(out, kind)?;
    put_token(out, b")")?;
    put_token(out, name)
}

pub fn put_right(out: &mut Vec<u8>, right: &CExpr) -> Result<(), AllocError>
    ensures { OnOk result (out.new.items ≡ out.old.items ++ text_of (right_tokens right.now)) }
{
    match right {
        CExpr::Atom(atom) => put_atom(out, atom),
        CExpr::Binary(first, operator, second) => {
            put_atom(out, first)?;
            put_operator(out, *operator)?;
            put_atom(out, second)
        }
        CExpr::ToInt(name) => put_cast(out, b"int", name.as_bytes()),
        CExpr::ToUnsigned(name) => put_cast(out, b"unsigned", name.as_bytes()),
        CExpr::Load(cell, address) => put_place(out, *cell, address),
        CExpr::Index(array, index) => {
            put_token(out, array.as_bytes())?;
            put_token(out, b"[")?;
            put_index(out, index)?;
            put_token(out, b"]")
        }
        CExpr::Call(call) => put_call(out, call),
    }
}
