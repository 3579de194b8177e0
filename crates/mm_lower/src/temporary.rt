// The temporaries that code mentions.

ghost use Rattle.std.specs.Prelude.{◌≡◌, OnOk};
ghost use Rattle.std.specs.Char.{is_ascii_digit};
ghost use Rattle.std.specs.List.{list_all};
ghost use Rattle.std.specs.Str.{bytes_eq};
ghost use Rattle.mm_c.specs.View.{block_view, code_view, stmt_view};
ghost use Rattle.mm_simulate.specs.Temporaries.{atom_names, atoms_names, index_names, call_names, right_names, stmt_names, block_names, names_in};
ghost use Rattle.mm_lower.specs.Needed as needed;
ghost use Rattle.mm_lower.specs.Needed.{noted, noted_all};

use mm_base::text::Text;
use mm_c::tree::{CAtom, CBlock, CCall, CExpr, CIndex, CKind, CLocal, CStmt};
use sqlite_items::Items;
use std::alloc::{AllocError, Global};

// Whether no 0 stands first, but alone.
fn is_plain(digits: &[u8]) -> bool
    ensures { result ≡ needed.is_plain digits.now }
{
    match digits.split_first() {
        None => false,
        Some((first, more)) => *first != b'0' || more.is_empty(),
    }
}

fn is_digit(byte: u8) -> bool
    ensures { result ≡ is_ascii_digit byte }
{
    byte.is_ascii_digit()
}

fn are_digits(digits: &[u8]) -> bool
    ensures { result ≡ list_all is_ascii_digit digits.now }
{
    digits.iter().all(|d| is_digit(*d))
}

// Whether these are the digits of a number as names have them.
fn is_numeral(digits: &[u8]) -> bool
    ensures { result ≡ needed.is_numeral digits.now }
{
    is_plain(digits) && are_digits(digits)
}

fn letter_kind(letter: u8) -> Option<CKind>
    ensures { result ≡ needed.letter_kind letter }
{
    match letter {
        b'i' => Some(CKind::Int),
        b'u' => Some(CKind::Unsigned),
        b'l' => Some(CKind::Long),
        b'p' => Some(CKind::Pointer),
        _ => None,
    }
}

// The kind of the temporary of this name; other names have none.
fn kind_named(name: &[u8]) -> Option<CKind>
    ensures { result ≡ needed.kind_named name.now }
{
    match name.split_first() {
        Some((letter, digits)) if is_numeral(digits) => letter_kind(*letter),
        Some(_) | None => None,
    }
}

fn is_of(local: &CLocal, name: &[u8]) -> bool
    ensures { result ≡ bytes_eq local.now.name name.now }
{
    local.name.as_bytes() == name
}

fn is_declared(locals: &[CLocal], name: &[u8]) -> bool
    ensures { result ≡ needed.is_declared locals.now name.now }
{
    locals.iter().any(|local| is_of(local, name))
}

// A temporary of this name is declared, where it isn't yet.
fn note(alloc: Global, name: &Text, locals: &mut Items<CLocal>) -> Result<(), AllocError>
    ensures { OnOk result (locals.new ≡ noted locals.old name.now) }
{
    match kind_named(name.as_bytes()) {
        None => Ok(()),
        Some(kind) => {
            if is_declared(locals.as_slice(), name.as_bytes()) {
                return Ok(());
            }
            let name = Text::from_str(alloc, name.as_str())?;
            locals.push(CLocal { kind, name })
        }
    }
}

fn note_atom(alloc: Global, atom: &CAtom, locals: &mut Items<CLocal>) -> Result<(), AllocError>
    ensures { OnOk result (locals.new ≡ noted_all locals.old (atom_names atom.now)) }
{
    match atom {
        CAtom::Name(name) => note(alloc, name, locals),
        CAtom::Number(_) | CAtom::Negative(_) | CAtom::Least => Ok(()),
    }
}

fn note_atoms(alloc: Global, atoms: &[CAtom], locals: &mut Items<CLocal>) -> Result<(), AllocError>
    ensures { OnOk result (locals.new ≡ noted_all locals.old (atoms_names atoms.now)) }
{
    for atom in atoms {
        note_atom(alloc, atom, locals)?;
    }
    Ok(())
}

#[tactic(auto, using(crate::proofs::Noting::noted_rules))]
fn note_call(alloc: Global, call: &CCall, locals: &mut Items<CLocal>) -> Result<(), AllocError>
    ensures { OnOk result (locals.new ≡ noted_all locals.old (call_names call.now)) }
{
    match call {
        CCall::Named(_, atoms) => note_atoms(alloc, atoms.as_slice(), locals),
        CCall::Element(_, index, atoms) => {
            note(alloc, index, locals)?;
            note_atoms(alloc, atoms.as_slice(), locals)
        }
    }
}

fn note_index(alloc: Global, index: &CIndex, locals: &mut Items<CLocal>) -> Result<(), AllocError>
    ensures { OnOk result (locals.new ≡ noted_all locals.old (index_names index.now)) }
{
    match index {
        CIndex::Name(name) => note(alloc, name, locals),
        CIndex::Tag(address) => note(alloc, &address.pointer, locals),
    }
}

#[tactic(auto, using(crate::proofs::Noting::noted_rules))]
fn note_right(alloc: Global, right: &CExpr, locals: &mut Items<CLocal>) -> Result<(), AllocError>
    ensures { OnOk result (locals.new ≡ noted_all locals.old (right_names right.now)) }
{
    match right {
        CExpr::Atom(atom) => note_atom(alloc, atom, locals),
        CExpr::Binary(left, _, right) => {
            note_atom(alloc, left, locals)?;
            note_atom(alloc, right, locals)
        }
        CExpr::ToInt(name) | CExpr::ToUnsigned(name) => note(alloc, name, locals),
        CExpr::Load(_, address) => note(alloc, &address.pointer, locals),
        CExpr::Index(_, index) => note_index(alloc, index, locals),
        CExpr::Call(call) => note_call(alloc, call, locals),
    }
}

#[cycle(note)]
#[tactic(auto, using(mm_c::proofs::Views::code_rules, crate::proofs::Noting::noted_rules))]
fn note_stmt(alloc: Global, s: &CStmt, locals: &mut Items<CLocal>) -> Result<(), AllocError>
    ensures { OnOk result (locals.new ≡ noted_all locals.old (stmt_names (stmt_view s.now))) }
{
    match s {
        CStmt::Assign(name, right) => {
            note(alloc, name, locals)?;
            note_right(alloc, right, locals)
        }
        CStmt::Store(_, address, atom) => {
            note(alloc, &address.pointer, locals)?;
            note_atom(alloc, atom, locals)
        }
        CStmt::Call(call) => note_call(alloc, call, locals),
        CStmt::If(test, branch) => {
            note_atom(alloc, test, locals)?;
            note_code(alloc, branch.body.as_slice(), locals)
        }
        CStmt::IfElse(test, first, second) => {
            note_atom(alloc, test, locals)?;
            note_code(alloc, first.body.as_slice(), locals)?;
            note_code(alloc, second.body.as_slice(), locals)
        }
        CStmt::While(turn) => note_code(alloc, turn.body.as_slice(), locals),
        CStmt::Break | CStmt::Continue | CStmt::Return => Ok(()),
        CStmt::ReturnValue(atom) => note_atom(alloc, atom, locals),
    }
}

/// The temporaries that code mentions and that aren't declared yet, behind the locals so far.
#[cycle(note)]
pub fn note_code(
    alloc: Global,
    code: &[CStmt],
    locals: &mut Items<CLocal>,
) -> Result<(), AllocError>
    ensures { OnOk result (locals.new ≡ noted_all locals.old (names_in (code_view code.now))) }
{
    for s in code {
        note_stmt(alloc, s, locals)?;
    }
    Ok(())
}
