// Right sides and calls.

ghost use Rattle.std.specs.Prelude.{◌≡◌, Some};
ghost use Rattle.mm_c.specs.WellFormed.{entry_in, kind_of_cell, is_numbers, callable_fits, element_fits, call_fits, result_in, call_result, right_fits};
ghost use Rattle.mm_c.specs.declared.tree.CExpr.TheVariants.{Index};
ghost use Rattle.mm_c_names.specs.Entries.{entry_view, table_of};
ghost use Rattle.mm_c_rules.specs.Scopes.{here_view, called_name};

use crate::here::Here;
use crate::operands::{address_fits, all_fit, binary_fits, fits, index_fits, is_index, is_of};
use mm_base::text::Text;
use mm_c::tree::{CAtom, CCall, CExpr, CIndex, CKind};
use mm_c::value::CCell;
use mm_c_names::entry::{Entry, Params};
use mm_c_names::names::{kind_number, result_number};

fn callable_fits(here: &Here<'_, '_>, atoms: &[CAtom], entry: &Entry<'_>) -> bool
    ensures { result ≡ callable_fits (here_view here.now) atoms.now (Some (entry_view entry.now)) }
{
    match entry {
        Entry::FunctionsType(_) => false,
        Entry::NumbersArray => false,
        Entry::FunctionsArray(_) => false,
        Entry::Callable(head) => {
            !(head.is_inline && here.place.inside_inline) && all_fit(here, &head.params, atoms)
        }
    }
}

fn element_fits(here: &Here<'_, '_>, atoms: &[CAtom], entry: &Entry<'_>) -> bool
    ensures { result ≡ element_fits (here_view here.now) atoms.now (Some (entry_view entry.now)) }
{
    match entry {
        Entry::FunctionsType(_) => false,
        Entry::NumbersArray => false,
        Entry::FunctionsArray(typedef) => {
            all_fit(here, &Params::Kinds(typedef.kinds.as_slice()), atoms)
        }
        Entry::Callable(_) => false,
    }
}

/// Whether a call fits where it stands.
pub fn call_fits(here: &Here<'_, '_>, call: &CCall) -> bool
    ensures { result ≡ call_fits (here_view here.now) call.now }
{
    match call {
        CCall::Named(name, atoms) => match here.place.declared.entry_of(name) {
            Some(entry) => callable_fits(here, atoms.as_slice(), &entry),
            None => false,
        },
        CCall::Element(array, index, atoms) => {
            if here.place.inside_inline || !is_index(here, index) {
                return false;
            }
            match here.place.declared.entry_of(array) {
                Some(entry) => element_fits(here, atoms.as_slice(), &entry),
                None => false,
            }
        }
    }
}

// the result of what is called, as a number; 0 where there is none
fn result_in(entry: &Entry<'_>) -> u32
    ensures { result ≡ result_in (Some (entry_view entry.now)) }
{
    match entry {
        Entry::FunctionsType(_) => 0,
        Entry::NumbersArray => 0,
        Entry::FunctionsArray(typedef) => result_number(typedef.result),
        Entry::Callable(head) => result_number(head.result),
    }
}

fn called_name(call: &CCall) -> &Text
    ensures { result.now ≡ called_name call.now }
{
    match call {
        CCall::Named(name, _) => name,
        CCall::Element(array, _, _) => array,
    }
}

fn call_result(here: &Here<'_, '_>, call: &CCall) -> u32
    ensures { result ≡ call_result (here_view here.now) call.now }
{
    match here.place.declared.entry_of(called_name(call)) {
        Some(entry) => result_in(&entry),
        None => 0,
    }
}

fn kind_of_cell(cell: CCell) -> Option<CKind>
    ensures { result ≡ kind_of_cell cell }
{
    match cell {
        CCell::Int => Some(CKind::Int),
        CCell::Unsigned => Some(CKind::Unsigned),
        CCell::Short => None,
        CCell::Pointer => Some(CKind::Pointer),
    }
}

fn is_numbers_name(here: &Here<'_, '_>, name: &Text) -> bool
    ensures { result ≡ is_numbers (entry_in (table_of here.now.place.declared.now) name.now) }
{
    match here.place.declared.entry_of(name) {
        None => false,
        Some(Entry::FunctionsType(_)) => false,
        Some(Entry::NumbersArray) => true,
        Some(Entry::FunctionsArray(_)) => false,
        Some(Entry::Callable(_)) => false,
    }
}

fn indexed_fits(here: &Here<'_, '_>, kind: CKind, array: &Text, index: &CIndex) -> bool
    ensures { result ≡ right_fits (here_view here.now) kind (Index array.now index.now) }
{
    kind_number(kind) == 3 && is_numbers_name(here, array) && index_fits(here, index)
}

/// Whether a right side fits where the kind is wanted.
pub fn right_fits(here: &Here<'_, '_>, kind: CKind, right: &CExpr) -> bool
    ensures { result ≡ right_fits (here_view here.now) kind right.now }
{
    match right {
        CExpr::Atom(atom) => fits(here, kind, atom),
        CExpr::Binary(first, operator, second) => binary_fits(here, kind, first, *operator, second),
        CExpr::ToInt(name) => {
            kind_number(kind) == 1
                && (is_of(here, CKind::Int, name) || is_of(here, CKind::Unsigned, name))
        }
        CExpr::ToUnsigned(name) => {
            kind_number(kind) == 2
                && (is_of(here, CKind::Int, name) || is_of(here, CKind::Unsigned, name))
        }
        CExpr::Load(cell, address) => {
            result_number(kind_of_cell(*cell)) == kind_number(kind) && address_fits(here, address)
        }
        CExpr::Index(array, index) => indexed_fits(here, kind, array, index),
        CExpr::Call(call) => call_fits(here, call) && call_result(here, call) == kind_number(kind),
    }
}
