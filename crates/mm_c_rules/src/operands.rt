// Operands, and what may stand between two of them.

ghost use Rattle.std.specs.Prelude.{◌≡◌};
ghost use Rattle.mm_c.specs.WellFormed.{is_of, number_fits, fits, all_fit, is_name_atom, is_offset, address_fits, is_index, index_fits, is_add, is_equality, is_arithmetic, both_fit, one_is_name, binary_fits};
ghost use Rattle.mm_c.specs.declared.tree.CKind.TheVariants.{Int};
ghost use Rattle.mm_c_names.specs.Entries.{params_view};
ghost use Rattle.mm_c_rules.specs.Scopes.{here_view};

use crate::here::Here;
use mm_base::text::Text;
use mm_c::tree::{CAddress, CAtom, CIndex, CKind, CNumber, COperator};
use mm_c_names::entry::{Params, param_count, param_kind};
use mm_c_names::names::{is_number, kind_number, result_number};

/// Whether a name is seen and has the kind.
pub fn is_of(here: &Here<'_, '_>, kind: CKind, name: &Text) -> bool
    ensures { result ≡ is_of (here_view here.now) kind name.now }
{
    result_number(here.scope.kind_in(name)) == kind_number(kind)
}

fn number_fits(kind: CKind, number: CNumber) -> bool
    ensures { result ≡ number_fits kind number }
{
    match kind {
        CKind::Int => !number.is_unsigned,
        CKind::Unsigned => number.is_unsigned,
        CKind::Long => !number.is_unsigned && number.value == 0,
        CKind::Pointer => !number.is_unsigned && number.value == 0,
    }
}

/// Whether an operand may stand where the kind is wanted.
pub fn fits(here: &Here<'_, '_>, kind: CKind, atom: &CAtom) -> bool
    ensures { result ≡ fits (here_view here.now) kind atom.now }
{
    match atom {
        CAtom::Name(name) => is_of(here, kind, name),
        CAtom::Number(number) => is_number(*number) && number_fits(kind, *number),
        CAtom::Negative(number) => {
            kind_number(kind) == 1 && is_number(*number) && !number.is_unsigned
        }
        CAtom::Least => kind_number(kind) == 1,
    }
}

/// Whether these are arguments for these parameters.
pub fn all_fit(here: &Here<'_, '_>, params: &Params<'_>, atoms: &[CAtom]) -> bool
    ensures { result ≡ all_fit (here_view here.now) (params_view params.now) atoms.now }
{
    for i in 0..atoms.len() {
        let Some(kind) = param_kind(params, i) else {
            return false;
        };
        if !fits(here, kind, &atoms[i]) {
            return false;
        }
    }
    atoms.len() == param_count(params)
}

fn is_name_atom(atom: &CAtom) -> bool
    ensures { result ≡ is_name_atom atom.now }
{
    match atom {
        CAtom::Name(_) => true,
        CAtom::Number(_) => false,
        CAtom::Negative(_) => false,
        CAtom::Least => false,
    }
}

fn is_offset(here: &Here<'_, '_>, atom: &CAtom) -> bool
    ensures { result ≡ is_offset (here_view here.now) atom.now }
{
    match atom {
        CAtom::Name(name) => is_of(here, CKind::Long, name),
        CAtom::Number(number) => is_number(*number) && !number.is_unsigned,
        CAtom::Negative(_) => false,
        CAtom::Least => false,
    }
}

/// Whether a place of a cell fits.
pub fn address_fits(here: &Here<'_, '_>, address: &CAddress) -> bool
    ensures { result ≡ address_fits (here_view here.now) address.now }
{
    is_of(here, CKind::Pointer, &address.pointer)
        && is_number(address.offset)
        && !address.offset.is_unsigned
}

/// Whether a name may be an index.
pub fn is_index(here: &Here<'_, '_>, name: &Text) -> bool
    ensures { result ≡ is_index (here_view here.now) name.now }
{
    is_of(here, CKind::Int, name) || is_of(here, CKind::Long, name)
}

/// Whether an index fits.
pub fn index_fits(here: &Here<'_, '_>, index: &CIndex) -> bool
    ensures { result ≡ index_fits (here_view here.now) index.now }
{
    match index {
        CIndex::Name(name) => is_index(here, name),
        CIndex::Tag(address) => address_fits(here, address),
    }
}

fn is_add(operator: COperator) -> bool
    ensures { result ≡ is_add operator }
{
    match operator {
        COperator::Add => true,
        COperator::Subtract => false,
        COperator::Multiply => false,
        COperator::Divide => false,
        COperator::Remainder => false,
        COperator::Less => false,
        COperator::Greater => false,
        COperator::LessEqual => false,
        COperator::GreaterEqual => false,
        COperator::Equal => false,
        COperator::NotEqual => false,
    }
}

fn is_equality(operator: COperator) -> bool
    ensures { result ≡ is_equality operator }
{
    match operator {
        COperator::Add => false,
        COperator::Subtract => false,
        COperator::Multiply => false,
        COperator::Divide => false,
        COperator::Remainder => false,
        COperator::Less => false,
        COperator::Greater => false,
        COperator::LessEqual => false,
        COperator::GreaterEqual => false,
        COperator::Equal => true,
        COperator::NotEqual => true,
    }
}

fn is_arithmetic(operator: COperator) -> bool
    ensures { result ≡ is_arithmetic operator }
{
    match operator {
        COperator::Add => true,
        COperator::Subtract => true,
        COperator::Multiply => true,
        COperator::Divide => true,
        COperator::Remainder => true,
        COperator::Less => false,
        COperator::Greater => false,
        COperator::LessEqual => false,
        COperator::GreaterEqual => false,
        COperator::Equal => false,
        COperator::NotEqual => false,
    }
}

fn both_fit(here: &Here<'_, '_>, kind: CKind, first: &CAtom, second: &CAtom) -> bool
    ensures { result ≡ both_fit (here_view here.now) kind first.now second.now }
{
    fits(here, kind, first) && fits(here, kind, second)
}

fn one_is_name(first: &CAtom, second: &CAtom) -> bool
    ensures { result ≡ one_is_name first.now second.now }
{
    is_name_atom(first) || is_name_atom(second)
}

fn int_operands_fit(here: &Here<'_, '_>, first: &CAtom, operator: COperator, second: &CAtom) -> bool
    ensures { result ≡ binary_fits (here_view here.now) Int first.now operator second.now }
{
    both_fit(here, CKind::Int, first, second)
        || (!is_arithmetic(operator) && both_fit(here, CKind::Unsigned, first, second))
        || (is_equality(operator)
            && one_is_name(first, second)
            && both_fit(here, CKind::Pointer, first, second))
}

/// Whether an operation has a result of the kind.
pub fn binary_fits(
    here: &Here<'_, '_>,
    kind: CKind,
    first: &CAtom,
    operator: COperator,
    second: &CAtom,
) -> bool
    ensures { result ≡ binary_fits (here_view here.now) kind first.now operator second.now }
{
    match kind {
        CKind::Int => int_operands_fit(here, first, operator, second),
        CKind::Unsigned => {
            is_arithmetic(operator) && both_fit(here, CKind::Unsigned, first, second)
        }
        CKind::Long => {
            is_add(operator)
                && one_is_name(first, second)
                && both_fit(here, CKind::Long, first, second)
        }
        CKind::Pointer => {
            is_add(operator)
                && is_name_atom(first)
                && fits(here, CKind::Pointer, first)
                && is_offset(here, second)
        }
    }
}
