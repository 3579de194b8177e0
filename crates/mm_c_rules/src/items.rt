// Items by themselves.

ghost use Rattle.std.specs.Prelude.{◌≡◌, ◌<◌, ◌&&◌, ℕ, length, List, [], ◌∷◌, Some, map, option_map, slice_get, IfOk};
ghost use Rattle.std.specs.Borrow.{Bor};
ghost use Rattle.mm_c.specs.declared.tree.CLocal.{CLocal};
ghost use Rattle.mm_c.specs.WellFormed as w;
ghost use Rattle.std.specs.Str.{bytes_eq};
ghost use Rattle.mm_c.specs.View.{item_view, function_view};
ghost use Rattle.mm_c.specs.WellFormed.{is_name, is_in, entry_in, same_kind, same_result, same_kinds, same_params, is_public, is_new, is_long, is_callable, is_function_in, functions_fit, elements_fit, array_fits, definitions, same_linkage, defines, may_define, takes_nothing, head_fits, function_fits, list_every, item_fits};
ghost use Rattle.mm_c_names.specs.Entries.{params_view, entry_view, table_of};
ghost use Rattle.mm_c_names.specs.Tables.{globals_in};

use crate::depth::block_is_within;
use crate::locals::locals_fit;
use mm_base::text::Text;
use mm_c::tree::{CArray, CElement, CFn, CItem, CKind, CLinkage, CLocal, CProto, CTypedef};
use mm_c_names::declared::Declared;
use mm_c_names::entry::{Entry, Params, param_count, param_kind};
use mm_c_names::globals::{Defined, Globals};
use mm_c_names::names::{is_name, is_number, kind_number, result_number};
use std::alloc::{AllocError, Global};

fn same_result(first: Option<CKind>, second: Option<CKind>) -> bool
    ensures { result ≡ same_result first second }
{
    result_number(first) == result_number(second)
}

fn same_kind(first: CKind, second: CKind) -> bool
    ensures { result ≡ same_kind first second }
{
    kind_number(first) == kind_number(second)
}

fn kind_at(kinds: &[CKind], i: usize) -> CKind
    requires { i < length kinds.now }
    ensures { slice_get kinds.now i ≡ Some result }
{
    kinds[i]
}

#[tactic(auto, using(crate::proofs::Rules::pair_rules))]
fn same_kinds(kinds: &[CKind], params: &Params<'_>) -> bool
    ensures { result ≡ same_kinds kinds.now (params_view params.now) }
{
    for i in 0..kinds.len() {
        let Some(kind) = param_kind(params, i) else {
            return false;
        };
        if !same_kind(kind_at(kinds, i), kind) {
            return false;
        }
    }
    kinds.len() == param_count(params)
}

fn same_local(first: &CLocal, second: &CLocal) -> bool
    ensures { result ≡ (same_kind first.now.kind second.now.kind && bytes_eq first.now.name second.now.name) }
{
    same_kind(first.kind, second.kind) && first.name.as_bytes() == second.name.as_bytes()
}

fn local_at(locals: &[CLocal], i: usize) -> Option<&CLocal>
    ensures { option_map (λ (l : Bor CLocal). l.now) result ≡ slice_get locals.now i }
{
    match locals.get(i) {
        Some(local) => Some(local),
        None => None,
    }
}

#[tactic(auto, using(crate::proofs::Rules::pair_rules))]
fn same_params(first: &[CLocal], second: &[CLocal]) -> bool
    ensures { result ≡ same_params first.now second.now }
{
    for i in 0..first.len() {
        let Some(other) = local_at(second, i) else {
            return false;
        };
        if !same_local(&first[i], other) {
            return false;
        }
    }
    first.len() == second.len()
}

fn is_declared(declared: &Declared<'_>, name: &Text) -> bool
    ensures { result ≡ is_in (map (λ (e : List ℕ × w.Entry). e.0) (table_of declared.now)) name.now }
{
    match declared.entry_of(name) {
        Some(_) => true,
        None => false,
    }
}

fn is_new(declared: &Declared<'_>, name: &Text) -> bool
    ensures { result ≡ is_new (table_of declared.now) name.now }
{
    is_name(name.as_bytes()) && !is_declared(declared, name)
}

fn is_long(element: &CElement) -> bool
    ensures { result ≡ is_long element.now }
{
    match element {
        CElement::Name(_) => false,
        CElement::Number(number) => number.value < 2147483648,
        CElement::Negative(number) => number.value < 2147483648 && !number.is_unsigned,
    }
}

fn is_callable(typedef: &CTypedef, entry: &Entry<'_>) -> bool
    ensures { result ≡ is_callable typedef.now.result typedef.now.kinds (Some (entry_view entry.now)) }
{
    match entry {
        Entry::FunctionsType(_) => false,
        Entry::NumbersArray => false,
        Entry::FunctionsArray(_) => false,
        Entry::Callable(head) => {
            same_result(typedef.result, head.result)
                && same_kinds(typedef.kinds.as_slice(), &head.params)
        }
    }
}

fn is_named_callable(declared: &Declared<'_>, typedef: &CTypedef, name: &Text) -> bool
    ensures { result ≡ is_callable typedef.now.result typedef.now.kinds (entry_in (table_of declared.now) name.now) }
{
    match declared.entry_of(name) {
        Some(entry) => is_callable(typedef, &entry),
        None => false,
    }
}

fn is_function_in(declared: &Declared<'_>, typedef: &CTypedef, element: &CElement) -> bool
    ensures { result ≡ is_function_in (table_of declared.now) typedef.now.result typedef.now.kinds element.now }
{
    match element {
        CElement::Name(name) => is_named_callable(declared, typedef, name),
        CElement::Number(_) => false,
        CElement::Negative(_) => false,
    }
}

fn are_long(elements: &[CElement]) -> bool
    ensures { result ≡ list_every is_long elements.now }
{
    for element in elements {
        if !is_long(element) {
            return false;
        }
    }
    true
}

fn are_functions(declared: &Declared<'_>, typedef: &CTypedef, elements: &[CElement]) -> bool
    ensures { result ≡ list_every (is_function_in (table_of declared.now) typedef.now.result typedef.now.kinds) elements.now }
{
    for element in elements {
        if !is_function_in(declared, typedef, element) {
            return false;
        }
    }
    true
}

fn functions_fit(declared: &Declared<'_>, name: &Text, elements: &[CElement]) -> bool
    ensures { result ≡ functions_fit (table_of declared.now) elements.now (entry_in (table_of declared.now) name.now) }
{
    match declared.entry_of(name) {
        None => false,
        Some(Entry::FunctionsType(typedef)) => are_functions(declared, typedef, elements),
        Some(Entry::NumbersArray) => false,
        Some(Entry::FunctionsArray(_)) => false,
        Some(Entry::Callable(_)) => false,
    }
}

fn elements_fit(declared: &Declared<'_>, array: &CArray) -> bool
    ensures { result ≡ elements_fit (table_of declared.now) array.now.functions array.now.elements }
{
    match &array.functions {
        None => are_long(array.elements.as_slice()),
        Some(name) => functions_fit(declared, name, array.elements.as_slice()),
    }
}

fn array_fits(declared: &Declared<'_>, array: &CArray) -> bool
    ensures { result ≡ array_fits (table_of declared.now) array.now }
{
    is_new(declared, &array.name)
        && is_number(array.length)
        && array.length.value as usize == array.elements.as_slice().len()
        && array.length.value != 0
        && elements_fit(declared, array)
}

fn same_linkage(is_inline: bool, linkage: CLinkage) -> bool
    ensures { result ≡ same_linkage is_inline linkage }
{
    match linkage {
        CLinkage::Public => false,
        CLinkage::Static => !is_inline,
        CLinkage::StaticInline => is_inline,
    }
}

fn same_words(proto: &CProto, function: &CFn) -> bool
    ensures { result ≡ defines proto.now (function_view function.now ∷ []) }
{
    same_linkage(proto.is_inline, function.linkage)
        && same_result(proto.result, function.result)
        && same_params(proto.params.as_slice(), function.params.as_slice())
}

// whether an item of the program, and one alone, defines the function, and with the same words
#[tactic(auto, using(crate::proofs::Sequence::defines_first))]
fn is_defined(names: &Globals<'_>, proto: &CProto) -> bool
    ensures { result ≡ defines proto.now (definitions proto.now.name (map item_view names.now)) }
{
    match names.defined(&proto.name) {
        Defined::Never => false,
        Defined::Once(function) => same_words(proto, function),
        Defined::Again(_, _) => false,
    }
}

fn may_define(declared: &Declared<'_>, name: &Text) -> bool
    ensures { result ≡ may_define (entry_in (table_of declared.now) name.now) }
{
    match declared.entry_of(name) {
        None => true,
        Some(Entry::FunctionsType(_)) => false,
        Some(Entry::NumbersArray) => false,
        Some(Entry::FunctionsArray(_)) => false,
        Some(Entry::Callable(head)) => !head.is_defined,
    }
}

fn is_public(linkage: CLinkage) -> bool
    ensures { result ≡ is_public linkage }
{
    match linkage {
        CLinkage::Public => true,
        CLinkage::Static => false,
        CLinkage::StaticInline => false,
    }
}

fn takes_nothing(params: &[CLocal]) -> bool
    ensures { result ≡ takes_nothing params.now }
{
    match params {
        [] => true,
        [_, ..] => false,
    }
}

fn head_fits(function: &CFn) -> bool
    ensures { result ≡ head_fits (function_view function.now) }
{
    if function.name.as_bytes() == b"main".as_slice() {
        return is_public(function.linkage)
            && same_result(function.result, Some(CKind::Int))
            && takes_nothing(function.params.as_slice());
    }
    !is_public(function.linkage)
}

fn may_be_defined(declared: &Declared<'_>, name: &Text) -> bool
    ensures { result ≡ (is_name name.now && may_define (entry_in (table_of declared.now) name.now)) }
{
    is_name(name.as_bytes()) && may_define(declared, name)
}

fn head_may_stand(declared: &Declared<'_>, function: &CFn) -> bool
    ensures { result ≡ (is_name function.now.name && may_define (entry_in (table_of declared.now) function.now.name)
        && head_fits (function_view function.now)) }
{
    may_be_defined(declared, &function.name) && head_fits(function)
}

// The depth is asked before all that goes down into the blocks.
#[tactic(auto, using(crate::proofs::Sequence::last_swap))]
fn function_fits(
    alloc: Global,
    declared: &Declared<'_>,
    names: &Globals<'_>,
    function: &CFn,
) -> Result<bool, AllocError>
    ensures { IfOk result (λ b. b ≡ function_fits (table_of declared.now) (globals_in names.now) (function_view function.now)) }
{
    if !(head_may_stand(declared, function) && block_is_within(&function.body, 4096)) {
        return Ok(false);
    }
    locals_fit(alloc, names, function)
}

fn typedef_fits(declared: &Declared<'_>, typedef: &CTypedef) -> bool
    ensures { result ≡ is_new (table_of declared.now) typedef.now.name }
{
    is_new(declared, &typedef.name)
}

fn proto_fits(declared: &Declared<'_>, names: &Globals<'_>, proto: &CProto) -> bool
    ensures { result ≡ (is_new (table_of declared.now) proto.now.name && defines proto.now (definitions proto.now.name (map item_view names.now))) }
{
    is_new(declared, &proto.name) && is_defined(names, proto)
}

/// Whether an item by itself keeps the rules, where these items stand before it in the program. A
/// function that a head names is looked for among all items, since none before has the name.
pub fn item_fits(
    alloc: Global,
    declared: &Declared<'_>,
    names: &Globals<'_>,
    item: &CItem,
) -> Result<bool, AllocError>
    ensures { IfOk result (λ b. b ≡ item_fits (table_of declared.now) (globals_in names.now) (map item_view names.now) (item_view item.now)) }
{
    match item {
        CItem::Typedef(typedef) => Ok(typedef_fits(declared, typedef)),
        CItem::Array(array) => Ok(array_fits(declared, array)),
        CItem::Proto(proto) => Ok(proto_fits(declared, names, proto)),
        CItem::Function(function) => function_fits(alloc, declared, names, function),
    }
}
