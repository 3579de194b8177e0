// The heads of functions.

ghost use Rattle.std.specs.Prelude.{◌≡◌, ◌≤◌, [], drop, length, map, IfOk};
ghost use Rattle.mm_core.specs.Heads as heads;
ghost use Rattle.mm_core.specs.Run as run;
ghost use Rattle.mm_core.specs.View.{function_view};
ghost use Rattle.mm_simulate.specs.Lowered as lowered;

use mm_c::tree::{CKind, CLocal};
use mm_classes::class::Ty;
use mm_core::part::CoreParam;
use mm_core::tree::CoreFn;
use mm_lower_trees::name::Name;
use mm_lower_trees::types::{is_same, kind_of};
use sqlite_items::Items;
use std::alloc::{AllocError, Global};

/// Whether a function is a `main` that may be where the program begins.
pub fn is_main(function: &CoreFn) -> bool
    ensures { result ≡ heads.is_main (function_view function.now) }
{
    function.name.as_str() == "main"
        && !function.member
        && function.params.is_empty()
        && is_same(&function.result, &Ty::Int)
}

/// The number of `main`, or of all functions where it is not defined.
pub fn number_of_main(functions: &[CoreFn]) -> usize
    ensures { result ≡ run.number_of_main (map function_view functions.now) }
{
    let mut number = 0;
    for function in functions {
        if function.defined && is_main(function) {
            return number;
        }
        number += 1;
    }
    number
}

/// The kind of a result; `void` has none.
pub fn kind_of_result(ty: &Ty) -> Option<CKind>
    ensures { result ≡ lowered.kind_of_result ty.now }
{
    match ty {
        Ty::Void => None,
        Ty::Bool | Ty::Int => Some(CKind::Int),
        Ty::Unsigned => Some(CKind::Unsigned),
        Ty::Ptr(_) | Ty::Ref(_) => Some(CKind::Pointer),
    }
}

// The types of parameters.
fn types_of_params(alloc: Global, params: &[CoreParam]) -> Result<Items<Ty>, AllocError>
    ensures { IfOk result (λ types. types ≡ heads.types_of_params params.now) }
{
    let mut types = Items::new(alloc);
    for param in params {
        types.push(param.ty)?;
    }
    Ok(types)
}

/// The types of the arguments; without classes no function is a member.
pub fn argument_types(alloc: Global, function: &CoreFn) -> Result<Items<Ty>, AllocError>
    ensures { IfOk result (λ types. types ≡ heads.argument_types [] (function_view function.now)) }
{
    let types = types_of_params(alloc, function.params.as_slice())?;
    Ok(types)
}

/// The types of all locals.
pub fn local_types(alloc: Global, function: &CoreFn) -> Result<Items<Ty>, AllocError>
    ensures { IfOk result (λ types. types ≡ heads.local_types [] (function_view function.now)) }
{
    let mut types = argument_types(alloc, function)?;
    types.append(Items::from_slice(alloc, function.locals.as_slice())?)?;
    Ok(types)
}

/// The locals from a number on, by the types of all.
pub fn locals_from(alloc: Global, types: &[Ty], first: usize) -> Result<Items<CLocal>, AllocError>
    requires { first ≤ length types.now }
    ensures { IfOk result (λ locals. locals ≡ lowered.locals_from first (drop first types.now)) }
{
    let mut locals = Items::new(alloc);
    for number in first..types.len() {
        let kind = kind_of(&types[number]);
        let name = Name::Local(number).text(alloc)?;
        locals.push(CLocal { kind, name })?;
    }
    Ok(locals)
}

/// The variables of a function, by the types of all locals and the number of the arguments.
pub fn variables(
    alloc: Global,
    function: &CoreFn,
    types: &[Ty],
    arguments: usize,
) -> Result<Items<CLocal>, AllocError>
    requires types { types.now ≡ heads.local_types [] (function_view function.now) }
    requires arguments { arguments ≡ length (heads.argument_types [] (function_view function.now)) }
    ensures { IfOk result (λ locals. locals ≡ lowered.locals_from (length (heads.argument_types [] (function_view function.now))) function.now.locals) }
{
    let locals = locals_from(alloc, types, arguments)?;
    Ok(locals)
}
