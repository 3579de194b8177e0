//! The functions that are declared.

ghost use Rattle.std.specs.Prelude.{◌≡◌, ◌<◌, ◌++◌, [], ◌∷◌, length, map, slice_get, Some, None, Ok, IfOk, OnOk, MatchOption};
ghost use Rattle.mm_core.specs.Heads.{same_type, same_types, type_code};
ghost use Rattle.mm_core.specs.View.{function_view};
ghost use Rattle.mm_checks.specs.Checks.{Gives};
ghost use Rattle.mm_unit_typing.specs.Functions as functions;
ghost use Rattle.mm_unit_typing.specs.Functions.{heading, heads_from, head_of, number_of, known, declared_function, defined_with, seen, with_function, with_body};
ghost use Rattle.mm_unit_typing.specs.Made.{block_of};
ghost use Rattle.mm_check_stmt.specs.Results.{steps_view};
ghost use Rattle.mm_check_function.specs.Known.{functions_view, found_in, Sees, seeing};

use mm_base::text::Text;
use mm_checks::CheckEnd;
use mm_classes::class::Ty;
use mm_core::part::CoreParam;
use mm_core::tree::{CoreFn, CoreStmt};
use mm_scopes::env::Env;
use mm_scopes::head::FnHead;
use mm_syntax::name::Name;
use sqlite_items::Items;
use std::alloc::{AllocError, Global};

// ---- types

fn code(ty: &Ty) -> u64
    ensures { result ≡ type_code ty.now }
{
    match ty {
        Ty::Void => 0,
        Ty::Bool => 1,
        Ty::Int => 2,
        Ty::Unsigned => 3,
        Ty::Ptr(class) => class.number as u64 * 2 + 4,
        Ty::Ref(class) => class.number as u64 * 2 + 5,
    }
}

pub(crate) fn is_same(a: &Ty, b: &Ty) -> bool
    ensures { result ≡ same_type a.now b.now }
{
    code(a) == code(b)
}

fn are_same(a: &[Ty], b: &[Ty]) -> bool
    ensures { result ≡ same_types a.now b.now }
{
    match a {
        [] => b.is_empty(),
        [x, xs @ ..] => match b {
            [] => false,
            [y, ys @ ..] => is_same(x, y) && are_same(xs, ys),
        },
    }
}

// ---- finding

// The number of the function that is declared with this name and these parameters.
fn found(env: &Env, name: &str, params: &[Ty]) -> Option<u32>
    ensures { result ≡ found_in env.now.functions name.now params.now }
{
    for i in 0..env.count_named(name) {
        let head = env.nth_named(name, i);
        if are_same(head.params.as_slice(), params) {
            return Some(head.number);
        }
    }
    None
}

/// The place of the function that is declared with this name and these parameters.
pub fn find(env: &Env, fs: &[CoreFn], name: &str, params: &[Ty]) -> Option<usize>
    requires { Sees env.now fs.now }
    ensures { MatchOption result (known (functions_view fs.now) name.now params.now ≡ None)
        (λ n. (n ≡ number_of (functions_view fs.now) name.now params.now) × (n < length fs.now)) }
{
    match found(env, name, params) {
        None => None,
        Some(n) => Some(n as usize),
    }
}

// ---- declaring

// The number of the next function.
fn next_number(fs: &Items<CoreFn>) -> Result<u32, CheckEnd>
    ensures { Gives (λ n. n) result (Ok (length fs.now)) }
{
    match u32::try_from(fs.len()) {
        Ok(n) => Ok(n),
        Err(_) => Err(CheckEnd::NoMemory),
    }
}

// No parameter is virtual.
fn none_virtual(alloc: Global, params: &[Ty]) -> Result<Items<bool>, AllocError>
    ensures { IfOk result (λ marks. marks ≡ functions.never params.now) }
{
    let mut marks = Items::new(alloc);
    for _ty in params {
        marks.push(false)?;
    }
    Ok(marks)
}

// Parameters of these types.
fn core_params(alloc: Global, params: &[Ty]) -> Result<Items<CoreParam>, AllocError>
    ensures { IfOk result (λ all. all ≡ map functions.core_param params.now) }
{
    let mut all = Items::new(alloc);
    for ty in params {
        all.push(CoreParam {
            ty: *ty,
            is_virtual: false,
        })?;
    }
    Ok(all)
}

// A function that is declared here, and not defined yet.
fn new_function(alloc: Global, name: &Name, ty: Ty, params: &[Ty]) -> Result<CoreFn, AllocError>
    ensures { IfOk result (λ f. function_view f ≡ declared_function name.now (heading ty params.now)) }
{
    Ok(CoreFn {
        name: Text::from_str(alloc, name.text.as_str())?,
        defined: false,
        in_class: false,
        member: false,
        place: name.place,
        result: ty,
        params: core_params(alloc, params)?,
        locals: Items::new(alloc),
        body: None,
    })
}

// What is seen of it.
fn new_head(
    alloc: Global,
    number: u32,
    name: &Name,
    ty: Ty,
    params: &[Ty],
) -> Result<FnHead, AllocError>
    ensures { IfOk result (λ h. h ≡ head_of number (declared_function name.now (heading ty params.now))) }
{
    Ok(FnHead {
        number,
        name: Text::from_str(alloc, name.text.as_str())?,
        params: Items::from_slice(alloc, params)?,
        virtuals: none_virtual(alloc, params)?,
        result: ty,
    })
}

// A new function, behind the others.
fn push_function(
    alloc: Global,
    env: &mut Env,
    fs: &mut Items<CoreFn>,
    name: &Name,
    ty: Ty,
    params: &[Ty],
) -> Result<usize, CheckEnd>
    requires { Sees env.old fs.old }
    ensures number { Gives (λ n. n) result (Ok (length fs.old)) }
    ensures functions { OnOk result (functions_view fs.new ≡ functions_view fs.old ++ declared_function name.now (heading ty params.now) ∷ []) }
    ensures env { OnOk result (env.new ≡ seeing env.old fs.new) }
{
    let number = next_number(fs)?;
    let head = new_head(alloc, number, name, ty, params)?;
    fs.push(new_function(alloc, name, ty, params)?)?;
    env.declare_function(head)?;
    Ok(number as usize)
}

/// The place of the function that a head declares. It is put behind the others where none is
/// declared so.
pub fn declare(
    alloc: Global,
    env: &mut Env,
    fs: &mut Items<CoreFn>,
    name: &Name,
    ty: Ty,
    params: &[Ty],
) -> Result<usize, CheckEnd>
    requires { Sees env.old fs.old }
    ensures number { Gives (λ n. n) result (Ok (number_of (functions_view fs.new) name.now.text params.now)) }
    ensures low { IfOk result (λ n. n < length fs.new) }
    ensures functions { OnOk result (functions_view fs.new ≡ with_function (functions_view fs.old) name.now (heading ty params.now)) }
    ensures env { OnOk result (env.new ≡ seeing env.old fs.new) }
{
    match find(env, fs.as_slice(), name.text.as_str(), params) {
        Some(n) => Ok(n),
        None => push_function(alloc, env, fs, name, ty, params),
    }
}

// ---- defining

// The function with its variables and its body.
#[tactic(auto, using(mm_core::proofs::Views::core_rules))]
fn with_parts(
    alloc: Global,
    f: &CoreFn,
    locals: &[Ty],
    body: Items<CoreStmt>,
) -> Result<CoreFn, AllocError>
    ensures { IfOk result (λ g. function_view g ≡ defined_with locals.now (block_of (steps_view body)) (function_view f.now)) }
{
    Ok(CoreFn {
        name: Text::from_str(alloc, f.name.as_str())?,
        defined: true,
        in_class: f.in_class,
        member: f.member,
        place: f.place,
        result: f.result,
        params: Items::from_slice(alloc, f.params.as_slice())?,
        locals: Items::from_slice(alloc, locals)?,
        body: Some(CoreStmt::Block(body)),
    })
}

/// Gives the function at a place its variables and its body.
pub fn define(
    alloc: Global,
    fs: &mut Items<CoreFn>,
    n: usize,
    locals: &[Ty],
    body: Items<CoreStmt>,
) -> Result<(), AllocError>
    requires { n < length fs.old }
    ensures functions { OnOk result (functions_view fs.new ≡ with_body (functions_view fs.old) n locals.now (block_of (steps_view body))) }
    ensures heads { OnOk result (seen (functions_view fs.new) ≡ seen (functions_view fs.old)) }
{
    let f = with_parts(alloc, &fs.as_slice()[n], locals, body)?;
    fs.set(n, f);
    Ok(())
}
