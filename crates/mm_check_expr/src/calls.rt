//! What names and calls make, or their own fault.

ghost use Rattle.std.specs.Prelude.{◌≡◌, [], ◌∷◌, Ok, Some, None, map, length, is_some, not, IfOk};
ghost use Rattle.std.specs.List.{list_any};
ghost use Rattle.mm_core.specs.Valid.{types_asked, type_answered};
ghost use Rattle.mm_syntax.specs.View.{expr_view};
ghost use Rattle.mm_checks.specs.Checks.{Gives};
ghost use Rattle.mm_scopes.specs.Names.{lookup, named};
ghost use Rattle.mm_typing.specs.Typed.{typed_view, typeds_view, arg_of};
ghost use Rattle.mm_typing.specs.Calls.{builtin, function, declared, own_name, called_name, call_of, own_call, builtin_of};
ghost use Rattle.mm_check_expr.specs.Callee.{callee_view, name_in};

use crate::convert::{convert_all, refuse, start_of};
use mm_base::code::Code;
use mm_base::place::Place;
use mm_base::text::Text;
use mm_base::world::Builtin;
use mm_checks::CheckEnd;
use mm_classes::class::Ty;
use mm_core::tree::CoreExpr;
use mm_overload::choice::{Best, get_best};
use mm_overload::conv::Arg;
use mm_scopes::env::Env;
use mm_scopes::head::FnHead;
use mm_syntax::expr::{Expr, ExprKind};
use mm_typing::typed::{Kind, TypedExpr};
use sqlite_items::Items;
use std::alloc::{AllocError, Global};

/// What the part before the parentheses of a call is.
#[derive(Clone, Copy)]
pub(crate) enum Callee {
    NoFunction,
    Builtin(Builtin),
    /// The name of functions that no call takes.
    Main,
    /// The name of functions.
    Functions,
}

// The built-in function of a name.
fn find_builtin(name: &str) -> Option<Builtin>
    ensures { result ≡ builtin_of name.now }
{
    if name == "mm_put" {
        Some(Builtin::Put)
    } else if name == "mm_get" {
        Some(Builtin::Get)
    } else if name == "mm_more" {
        Some(Builtin::More)
    } else {
        None
    }
}

// ---- names

pub(crate) fn make_name(
    alloc: Global,
    env: &Env,
    place: Place,
    name: &str,
) -> Result<TypedExpr, CheckEnd>
    ensures { Gives typed_view result (own_name place name.now (declared env.now name.now) (lookup env.now.vars name.now)) }
{
    if let Some(var) = env.lookup(name) {
        return Ok(TypedExpr {
            core: CoreExpr::Local(var.local),
            ty: var.ty,
            kind: Kind::Local(var.local),
        });
    }
    if find_builtin(name).is_some() || env.count_named(name) > 0 {
        refuse(alloc, Code::S12, place, name)
    } else {
        refuse(alloc, Code::S1, place, name)
    }
}

// What a name that means no variable calls.
fn find_functions(alloc: Global, env: &Env, place: Place, name: &str) -> Result<Callee, CheckEnd>
    ensures { Gives (callee_view env.now name.now) result (called_name env.now place name.now None) }
{
    match find_builtin(name) {
        Some(which) => Ok(Callee::Builtin(which)),
        None => {
            if env.count_named(name) == 0 {
                let name = Text::from_str(alloc, name)?;
                return Err(CheckEnd::Fault(Code::S1, place, name));
            }
            if name == "main" {
                Ok(Callee::Main)
            } else {
                Ok(Callee::Functions)
            }
        }
    }
}

/// What a called name calls.
pub(crate) fn find_callee(
    alloc: Global,
    env: &Env,
    place: Place,
    name: &str,
) -> Result<Callee, CheckEnd>
    ensures { Gives (callee_view env.now name.now) result (called_name env.now place name.now (lookup env.now.vars name.now)) }
{
    match env.lookup(name) {
        Some(_) => Ok(Callee::NoFunction),
        None => find_functions(alloc, env, place, name),
    }
}

// ---- calls

fn as_arg(x: &TypedExpr) -> Arg
    ensures { result ≡ arg_of (typed_view x.now) }
{
    let (zero, lvalue) = match &x.kind {
        Kind::Value => (false, false),
        Kind::Zero => (true, false),
        Kind::Local(_) => (false, true),
    };
    Arg {
        ty: x.ty,
        zero,
        lvalue,
    }
}

fn as_args(alloc: Global, xs: &[TypedExpr]) -> Result<Items<Arg>, AllocError>
    ensures { IfOk result (λ args. args ≡ map arg_of (typeds_view xs.now)) }
{
    let mut args = Items::new(alloc);
    for x in xs {
        args.push(as_arg(x))?;
    }
    Ok(args)
}

fn is_open(virtuals: &[bool]) -> bool
    ensures { result ≡ list_any (λ v. v) virtuals.now }
{
    virtuals.iter().any(|v| *v)
}

fn call_function(
    alloc: Global,
    head: &FnHead,
    args: Items<TypedExpr>,
) -> Result<TypedExpr, CheckEnd>
    requires { length args ≡ length head.now.params }
    ensures { Gives typed_view result (Ok (call_of (function head.now) (typeds_view args))) }
{
    let cores = convert_all(alloc, head.params.as_slice(), args)?;
    let core = if is_open(head.virtuals.as_slice()) {
        CoreExpr::OpenCall(head.number, cores)
    } else {
        CoreExpr::Call(head.number, cores)
    };
    Ok(TypedExpr {
        core,
        ty: head.result,
        kind: Kind::Value,
    })
}

fn asked(alloc: Global, which: Builtin) -> Result<Items<Ty>, AllocError>
    ensures { IfOk result (λ types. types ≡ types_asked which) }
{
    let mut types = Items::new(alloc);
    if matches!(which, Builtin::Put) {
        types.push(Ty::Int)?;
    }
    Ok(types)
}

fn answered(which: Builtin) -> Ty
    ensures { result ≡ type_answered which }
{
    match which {
        Builtin::Put => Ty::Void,
        Builtin::Get | Builtin::More => Ty::Int,
    }
}

fn call_builtin(
    alloc: Global,
    which: Builtin,
    args: Items<TypedExpr>,
) -> Result<TypedExpr, CheckEnd>
    requires { length args ≡ length (types_asked which) }
    ensures { Gives typed_view result (Ok (call_of (builtin which) (typeds_view args))) }
{
    let params = asked(alloc, which)?;
    let cores = convert_all(alloc, params.as_slice(), args)?;
    Ok(TypedExpr {
        core: CoreExpr::Builtin(which, cores),
        ty: answered(which),
        kind: Kind::Value,
    })
}

fn resolve_builtin(
    alloc: Global,
    env: &Env,
    callee: &Expr,
    which: Builtin,
    args: Items<TypedExpr>,
) -> Result<TypedExpr, CheckEnd>
    ensures { Gives typed_view result (own_call env.now.classes (expr_view callee.now) (Some (builtin which ∷ [])) (typeds_view args)) }
{
    let types = as_args(alloc, args.as_slice())?;
    let params = asked(alloc, which)?;
    match get_best(env.graph(), types.as_slice(), &[params.as_slice()]) {
        Best::One(_) => call_builtin(alloc, which, args),
        Best::None => refuse(alloc, Code::S8, start_of(callee), callee.first_text()),
        Best::Several => refuse(alloc, Code::S9, start_of(callee), callee.first_text()),
    }
}

fn resolve_named(
    alloc: Global,
    env: &Env,
    e: &Expr,
    name: &str,
    args: Items<TypedExpr>,
) -> Result<TypedExpr, CheckEnd>
    ensures { Gives typed_view result (own_call env.now.classes (expr_view e.now) (Some (map function (named name.now env.now.functions))) (typeds_view args)) }
{
    let types = as_args(alloc, args.as_slice())?;
    let params = env.params_named(name)?;
    match get_best(env.graph(), types.as_slice(), params.as_slice()) {
        Best::One(i) => call_function(alloc, env.nth_named(name, i), args),
        Best::None => refuse(alloc, Code::S8, start_of(e), e.first_text()),
        Best::Several => refuse(alloc, Code::S9, start_of(e), e.first_text()),
    }
}

fn name_of(e: &Expr) -> &str
    ensures { result.now ≡ name_in (expr_view e.now) }
{
    match &e.kind {
        ExprKind::Name(text) => text.as_str(),
        _ => "",
    }
}

pub(crate) fn make_call(
    alloc: Global,
    env: &Env,
    e: &Expr,
    callee: Callee,
    args: Items<TypedExpr>,
) -> Result<TypedExpr, CheckEnd>
    ensures { Gives typed_view result (own_call env.now.classes (expr_view e.now) (callee_view env.now (name_in (expr_view e.now)) callee) (typeds_view args)) }
{
    match callee {
        Callee::NoFunction => refuse(alloc, Code::S12, start_of(e), e.first_text()),
        Callee::Main => refuse(alloc, Code::S8, start_of(e), e.first_text()),
        Callee::Builtin(which) => resolve_builtin(alloc, env, e, which, args),
        Callee::Functions => resolve_named(alloc, env, e, name_of(e), args),
    }
}
