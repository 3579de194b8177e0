//! What a declaration writes: types, names and marks.

ghost use Rattle.std.specs.Prelude.{◌≡◌, Ok, Err};
ghost use Rattle.mm_classes.specs.declared.class.Ty.{Ty};
ghost use Rattle.mm_core.specs.View.{expr_view};
ghost use Rattle.mm_base.specs.declared.code.TheConstants.Code.{S12};
ghost use Rattle.mm_syntax.specs.Forms.{mark_or};
ghost use Rattle.mm_checks.specs.Checks.{Gives, at, demand};
ghost use Rattle.mm_unit_typing.specs.Declarators as declarators;
ghost use Rattle.mm_unit_typing.specs.Declarators.{scalar_of};
ghost use Rattle.mm_unit_typing.specs.Made.{zero_of};
ghost use Rattle.mm_typing.specs.Conversions as conversions;
ghost use Rattle.mm_unit_typing.specs.Judge as judges;

use mm_base::code::Code;
use mm_base::place::Place;
use mm_base::text::Text;
use mm_checks::{CheckEnd, need};
use mm_classes::class::Ty;
use mm_core::tree::CoreExpr;
use mm_scopes::env::Env;
use mm_syntax::expr::{TypeName, TypeNameKind};
use mm_syntax::name::{DeclaratorMark, Name};
use std::alloc::Global;

// ---- types

// What a type's words name, where that is built.
fn scalar_type(kind: &TypeNameKind) -> Option<Ty>
    ensures { result ≡ scalar_of kind.now }
{
    match kind {
        TypeNameKind::Void => Some(Ty::Void),
        TypeNameKind::Bool => Some(Ty::Bool),
        TypeNameKind::Int => Some(Ty::Int),
        TypeNameKind::Unsigned(_) => Some(Ty::Unsigned),
        TypeNameKind::Class(_) => None,
    }
}

// A type that is not built yet.
fn unbuilt_type(alloc: Global, place: Place) -> Result<Ty, CheckEnd>
    ensures { Gives (λ t. t) result (Err (declarators.unbuilt place)) }
{
    let text = Text::from_str(alloc, "")?;
    Err(CheckEnd::Fault(Code::N0, place, text))
}

/// The type that a declaration names; a class's is not built yet.
pub fn check_type(alloc: Global, name: &TypeName) -> Result<Ty, CheckEnd>
    ensures { Gives (λ t. t) result (judges.judge_type name.now) }
{
    match scalar_type(&name.kind) {
        Some(ty) => Ok(ty),
        None => unbuilt_type(alloc, name.place),
    }
}

/// Whether a type is `void`.
pub fn is_void(ty: &Ty) -> bool
    ensures { result ≡ conversions.is_void ty.now }
{
    matches!(ty, Ty::Void)
}

// Whether a variable or a parameter of this type holds a value.
fn holds_value(mark: &Option<DeclaratorMark>, ty: &Ty) -> bool
    ensures { result ≡ declarators.holds_value mark.now ty.now }
{
    match mark {
        Some(_) => false,
        None => !is_void(ty),
    }
}

// ---- marks

/// The place of a declarator's first token: the mark, or else what follows.
pub fn first_place(mark: &Option<DeclaratorMark>, place: Place) -> Place
    ensures { result ≡ mark_or mark.now place }
{
    match mark {
        Some(mark) => mark.place,
        None => place,
    }
}

// Its text.
fn first_text<'a>(mark: &Option<DeclaratorMark>, text: &'a str) -> &'a str
    ensures { result.now ≡ declarators.text_or mark.now text.now }
{
    match mark {
        Some(mark) => mark.kind.spelling(),
        None => text,
    }
}

/// What holds a value: a variable, or a parameter.
pub fn need_value(
    alloc: Global,
    ty: &Ty,
    mark: &Option<DeclaratorMark>,
    place: Place,
    text: &str,
) -> Result<(), CheckEnd>
    ensures { Gives (λ u. u) result (demand (declarators.holds_value mark.now ty.now) (at S12 (mark_or mark.now place) (declarators.text_or mark.now text.now))) }
{
    let place = first_place(mark, place);
    let text = first_text(mark, text);
    need(alloc, holds_value(mark, ty), Code::S12, place, text)
}

// Whether no mark stands.
fn is_unmarked(mark: &Option<DeclaratorMark>) -> bool
    ensures { result ≡ declarators.is_unmarked mark.now }
{
    mark.is_none()
}

/// What a function gives has no mark.
pub fn need_unmarked(
    alloc: Global,
    mark: &Option<DeclaratorMark>,
    name: &Name,
) -> Result<(), CheckEnd>
    ensures { Gives (λ u. u) result (demand (declarators.is_unmarked mark.now) (declarators.wrong_kind mark.now name.now)) }
{
    let place = first_place(mark, name.place);
    let text = first_text(mark, name.text.as_str());
    need(alloc, is_unmarked(mark), Code::S12, place, text)
}

// ---- names

/// A name that is new in its scope, of what holds a value.
pub fn need_stand(
    alloc: Global,
    env: &Env,
    outer: usize,
    ty: &Ty,
    mark: &Option<DeclaratorMark>,
    name: &Name,
) -> Result<(), CheckEnd>
    ensures { Gives (λ u. u) result (judges.may_stand outer env.now.vars ty.now mark.now name.now) }
{
    let text = name.text.as_str();
    need(alloc, env.is_new(outer, text), Code::S2, name.place, text)?;
    need_value(alloc, ty, mark, name.place, text)
}

// Whether a name is not for programs.
fn is_reserved(text: &str) -> bool
    ensures { result ≡ declarators.is_reserved text.now }
{
    match text.as_bytes() {
        [a, b, c, ..] => *a == b'm' && *b == b'm' && *c == b'_',
        _ => false,
    }
}

/// A name that a program may declare.
pub fn need_yours(alloc: Global, name: &Name) -> Result<(), CheckEnd>
    ensures { Gives (λ u. u) result (judges.is_yours name.now) }
{
    let text = name.text.as_str();
    need(alloc, !is_reserved(text), Code::S18, name.place, text)
}

// ---- values

/// Zero, or false.
#[tactic(auto, using(mm_core::proofs::Views::core_rules))]
pub fn zero_value(ty: &Ty) -> CoreExpr
    ensures { expr_view result ≡ zero_of ty.now }
{
    match ty {
        Ty::Bool => CoreExpr::Bool(false),
        Ty::Unsigned => CoreExpr::Unsigned(0),
        Ty::Void | Ty::Int | Ty::Ptr(_) | Ty::Ref(_) => CoreExpr::Int(0),
    }
}
