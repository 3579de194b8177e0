//! Conversions, and the faults of operands.

ghost use Rattle.std.specs.Prelude.{◌≡◌, Ok, Err, map, length};
ghost use Rattle.mm_core.specs.View.{expr_view as core_view};
ghost use Rattle.mm_syntax.specs.View.{expr_view};
ghost use Rattle.mm_syntax.specs.First.{place_of};
ghost use Rattle.mm_checks.specs.Checks.{Gives, at, demand};
ghost use Rattle.mm_typing.specs.Typed.{typed_view, typeds_view};
ghost use Rattle.mm_typing.specs.Conversions.{convert_to, converted, converted_all, converts, unconverted, as_type as becomes};

use crate::types::{is_convertible, is_same};
use mm_base::code::Code;
use mm_base::place::Place;
use mm_base::text::Text;
use mm_checks::{CheckEnd, need};
use mm_classes::class::Ty;
use mm_core::part::Target;
use mm_core::tree::CoreExpr;
use mm_syntax::expr::Expr;
use mm_typing::typed::TypedExpr;
use sqlite_items::{Boxed, Items};
use std::alloc::Global;

/// A fault, where nothing can be made.
pub(crate) fn refuse(
    alloc: Global,
    code: Code,
    place: Place,
    text: &str,
) -> Result<TypedExpr, CheckEnd>
    ensures { Gives typed_view result (Err (at code place text.now)) }
{
    let text = Text::from_str(alloc, text)?;
    Err(CheckEnd::Fault(code, place, text))
}

/// The place of an expression's first token.
pub(crate) fn start_of(e: &Expr) -> Place
    ensures { result ≡ place_of (expr_view e.now) }
{
    e.place
}

/// That a value converts to a type; its text is looked for where it doesn't.
pub(crate) fn need_converts(alloc: Global, from: &Ty, to: &Ty, e: &Expr) -> Result<(), CheckEnd>
    ensures { Gives (λ u. u) result (demand (converts from.now to.now) (unconverted (expr_view e.now))) }
{
    if is_convertible(from, to) {
        return Ok(());
    }
    need(alloc, false, Code::S10, start_of(e), e.first_text())
}

fn converted_to(alloc: Global, core: CoreExpr, to: &Ty) -> Result<CoreExpr, CheckEnd>
    ensures { Gives core_view result (Ok (convert_to to.now (core_view core))) }
{
    match to {
        Ty::Bool => Ok(CoreExpr::Convert(Target::Bool, Boxed::new(alloc, core)?)),
        Ty::Int => Ok(CoreExpr::Convert(Target::Int, Boxed::new(alloc, core)?)),
        Ty::Unsigned => Ok(CoreExpr::Convert(Target::Unsigned, Boxed::new(alloc, core)?)),
        Ty::Void | Ty::Ptr(_) | Ty::Ref(_) => Ok(core),
    }
}

/// One node of conversion, or none between equal types.
pub(crate) fn convert(alloc: Global, x: TypedExpr, to: &Ty) -> Result<CoreExpr, CheckEnd>
    ensures { Gives core_view result (Ok (converted to.now (typed_view x))) }
{
    if is_same(&x.ty, to) {
        Ok(x.core)
    } else {
        converted_to(alloc, x.core, to)
    }
}

/// The same, in a box of its own.
pub(crate) fn convert_boxed(
    alloc: Global,
    x: TypedExpr,
    to: &Ty,
) -> Result<Boxed<CoreExpr>, CheckEnd>
    ensures { Gives core_view result (Ok (converted to.now (typed_view x))) }
{
    let core = convert(alloc, x, to)?;
    Ok(Boxed::new(alloc, core)?)
}

/// Each argument as its parameter asks.
pub(crate) fn convert_all(
    alloc: Global,
    params: &[Ty],
    mut args: Items<TypedExpr>,
) -> Result<Items<CoreExpr>, CheckEnd>
    requires { length args ≡ length params.now }
    ensures { Gives (map core_view) result (Ok (converted_all params.now (typeds_view args))) }
{
    match params {
        [] => Ok(Items::new(alloc)),
        [front @ .., p] => match args.pop() {
            None => Ok(Items::new(alloc)),
            Some(x) => {
                let mut cores = convert_all(alloc, front, args)?;
                cores.push(convert(alloc, x, p)?)?;
                Ok(cores)
            }
        },
    }
}

/// A typed value that is to become a type: the tree with its conversion, or the fault of a missing one at the
/// expression's first token.
pub fn as_type(alloc: Global, to: Ty, e: &Expr, x: TypedExpr) -> Result<CoreExpr, CheckEnd>
    ensures { Gives core_view result (becomes to (expr_view e.now) (typed_view x)) }
{
    need_converts(alloc, &x.ty, &to, e)?;
    convert(alloc, x, &to)
}
