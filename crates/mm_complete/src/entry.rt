// Whether `int main()` is defined.

ghost use Rattle.std.specs.Prelude.{◌≡◌, ◌↔◌, IsTrue, map};
ghost use Rattle.mm_classes.specs.declared.class.Ty.TheVariants.{Int};
ghost use Rattle.mm_core.specs.Heads as heads;
ghost use Rattle.mm_core.specs.Run as run;
ghost use Rattle.mm_core.specs.View.{function_view};
ghost use Rattle.mm_complete.specs.Complete.{HasMain};

use mm_classes::class::Ty;
use mm_core::tree::CoreFn;

fn is_int(ty: Ty) -> bool
    ensures { result ≡ heads.same_type ty Int }
{
    match ty {
        Ty::Int => true,
        Ty::Void | Ty::Bool | Ty::Unsigned => false,
        Ty::Ptr(_) | Ty::Ref(_) => false,
    }
}

// Whether a function is a `main` that may be where the program begins.
fn is_main(function: &CoreFn) -> bool
    ensures { result ≡ heads.is_main (function_view function.now) }
{
    function.name.as_str() == "main"
        && !function.member
        && function.params.is_empty()
        && is_int(function.result)
}

// The number of `main`, or of all functions where it is not defined.
fn number_of_main(functions: &[CoreFn]) -> usize
    ensures { result ≡ run.number_of_main (map function_view functions.now) }
{
    let mut number = 0;
    for function in functions {
        if function.defined && is_main(function) {
            return number;
        }
        number += 1;
    }
    number
}

/// Whether `int main()` is defined.
pub fn has_main(functions: &[CoreFn]) -> bool
    ensures { IsTrue result ↔ HasMain (map function_view functions.now) }
{
    number_of_main(functions) < functions.len()
}
