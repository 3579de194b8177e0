// The name of a function that is called.

ghost use Rattle.std.specs.Prelude.{◌≡◌, map, IfOk};
ghost use Rattle.mm_core.specs.Run.{number_of_main};
ghost use Rattle.mm_core.specs.View.{function_view};
ghost use Rattle.mm_simulate.specs.Lowered.{name_of};
ghost use Rattle.mm_lower_trees.specs.Scopes.{named_in, program_of};

use crate::name::function_name;
use crate::scope::Scope;
use mm_base::text::Text;
use mm_core::tree::CoreFn;
use std::alloc::{AllocError, Global};

/// The name in C of the function of this number, where one of them may be `main`.
pub fn name_of(
    alloc: Global,
    functions: &[CoreFn],
    main: usize,
    number: usize,
) -> Result<Text, AllocError>
    requires { main ≡ number_of_main (map function_view functions.now) }
    ensures { IfOk result (λ t. t ≡ name_of (program_of functions.now) number) }
{
    let source = match functions.get(number) {
        Some(function) => function.name.as_str(),
        None => "",
    };
    function_name(alloc, number == main, number, source)
}

/// The name in C of the function of this number.
pub fn callee(alloc: Global, scope: &Scope, function: u32) -> Result<Text, AllocError>
    ensures { IfOk result (λ t. t ≡ named_in scope.now function) }
{
    name_of(alloc, scope.functions, scope.main, function as usize)
}
