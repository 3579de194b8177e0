// What stands around a body.

ghost use Rattle.std.specs.Prelude.{◌≡◌, map, slice_get};
ghost use Rattle.mm_core.specs.Heads.{type_at};
ghost use Rattle.mm_core.specs.Run.{number_of_main};
ghost use Rattle.mm_core.specs.Valid.{result_of_function};
ghost use Rattle.mm_core.specs.View.{function_view};

use mm_classes::class::Ty;
use mm_core::tree::CoreFn;

/// The functions of the program, of which one may be `main`, and the locals of the function whose body it is.
#[derive(Clone, Copy)]
pub struct Scope<'a> {
    pub functions: &'a [CoreFn],
    /// The number of `main`, or of all functions where it is not defined.
    pub main: usize,
    /// The types of the locals: first of the arguments, then of the variables.
    pub locals: &'a [Ty],
    /// How many of them are arguments.
    pub arguments: usize,
    pub ghost entry: { main ≡ number_of_main (map function_view functions.now) },
}

impl<'a> Scope<'a> {
    /// The type of a local.
    pub fn type_at(&self, local: u32) -> Ty
        ensures { result ≡ type_at self.now.locals.now local }
    {
        match self.locals.get(local as usize) {
            Some(ty) => *ty,
            None => Ty::Void,
        }
    }

    /// The type of what a function gives.
    pub fn result_of(&self, function: u32) -> Ty
        ensures { result ≡ result_of_function (slice_get (map function_view self.now.functions.now) function) }
    {
        match self.functions.get(function as usize) {
            Some(function) => function.result,
            None => Ty::Void,
        }
    }
}
