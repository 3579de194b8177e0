// The C program of a program.

ghost use Rattle.std.specs.Prelude.{◌≡◌, ◌<◌, ◌++◌, [], Some, true, length, map, slice_get, IfOk, OnOk};
ghost use Rattle.mm_core.specs.Run as run;
ghost use Rattle.mm_core.specs.View.{body_view, function_view};
ghost use Rattle.mm_c.specs.View.{item_view, program_view};
ghost use Rattle.mm_c.specs.WellFormed.{well_formed};
ghost use Rattle.mm_agree.specs.Translates.{Translates};
ghost use Rattle.mm_simulate.specs.Lowered.{entry, others, with_body};
ghost use Rattle.mm_simulate.specs.Simulates.{IsScalar, IsShallow};
ghost use Rattle.mm_lower_trees.specs.Scopes.{program_of};
ghost use Rattle.mm_lower.specs.Written as written;
ghost use Rattle.mm_lower.specs.Written.{AreWritable, FewTemporaries, IsLoweredTo};

use mm_c::tree::{CItem, CProgram};
use mm_core::tree::CoreFn;
use mm_lower::function::{lower_fn, lower_head};
use mm_lower::head::number_of_main;
use sqlite_items::Items;
use std::alloc::{AllocError, Global};

// The heads of all functions with bodies but `main`.
fn lower_heads(
    alloc: Global,
    functions: &[CoreFn],
    main: usize,
    items: &mut Items<CItem>,
) -> Result<(), AllocError>
    requires main { main ≡ run.number_of_main (map function_view functions.now) }
    ensures { OnOk result (map item_view items.new ≡ map item_view items.old ++ map (written.head_of (program_of functions.now)) (others (program_of functions.now))) }
{
    let mut number = 0;
    for function in functions {
        if number != main {
            match &function.body {
                None => (),
                Some(_) => {
                    let head = lower_head(alloc, functions, main, number, function)?;
                    items.push(CItem::Proto(head))?;
                }
            }
        }
        number += 1;
    }
    Ok(())
}

// A function, where it has a body.
fn lower_item(
    alloc: Global,
    functions: &[CoreFn],
    main: usize,
    number: usize,
    function: &CoreFn,
    items: &mut Items<CItem>,
) -> Result<(), AllocError>
    requires main { main ≡ run.number_of_main (map function_view functions.now) }
    requires there { slice_get functions.now number ≡ Some function.now }
    requires writable { AreWritable (program_of functions.now) }
    ensures { OnOk result (map item_view items.new ≡ map item_view items.old ++ map (written.item_of (program_of functions.now)) (with_body number (function_view function.now) (body_view function.now.body) [])) }
{
    match &function.body {
        None => Ok(()),
        Some(body) => {
            let lowered = lower_fn(alloc, functions, main, number, function, body)?;
            items.push(CItem::Function(lowered))
        }
    }
}

// A function, where it has a body and isn't `main`.
fn lower_other(
    alloc: Global,
    functions: &[CoreFn],
    main: usize,
    number: usize,
    function: &CoreFn,
    items: &mut Items<CItem>,
) -> Result<(), AllocError>
    requires main { main ≡ run.number_of_main (map function_view functions.now) }
    requires there { slice_get functions.now number ≡ Some function.now }
    requires writable { AreWritable (program_of functions.now) }
    ensures { OnOk result (map item_view items.new ≡ map item_view items.old ++ map (written.item_of (program_of functions.now)) (written.other_at (program_of functions.now) number (function_view function.now))) }
{
    if number == main {
        return Ok(());
    }
    lower_item(alloc, functions, main, number, function, items)
}

// `main`.
fn lower_main(
    alloc: Global,
    functions: &[CoreFn],
    main: usize,
    items: &mut Items<CItem>,
) -> Result<(), AllocError>
    requires main { main ≡ run.number_of_main (map function_view functions.now) }
    requires inside { main < length functions.now }
    requires writable { AreWritable (program_of functions.now) }
    ensures { OnOk result (map item_view items.new ≡ map item_view items.old ++ map (written.item_of (program_of functions.now)) (entry (program_of functions.now))) }
{
    lower_item(alloc, functions, main, main, &functions[main], items)?;
    Ok(())
}

// All functions with bodies but `main`.
fn lower_others(
    alloc: Global,
    functions: &[CoreFn],
    main: usize,
    items: &mut Items<CItem>,
) -> Result<(), AllocError>
    requires main { main ≡ run.number_of_main (map function_view functions.now) }
    requires writable { AreWritable (program_of functions.now) }
    ensures { OnOk result (map item_view items.new ≡ map item_view items.old ++ map (written.item_of (program_of functions.now)) (others (program_of functions.now))) }
{
    let mut number = 0;
    for function in functions {
        lower_other(alloc, functions, main, number, function, items)?;
        number += 1;
    }
    Ok(())
}

/// The C program of a merged program without classes: it does what the program does, and keeps the rules of C.
pub fn lower_program(alloc: Global, functions: &[CoreFn]) -> Result<CProgram, AllocError>
    requires scalar { IsScalar (program_of functions.now) }
    requires shallow { IsShallow (program_of functions.now) }
    requires few { FewTemporaries (program_of functions.now) }
    ensures lowered { IfOk result (λ q. IsLoweredTo (program_of functions.now) (program_view q)) }
    ensures translates { IfOk result (λ q. Translates (program_of functions.now) (program_view q)) }
    ensures well_formed { IfOk result (λ q. well_formed (program_view q) ≡ true) }
{
    let main = number_of_main(functions);
    let mut items = Items::new(alloc);
    lower_heads(alloc, functions, main, &mut items)?;
    lower_main(alloc, functions, main, &mut items)?;
    lower_others(alloc, functions, main, &mut items)?;
    Ok(CProgram { items })
}
