// The code of functions.

ghost use Rattle.std.specs.Prelude.{◌≡◌, ◌<◌, ◌^◌, ◌++◌, [], false, map, IfOk, OnOk};
ghost use Rattle.mm_core.specs.Run as run;
ghost use Rattle.mm_core.specs.View as view;
ghost use Rattle.mm_core.specs.View.{stmt_view};
ghost use Rattle.mm_core.specs.Heads as heads;
ghost use Rattle.mm_c.specs.Tree as tree;
ghost use Rattle.mm_c.specs.Tree.{◌⨾◌};
ghost use Rattle.mm_c.specs.View.{block_view, code_view, function_view};
ghost use Rattle.mm_simulate.specs.Lowered as lowered;
ghost use Rattle.mm_lower_trees.specs.Scopes.{around_of, no_layout, program_of};
ghost use Rattle.mm_lower.specs.Needed.{needed};
ghost use Rattle.mm_lower.specs.Written as written;
ghost use Rattle.mm_lower.specs.Written.{IsWritable, KeepsAtAll};

use crate::head::{argument_types, is_main, kind_of_result, local_types, locals_from, variables};
use crate::temporary::note_code;
use mm_c::tree::{CBlock, CFn, CLinkage, CLocal, CProto, CStmt};
use mm_classes::class::Ty;
use mm_core::tree::{CoreFn, CoreStmt};
use mm_lower_trees::callee::name_of;
use mm_lower_trees::name::plain;
use mm_lower_trees::node::zero_of;
use mm_lower_trees::scope::Scope;
use mm_lower_trees::stmt::lower_stmt;
use mm_lower_trees::write::trap;
use sqlite_items::Items;
use std::alloc::{AllocError, Global};

// What stands behind a body: `main` gives 0, and another function with a result traps.
fn end(alloc: Global, code: &mut Items<CStmt>, function: &CoreFn) -> Result<(), AllocError>
    ensures { OnOk result (code_view code.new ≡ code_view code.old ⨾ lowered.ending function.now.result (heads.is_main (view.function_view function.now))) }
{
    match &function.result {
        Ty::Void => Ok(()),
        Ty::Bool | Ty::Int | Ty::Unsigned | Ty::Ptr(_) | Ty::Ref(_) => {
            if is_main(function) {
                code.push(CStmt::ReturnValue(plain(0)))
            } else {
                trap(alloc, code, 5)?;
                code.push(CStmt::ReturnValue(zero_of(&function.result)))
            }
        }
    }
}

// The code of a body, by the types of the locals and the number of the arguments.
fn lower_body(
    alloc: Global,
    functions: &[CoreFn],
    main: usize,
    types: &[Ty],
    arguments: usize,
    body: &CoreStmt,
) -> Result<Items<CStmt>, AllocError>
    requires main { main ≡ run.number_of_main (map view.function_view functions.now) }
    requires lowered { lowered.IsLoweredStmt (around_of functions.now types.now arguments) (stmt_view body.now) }
    requires few { lowered.reach_stmt (stmt_view body.now) < 2 ^ 32 }
    ensures { IfOk result (λ code. code_view code ≡ lowered.lowered_stmt (around_of functions.now types.now arguments) no_layout (lowered.name_of (program_of functions.now)) 0 (stmt_view body.now)) }
{
    let scope = Scope {
        functions,
        main,
        locals: types,
        arguments,
    };
    let mut code = Items::new(alloc);
    lower_stmt(alloc, &scope, body, 0, &mut code)?;
    Ok(code)
}

// The block of a function, by its variables and its code: the temporaries are declared behind the variables.
fn finish(
    alloc: Global,
    function: &CoreFn,
    mut locals: Items<CLocal>,
    mut code: Items<CStmt>,
) -> Result<CBlock, AllocError>
    ensures { IfOk result (λ b. block_view b ≡ tree.block (locals ++ needed (code_view code)) (code_view code ⨾ lowered.ending function.now.result (heads.is_main (view.function_view function.now)))) }
{
    let mut temporaries = Items::new(alloc);
    note_code(alloc, code.as_slice(), &mut temporaries)?;
    locals.append(temporaries)?;
    end(alloc, &mut code, function)?;
    Ok(CBlock { locals, body: code })
}

// The block of a function: its variables and temporaries, and its code.
fn lower_block(
    alloc: Global,
    functions: &[CoreFn],
    main: usize,
    function: &CoreFn,
    body: &CoreStmt,
) -> Result<CBlock, AllocError>
    requires main { main ≡ run.number_of_main (map view.function_view functions.now) }
    requires writable { IsWritable (program_of functions.now) (view.function_view function.now) (stmt_view body.now) }
    ensures { IfOk result (λ b. block_view b ≡ written.block_of (program_of functions.now) (view.function_view function.now) (stmt_view body.now)) }
{
    let arguments = argument_types(alloc, function)?.len();
    let types = local_types(alloc, function)?;
    let locals = variables(alloc, function, types.as_slice(), arguments)?;
    let code = lower_body(alloc, functions, main, types.as_slice(), arguments, body)?;
    let block = finish(alloc, function, locals, code)?;
    Ok(block)
}

/// The function of this number, by its body. In any C program that holds it, and whose functions stand
/// for those of the program, it does what the function does.
pub fn lower_fn(
    alloc: Global,
    functions: &[CoreFn],
    main: usize,
    number: usize,
    function: &CoreFn,
    body: &CoreStmt,
) -> Result<CFn, AllocError>
    requires main { main ≡ run.number_of_main (map view.function_view functions.now) }
    requires writable { IsWritable (program_of functions.now) (view.function_view function.now) (stmt_view body.now) }
    ensures lowered { IfOk result (λ f. function_view f ≡ written.function_of (program_of functions.now) (record { number = number; function = view.function_view function.now; body = stmt_view body.now })) }
    ensures keeps { IfOk result (λ f. KeepsAtAll (program_of functions.now) (record { number = number; function = view.function_view function.now; body = stmt_view body.now }) (function_view f)) }
{
    let types = argument_types(alloc, function)?;
    let params = locals_from(alloc, types.as_slice(), 0)?;
    let linkage = if number == main {
        CLinkage::Public
    } else {
        CLinkage::Static
    };
    Ok(CFn {
        linkage,
        result: kind_of_result(&function.result),
        name: name_of(alloc, functions, main, number)?,
        params,
        body: lower_block(alloc, functions, main, function, body)?,
    })
}

/// The head of the function of this number.
pub fn lower_head(
    alloc: Global,
    functions: &[CoreFn],
    main: usize,
    number: usize,
    function: &CoreFn,
) -> Result<CProto, AllocError>
    requires main { main ≡ run.number_of_main (map view.function_view functions.now) }
    ensures { IfOk result (λ head. head ≡ record { is_inline = false; result = lowered.kind_of_result function.now.result; name = lowered.name_of (program_of functions.now) number; params = lowered.locals_from 0 (heads.argument_types [] (view.function_view function.now)) }) }
{
    let types = argument_types(alloc, function)?;
    let params = locals_from(alloc, types.as_slice(), 0)?;
    Ok(CProto {
        is_inline: false,
        result: kind_of_result(&function.result),
        name: name_of(alloc, functions, main, number)?,
        params,
    })
}
