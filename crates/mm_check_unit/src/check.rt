//! The check of a unit: its declarations in order, each behind the functions that are declared
//! before it.

ghost use Rattle.std.specs.Prelude.{◌≡◌, map, OnOk};
ghost use Rattle.mm_core.specs.View.{function_view};
ghost use Rattle.mm_syntax.specs.View as t;
ghost use Rattle.mm_syntax.specs.View.{unit_view};
ghost use Rattle.mm_checks.specs.Checks.{Gives, Answers};
ghost use Rattle.mm_unit_typing.specs.Functions.{seen};
ghost use Rattle.mm_unit_typing.specs.Units.{unit_of, UnitTypes, UnitFaults};
ghost use Rattle.mm_unit_typing.specs.JudgeUnit.{judge_decl, judge_decls, judge_unit};
ghost use Rattle.mm_check_function.specs.Known.{functions_view};

use mm_check_function::function::check_function;
use mm_check_function::param::unbuilt_at;
use mm_checks::CheckEnd;
use mm_core::tree::CoreFn;
use mm_lookup::found::Context;
use mm_paths::graph::Graph;
use mm_scopes::env::Env;
use mm_syntax::decl::{Decl, DeclKind, Unit};
use sqlite_items::Items;
use std::alloc::Global;

// A declaration; a class is not built yet.
#[tactic(auto, unfolding(mm_unit_typing::specs::JudgeUnit::judge_decl))]
fn check_decl(
    alloc: Global,
    env: &mut Env,
    fs: &mut Items<CoreFn>,
    x: &Decl,
) -> Result<(), CheckEnd>
    requires { env.old ≡ seen (functions_view fs.old) }
    ensures is { Gives (λ u. functions_view fs.new) result (judge_decl (functions_view fs.old) (t.decl_view x.now)) }
    ensures env { OnOk result (env.new ≡ seen (functions_view fs.new)) }
{
    match &x.kind {
        DeclKind::Function(f) => check_function(alloc, env, fs, f),
        DeclKind::Class(_) => unbuilt_at(alloc, x.place),
    }
}

// Declarations, one after another.
fn check_decls(
    alloc: Global,
    env: &mut Env,
    fs: &mut Items<CoreFn>,
    decls: &[Decl],
) -> Result<(), CheckEnd>
    requires { env.old ≡ seen (functions_view fs.old) }
    ensures { Gives (λ u. functions_view fs.new) result (judge_decls (functions_view fs.old) (map t.decl_view decls.now)) }
{
    for x in decls {
        check_decl(alloc, env, fs, x)?;
    }
    Ok(())
}

// The functions of the declarations.
#[tactic(auto, unfolding(mm_unit_typing::specs::JudgeUnit::judge_unit))]
fn check_functions(alloc: Global, unit: &Unit) -> Result<Items<CoreFn>, CheckEnd>
    ensures { Gives (λ fs. unit_of (unit_view unit.now) (map function_view fs)) result (judge_unit (unit_view unit.now)) }
{
    let mut env = Env::new(alloc, Graph::new(alloc), Context { class: None });
    let mut fs = Items::new(alloc);
    check_decls(alloc, &mut env, &mut fs, unit.decls.as_slice())?;
    Ok(fs)
}

/// The checked functions of a unit, or its first fault.
pub fn check(alloc: Global, unit: &Unit) -> Result<Items<CoreFn>, CheckEnd>
    ensures is { Gives (λ fs. unit_of (unit_view unit.now) (map function_view fs)) result (judge_unit (unit_view unit.now)) }
    ensures answers { Answers (λ fs. unit_of (unit_view unit.now) (map function_view fs)) (UnitTypes (unit_view unit.now)) (UnitFaults (unit_view unit.now)) result }
{
    check_functions(alloc, unit)
}
