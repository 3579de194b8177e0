//! Functions: a head, and a body behind it.

ghost use Rattle.std.specs.Prelude.{◌≡◌, drop, Err, OnOk};
ghost use Rattle.mm_syntax.specs.View as t;
ghost use Rattle.mm_syntax.specs.Tree as tree;
ghost use Rattle.mm_checks.specs.Checks.{Gives};
ghost use Rattle.mm_unit_typing.specs.Functions.{seen};
ghost use Rattle.mm_unit_typing.specs.JudgeUnit.{judge_function};
ghost use Rattle.mm_check_function.specs.Known.{functions_view};

use crate::head::check_head;
use crate::known::{declare, define};
use crate::param::unbuilt_at;
use mm_base::place::Place;
use mm_check_stmt::stmt::check_stmt;
use mm_checks::CheckEnd;
use mm_classes::class::Ty;
use mm_core::tree::CoreFn;
use mm_scopes::env::Env;
use mm_syntax::decl::{FnDecl, FnDeclKind, Head};
use mm_syntax::stmt::Stmt;
use mm_unit_typing::here::Here;
use sqlite_items::Items;
use std::alloc::Global;

// The locals behind the first ones.
fn behind(locals: &[Ty], n: usize) -> &[Ty]
    ensures { result.now ≡ drop n locals.now }
{
    match locals.get(n..) {
        Some(rest) => rest,
        None => &[],
    }
}

// A declaration.
#[tactic(auto, unfolding(mm_unit_typing::specs::JudgeUnit::judge_function))]
fn check_declaration(
    alloc: Global,
    env: &mut Env,
    fs: &mut Items<CoreFn>,
    place: Place,
    x: &Head,
) -> Result<(), CheckEnd>
    requires { env.old ≡ seen (functions_view fs.old) }
    ensures is { Gives (λ u. functions_view fs.new) result (judge_function (functions_view fs.old) (tree.declaration place x.now)) }
    ensures env { OnOk result (env.new ≡ seen (functions_view fs.new)) }
{
    let head = check_head(alloc, env, fs.as_slice(), false, x)?;
    env.leave(0);
    declare(alloc, env, fs, &x.name, head.result, head.params.as_slice())?;
    Ok(())
}

// A definition. The body sees the function itself.
#[tactic(auto, unfolding(mm_unit_typing::specs::JudgeUnit::judge_function, mm_unit_typing::specs::JudgeUnit::judge_body))]
fn check_definition(
    alloc: Global,
    env: &mut Env,
    fs: &mut Items<CoreFn>,
    place: Place,
    x: &Head,
    body: &Stmt,
) -> Result<(), CheckEnd>
    requires { env.old ≡ seen (functions_view fs.old) }
    ensures is { Gives (λ u. functions_view fs.new) result (judge_function (functions_view fs.old) (tree.definition place x.now (t.stmt_view body.now))) }
    ensures env { OnOk result (env.new ≡ seen (functions_view fs.new)) }
{
    let head = check_head(alloc, env, fs.as_slice(), true, x)?;
    let params = head.params.as_slice();
    let n = declare(alloc, env, fs, &x.name, head.result, params)?;
    let here = Here {
        outer: 0,
        in_loop: false,
        result: head.result,
    };
    let mut locals = Items::from_slice(alloc, params)?;
    let steps = check_stmt(alloc, env, &mut locals, &here, body)?;
    env.leave(0);
    define(alloc, fs, n, behind(locals.as_slice(), params.len()), steps)?;
    Ok(())
}

/// A function of the unit, behind those that are declared before it: it is put behind them, or
/// defined at its place among them. The environment sees it from here on.
#[tactic(auto, unfolding(mm_unit_typing::specs::JudgeUnit::judge_function))]
pub fn check_function(
    alloc: Global,
    env: &mut Env,
    fs: &mut Items<CoreFn>,
    x: &FnDecl,
) -> Result<(), CheckEnd>
    requires { env.old ≡ seen (functions_view fs.old) }
    ensures is { Gives (λ u. functions_view fs.new) result (judge_function (functions_view fs.old) (t.function_view x.now)) }
    ensures env { OnOk result (env.new ≡ seen (functions_view fs.new)) }
{
    match &x.kind {
        FnDeclKind::Declaration(head) => check_declaration(alloc, env, fs, x.place, head),
        FnDeclKind::Definition(head, body) => {
            check_definition(alloc, env, fs, x.place, head, body)
        }
        FnDeclKind::MemberDefinition(_, _, _)
        | FnDeclKind::ConstructorDefinition(_, _, _, _)
        | FnDeclKind::Method(_, _, _)
        | FnDeclKind::Destructor(_, _, _)
        | FnDeclKind::Constructor(_, _, _) => unbuilt_at(alloc, x.place),
    }
}
