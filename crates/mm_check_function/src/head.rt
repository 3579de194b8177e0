//! Heads of functions.

ghost use Rattle.std.specs.Prelude.{◌≡◌, [], OnOk};
ghost use Rattle.mm_checks.specs.Checks.{Gives};
ghost use Rattle.mm_unit_typing.specs.Scopes.{inside, parameters_from};
ghost use Rattle.mm_unit_typing.specs.Functions as functions;
ghost use Rattle.mm_unit_typing.specs.Functions.{heading};
ghost use Rattle.mm_unit_typing.specs.JudgeUnit as judges;
ghost use Rattle.mm_check_function.specs.Known.{functions_view, heading_view, Sees, Stands};

use crate::known::{find, is_same};
use crate::param::check_params;
use mm_base::code::Code;
use mm_check_stmt::declare::{check_type, need_unmarked, need_yours};
use mm_checks::{CheckEnd, need};
use mm_classes::class::Ty;
use mm_core::tree::CoreFn;
use mm_scopes::env::Env;
use mm_syntax::decl::Head;
use sqlite_items::Items;
use std::alloc::Global;

/// What a head says of its function.
#[derive(Drop)]
pub struct Signature {
    pub result: Ty,
    pub params: Items<Ty>,
}

// Whether a declaration may stand behind those that are there.
fn may_declare(env: &Env, fs: &[CoreFn], defines: bool, name: &str, ty: &Ty, params: &[Ty]) -> bool
    requires { Sees env.now fs.now }
    ensures { result ≡ functions.may_declare (functions_view fs.now) name.now (heading ty.now params.now) defines }
{
    match find(env, fs, name, params) {
        None => true,
        Some(n) => {
            let f = &fs[n];
            is_same(&f.result, ty) && !(defines && f.defined)
        }
    }
}

// The head's own faults, behind those of its parameters.
#[tactic(auto, unfolding(mm_unit_typing::specs::JudgeUnit::judge_own_head))]
fn check_own_head(
    alloc: Global,
    env: &Env,
    fs: &[CoreFn],
    defines: bool,
    x: &Head,
    ty: &Ty,
    params: &[Ty],
) -> Result<(), CheckEnd>
    requires { Sees env.now fs.now }
    ensures { Gives (λ u. heading ty.now params.now) result (judges.judge_own_head (functions_view fs.now) defines x.now ty.now params.now) }
{
    let name = x.name.text.as_str();
    let may = may_declare(env, fs, defines, name, ty, params);
    need(alloc, may, Code::S2, x.name.place, name)?;
    need_unmarked(alloc, &x.mark, &x.name)?;
    need_yours(alloc, &x.name)?;
    need(alloc, params.len() < 33, Code::S20, x.name.place, name)
}

/// A head, which declares a function or defines one. Behind this its parameters are the variables.
#[tactic(auto, unfolding(mm_unit_typing::specs::JudgeUnit::judge_head))]
pub fn check_head(
    alloc: Global,
    env: &mut Env,
    fs: &[CoreFn],
    defines: bool,
    x: &Head,
) -> Result<Signature, CheckEnd>
    requires stands { Stands env.old fs.now }
    requires empty { env.old.vars ≡ [] }
    ensures is { Gives heading_view result (judges.judge_head (functions_view fs.now) defines x.now) }
    ensures vars { OnOk result (env.new ≡ inside env.old (parameters_from 0 x.now.params.list)) }
{
    let result = check_type(alloc, &x.type_name)?;
    let params = check_params(alloc, env, x.params.list.as_slice())?;
    check_own_head(alloc, env, fs, defines, x, &result, params.as_slice())?;
    Ok(Signature { result, params })
}
