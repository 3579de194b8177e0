//! Parameters.

ghost use Rattle.std.specs.Prelude.{◌≡◌, ◌++◌, [], ◌∷◌, length, Err, OnOk};
ghost use Rattle.mm_checks.specs.Checks.{Gives};
ghost use Rattle.mm_unit_typing.specs.Declarators.{unbuilt};
ghost use Rattle.mm_unit_typing.specs.Scopes.{inside, parameter, parameter_named, parameters_from};
ghost use Rattle.mm_unit_typing.specs.JudgeUnit as judges;
ghost use Rattle.mm_check_function.specs.Params.{added};

use mm_base::code::Code;
use mm_base::place::Place;
use mm_base::text::Text;
use mm_check_stmt::declare::{check_type, need_stand, need_value, need_yours};
use mm_check_stmt::variables::next_local;
use mm_checks::CheckEnd;
use mm_classes::class::Ty;
use mm_scopes::env::Env;
use mm_syntax::decl::Param;
use mm_syntax::name::Name;
use sqlite_items::Items;
use std::alloc::{AllocError, Global};

/// What is not built yet.
pub fn unbuilt_at(alloc: Global, place: Place) -> Result<(), CheckEnd>
    ensures { Gives (λ u. u) result (Err (unbuilt place)) }
{
    let text = Text::from_str(alloc, "")?;
    Err(CheckEnd::Fault(Code::N0, place, text))
}

// A parameter that is not marked virtual.
fn need_ordinary(alloc: Global, virtual_at: &Option<Place>) -> Result<(), CheckEnd>
    ensures { Gives (λ u. u) result (judges.ordinary virtual_at.now) }
{
    match virtual_at {
        None => Ok(()),
        Some(place) => unbuilt_at(alloc, *place),
    }
}

// What a parameter is asked behind those that the environment has.
fn need_parameter(alloc: Global, env: &Env, q: &Param, ty: &Ty) -> Result<(), CheckEnd>
    ensures { Gives (λ u. u) result (judges.may_be_parameter env.now.vars ty.now q.now.mark q.now.type_name q.now.name) }
{
    match &q.name {
        None => need_value(
            alloc,
            ty,
            &q.mark,
            q.type_name.place,
            q.type_name.first_text(),
        ),
        Some(name) => {
            need_stand(alloc, env, 0, ty, &q.mark, name)?;
            need_yours(alloc, name)
        }
    }
}

// The type of a parameter.
#[tactic(auto, unfolding(mm_unit_typing::specs::JudgeUnit::judge_param))]
fn check_param(alloc: Global, env: &Env, q: &Param) -> Result<Ty, CheckEnd>
    ensures { Gives (λ t. t) result (judges.judge_param env.now.vars q.now) }
{
    need_ordinary(alloc, &q.virtual_at)?;
    let ty = check_type(alloc, &q.type_name)?;
    need_parameter(alloc, env, q, &ty)?;
    Ok(ty)
}

// The next local has this name, where there is one.
fn declare_named(env: &mut Env, name: &Option<Name>, ty: &Ty, local: u32) -> Result<(), AllocError>
    ensures { OnOk result (env.new ≡ inside env.old (env.old.vars ++ parameter_named name.now ty.now local)) }
{
    if let Some(name) = name {
        env.declare(name.text.as_str(), *ty, local)?;
    }
    Ok(())
}

// A parameter behind others.
fn push_param(
    alloc: Global,
    env: &mut Env,
    types: &mut Items<Ty>,
    q: &Param,
) -> Result<(), CheckEnd>
    ensures is { Gives (λ u. types.new) result (added types.old (judges.judge_param env.old.vars q.now)) }
    ensures vars { OnOk result (env.new ≡ inside env.old (env.old.vars ++ parameter (length types.old) q.now)) }
{
    let ty = check_param(alloc, env, q)?;
    let local = next_local(types)?;
    declare_named(env, &q.name, &ty, local)?;
    types.push(ty)?;
    Ok(())
}

/// The types of the parameters of a function, which are variables of the environment behind this.
pub fn check_params(alloc: Global, env: &mut Env, params: &[Param]) -> Result<Items<Ty>, CheckEnd>
    ensures is { Gives (λ ts. ts) result (judges.judge_params 0 env.old.vars params.now) }
    ensures vars { OnOk result (env.new ≡ inside env.old (env.old.vars ++ parameters_from 0 params.now)) }
{
    let mut types = Items::new(alloc);
    for q in params {
        push_param(alloc, env, &mut types, q)?;
    }
    Ok(types)
}
