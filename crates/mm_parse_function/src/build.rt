// Trees of parameters, initializers and functions, from their tokens and parts.

ghost use Rattle.std.specs.Prelude.{◌≡◌, Some, None, IfOk, option_copied};
ghost use Rattle.mm_syntax.specs.Built as b;
ghost use Rattle.mm_syntax.specs.BuiltDeclarations as bd;
ghost use Rattle.mm_syntax.specs.declared.part.FunctionEnd.TheVariants as end_of;
ghost use Rattle.mm_syntax.specs.declared.part.AfterClass.TheVariants as after_class;

use mm_syntax::decl::{ConstructorBody, Init, Param, Params};
use mm_syntax::expr::{Expr, TypeName};
use mm_syntax::name::{DeclaratorMark, Name};
use mm_syntax::part::{AfterClass, Declared, FunctionEnd, ParamEnd};
use mm_syntax::stmt::Stmt;
use mm_syntax::taken::{declarator_mark, name, word_type_name};
use mm_token::token::Token;
use sqlite_items::{Boxed, Items};
use std::alloc::{AllocError, Global};

/// The mark and the name of a parameter.
pub fn param_end(
    alloc: Global,
    mark: Option<DeclaratorMark>,
    word: Option<&Token>,
) -> Result<ParamEnd, AllocError>
    ensures { IfOk result (λ v. v ≡ bd.param_end mark (option_copied word.entry)) }
{
    let name = match word {
        None => None,
        Some(word) => Some(name(alloc, word)?),
    };
    Ok(ParamEnd { mark, name })
}

/// The same with a mark, of its token.
pub fn marked_end(alloc: Global, mark: &Token, word: Option<&Token>) -> Result<ParamEnd, AllocError>
    ensures { IfOk result (λ v. v ≡ bd.param_end (Some (b.mark_of mark.now)) (option_copied word.entry)) }
{
    param_end(alloc, Some(declarator_mark(mark)), word)
}

/// A parameter, of `virtual` where it stands before it, the type and what follows that.
pub fn param(
    alloc: Global,
    word: Option<&Token>,
    type_name: TypeName,
    end: ParamEnd,
) -> Result<Boxed<Param>, AllocError>
    ensures { IfOk result (λ v. v ≡ bd.param (option_copied word.entry) type_name end) }
{
    let virtual_at = match word {
        None => None,
        Some(word) => Some(word.place),
    };
    let ParamEnd { mark, name } = end;
    Boxed::new(
        alloc,
        Param {
            virtual_at,
            type_name,
            mark,
            name,
        },
    )
}

/// A parameter that begins with `void`.
pub fn void_param(alloc: Global, word: &Token, end: ParamEnd) -> Result<Boxed<Param>, AllocError>
    ensures { IfOk result (λ v. v ≡ bd.param None (b.word_type word.now) end) }
{
    param(alloc, None, word_type_name(word), end)
}

/// Parameters as a list, without `void` alone.
pub fn params(alloc: Global, list: Items<Param>) -> Result<Boxed<Params>, AllocError>
    ensures { IfOk result (λ v. v ≡ bd.params_of list) }
{
    Boxed::new(
        alloc,
        Params {
            has_void: false,
            list,
        },
    )
}

/// `void` alone.
pub fn void_alone(alloc: Global) -> Result<Boxed<Params>, AllocError>
    ensures { IfOk result (λ v. (type_name : TypeName) → v ≡ bd.after_void type_name None) }
{
    Boxed::new(
        alloc,
        Params {
            has_void: true,
            list: Items::new(alloc),
        },
    )
}

/// An initializer, of its name and its arguments.
pub fn init(alloc: Global, word: &Token, arguments: Items<Expr>) -> Result<Boxed<Init>, AllocError>
    ensures { IfOk result (λ v. v ≡ bd.init word.now arguments) }
{
    let name = name(alloc, word)?;
    Boxed::new(alloc, Init { name, arguments })
}

/// What a constructor does, of its initializers where there are any, and its block.
pub fn constructor_body(
    alloc: Global,
    inits: Option<Items<Init>>,
    body: Boxed<Stmt>,
) -> Result<Boxed<ConstructorBody>, AllocError>
    ensures { IfOk result (λ v. v ≡ bd.constructor_body inits body) }
{
    let inits = match inits {
        None => Items::new(alloc),
        Some(inits) => inits,
    };
    let block = body.into_inner();
    Boxed::new(alloc, ConstructorBody { inits, block })
}

/// A function in no class from its name on.
pub fn plain_end(
    alloc: Global,
    word: &Token,
    params: Boxed<Params>,
    body: Option<Boxed<Stmt>>,
) -> Result<Boxed<FunctionEnd>, AllocError>
    ensures { IfOk result (λ v. v ≡ end_of.Plain (b.name_of word.now) params body) }
{
    let word = name(alloc, word)?;
    let body = match body {
        None => None,
        Some(body) => Some(body.into_inner()),
    };
    Boxed::new(alloc, FunctionEnd::Plain(word, params.into_inner(), body))
}

/// A member of a class from the class's name on.
pub fn member_end(
    alloc: Global,
    class: &Token,
    word: &Token,
    params: Boxed<Params>,
    body: Boxed<Stmt>,
) -> Result<Boxed<FunctionEnd>, AllocError>
    ensures { IfOk result (λ v. v ≡ end_of.Member (b.name_of class.now) (b.name_of word.now) params body) }
{
    let class = name(alloc, class)?;
    let word = name(alloc, word)?;
    Boxed::new(
        alloc,
        FunctionEnd::Member(class, word, params.into_inner(), body.into_inner()),
    )
}

/// What follows a function's type, of its mark and the rest.
pub fn declared(
    alloc: Global,
    mark: Option<DeclaratorMark>,
    end: Boxed<FunctionEnd>,
) -> Result<Boxed<Declared>, AllocError>
    ensures { IfOk result (λ v. v ≡ bd.declared mark end) }
{
    let end = end.into_inner();
    Boxed::new(alloc, Declared { mark, end })
}

/// A class that is the type of a function.
pub fn after_type(alloc: Global, end: Boxed<Declared>) -> Result<Boxed<AfterClass>, AllocError>
    ensures { IfOk result (λ v. v ≡ after_class.Type end) }
{
    Boxed::new(alloc, AfterClass::Type(end.into_inner()))
}

/// A constructor from its name on.
pub fn constructor_tail(
    alloc: Global,
    class: &Token,
    params: Boxed<Params>,
    body: Boxed<ConstructorBody>,
) -> Result<Boxed<AfterClass>, AllocError>
    ensures { IfOk result (λ v. v ≡ after_class.Constructor (b.name_of class.now) params body) }
{
    let class = name(alloc, class)?;
    Boxed::new(
        alloc,
        AfterClass::Constructor(class, params.into_inner(), body.into_inner()),
    )
}
