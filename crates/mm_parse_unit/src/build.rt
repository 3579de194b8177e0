// Trees of declarations, from their parts.

ghost use Rattle.std.specs.Prelude.{◌≡◌, [], ◌∷◌, ◌++◌, IfOk, OnOk};
ghost use Rattle.mm_syntax.specs.BuiltDeclarations as bd;

use mm_base::place::Place;
use mm_syntax::decl::{Decl, DeclKind, FnDecl, FnDeclKind, Head};
use mm_syntax::expr::TypeName;
use mm_syntax::name::DeclaratorMark;
use mm_syntax::part::{AfterClass, Declared, FunctionEnd};
use mm_syntax::taken::{class_type_name, name};
use mm_token::token::Token;
use sqlite_items::{Boxed, Items};
use std::alloc::{AllocError, Global};

fn function(alloc: Global, kind: FnDeclKind, place: Place) -> Result<Boxed<Decl>, AllocError>
    ensures { IfOk result (λ v. v ≡ bd.function kind place) }
{
    Boxed::new(
        alloc,
        Decl {
            kind: DeclKind::Function(FnDecl { kind, place }),
            place,
        },
    )
}

fn function_kind(type_name: TypeName, mark: Option<DeclaratorMark>, end: FunctionEnd) -> FnDeclKind
    ensures { result ≡ bd.function_kind type_name mark end }
{
    match end {
        FunctionEnd::Plain(name, params, body) => {
            let head = Head {
                type_name,
                mark,
                name,
                params,
            };
            match body {
                None => FnDeclKind::Declaration(head),
                Some(body) => FnDeclKind::Definition(head, body),
            }
        }
        FunctionEnd::Member(class, name, params, body) => {
            let head = Head {
                type_name,
                mark,
                name,
                params,
            };
            FnDeclKind::MemberDefinition(class, head, body)
        }
    }
}

fn outside(
    alloc: Global,
    type_name: TypeName,
    declared: Declared,
) -> Result<Boxed<Decl>, AllocError>
    ensures { IfOk result (λ v. v ≡ bd.typed type_name declared) }
{
    let place = type_name.place;
    let Declared { mark, end } = declared;
    function(alloc, function_kind(type_name, mark, end), place)
}

/// A function of its type and what follows it.
pub fn typed(
    alloc: Global,
    type_name: TypeName,
    declared: Boxed<Declared>,
) -> Result<Boxed<Decl>, AllocError>
    ensures { IfOk result (λ v. v ≡ bd.typed type_name declared) }
{
    outside(alloc, type_name, declared.into_inner())
}

/// What begins with a class: a function of that type, or a constructor.
pub fn after(
    alloc: Global,
    class: &Token,
    end: Boxed<AfterClass>,
) -> Result<Boxed<Decl>, AllocError>
    ensures { IfOk result (λ v. v ≡ bd.after class.now end) }
{
    match end.into_inner() {
        AfterClass::Type(declared) => {
            let type_name = class_type_name(alloc, class)?;
            outside(alloc, type_name, declared)
        }
        AfterClass::Constructor(word, params, body) => {
            let scope = name(alloc, class)?;
            let kind = FnDeclKind::ConstructorDefinition(scope, word, params, body);
            function(alloc, kind, class.place)
        }
    }
}

/// Adds a declaration to a list.
pub fn push(list: &mut Items<Decl>, item: Boxed<Decl>) -> Result<(), AllocError>
    ensures { OnOk result (list.new ≡ list.old ++ item ∷ []) }
{
    list.push(item.into_inner())?;
    Ok(())
}
