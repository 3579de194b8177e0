// Trees of classes and their members, from their tokens and parts.

ghost use Rattle.std.specs.Prelude.{◌≡◌, [], ◌∷◌, ◌++◌, Some, IfOk, OnOk};
ghost use Rattle.mm_syntax.specs.Symbols.{symbol_of};
ghost use Rattle.mm_syntax.specs.BuiltDeclarations as bd;
ghost use Rattle.mm_syntax.specs.declared.decl.Member.TheVariants as m;
ghost use Rattle.mm_syntax.specs.declared.part.MemberEnd.TheVariants as member_is;
ghost use Rattle.mm_syntax.specs.declared.part.AfterVirtual.TheVariants as virtual_is;
ghost use Rattle.mm_syntax.specs.declared.part.AfterMemberClass.TheVariants as class_is;
ghost use Rattle.mm_parse_class.specs.Parts.{base_of, destructor_of};

use crate::text;
use mm_base::place::Place;
use mm_syntax::decl::{
    Base, ClassDecl, ClassDeclKind, ConstructorBody, Decl, DeclKind, FieldName, FnDecl, FnDeclKind,
    Head, Member, Params,
};
use mm_syntax::expr::TypeName;
use mm_syntax::name::{Access, DeclaratorMark, Name};
use mm_syntax::part::{
    AfterMemberClass, AfterVirtual, ClassBody, ConstructorTail, DestructorTail, MemberEnd,
    MemberTail, MethodTail,
};
use mm_syntax::stmt::Stmt;
use mm_syntax::taken;
use mm_token::token::Token;
use sqlite_items::{Boxed, Items};
use std::alloc::{AllocError, Global};

/// A base.
pub fn base(
    alloc: Global,
    virtual_at: Option<Place>,
    access: Option<Access>,
    class: &Token,
) -> Result<Boxed<Base>, AllocError>
    ensures { IfOk result (λ v. v ≡ base_of virtual_at access class.now) }
{
    let name = taken::name(alloc, class)?;
    Boxed::new(
        alloc,
        Base {
            virtual_at,
            access,
            name,
        },
    )
}

/// A list of one base.
pub fn single_base(alloc: Global, item: Boxed<Base>) -> Result<Items<Base>, AllocError>
    ensures { IfOk result (λ v. v ≡ item ∷ []) }
{
    let mut list = Items::new(alloc);
    list.push(item.into_inner())?;
    Ok(list)
}

/// Adds a base to a list.
pub fn push_base(list: &mut Items<Base>, item: Boxed<Base>) -> Result<(), AllocError>
    ensures { OnOk result (list.new ≡ list.old ++ item ∷ []) }
{
    list.push(item.into_inner())?;
    Ok(())
}

/// Adds a field to a list.
pub fn push_field(list: &mut Items<FieldName>, item: Boxed<FieldName>) -> Result<(), AllocError>
    ensures { OnOk result (list.new ≡ list.old ++ item ∷ []) }
{
    list.push(item.into_inner())?;
    Ok(())
}

/// Adds a member to a list.
pub fn push_member(list: &mut Items<Member>, item: Boxed<Member>) -> Result<(), AllocError>
    ensures { OnOk result (list.new ≡ list.old ++ item ∷ []) }
{
    list.push(item.into_inner())?;
    Ok(())
}

/// A field.
pub fn field(
    alloc: Global,
    mark: Option<DeclaratorMark>,
    word: &Token,
) -> Result<Boxed<FieldName>, AllocError>
    ensures { IfOk result (λ v. v ≡ bd.field_name mark word.now) }
{
    let name = taken::name(alloc, word)?;
    Boxed::new(alloc, FieldName { mark, name })
}

/// The body in its box, where there is one, without that.
fn opened(body: Option<Boxed<Stmt>>) -> Option<Stmt>
    ensures { result ≡ body }
{
    match body {
        None => None,
        Some(body) => Some(body.into_inner()),
    }
}

/// What follows the name of a member function.
pub fn function_end(
    alloc: Global,
    params: Boxed<Params>,
    body: Option<Boxed<Stmt>>,
) -> Result<Boxed<MemberEnd>, AllocError>
    ensures { IfOk result (λ v. v ≡ member_is.Function params body) }
{
    Boxed::new(
        alloc,
        MemberEnd::Function(params.into_inner(), opened(body)),
    )
}

/// What follows the name of a field.
pub fn fields(alloc: Global, list: Items<FieldName>) -> Result<Boxed<MemberEnd>, AllocError>
    ensures { IfOk result (λ v. v ≡ member_is.Fields list) }
{
    Boxed::new(alloc, MemberEnd::Fields(list))
}

/// What follows the type of a member.
pub fn member_tail(
    alloc: Global,
    mark: Option<DeclaratorMark>,
    word: &Token,
    end: Boxed<MemberEnd>,
) -> Result<Boxed<MemberTail>, AllocError>
    ensures { IfOk result (λ v. v ≡ bd.member_tail mark word.now end) }
{
    let name = taken::name(alloc, word)?;
    Boxed::new(
        alloc,
        MemberTail {
            mark,
            name,
            end: end.into_inner(),
        },
    )
}

/// What follows the type of a member function.
pub fn method_tail(
    alloc: Global,
    mark: Option<DeclaratorMark>,
    word: &Token,
    params: Boxed<Params>,
    body: Option<Boxed<Stmt>>,
) -> Result<Boxed<MethodTail>, AllocError>
    ensures { IfOk result (λ v. v ≡ bd.method_tail mark word.now params body) }
{
    let name = taken::name(alloc, word)?;
    Boxed::new(
        alloc,
        MethodTail {
            mark,
            name,
            params: params.into_inner(),
            body: opened(body),
        },
    )
}

/// A destructor from its `~` on.
pub fn destructor_tail(
    alloc: Global,
    tilde: &Token,
    class: &Token,
    has_void: bool,
) -> Result<Boxed<DestructorTail>, AllocError>
    ensures { IfOk result (λ v. v ≡ destructor_of tilde.now class.now has_void) }
{
    let name = taken::name(alloc, class)?;
    Boxed::new(
        alloc,
        DestructorTail {
            start: tilde.place,
            name,
            has_void,
        },
    )
}

/// A destructor behind `virtual`.
pub fn virtual_destructor(
    alloc: Global,
    tail: Boxed<DestructorTail>,
) -> Result<Boxed<AfterVirtual>, AllocError>
    ensures { IfOk result (λ v. v ≡ virtual_is.Destructor tail) }
{
    Boxed::new(alloc, AfterVirtual::Destructor(tail.into_inner()))
}

/// A member function behind `virtual`.
pub fn virtual_method(
    alloc: Global,
    type_name: TypeName,
    tail: Boxed<MethodTail>,
) -> Result<Boxed<AfterVirtual>, AllocError>
    ensures { IfOk result (λ v. v ≡ virtual_is.Method type_name tail) }
{
    Boxed::new(alloc, AfterVirtual::Method(type_name, tail.into_inner()))
}

/// What follows the name of a constructor in its class.
pub fn constructor_tail(
    alloc: Global,
    params: Boxed<Params>,
    body: Option<Boxed<ConstructorBody>>,
) -> Result<Boxed<ConstructorTail>, AllocError>
    ensures { IfOk result (λ v. v ≡ bd.constructor_tail params body) }
{
    let body = match body {
        None => None,
        Some(body) => Some(body.into_inner()),
    };
    Boxed::new(
        alloc,
        ConstructorTail {
            params: params.into_inner(),
            body,
        },
    )
}

/// A member whose type is a class, behind that.
pub fn type_member(
    alloc: Global,
    tail: Boxed<MemberTail>,
) -> Result<Boxed<AfterMemberClass>, AllocError>
    ensures { IfOk result (λ v. v ≡ class_is.Type tail) }
{
    Boxed::new(alloc, AfterMemberClass::Type(tail.into_inner()))
}

/// A constructor behind its class.
pub fn constructor_member(
    alloc: Global,
    tail: Boxed<ConstructorTail>,
) -> Result<Boxed<AfterMemberClass>, AllocError>
    ensures { IfOk result (λ v. v ≡ class_is.Constructor tail) }
{
    Boxed::new(alloc, AfterMemberClass::Constructor(tail.into_inner()))
}

/// The access of the members that follow.
pub fn access_member(alloc: Global, word: &Token) -> Result<Boxed<Member>, AllocError>
    ensures { IfOk result (λ v. v ≡ m.Access (bd.access_of word.now)) }
{
    Boxed::new(alloc, Member::Access(taken::access_word(word)))
}

fn member_function(
    alloc: Global,
    kind: FnDeclKind,
    place: Place,
) -> Result<Boxed<Member>, AllocError>
    ensures { IfOk result (λ v. v ≡ bd.member_function kind place) }
{
    Boxed::new(alloc, Member::Function(FnDecl { kind, place }))
}

/// A member that begins with `virtual`.
pub fn virtual_member(
    alloc: Global,
    word: &Token,
    tail: Boxed<AfterVirtual>,
) -> Result<Boxed<Member>, AllocError>
    ensures { IfOk result (λ v. v ≡ bd.virtual_member word.now tail) }
{
    let place = word.place;
    let kind = match tail.into_inner() {
        AfterVirtual::Method(type_name, tail) => {
            let MethodTail {
                mark,
                name,
                params,
                body,
            } = tail;
            let head = Head {
                type_name,
                mark,
                name,
                params,
            };
            FnDeclKind::Method(Some(place), head, body)
        }
        AfterVirtual::Destructor(tail) => {
            FnDeclKind::Destructor(Some(place), tail.name, tail.has_void)
        }
    };
    member_function(alloc, kind, place)
}

/// A destructor without `virtual`.
pub fn destructor(alloc: Global, tail: Boxed<DestructorTail>) -> Result<Boxed<Member>, AllocError>
    ensures { IfOk result (λ v. v ≡ bd.destructor tail) }
{
    let DestructorTail {
        start,
        name,
        has_void,
    } = tail.into_inner();
    member_function(alloc, FnDeclKind::Destructor(None, name, has_void), start)
}

fn field_list(
    alloc: Global,
    mark: Option<DeclaratorMark>,
    name: Name,
    more: Items<FieldName>,
) -> Result<Items<FieldName>, AllocError>
    ensures { IfOk result (λ v. v ≡ record { mark = mark; name = name } ∷ more) }
{
    let mut list = Items::new(alloc);
    list.push(FieldName { mark, name })?;
    list.append(more)?;
    Ok(list)
}

/// A member that begins with its type.
pub fn typed_member(
    alloc: Global,
    type_name: TypeName,
    tail: Boxed<MemberTail>,
) -> Result<Boxed<Member>, AllocError>
    ensures { IfOk result (λ v. v ≡ bd.typed_member type_name tail) }
{
    let MemberTail { mark, name, end } = tail.into_inner();
    match end {
        MemberEnd::Function(params, body) => {
            let place = type_name.place;
            let head = Head {
                type_name,
                mark,
                name,
                params,
            };
            member_function(alloc, FnDeclKind::Method(None, head, body), place)
        }
        MemberEnd::Fields(more) => {
            let list = field_list(alloc, mark, name, more)?;
            Boxed::new(alloc, Member::Fields(type_name, list))
        }
    }
}

/// A member that begins with a class.
pub fn after_in_class(
    alloc: Global,
    class: &Token,
    tail: Boxed<AfterMemberClass>,
) -> Result<Boxed<Member>, AllocError>
    ensures { IfOk result (λ v. v ≡ bd.after_in_class class.now tail) }
{
    match tail.into_inner() {
        AfterMemberClass::Type(tail) => {
            let type_name = taken::class_type_name(alloc, class)?;
            let tail = Boxed::new(alloc, tail)?;
            typed_member(alloc, type_name, tail)
        }
        AfterMemberClass::Constructor(tail) => {
            let name = taken::name(alloc, class)?;
            let ConstructorTail { params, body } = tail;
            member_function(
                alloc,
                FnDeclKind::Constructor(name, params, body),
                class.place,
            )
        }
    }
}

/// The bases and the members of a class.
pub fn class_body(
    alloc: Global,
    bases: Items<Base>,
    members: Items<Member>,
) -> Result<Boxed<ClassBody>, AllocError>
    ensures { IfOk result (λ v. v ≡ bd.class_body (Some bases) members) }
{
    Boxed::new(alloc, ClassBody { bases, members })
}

fn class_kind(
    alloc: Global,
    tokens: &[Token],
    word: &Token,
    name: Name,
    body: Option<Boxed<ClassBody>>,
) -> Result<ClassDeclKind, AllocError>
    ensures { IfOk result (λ v. v ≡ bd.class_kind tokens.now (bd.key_for (symbol_of word.now)) name body) }
{
    let key = taken::class_key(word);
    match body {
        None => Ok(ClassDeclKind::Declaration(key, name)),
        Some(body) => {
            let text = text::texts(alloc, tokens)?;
            let ClassBody { bases, members } = body.into_inner();
            Ok(ClassDeclKind::Definition(key, name, bases, members, text))
        }
    }
}

/// The declaration or the definition of a class, of its tokens before the `;`.
pub fn class_decl(
    alloc: Global,
    tokens: &[Token],
    word: &Token,
    class: &Token,
    body: Option<Boxed<ClassBody>>,
) -> Result<Boxed<Decl>, AllocError>
    ensures { IfOk result (λ v. v ≡ bd.class_decl tokens.now word.now class.now body) }
{
    let name = taken::name(alloc, class)?;
    let kind = class_kind(alloc, tokens, word, name, body)?;
    let place = word.place;
    let class = ClassDecl { kind, place };
    Boxed::new(
        alloc,
        Decl {
            kind: DeclKind::Class(class),
            place,
        },
    )
}
