//! Copies of members, and tests on them.

ghost use Rattle.std.specs.Prelude.{◌≡◌, IfOk};
ghost use Rattle.std.specs.List.{list_any};
ghost use Rattle.mm_classes.specs.Classes.{is_field, is_virtual, field_count};

use crate::class::{Member, MemberKind};
use mm_base::text::Text;
use sqlite_items::Items;
use std::alloc::{AllocError, Global};

/// A copy of what a member is.
pub fn copy_kind(alloc: Global, kind: &MemberKind) -> Result<MemberKind, AllocError>
    ensures { IfOk result (λ k. k ≡ kind.now) }
{
    match kind {
        MemberKind::Field(ty) => Ok(MemberKind::Field(*ty)),
        MemberKind::Function(params, ty, dynamic) => {
            let params = Items::from_slice(alloc, params.as_slice())?;
            Ok(MemberKind::Function(params, *ty, *dynamic))
        }
    }
}

/// A copy of a member.
pub fn copy_member(alloc: Global, member: &Member) -> Result<Member, AllocError>
    ensures { IfOk result (λ m. m ≡ member.now) }
{
    let name = Text::from_str(alloc, member.name.as_str())?;
    let kind = copy_kind(alloc, &member.kind)?;
    Ok(Member {
        name,
        access: member.access,
        kind,
        place: member.place,
    })
}

/// Copies of members, in the same order.
pub fn copy_members(alloc: Global, members: &[Member]) -> Result<Vec<Member>, AllocError>
    ensures { IfOk result (λ v. v.items ≡ members.now) }
{
    let mut copies = Vec::with_capacity(alloc, members.len())?;
    for member in members {
        let copy = copy_member(alloc, member)?;
        copies.push(copy)?;
    }
    Ok(copies)
}

/// Whether a member is a field.
pub fn is_a_field(member: &Member) -> bool
    ensures { result ≡ is_field member.now }
{
    match &member.kind {
        MemberKind::Field(_) => true,
        MemberKind::Function(_, _, _) => false,
    }
}

/// Whether a member is a function that is declared virtual.
pub fn is_a_virtual(member: &Member) -> bool
    ensures { result ≡ is_virtual member.now }
{
    match &member.kind {
        MemberKind::Field(_) => false,
        MemberKind::Function(_, _, dynamic) => *dynamic,
    }
}

/// How many of the members are fields.
pub fn count_fields(members: &[Member]) -> usize
    ensures { result ≡ field_count members.now }
{
    members.iter().filter(|m| is_a_field(m)).count()
}

/// Whether one of the members is declared virtual.
pub fn any_virtual(members: &[Member]) -> bool
    ensures { result ≡ list_any is_virtual members.now }
{
    members.iter().any(|m| is_a_virtual(m))
}
