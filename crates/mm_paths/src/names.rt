//! The members of a class by their names.

ghost use Rattle.std.specs.Prelude.{◌<◌, ◌^◌, length, IfOk};
ghost use Rattle.mm_paths.specs.Names.{AreNamed};

use crate::entry::Named;
use indexmap::IndexMap;
use mm_classes::class::Member;
use std::alloc::{AllocError, Global};

/// No members.
pub fn no_names(alloc: Global) -> Named {
    Named {
        first: IndexMap::new(alloc),
        next: Vec::new(alloc),
    }
}

/// The members by their names.
pub fn named(alloc: Global, members: &[Member]) -> Result<Named, AllocError>
    requires { length members.now < 2 ^ 32 }
    ensures { IfOk result (λ n. AreNamed n.first n.next.items members.now) }
{
    let mut first = IndexMap::new(alloc);
    let mut next = vec![in alloc; None; members.len()]?;
    let mut k = members.len();
    while k > 0 {
        k -= 1;
        let name = String::from_str(alloc, members[k].name.as_str())?;
        next[k] = first.insert(name, k as u32)?;
    }
    Ok(Named { first, next })
}
