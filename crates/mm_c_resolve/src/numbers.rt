//! Names by their numbers.

ghost use Rattle.std.specs.Prelude.{◌≡◌, map, IfOk};
ghost use Rattle.std.specs.Borrow.{Bor};
ghost use Rattle.mm_c_resolve.specs.Numbering.{at_name, AreNumbered, texts};

use indexmap::IndexMap;
use std::alloc::{AllocError, Global};

/// Names, each with the place of its first occurrence in a list, and the length of the list.
#[derive(Drop)]
pub struct Numbering<'a> {
    pub first: IndexMap<&'a str, u32>,
    pub count: u32,
}

/// The numbering of these names. Where there are 2^32 or more, it is refused like want of memory.
pub fn number_names<'a>(alloc: Global, names: &[&'a str]) -> Result<Numbering<'a>, AllocError>
    ensures { IfOk result (λ n. AreNumbered n (texts names.now)) }
{
    let Ok(count) = u32::try_from(names.len()) else {
        return Err(AllocError);
    };
    let mut first = IndexMap::new(alloc);
    let mut i = count;
    while i > 0 {
        i -= 1;
        first.insert(names[i as usize], i)?;
    }
    Ok(Numbering { first, count })
}

/// The place of a name, or the length where it isn't there.
pub fn find(numbering: &Numbering<'_>, name: &str) -> u32
    ensures { result ≡ at_name numbering.now name.now }
{
    match numbering.first.get(name) {
        Some(place) => *place,
        None => numbering.count,
    }
}
