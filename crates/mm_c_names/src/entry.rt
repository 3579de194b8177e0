//! What a name can be, and the names that every program has.

ghost use Rattle.std.specs.Prelude.{◌≡◌, true, false, length, slice_get, option_map};
ghost use Rattle.mm_c.specs.WellFormed.{callable, entry_in, prelude};
ghost use Rattle.mm_c_names.specs.Entries.{params_view, entry_view};

use mm_c::tree::{CKind, CLocal, CTypedef};

/// The kinds of parameters.
#[derive(Clone, Copy)]
pub enum Params<'a> {
    Kinds(&'a [CKind]),
    Locals(&'a [CLocal]),
}

/// A function: whether it is inline, whether it is defined, its result and its parameters.
#[derive(Clone, Copy)]
pub struct Head<'a> {
    pub is_inline: bool,
    pub is_defined: bool,
    pub result: Option<CKind>,
    pub params: Params<'a>,
}

/// What a name is.
#[derive(Clone, Copy)]
pub enum Entry<'a> {
    FunctionsType(&'a CTypedef),
    NumbersArray,
    FunctionsArray(&'a CTypedef),
    Callable(Head<'a>),
}

/// How many parameters there are.
pub fn param_count(params: &Params<'_>) -> usize
    ensures { result ≡ length (params_view params.now) }
{
    match params {
        Params::Kinds(kinds) => kinds.len(),
        Params::Locals(locals) => locals.len(),
    }
}

/// The kind of the parameter at a place.
pub fn param_kind(params: &Params<'_>, i: usize) -> Option<CKind>
    ensures { result ≡ slice_get (params_view params.now) i }
{
    match params {
        Params::Kinds(kinds) => kinds.get(i).copied(),
        Params::Locals(locals) => match locals.get(i) {
            Some(local) => Some(local.kind),
            None => None,
        },
    }
}

const NONE: &[CKind] = &[];

const INT: &[CKind] = &[CKind::Int];

const UNSIGNED: &[CKind] = &[CKind::Unsigned];

fn given(kind: Option<CKind>, kinds: &'static [CKind]) -> Entry<'static>
    ensures { entry_view result ≡ callable false true kind kinds.now }
{
    Entry::Callable(Head {
        is_inline: false,
        is_defined: true,
        result: kind,
        params: Params::Kinds(kinds),
    })
}

/// What a name is that no item declares.
pub fn prelude_entry(name: &[u8]) -> Option<Entry<'static>>
    ensures { option_map entry_view result ≡ entry_in prelude name.now }
{
    if b"mm_put".as_slice() == name {
        return Some(given(None, INT));
    }
    if b"mm_get".as_slice() == name {
        return Some(given(Some(CKind::Int), NONE));
    }
    if b"mm_more".as_slice() == name {
        return Some(given(Some(CKind::Int), NONE));
    }
    if b"mm_trap".as_slice() == name {
        return Some(given(None, INT));
    }
    if b"mm_new".as_slice() == name {
        return Some(given(Some(CKind::Pointer), UNSIGNED));
    }
    None
}
