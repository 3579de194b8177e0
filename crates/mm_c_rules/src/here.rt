// Where a statement stands.

use mm_c::tree::CKind;
use mm_c_names::declared::Declared;
use mm_c_names::scope::Scope;

/// What is declared before a statement, and its function.
#[derive(Clone, Copy)]
pub struct Place<'h, 'a> {
    pub declared: &'h Declared<'a>,
    pub result: Option<CKind>,
    pub inside_inline: bool,
    pub in_loop: bool,
}

/// The place of a statement, and the names that it sees.
#[derive(Clone, Copy)]
pub struct Here<'h, 'a> {
    pub place: Place<'h, 'a>,
    pub scope: &'h Scope<'a>,
}
