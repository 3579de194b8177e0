//! What is known of a declared variable or function.

use mm_base::text::Text;
use mm_classes::class::Ty;
use sqlite_items::Items;

/// A variable, with the number by which checked trees cite it.
#[derive(Drop)]
pub struct Var {
    pub name: Text,
    pub ty: Ty,
    pub local: u32,
}

/// A function, with the number by which checked trees cite it. `virtuals` says of each parameter whether it is marked.
#[derive(Drop)]
pub struct FnHead {
    pub number: u32,
    pub name: Text,
    pub params: Items<Ty>,
    pub virtuals: Items<bool>,
    pub result: Ty,
}
