//! What a table keeps of each class.

use mm_base::text::Text;
use mm_classes::class::{Base, Member};

/// A declared class. Where it is not complete, there are no bases and no members.
#[derive(Drop)]
pub struct Entry {
    pub name: Text,
    pub complete: bool,
    pub bases: Vec<Base>,
    pub members: Vec<Member>,
}
