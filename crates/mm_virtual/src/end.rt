//! What final overriders are told by, and why there are none.

use mm_base::place::Place;
use mm_base::text::Text;
use mm_classes::id::ClassId;
use std::alloc::AllocError;

/// A member: the class that declares it, and its number among that class's members.
#[derive(Clone, Copy, PartialEq, Eq, Debug)]
pub struct MemberRef {
    pub class: ClassId,
    pub index: u32,
}

/// Why the final overriders of a class are not told.
#[derive(Drop)]
pub enum FinalEnd {
    /// A virtual function of this name, declared here, has no only final overrider.
    Several(Text, Place),
    /// The function that is declared here overrides one with a result from which its own may not
    /// differ so.
    Result(Place),
    NoMemory,
}

impl From<AllocError> for FinalEnd {
    ghost use Rattle.std.specs.Prelude.{◌≡◌};
    ghost use Rattle.mm_virtual.specs.declared.end.FinalEnd.TheVariants.{NoMemory};

    ghost from_gives = { λ _ e. e ≡ NoMemory };

    fn from(_error: AllocError) -> FinalEnd {
        FinalEnd::NoMemory
    }
}
