// A unit's tokens.

ghost use Rattle.std.specs.Prelude.{◌+◌, ◌≤◌, length};
ghost use Rattle.mm_base.specs.declared.limits.TheConstants.{MAX_UNIT_BYTES};

use mm_base::code::Code;
use mm_base::place::Place;
use mm_base::text::Text;
use sqlite_items::Items;
use std::alloc::AllocError;

/// What sort of token a piece of text is.
#[derive(Clone, Copy)]
pub enum Kind {
    /// An identifier that names no class.
    Word,
    /// An identifier that stood after `class` or `struct`, there or before.
    Class,
    /// A reserved word.
    Key,
    /// A number, with its suffix.
    Number,
    /// Punctuation.
    Mark,
}

/// One token, with the text that it has in its file.
#[derive(Drop)]
pub struct Token {
    pub kind: Kind,
    /// The value of a number; 0 for any other kind.
    pub value: u32,
    pub text: Text,
    /// Where its first byte stands.
    pub place: Place,
}

/// The tokens of a unit, each header's in place of the directive that includes it first.
#[derive(Drop)]
pub struct Tokens {
    /// The unit's own file, and then each header in the order of first inclusion.
    pub files: Items<Text>,
    pub list: Items<Token>,
    /// Just after the last byte of the unit's own file.
    pub end: Place,
    /// The bytes of all these files.
    pub bytes: u64,
    pub ghost few: { length list ≤ bytes },
    pub ghost some: { 1 ≤ length files },
    pub ghost each: { length files ≤ bytes + 1 },
    pub ghost limited: { bytes ≤ MAX_UNIT_BYTES },
}

/// Why a unit has no tokens.
#[derive(Drop)]
pub enum TokenEnd {
    /// No file of this name is held; a directive at this place names it. The unit's own has 1:1 of file 0.
    Absent(Text, Place),
    /// A file couldn't be read.
    Failed(Text),
    /// A file is longer than its limit.
    TooLong(Text),
    /// A fault of the text, its place, and the name of the file where that is.
    Fault(Code, Place, Text),
    NoMemory,
}

impl From<AllocError> for TokenEnd {
    ghost use Rattle.std.specs.Prelude.{◌≡◌};
    ghost use Rattle.mm_token.specs.declared.token.TokenEnd.TheVariants.{NoMemory};

    ghost from_gives = { λ _ end. end ≡ NoMemory };

    fn from(_error: AllocError) -> TokenEnd {
        TokenEnd::NoMemory
    }
}
