// The limits on units, on what they declare, on C texts, on inputs and on runs.

/// The most bytes of one file, and of a unit with its headers.
pub const MAX_UNIT_BYTES: u64 = 1_048_576;

/// How deep headers may be included one in the other; the unit's own file stands at 0.
pub const MAX_INCLUDE_DEPTH: u32 = 32;

/// The most tokens that follow a `;`, `{` or `}`, or the start of the unit, without another of these.
pub const MAX_TOKEN_RUN: usize = 1000;

/// How many statements may stand one inside the other.
pub const MAX_NESTING: usize = 200;

/// The most parameters of a function.
pub const MAX_PARAMETERS: usize = 32;

/// The most parameters of a function that are marked virtual.
pub const MAX_VIRTUAL_PARAMETERS: usize = 4;

/// The most classes that a unit declares.
pub const MAX_CLASSES: usize = 1024;

/// The most subobjects of a class, itself counted.
pub const MAX_SUBOBJECTS: usize = 256;

/// The most fields that a class declares.
pub const MAX_FIELDS: u64 = 524_288;

/// The most bytes of a C text that is run.
pub const MAX_C_BYTES: u64 = 134_217_728;

/// In how many blocks of a C text a block may stand.
pub const MAX_C_NESTING: usize = 4096;

/// The most bytes of the input of a run.
pub const MAX_INPUT_BYTES: usize = 1_048_576;

/// The greatest bound on the steps of a run that the words may give.
pub const MAX_STEPS: u64 = 1_000_000_000;

/// The bound on the steps of a run where the words give none.
pub const DEFAULT_STEPS: u64 = 1_000_000;
