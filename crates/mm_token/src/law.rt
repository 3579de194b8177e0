// What the definitions say of themselves.

ghost use Rattle.mm_token.specs.Forms.{Forms};
ghost use Rattle.mm_token.specs.OneReading.{OneReading};

/// A unit has one list of tokens or one first fault.
pub fn one_reading()
    ensures { OneReading }
{}

/// What a directive looks like, and which characters a text in UTF-8 has.
pub fn forms()
    ensures { Forms }
{}
