// Places in a text.

ghost use Rattle.std.specs.Prelude.{◌≡◌, ◌≤◌, ◌+◌, ◌^◌, length};
ghost use Rattle.mm_c.specs.Tokens.{past, end_from, first_place};
ghost use Rattle.mm_c_text.specs.Places.{at, Fits};

/// A line and a column, both from 1; columns count bytes.
#[derive(Clone, Copy, Debug, PartialEq, Eq)]
pub struct Place {
    pub line: u32,
    pub column: u32,
}

/// The first place of a text.
pub fn first() -> Place
    ensures { at result ≡ first_place }
{
    Place { line: 1, column: 1 }
}

/// The place after a byte, before so many more.
pub fn past(place: Place, byte: u8, left: usize) -> Place
    requires { Fits place (left + 1) }
    ensures value { at result ≡ past (at place) byte }
    ensures room { Fits result left }
{
    if byte == b'\n' {
        Place {
            line: place.line + 1,
            column: 1,
        }
    } else {
        Place {
            line: place.line,
            column: place.column + 1,
        }
    }
}

/// The place after all of these bytes, before so many more.
pub fn end(place: Place, bytes: &[u8], left: usize) -> Place
    requires { Fits place (left + length bytes.now) }
    ensures value { at result ≡ end_from (at place) bytes.now }
    ensures room { Fits result left }
{
    let mut here = place;
    let mut rest = bytes;
    while let [byte, more @ ..] = rest {
        here = past(here, *byte, left + more.len());
        rest = more;
    }
    here
}
