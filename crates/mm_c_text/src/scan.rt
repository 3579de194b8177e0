// The next token of the bytes that are left.

ghost use Rattle.std.specs.Prelude.{◌≡◌, ◌≤◌, ◌<◌, ◌+◌, length, take, drop};
ghost use Rattle.std.specs.List.{prefix_len};
ghost use Rattle.mm_c.specs.Tokens.{is_white, is_word_byte, takes_equals, tokens_from};
ghost use Rattle.mm_c_text.specs.Places.{at, Fits};
ghost use Rattle.mm_c_text.specs.Scan.{Dark, IsFirst};

use crate::class::is_word_byte;
use crate::place::{Place, past};

/// Bytes of a text, and where they begin.
#[derive(Clone, Copy)]
pub struct Left<'a> {
    pub bytes: &'a [u8],
    pub place: Place,
}

fn is_white(byte: u8) -> bool
    ensures { result ≡ is_white byte }
{
    byte == b' ' || byte == b'\t' || byte == b'\n'
}

/// What is left behind the white space in front.
#[tactic(auto, using(crate::proofs::Left::white_at, crate::proofs::Left::dark_at))]
pub fn skip_white(bytes: &[u8], start: Place) -> Left<'_>
    requires { Fits start (length bytes.now) }
    ensures same { tokens_from (at result.place) result.bytes.now ≡ tokens_from (at start) bytes.now }
    ensures room { Fits result.place (length result.bytes.now) }
    ensures dark { Dark result.bytes.now }
{
    let mut place = start;
    let mut count = 0;
    while count < bytes.len() && is_white(bytes[count]) {
        place = past(place, bytes[count], bytes.len() - count - 1);
        count += 1;
    }
    Left {
        bytes: &bytes[count..],
        place,
    }
}

fn word_length(text: &[u8]) -> usize
    ensures { result ≡ prefix_len is_word_byte text.now }
{
    let mut count = 0;
    let mut rest = text;
    while let [byte, more @ ..] = rest {
        if !is_word_byte(*byte) {
            break;
        }
        count += 1;
        rest = more;
    }
    count
}

fn takes_equals(byte: u8) -> bool
    ensures { result ≡ takes_equals byte }
{
    byte == b'<' || byte == b'>' || byte == b'=' || byte == b'!'
}

#[tactic(auto, using(crate::proofs::Firsts::word_first, crate::proofs::Firsts::word_some, crate::proofs::Firsts::two_first, crate::proofs::Firsts::one_first, std::proofs::lemmas::Grind::common_steps))]
/// How long the token is that these bytes begin with.
pub fn token_length(text: &[u8]) -> usize
    requires some { 0 < length text.now }
    requires dark { Dark text.now }
    ensures within { result ≤ length text.now }
    ensures some { 0 < result }
    ensures first { IsFirst (take result text.now) (drop result text.now) }
{
    if is_word_byte(text[0]) {
        return word_length(text);
    }
    if text.len() > 1 && takes_equals(text[0]) && text[1] == b'=' {
        return 2;
    }
    1
}
