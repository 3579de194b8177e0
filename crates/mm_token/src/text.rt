// Bytes to characters and back.

ghost use Rattle.std.specs.Prelude.{◌≡◌, ◌++◌, take, drop, IfOk, OnOk, IsTrue, string_bytes};
ghost use Rattle.std.specs.Char.{IsScalar};
ghost use Rattle.std.specs.Str.{chars, encode_utf8_all};
ghost use Rattle.std.specs.Str.Lossy.{utf8_valid_len};
ghost use Rattle.mm_token.specs.Characters.{characters_of, spoiled, is_text};

use std::alloc::{AllocError, Global};

/// Stands for a byte that begins no character.
const NO_CHARACTER: u32 = 0x11_0000;

/// The longest front that is UTF-8, and the bytes behind it.
fn split(bytes: &[u8]) -> (&str, &[u8])
    ensures front { result.0.now ≡ take (utf8_valid_len bytes.now) bytes.now }
    ensures rest { result.1.now ≡ drop (utf8_valid_len bytes.now) bytes.now }
{
    match str::from_utf8(bytes) {
        Ok(text) => (text, &[]),
        Err(error) => {
            let n = error.valid_up_to();
            match str::from_utf8(&bytes[..n]) {
                Ok(text) => (text, &bytes[n..]),
                Err(_) => unreachable!(),
            }
        }
    }
}

fn code_points(alloc: Global, text: &str) -> Result<Vec<u32>, AllocError>
    ensures { IfOk result (λ v. v.items ≡ chars text.now) }
{
    text.chars().map(u32::from).collect(alloc)
}

/// Adds bytes that begin with no character.
fn add_spoiled(list: &mut Vec<u32>, rest: &[u8]) -> Result<(), AllocError>
    ensures { OnOk result (list.new.items ≡ list.old.items ++ spoiled rest.now) }
{
    if let [_, more @ ..] = rest {
        list.push(NO_CHARACTER)?;
        for b in more {
            list.push(u32::from(*b))?;
        }
    }
    Ok(())
}

/// The characters of a file.
#[tactic(auto, unfolding(crate::specs::Characters::characters_of))]
pub fn characters(alloc: Global, bytes: &[u8]) -> Result<Vec<u32>, AllocError>
    ensures { IfOk result (λ v. v.items ≡ characters_of bytes.now) }
{
    let (text, rest) = split(bytes);
    let mut list = code_points(alloc, text)?;
    add_spoiled(&mut list, rest)?;
    Ok(list)
}

fn character(c: u32) -> char
    requires { IsScalar c }
    ensures { result ≡ c }
{
    match char::from_u32(c) {
        Some(c) => c,
        None => unreachable!(),
    }
}

/// The text of characters.
pub fn encoded(alloc: Global, text: &[u32]) -> Result<String, AllocError>
    requires { IsTrue (is_text text.now) }
    ensures { IfOk result (λ s. string_bytes s ≡ encode_utf8_all text.now) }
{
    let mut s = String::new(alloc);
    for c in text {
        s.push(character(*c))?;
    }
    Ok(s)
}
