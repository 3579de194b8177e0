// The messages of refusals.

ghost use Rattle.std.specs.Prelude.{◌≡◌, ◌++◌, IfOk, codes};
ghost use Rattle.mm_top.specs.Messages as messages;
ghost use Rattle.mm_top.specs.Messages.{at_place, code_text, behind};

use mm_base::code::Code;
use mm_verdict::fault::Fault;
use std::alloc::{AllocError, Global};

// A name behind some words, and the end of the line.
fn line(alloc: Global, words: &[u8], name: &str) -> Result<Vec<u8>, AllocError>
    ensures { IfOk result (λ text. text.items ≡ words.now ++ (name.now ++ codes "\n")) }
{
    let mut text = Vec::from_slice(alloc, words)?;
    text.extend_from_slice(name.as_bytes())?;
    text.extend_from_slice(b"\n")?;
    Ok(text)
}

/// That a file isn't there.
pub fn no_file(alloc: Global, name: &str) -> Result<Vec<u8>, AllocError>
    ensures { IfOk result (λ text. text.items ≡ messages.no_file name.now) }
{
    line(alloc, b"mmc: no file ", name)
}

/// That the read of a file failed.
pub fn read_failed(alloc: Global, name: &str) -> Result<Vec<u8>, AllocError>
    ensures { IfOk result (λ text. text.items ≡ messages.read_failed name.now) }
{
    line(alloc, b"mmc: read failed ", name)
}

/// That a file, or the input, is past its limit.
pub fn too_long(alloc: Global, name: &str, most: u64) -> Result<Vec<u8>, AllocError>
    ensures { IfOk result (λ text. text.items ≡ messages.too_long name.now most) }
{
    let rest = format!(in alloc; ": longer than {} bytes\n", most)?;
    let mut text = Vec::from_slice(alloc, name.as_bytes())?;
    text.extend_from_slice(rest.as_bytes())?;
    Ok(text)
}

/// That a line of the input, counted from 1, is no `int`.
pub fn bad_line(alloc: Global, number: usize) -> Result<Vec<u8>, AllocError>
    ensures { IfOk result (λ text. text.items ≡ messages.bad_line number) }
{
    let number = format!(in alloc; "{}", number)?;
    line(alloc, b"mmc: input line ", number.as_str())
}

// A file, a line and a column, as a message begins.
fn at(alloc: Global, file: &str, line: u32, column: u32) -> Result<Vec<u8>, AllocError>
    ensures { IfOk result (λ text. text.items ≡ at_place file.now line column) }
{
    let line = format!(in alloc; "{}", line)?;
    let column = format!(in alloc; "{}", column)?;
    let mut text = Vec::from_slice(alloc, file.as_bytes())?;
    text.extend_from_slice(b":")?;
    text.extend_from_slice(line.as_bytes())?;
    text.extend_from_slice(b":")?;
    text.extend_from_slice(column.as_bytes())?;
    text.extend_from_slice(b": ")?;
    Ok(text)
}

// Adds a code and what the fault names, and ends the line.
fn add_code(alloc: Global, text: &mut Vec<u8>, code: Code, names: &[u8]) -> Result<(), AllocError>
    ensures { IfOk result (λ _. text.new.items ≡ text.old.items ++ (code_text code ++ (behind names.now ++ codes "\n"))) }
{
    let number = format!(in alloc; "{}", code.number)?;
    text.push(code.letter)?;
    text.extend_from_slice(number.as_bytes())?;
    if !names.is_empty() {
        text.extend_from_slice(b" ")?;
        text.extend_from_slice(names)?;
    }
    text.extend_from_slice(b"\n")?;
    Ok(())
}

/// What a fault says, at its place.
pub fn fault_message(alloc: Global, fault: &Fault) -> Result<Vec<u8>, AllocError>
    ensures { IfOk result (λ text. text.items ≡ messages.fault_message fault.now) }
{
    let mut text = at(
        alloc,
        fault.file.as_str(),
        fault.place.line,
        fault.place.col,
    )?;
    add_code(alloc, &mut text, fault.code, fault.text.as_bytes())?;
    Ok(text)
}

/// Where a C text is refused.
pub fn bad_text(alloc: Global, file: &str, line: u32, column: u32) -> Result<Vec<u8>, AllocError>
    ensures { IfOk result (λ text. text.items
        ≡ messages.bad_text file.now (record { line = line; column = column })) }
{
    let mut text = at(alloc, file, line, column)?;
    text.extend_from_slice(b"C\n")?;
    Ok(text)
}
