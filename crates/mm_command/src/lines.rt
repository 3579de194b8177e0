// The lines of a run.

ghost use Rattle.std.specs.Prelude.{◌≡◌, ◌++◌, IfOk};
ghost use Rattle.std.specs.List.{flat_map};
ghost use Rattle.mm_command.specs.Due.{line_of};

use std::alloc::{AllocError, Global};

// A number, and the end of its line.
fn add_line(alloc: Global, text: &mut Vec<u8>, number: &i32) -> Result<(), AllocError>
    ensures { IfOk result (λ _. text.new.items ≡ text.old.items ++ line_of number.now) }
{
    let digits = format!(in alloc; "{}", *number)?;
    text.extend_from_slice(digits.as_bytes())?;
    text.extend_from_slice(b"\n")?;
    Ok(())
}

/// Each number on a line.
pub fn add_lines(alloc: Global, text: &mut Vec<u8>, numbers: &[i32]) -> Result<(), AllocError>
    ensures { IfOk result (λ _. text.new.items ≡ text.old.items ++ flat_map line_of numbers.now) }
{
    for number in numbers {
        add_line(alloc, text, number)?;
    }
    Ok(())
}
