// The names that the code of a function uses.

ghost use Rattle.std.specs.Prelude.{◌≡◌, IfOk};
ghost use Rattle.mm_c.specs.declared.tree.CAtom.TheVariants as atom;
ghost use Rattle.mm_simulate.specs.Names.{function_named};
ghost use Rattle.mm_c.specs.Tokens as tokens;
ghost use Rattle.mm_simulate.specs.Lowered as lowered;
ghost use Rattle.mm_lower_trees.specs.Named.{text_of};

use mm_base::text::Text;
use mm_c::tree::{CAtom, CKind, CNumber};
use std::alloc::{AllocError, Global};

/// A local of the source, or a temporary of a kind, by their numbers.
#[derive(Clone, Copy, Debug, PartialEq, Eq)]
pub enum Name {
    Local(usize),
    Temporary(CKind, u32),
}

#[tactic(auto, using(crate::proofs::Digits::name_rules))]
impl Name {
    /// Its text, as `v0` or `i0`.
    pub fn text(self, alloc: Global) -> Result<Text, AllocError>
        ensures { IfOk result (λ t. t ≡ text_of self) }
    {
        let text = match self {
            Name::Local(x) => format!(in alloc; "v{x}")?,
            Name::Temporary(CKind::Int, t) => format!(in alloc; "i{t}")?,
            Name::Temporary(CKind::Unsigned, t) => format!(in alloc; "u{t}")?,
            Name::Temporary(CKind::Long, t) => format!(in alloc; "l{t}")?,
            Name::Temporary(CKind::Pointer, t) => format!(in alloc; "p{t}")?,
        };
        Ok(Text::from_string(text))
    }
}

impl Name {
    /// What it holds, as an operand.
    pub fn atom(self, alloc: Global) -> Result<CAtom, AllocError>
        ensures { IfOk result (λ a. a ≡ atom.Name (text_of self)) }
    {
        Ok(CAtom::Name(self.text(alloc)?))
    }
}

fn is_word_byte(byte: u8) -> bool
    ensures { result ≡ tokens.is_word_byte byte }
{
    byte.is_ascii_alphanumeric() || byte == b'_'
}

/// The name of a function, by its number and its name in the source; `main` keeps its own.
#[tactic(auto, using(crate::proofs::Digits::name_rules))]
pub fn function_name(
    alloc: Global,
    is_main: bool,
    number: usize,
    source: &str,
) -> Result<Text, AllocError>
    ensures { IfOk result (λ t. t ≡ function_named is_main number source.now) }
{
    if is_main {
        return Text::from_str(alloc, "main");
    }
    let mut name = format!(in alloc; "f{number}_")?;
    for byte in source.as_bytes() {
        if is_word_byte(*byte) {
            name.push(char::from(*byte))?;
        }
    }
    Ok(Text::from_string(name))
}

/// A number without a suffix.
pub fn plain(value: u32) -> CAtom
    ensures { result ≡ lowered.plain value }
{
    CAtom::Number(CNumber {
        value,
        is_unsigned: false,
    })
}

/// A number with the suffix `u`.
pub fn word(value: u32) -> CAtom
    ensures { result ≡ lowered.word value }
{
    CAtom::Number(CNumber {
        value,
        is_unsigned: true,
    })
}
