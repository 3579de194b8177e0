// Statements behind the code so far.

ghost use Rattle.std.specs.Prelude.{◌≡◌, OnOk};
ghost use Rattle.mm_c.specs.Tree.{◌⨾◌};
ghost use Rattle.mm_c.specs.View.{block_view, code_view};
ghost use Rattle.mm_simulate.specs.Lowered as lowered;
ghost use Rattle.mm_lower_trees.specs.Named.{text_of};

use crate::name::{Name, plain};
use mm_base::text::Text;
use mm_c::tree::{CBlock, CCall, CExpr, CStmt};
use sqlite_items::Items;
use std::alloc::{AllocError, Global};

/// The name gets the value of the right side.
pub fn set(
    alloc: Global,
    code: &mut Items<CStmt>,
    name: Name,
    right: CExpr,
) -> Result<(), AllocError>
    ensures { OnOk result (code_view code.new ≡ code_view code.old ⨾ lowered.set (text_of name) right) }
{
    let name = name.text(alloc)?;
    code.push(CStmt::Assign(name, right))
}

/// A block without locals of its own.
pub fn block(alloc: Global, body: Items<CStmt>) -> CBlock
    ensures { block_view result ≡ lowered.block_of (code_view body) }
{
    let locals = Items::new(alloc);
    CBlock { locals, body }
}

/// The branch runs where the name holds a number that isn't 0.
pub fn only_if(
    alloc: Global,
    code: &mut Items<CStmt>,
    test: Name,
    branch: Items<CStmt>,
) -> Result<(), AllocError>
    ensures { OnOk result (code_view code.new ≡ code_view code.old ⨾ lowered.only_if (text_of test) (code_view branch)) }
{
    let test = test.atom(alloc)?;
    code.push(CStmt::If(test, block(alloc, branch)))
}

/// One of the branches runs: the first where the name holds a number that isn't 0.
pub fn if_or(
    alloc: Global,
    code: &mut Items<CStmt>,
    test: Name,
    first: Items<CStmt>,
    second: Items<CStmt>,
) -> Result<(), AllocError>
    ensures { OnOk result (code_view code.new ≡ code_view code.old ⨾ lowered.if_or (text_of test) (code_view first) (code_view second)) }
{
    let test = test.atom(alloc)?;
    let first = block(alloc, first);
    let second = block(alloc, second);
    code.push(CStmt::IfElse(test, first, second))
}

/// The run ends by the trap of this number.
pub fn trap(alloc: Global, code: &mut Items<CStmt>, number: u32) -> Result<(), AllocError>
    ensures { OnOk result (code_view code.new ≡ code_view code.old ⨾ lowered.trap_code number) }
{
    let mut arguments = Items::new(alloc);
    arguments.push(plain(number))?;
    let name = Text::from_str(alloc, "mm_trap")?;
    code.push(CStmt::Call(CCall::Named(name, arguments)))
}

/// The run ends by the trap of this number, where the name holds a number that isn't 0.
pub fn trap_if(
    alloc: Global,
    code: &mut Items<CStmt>,
    test: Name,
    number: u32,
) -> Result<(), AllocError>
    ensures { OnOk result (code_view code.new ≡ code_view code.old ⨾ lowered.only_if (text_of test) (lowered.trap_code number)) }
{
    let mut branch = Items::new(alloc);
    trap(alloc, &mut branch, number)?;
    only_if(alloc, code, test, branch)
}
