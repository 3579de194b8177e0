// How deep blocks stand in one another.

ghost use Rattle.std.specs.Prelude.{◌≡◌, nat_le};
ghost use Rattle.mm_c.specs.View.{stmt_view, block_view, code_view};
ghost use Rattle.mm_c.specs.WellFormed.{depth_of, code_depth, stmt_depth};

use mm_c::tree::{CBlock, CStmt};

#[tactic(auto, using(crate::proofs::Rules::depth_rules))]
#[cycle(stmt_is_within)]
fn stmt_is_within(stmt: &CStmt, most: u32) -> bool
    ensures { result ≡ nat_le (stmt_depth (stmt_view stmt.now)) most }
{
    match stmt {
        CStmt::Assign(_, _) => true,
        CStmt::Store(_, _, _) => true,
        CStmt::Call(_) => true,
        CStmt::If(_, block) => block_is_within(block, most),
        CStmt::IfElse(_, block, other) => {
            block_is_within(block, most) && block_is_within(other, most)
        }
        CStmt::While(block) => block_is_within(block, most),
        CStmt::Break => true,
        CStmt::Continue => true,
        CStmt::Return => true,
        CStmt::ReturnValue(_) => true,
    }
}

/// Whether a block and those inside it stand at most so many in one another. It looks no deeper.
#[tactic(auto, using(crate::proofs::Rules::depth_rules))]
#[cycle(stmt_is_within)]
pub fn block_is_within(block: &CBlock, most: u32) -> bool
    ensures { result ≡ nat_le (depth_of (block_view block.now)) most }
{
    most > 0 && code_is_within(block.body.as_slice(), most - 1)
}

#[tactic(auto, using(crate::proofs::Rules::depth_rules))]
#[cycle(stmt_is_within)]
fn code_is_within(stmts: &[CStmt], most: u32) -> bool
    ensures { result ≡ nat_le (code_depth (code_view stmts.now)) most }
{
    for stmt in stmts {
        if !stmt_is_within(stmt, most) {
            return false;
        }
    }
    true
}
