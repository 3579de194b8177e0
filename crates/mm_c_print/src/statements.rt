// Statements and blocks.

ghost use Rattle.std.specs.Prelude.{◌≡◌, codes, [], ◌∷◌, ◌++◌, OnOk, flat_map};
ghost use Rattle.mm_c.specs.View.{stmt_view, block_view, code_view};
ghost use Rattle.mm_c.specs.Printing.{written, text_of, kind_tokens, atom_tokens, zero_token, local_tokens, condition_tokens, stmt_tokens, block_tokens, code_tokens};

use crate::tokens::{put_atom, put_call, put_kind, put_place, put_right, put_token};
use mm_c::tree::{CAtom, CBlock, CKind, CLocal, CStmt};
use std::alloc::AllocError;

fn put_zero(out: &mut Vec<u8>, kind: CKind) -> Result<(), AllocError>
    ensures { OnOk result (out.new.items ≡ out.old.items ++ written (zero_token kind)) }
{
    match kind {
        CKind::Unsigned => put_token(out, b"0u"),
        CKind::Int => put_token(out, b"0"),
        CKind::Long => put_token(out, b"0"),
        CKind::Pointer => put_token(out, b"0"),
    }
}

fn put_locals(out: &mut Vec<u8>, locals: &[CLocal]) -> Result<(), AllocError>
    ensures { OnOk result (out.new.items ≡ out.old.items ++ text_of (flat_map local_tokens locals.now)) }
{
    for local in locals {
        put_kind(out, local.kind)?;
        put_token(out, local.name.as_bytes())?;
        put_token(out, b"=")?;
        put_zero(out, local.kind)?;
        put_token(out, b";")?;
    }
    Ok(())
}

fn put_condition(out: &mut Vec<u8>, atom: &CAtom) -> Result<(), AllocError>
    ensures { OnOk result (out.new.items ≡ out.old.items ++ text_of (condition_tokens atom.now)) }
{
    put_token(out, b"(")?;
    put_atom(out, atom)?;
    put_token(out, b")")
}

// a word, and the end of the statement
fn put_simple(out: &mut Vec<u8>, word: &[u8]) -> Result<(), AllocError>
    ensures { OnOk result (out.new.items ≡ out.old.items ++ text_of (word.now ∷ codes ";" ∷ [])) }
{
    put_token(out, word)?;
    put_token(out, b";")
}

// an operand, and the end of the statement
fn put_last(out: &mut Vec<u8>, atom: &CAtom) -> Result<(), AllocError>
    ensures { OnOk result (out.new.items ≡ out.old.items ++ text_of (atom_tokens atom.now ++ codes ";" ∷ [])) }
{
    put_atom(out, atom)?;
    put_token(out, b";")
}

#[cycle(put_stmt)]
fn put_stmt(out: &mut Vec<u8>, stmt: &CStmt) -> Result<(), AllocError>
    ensures { OnOk result (out.new.items ≡ out.old.items ++ text_of (stmt_tokens (stmt_view stmt.now))) }
{
    match stmt {
        CStmt::Assign(name, right) => {
            put_token(out, name.as_bytes())?;
            put_token(out, b"=")?;
            put_right(out, right)?;
            put_token(out, b";")
        }
        CStmt::Store(cell, address, atom) => {
            put_place(out, *cell, address)?;
            put_token(out, b"=")?;
            put_atom(out, atom)?;
            put_token(out, b";")
        }
        CStmt::Call(call) => {
            put_call(out, call)?;
            put_token(out, b";")
        }
        CStmt::If(atom, block) => {
            put_token(out, b"if")?;
            put_condition(out, atom)?;
            put_block(out, block)
        }
        CStmt::IfElse(atom, block, other) => {
            put_token(out, b"if")?;
            put_condition(out, atom)?;
            put_block(out, block)?;
            put_token(out, b"else")?;
            put_block(out, other)
        }
        CStmt::While(block) => {
            out.extend_from_slice(b"while ( 1 ) ")?;
            put_block(out, block)
        }
        CStmt::Break => put_simple(out, b"break"),
        CStmt::Continue => put_simple(out, b"continue"),
        CStmt::Return => put_simple(out, b"return"),
        CStmt::ReturnValue(atom) => {
            put_token(out, b"return")?;
            put_last(out, atom)
        }
    }
}

#[cycle(put_stmt)]
pub fn put_block(out: &mut Vec<u8>, block: &CBlock) -> Result<(), AllocError>
    ensures { OnOk result (out.new.items ≡ out.old.items ++ text_of (block_tokens (block_view block.now))) }
{
    put_token(out, b"{")?;
    put_locals(out, block.locals.as_slice())?;
    put_code(out, block.body.as_slice())?;
    put_token(out, b"}")
}

#[cycle(put_stmt)]
fn put_code(out: &mut Vec<u8>, stmts: &[CStmt]) -> Result<(), AllocError>
    ensures { OnOk result (out.new.items ≡ out.old.items ++ text_of (code_tokens (code_view stmts.now))) }
{
    for stmt in stmts {
        put_stmt(out, stmt)?;
    }
    Ok(())
}
