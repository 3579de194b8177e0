// Moves of the machine that take no step, and neither call nor leave a block. What comes first
// stays at hand between them, and is put into the machine behind the last one alone.

ghost use Rattle.std.specs.Prelude.{◌≡◌, List, length, IfOk, Option};
ghost use Rattle.mm_base.specs.World as plain;
ghost use Rattle.mm_c.specs.Memory as c;
ghost use Rattle.mm_c_memory.specs.Held.{Holds};
ghost use Rattle.mm_c_placed.specs.Tree as tree;
ghost use Rattle.mm_c_placed.specs.Tree.{done, do_then, Program};
ghost use Rattle.mm_c_placed.specs.View.{code_view, program_view};
ghost use Rattle.mm_c_machine.specs.State.{seen, with_at, code};
ghost use Rattle.mm_c_machine.specs.Ready.{IsReadyCore};
ghost use Rattle.mm_c_machine.specs.Goes.{Passes, Walks};

use crate::machine::{Machine, Pending};
use mm_c::value::CValue;
use mm_c_placed::tree::{Local, Operand, PlacedProgram, PlacedStmt, Right};
use std::alloc::AllocError;

impl<'a> Machine<'a> {
    // What an assignment leaves to be done, unless it is stuck; then nothing was done.
    #[inline(always)]
    fn pass_assign(
        &mut self,
        program: &PlacedProgram,
        x: Local,
        r: &Right,
        more: &'a [PlacedStmt],
    ) -> Option<&'a [PlacedStmt]>
        requires { IsReadyCore (with_at (seen self.old) (code (do_then (tree.assign x r.now) (code_view more.now)))) }
        ensures { (m : List c.Block) (w : plain.World) → Holds m self.old.memory → Passes (program_view program.now) result (with_at (seen self.old) (code (do_then (tree.assign x r.now) (code_view more.now)))) m w (seen self.old) (seen self.new) self.old.memory self.new.memory }
    {
        match self.right(program, r) {
            None => None,
            Some(v) => {
                self.set(x, v);
                Some(more)
            }
        }
    }

    // What a choice leaves to be done first, unless it is stuck; then nothing was done.
    #[inline(always)]
    fn pass_if(
        &mut self,
        a: &Operand,
        b: &'a [PlacedStmt],
        d: &'a [PlacedStmt],
        more: &'a [PlacedStmt],
    ) -> Result<Option<&'a [PlacedStmt]>, AllocError>
        requires { IsReadyCore (with_at (seen self.old) (code (do_then (tree.if_else a.now (code_view b.now) (code_view d.now)) (code_view more.now)))) }
        ensures { IfOk result (λ o. (q : Program) (m : List c.Block) (w : plain.World) → Holds m self.old.memory → Passes q o (with_at (seen self.old) (code (do_then (tree.if_else a.now (code_view b.now) (code_view d.now)) (code_view more.now)))) m w (seen self.old) (seen self.new) self.old.memory self.new.memory) }
    {
        match self.value(a) {
            CValue::Int(z) => {
                self.keep(more)?;
                if z == 0 { Ok(Some(d)) } else { Ok(Some(b)) }
            }
            _ => Ok(None),
        }
    }

    // The rest of a block behind the end of one within it, where that is next on the stack; else
    // nothing was done.
    #[inline(always)]
    fn resume(&mut self) -> Option<&'a [PlacedStmt]>
        requires { IsReadyCore (with_at (seen self.old) (code done)) }
        ensures { (q : Program) (m : List c.Block) (w : plain.World) → Holds m self.old.memory → Passes q result (with_at (seen self.old) (code done)) m w (seen self.old) (seen self.new) self.old.memory self.new.memory }
    {
        let len = self.pending.len();
        if len == 0 {
            return None;
        }
        match self.pending[len - 1] {
            Pending::Rest(more) => {
                self.pending.truncate(len - 1);
                Some(more)
            }
            _ => None,
        }
    }

    // What is to be done after one move of the code, where that takes no step and neither calls
    // nor leaves a block; else nothing was done.
    #[inline(always)]
    fn pass(
        &mut self,
        program: &PlacedProgram,
        stmts: &'a [PlacedStmt],
    ) -> Result<Option<&'a [PlacedStmt]>, AllocError>
        requires { IsReadyCore (with_at (seen self.old) (code (code_view stmts.now))) }
        ensures { IfOk result (λ o. (m : List c.Block) (w : plain.World) → Holds m self.old.memory → Passes (program_view program.now) o (with_at (seen self.old) (code (code_view stmts.now))) m w (seen self.old) (seen self.new) self.old.memory self.new.memory) }
    {
        match stmts {
            [] => Ok(self.resume()),
            [s, more @ ..] => match s {
                PlacedStmt::Assign(x, r) => Ok(self.pass_assign(program, *x, r, more)),
                PlacedStmt::If(a, b, d) => self.pass_if(a, b.as_slice(), d.as_slice(), more),
                _ => Ok(None),
            },
        }
    }

    // Such moves, as many as there are, and what is left to be done. What comes next is not put
    // into the machine between them.
    #[inline(always)]
    pub(crate) fn walk(
        &mut self,
        program: &PlacedProgram,
        stmts: &'a [PlacedStmt],
    ) -> Result<&'a [PlacedStmt], AllocError>
        requires fits { IsReadyCore (with_at (seen self.old) (code (code_view stmts.now))) }
        requires held { (m : List c.Block) × Holds m self.old.memory }
        ensures { IfOk result (λ left. (m : List c.Block) (w : plain.World) → Holds m self.old.memory → Walks (program_view program.now) (with_at (seen self.old) (code (code_view stmts.now))) m w (with_at (seen self.new) (code (code_view left.now))) self.new.memory) }
    {
        let mut left = stmts;
        loop {
            match self.pass(program, left)? {
                Some(next) => left = next,
                None => return Ok(left),
            }
        }
    }
}
