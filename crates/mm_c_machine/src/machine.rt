// A machine with a stack of what is left to do. No function of it calls itself.

ghost use Rattle.std.specs.Prelude.{◌≡◌, ℕ, ℤ, ◌+◌, ◌-◌, ◌<◌, ◌≤◌, List, [], ◌∷◌, ◌++◌, length, map, drop, take, All, IfOk, OnOk, OnErr, Option, slice_get};
ghost use Rattle.std.specs.Option.{option_map, option_copied};
ghost use Rattle.mm_base.specs.World as plain;
ghost use Rattle.mm_base.specs.Calls.{world_view};
ghost use Rattle.mm_c.specs.Memory as c;
ghost use Rattle.mm_c.specs.CMeaning as m;
ghost use Rattle.mm_c.specs.CMeaning.{or_stuck, left_by, fitted, long_of};
ghost use Rattle.mm_c_memory.specs.Held.{Holds};
ghost use Rattle.mm_c_placed.specs.Tree as tree;
ghost use Rattle.mm_c_placed.specs.Tree.{do_then, Program};
ghost use Rattle.mm_c_placed.specs.View.{code_view, stmt_view, function_view, program_view};
ghost use Rattle.mm_c_placed.specs.Ready.{IsInOperand, AreIn, IsInRight, IsInIndex, IsInResult, IsReady};
ghost use Rattle.mm_c_placed.specs.Meaning.{operand_of, start, value_in, index_of, element_at, around_of, Calls};
ghost use Rattle.mm_c_machine.specs.Frames.{fitted_all, with_zeros};
ghost use Rattle.mm_c_machine.specs.State.{seen, frame_of, level_of, with_local, with_values, with_at, with_piece, entered, code, leaves, no_way, rest, loop, flow_view, store_of, with_level, calling, below, pieces_below};
ghost use Rattle.mm_c_machine.specs.Answers.{state, Answers, callee_of};
ghost use Rattle.mm_c_machine.specs.Ready.{IsReadyCore};
ghost use Rattle.mm_c_machine.specs.Goes.{Goes, Grows, Reaches, Received, Entered, IsCalled, IsFound};
ghost use Rattle.mm_c_machine.specs.Parts.{function_in, number_in};

use crate::prelude::{Prelude, Refusal};
use crate::{frame, prelude};
use mm_base::world::World;
use mm_c::tree::CKind;
use mm_c::value::{CCell, CValue};
use mm_c_memory::memory::Memory;
use mm_c_memory::operate;
use mm_c_placed::tree::{
    Address, Callee, Element, Index, Local, Operand, PlacedFunction, PlacedProgram, PlacedStmt,
    Right, Target,
};
use sqlite_items::at;
use std::alloc::{AllocError, Global};

/// How a statement went on.
#[derive(Clone, Copy)]
pub enum Flow {
    Next,
    Broke,
    Continued,
    Returned(Option<CValue>),
}

/// The frame of a function that was entered: where its places begin, what it returns, and whether
/// it is inline.
#[derive(Clone, Copy)]
pub struct Frame {
    pub base: usize,
    pub result: Option<CKind>,
    pub is_inline: bool,
}

/// What is done after the code in hand: the rest of a block, a loop once more, or the function that
/// called goes on.
#[derive(Drop)]
pub enum Pending<'a> {
    Rest(&'a [PlacedStmt]),
    Loop(&'a [PlacedStmt]),
    // What each variant does next is its first field, so that it lies at one place in all.
    Return {
        rest: &'a [PlacedStmt],
        frame: Frame,
        receiver: Option<Local>,
    },
}

/// What is done first.
#[derive(Clone, Copy)]
pub enum Here<'a> {
    Code(&'a [PlacedStmt]),
    Leaves(Flow),
    Stuck,
}

#[derive(Drop)]
pub struct Machine<'a> {
    pub here: Here<'a>,
    pub pending: Vec<Pending<'a>>,
    pub values: Vec<CValue>,
    pub frame: Frame,
    pub memory: Memory,
}

/// How a run ended.
#[derive(Clone, Copy)]
pub enum Ending {
    Returned(Option<CValue>),
    Trapped(u8),
    Stuck,
}

/// What came of one move.
#[derive(Clone, Copy)]
pub enum Went {
    On,
    Stepped,
    Over(Ending),
}

// What a function that was left so returns, or nothing where that is stuck.
#[inline(always)]
fn left(result_kind: Option<CKind>, flow: Flow) -> Option<Option<CValue>>
    ensures { left_by result_kind (flow_view flow) ≡ or_stuck result }
{
    match flow {
        Flow::Next => returned_as(result_kind, None),
        Flow::Returned(value) => returned_as(result_kind, value),
        _ => None,
    }
}

#[inline(always)]
fn returned_as(result_kind: Option<CKind>, value: Option<CValue>) -> Option<Option<CValue>>
    ensures { m.returned_as result_kind value ≡ or_stuck result }
{
    match result_kind {
        None => match value {
            None => Some(None),
            Some(_) => None,
        },
        Some(kind) => match value {
            None => None,
            Some(v) => Some(Some(operate::fitted(kind, v))),
        },
    }
}

// The element of an array at an index.
#[inline]
fn element(program: &PlacedProgram, array: u32, index: i64) -> Option<Element>
    ensures { result ≡ element_at (program_view program.now) array index }
{
    if index < 0 {
        return None;
    }
    match at(program.arrays.as_slice(), array as usize) {
        None => None,
        Some(found) => at(found.elements.as_slice(), index as usize).copied(),
    }
}

/// The function of a number.
#[inline(always)]
pub fn function(program: &PlacedProgram, number: u32) -> Option<&PlacedFunction>
    ensures { option_copied result ≡ slice_get program.now.functions number }
{
    at(program.functions.as_slice(), number as usize)
}

#[inline]
fn function_in(program: &PlacedProgram, array: u32, index: Option<i64>) -> Option<Callee>
    ensures { result ≡ function_in program.now array index }
{
    match index {
        None => None,
        Some(i) => match element(program, array, i) {
            Some(Element::Function(f)) => Some(f),
            _ => None,
        },
    }
}

#[inline]
fn number_in(program: &PlacedProgram, array: u32, index: Option<i64>) -> Option<CValue>
    ensures { result ≡ long_of (number_in program.now array index) }
{
    match index {
        None => None,
        Some(i) => match element(program, array, i) {
            Some(Element::Number(n)) => Some(CValue::Long(n)),
            _ => None,
        },
    }
}

impl<'a> Machine<'a> {
    #[inline(always)]
    pub(crate) fn value(&self, a: &Operand) -> CValue
        requires { IsInOperand (length (frame_of self.now)) a.now }
        ensures { result ≡ operand_of (start (frame_of self.now)) a.now }
    {
        frame::read(self.values.as_slice(), self.frame.base, *a)
    }

    #[inline(always)]
    fn place(&self, x: u32) -> CValue
        requires { x < length (frame_of self.now) }
        ensures { result ≡ start (frame_of self.now) x }
    {
        frame::read(self.values.as_slice(), self.frame.base, Operand::Place(x))
    }

    fn index(&self, i: Index) -> Option<i64>
        requires { IsInIndex (length (frame_of self.now)) i }
        ensures { (m : List c.Block) (w : plain.World) → Holds m self.now.memory → result ≡ index_of (store_of (level_of self.now.frame self.now.values.items) (state m w)) i }
    {
        match i {
            Index::Place(x) => operate::as_index(self.place(x)),
            Index::Tag(p) => match self
                .memory
                .load(CCell::Short, self.place(p.pointer), p.offset)
            {
                None => None,
                Some(v) => operate::as_index(v),
            },
        }
    }

    // What a right side gives, or nothing where it is stuck.
    #[inline(always)]
    pub(crate) fn right(&self, program: &PlacedProgram, r: &Right) -> Option<CValue>
        requires { IsInRight (length (frame_of self.now)) r.now }
        ensures { (m : List c.Block) (w : plain.World) (calls : Calls) → Holds m self.now.memory → result ≡ value_in (around_of (program_view program.now) calls) (store_of (level_of self.now.frame self.now.values.items) (state m w)) r.now }
    {
        match r {
            Right::Copy(a) => Some(self.value(a)),
            Right::Binary(a, o, b) => operate::operate(
                &self.memory,
                *o,
                self.value(a),
                self.value(b),
            ),
            Right::ToInt(x) => operate::as_int(self.place(*x)),
            Right::ToUnsigned(x) => operate::as_unsigned(self.place(*x)),
            Right::Load(c, p) => self.memory.load(*c, self.place(p.pointer), p.offset),
            Right::Index(a, i) => number_in(program, *a, self.index(*i)),
        }
    }

    #[inline(always)]
    pub(crate) fn set(&mut self, x: Local, v: CValue)
        requires { x.place < length (frame_of self.old) }
        ensures core { seen self.new ≡ with_local (seen self.old) x v }
        ensures memory { self.new.memory ≡ self.old.memory }
    {
        let at = self.frame.base + x.place as usize;
        frame::put(&mut self.values, at, operate::fitted(x.kind, v));
    }

    // What a call left is received, and the code behind it comes first. False where that is stuck.
    #[inline(always)]
    fn receive(&mut self, x: Option<Local>, v: Option<CValue>, more: &'a [PlacedStmt]) -> bool
        requires { IsInResult (length (frame_of self.old)) x }
        ensures core { Received result x v (seen self.old) (code_view more.now) (seen self.new) }
        ensures memory { self.new.memory ≡ self.old.memory }
    {
        match x {
            None => {
                self.here = Here::Code(more);
                true
            }
            Some(local) => match v {
                None => false,
                Some(v) => {
                    self.set(local, v);
                    self.here = Here::Code(more);
                    true
                }
            },
        }
    }
}

impl<'a> Machine<'a> {
    // The rest of a block is to be done after what comes first.
    #[inline(always)]
    pub(crate) fn keep(&mut self, more: &'a [PlacedStmt]) -> Result<(), AllocError>
        ensures core { OnOk result (seen self.new ≡ with_piece (seen self.old) (rest (code_view more.now))) }
        ensures memory { self.new.memory ≡ self.old.memory }
    {
        self.pending.reserve(1)?;
        self.pending.push_reserved(Pending::Rest(more));
        Ok(())
    }

    // Some code comes first, and then the rest of the block.
    #[inline(always)]
    fn branch(&mut self, first: &'a [PlacedStmt], more: &'a [PlacedStmt]) -> Result<(), AllocError>
        ensures core { OnOk result (seen self.new ≡ with_at (with_piece (seen self.old) (rest (code_view more.now))) (code (code_view first.now))) }
        ensures memory { self.new.memory ≡ self.old.memory }
    {
        self.keep(more)?;
        self.here = Here::Code(first);
        Ok(())
    }

    // A loop comes first.
    fn begin(&mut self, body: &'a [PlacedStmt], more: &'a [PlacedStmt]) -> Result<(), AllocError>
        ensures core { OnOk result (seen self.new ≡ with_at (with_piece (with_piece (seen self.old) (rest (code_view more.now))) (loop (code_view body.now))) (code (code_view body.now))) }
        ensures memory { self.new.memory ≡ self.old.memory }
    {
        self.pending.reserve(2)?;
        self.pending.push_reserved(Pending::Rest(more));
        self.pending.push_reserved(Pending::Loop(body));
        self.here = Here::Code(body);
        Ok(())
    }

    // A function is entered: its parameters receive the arguments, as many as they are.
    #[inline(always)]
    fn enter(
        &mut self,
        x: Option<Local>,
        args: &[Operand],
        more: &'a [PlacedStmt],
        f: &'a PlacedFunction,
    ) -> Result<(), AllocError>
        requires many { length args.now ≡ length f.now.params }
        requires fit { All (IsInOperand (length (frame_of self.old))) args.now }
        ensures core { OnOk result (seen self.new ≡ entered (seen self.old) x (code_view more.now) (fitted_all f.now.params (map (operand_of (start (frame_of self.old))) args.now)) f.now.slots f.now.result f.now.is_inline (code_view f.now.body)) }
        ensures memory { self.new.memory ≡ self.old.memory }
    {
        let base = self.values.len();
        frame::push_given(&mut self.values, self.frame.base, f.params.as_slice(), args)?;
        frame::fill(&mut self.values, base + f.slots as usize)?;
        self.pending.reserve(1)?;
        self.pending.push_reserved(Pending::Return {
            rest: more,
            frame: Frame {
                base: self.frame.base,
                result: self.frame.result,
                is_inline: self.frame.is_inline,
            },
            receiver: x,
        });
        self.frame = Frame {
            base,
            result: f.result,
            is_inline: f.is_inline,
        };
        self.here = Here::Code(f.body.as_slice());
        Ok(())
    }

    // A call of a function of the program, where the receiver and the code behind stand with it.
    #[inline(always)]
    fn call(
        &mut self,
        x: Option<Local>,
        args: &[Operand],
        more: &'a [PlacedStmt],
        f: &'a PlacedFunction,
    ) -> Result<Went, AllocError>
        requires { All (IsInOperand (length (frame_of self.old))) args.now }
        ensures core { IfOk result (λ went. Entered went (seen self.old) x (code_view more.now) (map (operand_of (start (frame_of self.old))) args.now) (function_view f.now) (seen self.new)) }
        ensures memory { self.new.memory ≡ self.old.memory }
    {
        if f.is_inline && self.frame.is_inline {
            return Ok(Went::Over(Ending::Stuck));
        }
        if args.len() == f.params.len() {
            self.enter(x, args, more, f)?;
        } else {
            self.here = Here::Stuck;
        }
        Ok(if f.is_inline { Went::On } else { Went::Stepped })
    }

    // The arguments of a function of the prelude, and its answer.
    #[inline(never)]
    fn ask(
        &mut self,
        alloc: Global,
        world: &mut World,
        f: Prelude,
        args: &[Operand],
    ) -> Result<Option<CValue>, Refusal>
        requires { All (IsInOperand (length (frame_of self.old))) args.now }
        ensures core { OnOk result (seen self.new ≡ seen self.old) }
        ensures answer { (m : List c.Block) → Holds m self.old.memory → Answers result f (map (operand_of (start (frame_of self.old))) args.now) m (world_view world.old) self.new.memory (world_view world.new) }
    {
        let base = self.values.len();
        frame::push_operands(&mut self.values, self.frame.base, args)?;
        let answer = prelude::answer(alloc, &mut self.memory, world, f, &self.values[base..]);
        self.values.truncate(base);
        answer
    }
}

impl<'a> Machine<'a> {
    // A call of a function of the prelude.
    #[inline(always)]
    fn give(
        &mut self,
        alloc: Global,
        world: &mut World,
        q: Prelude,
        x: Option<Local>,
        args: &[Operand],
        more: &'a [PlacedStmt],
    ) -> Result<Went, AllocError>
        requires receiver { IsInResult (length (frame_of self.old)) x }
        requires fit { All (IsInOperand (length (frame_of self.old))) args.now }
        requires held { (m : List c.Block) × Holds m self.old.memory }
        ensures ok { IfOk result (λ went. (p : Program) (t : Target) (m : List c.Block) → Holds m self.old.memory → IsReadyCore (with_at (seen self.old) (code (do_then (tree.run x t args.now) (code_view more.now)))) → IsCalled p (seen self.old) (state m (world_view world.old)) t (callee_of q) → Goes p went (with_at (seen self.old) (code (do_then (tree.run x t args.now) (code_view more.now)))) m (world_view world.old) (seen self.new) self.new.memory (world_view world.new)) }
        ensures err { OnErr result (world_view world.new ≡ world_view world.old) }
    {
        match self.ask(alloc, world, q, args) {
            Ok(v) => {
                if self.receive(x, v, more) {
                    Ok(Went::On)
                } else {
                    Ok(Went::Over(Ending::Stuck))
                }
            }
            Err(refusal) => match refusal {
                Refusal::Trapped(t) => Ok(Went::Over(Ending::Trapped(t))),
                Refusal::Stuck => Ok(Went::Over(Ending::Stuck)),
                Refusal::NoMemory => Err(AllocError),
            },
        }
    }
}

impl<'a> Machine<'a> {
    // A call, which may enter a function.
    #[inline(always)]
    fn invoke(
        &mut self,
        alloc: Global,
        program: &'a PlacedProgram,
        world: &mut World,
        x: Option<Local>,
        t: Target,
        args: &[Operand],
        more: &'a [PlacedStmt],
    ) -> Result<Went, AllocError>
        requires fits { IsReadyCore (with_at (seen self.old) (code (do_then (tree.run x t args.now) (code_view more.now)))) }
        requires ready { IsReady (program_view program.now) }
        requires held { (m : List c.Block) × Holds m self.old.memory }
        ensures ok { IfOk result (λ went. (m : List c.Block) → Holds m self.old.memory → Goes (program_view program.now) went (with_at (seen self.old) (code (do_then (tree.run x t args.now) (code_view more.now)))) m (world_view world.old) (seen self.new) self.new.memory (world_view world.new)) }
        ensures err { OnErr result (world_view world.new ≡ world_view world.old) }
    {
        let callee = match t {
            Target::Named(f) => Some(f),
            Target::Element(array, i) => function_in(
                program,
                array,
                operate::as_index(self.place(i)),
            ),
        };
        self.run_callee(alloc, program, world, callee, x, args, more)
    }

    #[inline(always)]
    fn run_callee(
        &mut self,
        alloc: Global,
        program: &'a PlacedProgram,
        world: &mut World,
        callee: Option<Callee>,
        x: Option<Local>,
        args: &[Operand],
        more: &'a [PlacedStmt],
    ) -> Result<Went, AllocError>
        requires receiver { IsInResult (length (frame_of self.old)) x }
        requires fit { All (IsInOperand (length (frame_of self.old))) args.now }
        requires ready { IsReady (program_view program.now) }
        requires held { (m : List c.Block) × Holds m self.old.memory }
        ensures ok { IfOk result (λ went. (t : Target) (m : List c.Block) → Holds m self.old.memory → IsReadyCore (with_at (seen self.old) (code (do_then (tree.run x t args.now) (code_view more.now)))) → IsFound (program_view program.now) (seen self.old) (state m (world_view world.old)) t callee → Goes (program_view program.now) went (with_at (seen self.old) (code (do_then (tree.run x t args.now) (code_view more.now)))) m (world_view world.old) (seen self.new) self.new.memory (world_view world.new)) }
        ensures err { OnErr result (world_view world.new ≡ world_view world.old) }
    {
        match callee {
            None => Ok(Went::Over(Ending::Stuck)),
            Some(f) => self.run_found(alloc, program, world, f, x, args, more),
        }
    }

    #[inline(always)]
    fn run_found(
        &mut self,
        alloc: Global,
        program: &'a PlacedProgram,
        world: &mut World,
        f: Callee,
        x: Option<Local>,
        args: &[Operand],
        more: &'a [PlacedStmt],
    ) -> Result<Went, AllocError>
        requires receiver { IsInResult (length (frame_of self.old)) x }
        requires fit { All (IsInOperand (length (frame_of self.old))) args.now }
        requires ready { IsReady (program_view program.now) }
        requires held { (m : List c.Block) × Holds m self.old.memory }
        ensures ok { IfOk result (λ went. (t : Target) (m : List c.Block) → Holds m self.old.memory → IsReadyCore (with_at (seen self.old) (code (do_then (tree.run x t args.now) (code_view more.now)))) → IsCalled (program_view program.now) (seen self.old) (state m (world_view world.old)) t f → Goes (program_view program.now) went (with_at (seen self.old) (code (do_then (tree.run x t args.now) (code_view more.now)))) m (world_view world.old) (seen self.new) self.new.memory (world_view world.new)) }
        ensures err { OnErr result (world_view world.new ≡ world_view world.old) }
    {
        match f {
            Callee::Function(n) => match function(program, n) {
                None => Ok(Went::Over(Ending::Stuck)),
                Some(g) => self.call(x, args, more, g),
            },
            Callee::Asks(b) => self.give(alloc, world, Prelude::Asks(b), x, args, more),
            Callee::Trap => self.give(alloc, world, Prelude::Trap, x, args, more),
            Callee::New => self.give(alloc, world, Prelude::New, x, args, more),
        }
    }
}

impl<'a> Machine<'a> {
    #[inline(always)]
    fn assign(
        &mut self,
        program: &PlacedProgram,
        x: Local,
        r: &Right,
        more: &'a [PlacedStmt],
    ) -> Went
        requires { IsReadyCore (with_at (seen self.old) (code (do_then (tree.assign x r.now) (code_view more.now)))) }
        ensures { (m : List c.Block) (w : plain.World) → Holds m self.old.memory → Goes (program_view program.now) result (with_at (seen self.old) (code (do_then (tree.assign x r.now) (code_view more.now)))) m w (seen self.new) self.new.memory w }
    {
        match self.right(program, r) {
            None => Went::Over(Ending::Stuck),
            Some(v) => {
                self.set(x, v);
                self.here = Here::Code(more);
                Went::On
            }
        }
    }

    #[inline(always)]
    fn store(&mut self, kind: CCell, p: Address, a: &Operand, more: &'a [PlacedStmt]) -> Went
        requires { IsReadyCore (with_at (seen self.old) (code (do_then (tree.store kind p a.now) (code_view more.now)))) }
        ensures { (q : Program) (m : List c.Block) (w : plain.World) → Holds m self.old.memory → Goes q result (with_at (seen self.old) (code (do_then (tree.store kind p a.now) (code_view more.now)))) m w (seen self.new) self.new.memory w }
    {
        let pointer = self.place(p.pointer);
        let value = operate::fitted_in(kind, self.value(a));
        if self.memory.store(kind, pointer, p.offset, value) {
            self.here = Here::Code(more);
            Went::On
        } else {
            Went::Over(Ending::Stuck)
        }
    }

    #[inline(always)]
    fn clear(&mut self, xs: &[Local], more: &'a [PlacedStmt])
        requires { AreIn (length (frame_of self.old)) xs.now }
        ensures core { seen self.new ≡ with_at (with_level (seen self.old) (with_values (seen self.old).level (with_zeros xs.now (frame_of self.old)))) (code (code_view more.now)) }
        ensures memory { self.new.memory ≡ self.old.memory }
    {
        frame::clear(&mut self.values, self.frame.base, xs);
        self.here = Here::Code(more);
    }

    // One way at 0, and the other at any other number.
    #[inline(always)]
    fn choose(
        &mut self,
        a: &Operand,
        b: &'a [PlacedStmt],
        d: &'a [PlacedStmt],
        more: &'a [PlacedStmt],
    ) -> Result<Went, AllocError>
        requires { IsReadyCore (with_at (seen self.old) (code (do_then (tree.if_else a.now (code_view b.now) (code_view d.now)) (code_view more.now)))) }
        ensures { IfOk result (λ went. (q : Program) (m : List c.Block) (w : plain.World) → Holds m self.old.memory → Goes q went (with_at (seen self.old) (code (do_then (tree.if_else a.now (code_view b.now) (code_view d.now)) (code_view more.now)))) m w (seen self.new) self.new.memory w) }
    {
        match self.value(a) {
            CValue::Int(z) => {
                if z == 0 {
                    self.branch(d, more)?;
                    Ok(Went::On)
                } else {
                    self.branch(b, more)?;
                    Ok(Went::On)
                }
            }
            _ => Ok(Went::Over(Ending::Stuck)),
        }
    }

    // The function that was called is left.
    #[inline(always)]
    fn come_back(
        &mut self,
        flow: Flow,
        frame: Frame,
        x: Option<Local>,
        more: &'a [PlacedStmt],
    ) -> Went
        requires { IsInResult (length (drop frame.base (take self.old.frame.base self.old.values.items))) x }
        ensures { (p : Program) (m : List c.Block) (w : plain.World) → Holds m self.old.memory → IsReadyCore (calling (seen self.old) (leaves (flow_view flow)) x (below self.old frame) (code_view more.now) (pieces_below self.old frame)) → Goes p result (calling (seen self.old) (leaves (flow_view flow)) x (below self.old frame) (code_view more.now) (pieces_below self.old frame)) m w (seen self.new) self.new.memory w }
    {
        match left(self.frame.result, flow) {
            None => Went::Over(Ending::Stuck),
            Some(v) => {
                self.values.truncate(self.frame.base);
                self.frame = frame;
                if self.receive(x, v, more) {
                    Went::On
                } else {
                    Went::Over(Ending::Stuck)
                }
            }
        }
    }

    // A block or a loop is left so, or ends.
    #[inline(always)]
    fn leave(&mut self, flow: Flow)
        ensures core { seen self.new ≡ with_at (seen self.old) (leaves (flow_view flow)) }
        ensures memory { self.new.memory ≡ self.old.memory }
    {
        self.here = Here::Leaves(flow);
    }

    // One piece is taken from the stack.
    #[inline(always)]
    fn arrive(&mut self, flow: Flow) -> Result<Went, AllocError>
        requires { IsReadyCore (with_at (seen self.old) (leaves (flow_view flow))) }
        ensures { IfOk result (λ went. (p : Program) (m : List c.Block) (w : plain.World) → Holds m self.old.memory → Goes p went (with_at (seen self.old) (leaves (flow_view flow))) m w (seen self.new) self.new.memory w) }
    {
        match self.pending.pop() {
            None => match left(self.frame.result, flow) {
                None => Ok(Went::Over(Ending::Stuck)),
                Some(v) => Ok(Went::Over(Ending::Returned(v))),
            },
            Some(Pending::Rest(more)) => match flow {
                Flow::Next => {
                    self.here = Here::Code(more);
                    Ok(Went::On)
                }
                _ => {
                    self.leave(flow);
                    Ok(Went::On)
                }
            },
            Some(Pending::Loop(body)) => match flow {
                Flow::Next | Flow::Continued => {
                    self.pending.push_reserved(Pending::Loop(body));
                    self.here = Here::Code(body);
                    Ok(Went::Stepped)
                }
                Flow::Broke => {
                    self.leave(Flow::Next);
                    Ok(Went::On)
                }
                Flow::Returned(_) => {
                    self.leave(flow);
                    Ok(Went::On)
                }
            },
            Some(
                Pending::Return {
                    rest,
                    frame,
                    receiver,
                },
            ) => Ok(self.come_back(flow, frame, receiver, rest)),
        }
    }
}

impl<'a> Machine<'a> {
    // One statement.
    #[inline(always)]
    fn exec(
        &mut self,
        alloc: Global,
        program: &'a PlacedProgram,
        world: &mut World,
        s: &'a PlacedStmt,
        more: &'a [PlacedStmt],
    ) -> Result<Went, AllocError>
        requires fits { IsReadyCore (with_at (seen self.old) (code (do_then (stmt_view s.now) (code_view more.now)))) }
        requires ready { IsReady (program_view program.now) }
        requires held { (m : List c.Block) × Holds m self.old.memory }
        ensures ok { IfOk result (λ went. (m : List c.Block) → Holds m self.old.memory → Goes (program_view program.now) went (with_at (seen self.old) (code (do_then (stmt_view s.now) (code_view more.now)))) m (world_view world.old) (seen self.new) self.new.memory (world_view world.new)) }
        ensures err { OnErr result (world_view world.new ≡ world_view world.old) }
    {
        match s {
            PlacedStmt::Locals(xs) => {
                self.clear(xs.as_slice(), more);
                Ok(Went::On)
            }
            PlacedStmt::Assign(x, r) => Ok(self.assign(program, *x, r, more)),
            PlacedStmt::Store(kind, p, a) => Ok(self.store(*kind, *p, a, more)),
            PlacedStmt::Call(x, t, args) => {
                self.invoke(alloc, program, world, *x, *t, args.as_slice(), more)
            }
            PlacedStmt::If(a, b, d) => self.choose(a, b.as_slice(), d.as_slice(), more),
            PlacedStmt::While(body) => {
                self.begin(body.as_slice(), more)?;
                Ok(Went::Stepped)
            }
            PlacedStmt::Break => {
                self.leave(Flow::Broke);
                Ok(Went::On)
            }
            PlacedStmt::Continue => {
                self.leave(Flow::Continued);
                Ok(Went::On)
            }
            PlacedStmt::Return => {
                self.leave(Flow::Returned(None));
                Ok(Went::On)
            }
            PlacedStmt::ReturnValue(a) => {
                let v = self.value(a);
                self.leave(Flow::Returned(Some(v)));
                Ok(Went::On)
            }
        }
    }

    // Some code is done as far as it goes by moves of a known way, and then by one move more.
    #[inline(always)]
    fn proceed(
        &mut self,
        alloc: Global,
        program: &'a PlacedProgram,
        world: &mut World,
        stmts: &'a [PlacedStmt],
    ) -> Result<Went, AllocError>
        requires fits { IsReadyCore (with_at (seen self.old) (code (code_view stmts.now))) }
        requires ready { IsReady (program_view program.now) }
        requires held { (m : List c.Block) × Holds m self.old.memory }
        ensures ok { IfOk result (λ went. (m : List c.Block) → Holds m self.old.memory → Goes (program_view program.now) went (with_at (seen self.old) (code (code_view stmts.now))) m (world_view world.old) (seen self.new) self.new.memory (world_view world.new)) }
        ensures err { OnErr result (world_view world.new ≡ world_view world.old) }
    {
        let left = self.walk(program, stmts)?;
        match left {
            [] => self.arrive(Flow::Next),
            [s, more @ ..] => self.exec(alloc, program, world, s, more),
        }
    }

    // One move.
    #[inline(always)]
    fn go(
        &mut self,
        alloc: Global,
        program: &'a PlacedProgram,
        world: &mut World,
    ) -> Result<Went, AllocError>
        requires fits { IsReadyCore (seen self.old) }
        requires ready { IsReady (program_view program.now) }
        requires held { (m : List c.Block) × Holds m self.old.memory }
        ensures ok { IfOk result (λ went. (m : List c.Block) → Holds m self.old.memory → Goes (program_view program.now) went (seen self.old) m (world_view world.old) (seen self.new) self.new.memory (world_view world.new)) }
        ensures err { OnErr result (world_view world.new ≡ world_view world.old) }
    {
        match self.here {
            Here::Code(stmts) => self.proceed(alloc, program, world, stmts),
            Here::Leaves(flow) => self.arrive(flow),
            Here::Stuck => Ok(Went::Over(Ending::Stuck)),
        }
    }

    // Moves until a step was taken or the run ended.
    pub fn until_step(
        &mut self,
        alloc: Global,
        program: &'a PlacedProgram,
        world: &mut World,
    ) -> Result<Option<Ending>, AllocError>
        requires fits { IsReadyCore (seen self.old) }
        requires ready { IsReady (program_view program.now) }
        requires held { (m : List c.Block) × Holds m self.old.memory }
        ensures ok { IfOk result (λ e. (m : List c.Block) → Holds m self.old.memory → Reaches (program_view program.now) e (seen self.old) m (world_view world.old) (seen self.new) self.new.memory (world_view world.new)) }
        ensures err { OnErr result (Grows (world_view world.old) (world_view world.new)) }
    {
        loop {
            match self.go(alloc, program, world)? {
                Went::On => {}
                Went::Stepped => return Ok(None),
                Went::Over(e) => return Ok(Some(e)),
            }
        }
    }
}
