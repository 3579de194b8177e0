// A merged program.

ghost use Rattle.std.specs.Prelude.{◌≡◌};
ghost use Rattle.mm_core.specs.Units.{IsJoined};
ghost use Rattle.mm_program.specs.Seen.{joined_of};

use mm_base::text::Text;
use mm_core::tree::{CoreClass, CoreFn, OpenDecl};
use mm_paths::graph::Graph;
use sqlite_items::Items;
use std::marker::Model;

/// The classes and functions of a program, by their numbers.
#[derive(Drop)]
pub struct CoreProgram {
    pub graph: Graph,
    pub classes: Items<CoreClass>,
    pub functions: Items<CoreFn>,
}

/// The program of several units: its parts keep the rules of merged programs.
#[derive(Drop)]
pub struct Merged {
    program: CoreProgram,
    opens: Items<OpenDecl>,
    bases: Items<u32>,
    names: Items<Text>,
}

impl Model for Merged {
    ghost use Rattle.mm_core.specs.Units.{IsJoined};
    ghost use Rattle.mm_program.specs.Seen.{MergedSeen, joined_of};

    ghost Value = { MergedSeen };

    ghost use Rattle.mm_core.specs.contracts.tree.CoreStmt as stmt;
    ghost use Rattle.std.specs.Coded.{codes};

    ghost coded = { Prim.hlevel (codes, stmt.the_row.coded) };

    ghost view = { λ m. record {
      graph = m.program.graph;
      classes = m.program.classes;
      functions = m.program.functions;
      opens = m.opens;
      bases = m.bases;
      names = m.names;
    } };

    ghost invariant = { λ m. IsJoined (joined_of (record {
      graph = m.program.graph;
      classes = m.program.classes;
      functions = m.program.functions;
      opens = m.opens;
      bases = m.bases;
      names = m.names;
    })) };
}

impl Merged {
    /// The program of these parts.
    pub fn new(
        program: CoreProgram,
        opens: Items<OpenDecl>,
        bases: Items<u32>,
        names: Items<Text>,
    ) -> Merged
        requires { IsJoined (joined_of (record {
          graph = program.graph;
          classes = program.classes;
          functions = program.functions;
          opens = opens;
          bases = bases;
          names = names;
        })) }
        ensures { result ≡ record {
          graph = program.graph;
          classes = program.classes;
          functions = program.functions;
          opens = opens;
          bases = bases;
          names = names;
        } }
    {
        Merged {
            program,
            opens,
            bases,
            names,
        }
    }

    /// Its classes and functions.
    pub fn program(&self) -> &CoreProgram
        ensures graph { result.now.graph ≡ self.now.graph }
        ensures classes { result.now.classes ≡ self.now.classes }
        ensures functions { result.now.functions ≡ self.now.functions }
        ensures kept { IsJoined (joined_of self.now) }
    {
        &self.program
    }

    /// Its open-methods, in the order of its functions.
    pub fn opens(&self) -> &Items<OpenDecl>
        ensures { result.now ≡ self.now.opens }
    {
        &self.opens
    }

    /// The places of the base-methods among the open-methods.
    pub fn bases(&self) -> &Items<u32>
        ensures { result.now ≡ self.now.bases }
    {
        &self.bases
    }

    /// The files of its units, one unit after another.
    pub fn names(&self) -> &Items<Text>
        ensures { result.now ≡ self.now.names }
    {
        &self.names
    }
}
