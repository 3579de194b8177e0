// A checked unit.

ghost use Rattle.std.specs.Prelude.{◌≡◌};
ghost use Rattle.mm_core.specs.Units.{IsChecked};
ghost use Rattle.mm_program.specs.Seen.{checked_of};

use mm_base::text::Text;
use mm_core::tree::{CoreClass, CoreFn};
use mm_paths::graph::Graph;
use sqlite_items::Items;
use std::marker::Model;

/// A unit that was checked: its parts keep the rules of checked units.
#[derive(Drop)]
pub struct CheckedUnit {
    files: Items<Text>,
    bytes: u64,
    graph: Graph,
    classes: Items<CoreClass>,
    functions: Items<CoreFn>,
}

impl Model for CheckedUnit {
    ghost use Rattle.mm_core.specs.Units.{IsChecked};
    ghost use Rattle.mm_program.specs.Seen.{UnitSeen, checked_of};

    ghost Value = { UnitSeen };

    ghost use Rattle.mm_core.specs.contracts.tree.CoreStmt as stmt;
    ghost use Rattle.std.specs.Coded.{codes};

    ghost coded = { Prim.hlevel (codes, stmt.the_row.coded) };

    ghost view = { λ u. record {
      files = u.files;
      bytes = u.bytes;
      graph = u.graph;
      classes = u.classes;
      functions = u.functions;
    } };

    ghost invariant = { λ u. IsChecked (checked_of (record {
      files = u.files;
      bytes = u.bytes;
      graph = u.graph;
      classes = u.classes;
      functions = u.functions;
    })) };
}

impl CheckedUnit {
    /// The unit of these parts.
    pub fn new(
        files: Items<Text>,
        bytes: u64,
        graph: Graph,
        classes: Items<CoreClass>,
        functions: Items<CoreFn>,
    ) -> CheckedUnit
        requires { IsChecked (checked_of (record {
          files = files;
          bytes = bytes;
          graph = graph;
          classes = classes;
          functions = functions;
        })) }
        ensures { result ≡ record {
          files = files;
          bytes = bytes;
          graph = graph;
          classes = classes;
          functions = functions;
        } }
    {
        CheckedUnit {
            files,
            bytes,
            graph,
            classes,
            functions,
        }
    }

    /// The names of its files, its own first, then those of its headers.
    pub fn files(&self) -> &Items<Text>
        ensures files { result.now ≡ self.now.files }
        ensures kept { IsChecked (checked_of self.now) }
    {
        &self.files
    }

    /// How many bytes its text has, with its headers.
    pub fn bytes(&self) -> u64
        ensures { result ≡ self.now.bytes }
    {
        self.bytes
    }

    /// Its classes.
    pub fn graph(&self) -> &Graph
        ensures { result.now ≡ self.now.graph }
    {
        &self.graph
    }

    /// What stands beside its classes, by their numbers.
    pub fn classes(&self) -> &Items<CoreClass>
        ensures { result.now ≡ self.now.classes }
    {
        &self.classes
    }

    /// Its functions, by their numbers.
    pub fn functions(&self) -> &Items<CoreFn>
        ensures { result.now ≡ self.now.functions }
    {
        &self.functions
    }
}
