//! Numbers with a type of their own.

use std::marker::Model;

/// The number of a class: how many names were declared before its own.
#[derive(Clone, Copy, PartialEq, Eq, Debug, Default)]
pub struct ClassId {
    pub number: u32,
}

impl Model for ClassId {
    ghost use Rattle.std.specs.Prelude.{ℕ};

    ghost Value = { ℕ };

    ghost view = { λ c. c.number };

    ghost inverse = { λ n. record { number = n } };
}

/// The number of a subobject of a class: its place in the order of that class's subobjects, from 0.
#[derive(Clone, Copy, PartialEq, Eq, Debug, Default)]
pub struct NodeId {
    pub number: u32,
}

impl Model for NodeId {
    ghost use Rattle.std.specs.Prelude.{ℕ};

    ghost Value = { ℕ };

    ghost view = { λ n. n.number };

    ghost inverse = { λ n. record { number = n } };
}
