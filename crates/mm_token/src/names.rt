// Names that were seen.

ghost use Rattle.std.specs.Prelude.{◌≡◌, ℕ, List, true, false, cond, OnOk};
ghost use Rattle.std.specs.Str.{bytes_eq};
ghost use Rattle.std.specs.BTreeSet.{contains_text};

use std::alloc::{AllocError, Global};
use std::collections::BTreeSet;

/// A set of names.
#[derive(Drop)]
pub struct Names {
    pub set: BTreeSet<String>,
}

impl Names {
    pub fn new(alloc: Global) -> Names
        ensures { (name : List ℕ) → contains_text result.set name ≡ false }
    {
        Names {
            set: BTreeSet::new(alloc),
        }
    }

    pub fn has(&self, name: &str) -> bool
        ensures { result ≡ contains_text self.now.set name.now }
    {
        self.set.contains(name)
    }

    /// Adds a name.
    pub fn add(&mut self, alloc: Global, name: &str) -> Result<(), AllocError>
        ensures { OnOk result ((other : List ℕ) → contains_text self.new.set other ≡ cond (bytes_eq name.now other) true (contains_text self.old.set other)) }
    {
        let key = String::from_str(alloc, name)?;
        self.set.insert(key)?;
        Ok(())
    }
}
