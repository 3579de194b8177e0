//! The parameters and locals that are seen.

ghost use Rattle.std.specs.Prelude.{◌≡◌, ◌≤◌, [], ◌∷◌, ◌++◌, length, drop, OnOk};
ghost use Rattle.mm_c.specs.WellFormed.{kind_in};

use indexmap::IndexMap;
use mm_base::text::Text;
use mm_c::tree::{CKind, CLocal};
use std::alloc::{AllocError, Global};
use std::marker::Model;

/// A local, and the kind that its name has without it.
#[derive(Clone, Copy)]
pub struct Shown<'a> {
    pub local: &'a CLocal,
    pub without: Option<CKind>,
}

/// The parameters and locals that are seen, the innermost first, which is how contracts see their
/// list. A look-up, one local more and one less take about constant time.
#[derive(Drop)]
pub struct Scope<'a> {
    // the innermost last
    shown: Vec<Shown<'a>>,
    kinds: IndexMap<&'a str, Option<CKind>>,
}

impl<'a> Model for Scope<'a> {
    ghost use Rattle.std.specs.Prelude.{List, reverse};
    ghost use Rattle.mm_c.specs.declared.tree.CLocal.{CLocal};

    ghost Value = { List CLocal };

    ghost use Rattle.mm_c_names.specs.Scopes.{locals_in, IsScope};

    ghost view = { λ s. locals_in (reverse s.shown.items) };

    ghost invariant = { λ s. IsScope (reverse s.shown.items) s.kinds };
}

impl<'a> Scope<'a> {
    /// Nothing is seen.
    pub fn new(alloc: Global) -> Scope<'a>
        ensures { result ≡ [] }
    {
        Scope {
            shown: Vec::new(alloc),
            kinds: IndexMap::new(alloc),
        }
    }

    /// The kind of a name that is seen.
    pub fn kind_in(&self, name: &Text) -> Option<CKind>
        ensures { result ≡ kind_in self.now name.now }
    {
        match self.kinds.get(name.as_str()) {
            Some(kind) => *kind,
            None => None,
        }
    }

    // One local more, inside all others.
    fn show(&mut self, local: &'a CLocal) -> Result<(), AllocError>
        ensures { OnOk result (self.new ≡ local.now ∷ self.old) }
    {
        let without = self.kind_in(&local.name);
        self.shown.reserve(1)?;
        self.kinds.insert(local.name.as_str(), Some(local.kind))?;
        self.shown.push_reserved(Shown { local, without });
        Ok(())
    }

    // The innermost local is seen no more.
    fn hide(&mut self) -> Result<(), AllocError>
        ensures { OnOk result (self.new ≡ drop 1 self.old) }
    {
        let Some(last) = self.shown.last().copied() else {
            return Ok(());
        };
        self.kinds.insert(last.local.name.as_str(), last.without)?;
        let _hidden = self.shown.pop();
        Ok(())
    }

    /// The locals of a block are seen, before all others.
    pub fn enter(&mut self, locals: &'a [CLocal]) -> Result<(), AllocError>
        ensures { OnOk result (self.new ≡ locals.now ++ self.old) }
    {
        let mut i = locals.len();
        while i > 0 {
            i -= 1;
            self.show(&locals[i])?;
        }
        Ok(())
    }

    /// The first so many are seen no more.
    pub fn leave(&mut self, count: usize) -> Result<(), AllocError>
        ensures { OnOk result (self.new ≡ drop count self.old) }
    {
        for _ in 0..count {
            self.hide()?;
        }
        Ok(())
    }
}
