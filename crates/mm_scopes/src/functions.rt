//! The functions that are declared, with a table of those of each name.

ghost use Rattle.std.specs.Prelude.{◌≡◌, ◌<◌, ◌++◌, [], ◌∷◌, List, ℕ, length, map, slice_get, Some, None, IfOk, OnOk, OnErr};
ghost use Rattle.indexmap.specs.IndexMap.{get_by_text};
ghost use Rattle.mm_scopes.specs.Names.{named, params_of};
ghost use Rattle.mm_scopes.specs.Tables.{AreListed, AreSame, IsOneMore, places_of};

use crate::head::FnHead;
use indexmap::IndexMap;
use mm_classes::class::Ty;
use std::alloc::{AllocError, Global};
use std::marker::Model;

/// The places of the functions of each name, in order.
type Places = IndexMap<String, Vec<usize>>;

/// Functions in the order of their declarations. To a contract they are their list.
#[derive(Drop)]
pub struct Functions {
    alloc: Global,
    list: Vec<FnHead>,
    places: Places,
}

impl Model for Functions {
    ghost use Rattle.std.specs.Prelude.{List};
    ghost use Rattle.mm_scopes.specs.declared.head.FnHead.{FnHead};

    ghost Value = { List FnHead };

    ghost use Rattle.mm_scopes.specs.Tables.{AreListed};

    ghost view = { λ f. f.list.items };

    ghost invariant = { λ f. AreListed f.list.items f.places };
}

// The first place of a name.
fn list_first(
    alloc: Global,
    places: &mut Places,
    name: &str,
    place: usize,
) -> Result<(), AllocError>
    requires { get_by_text places.old name.now ≡ None }
    ensures ok { OnOk result (IsOneMore places.old name.now place places.new) }
    ensures err { OnErr result (AreSame places.old places.new) }
{
    let key = String::from_str(alloc, name)?;
    let mut first = Vec::with_capacity(alloc, 1)?;
    first.push(place)?;
    places.insert(key, first)?;
    Ok(())
}

// One more place of a name, behind the others.
fn list_place(
    alloc: Global,
    places: &mut Places,
    name: &str,
    place: usize,
) -> Result<(), AllocError>
    ensures ok { OnOk result (IsOneMore places.old name.now place places.new) }
    ensures err { OnErr result (AreSame places.old places.new) }
{
    if !places.contains_key(name) {
        return list_first(alloc, places, name, place);
    }
    if let Some(same) = places.get_mut(name) {
        same.push(place)?;
    }
    Ok(())
}

// Puts a function behind the others.
fn push_function(
    alloc: Global,
    list: &mut Vec<FnHead>,
    places: &mut Places,
    head: FnHead,
) -> Result<(), AllocError>
    requires { AreListed list.old.items places.old }
    ensures ok { OnOk result (list.new.items ≡ list.old.items ++ head ∷ []) }
    ensures err { OnErr result (list.new.items ≡ list.old.items) }
    ensures listed { AreListed list.new.items places.new }
{
    list.reserve(1)?;
    list_place(alloc, places, head.name.as_str(), list.len())?;
    list.push_reserved(head);
    Ok(())
}

impl Functions {
    /// No functions.
    pub fn new(alloc: Global) -> Functions
        ensures { result ≡ [] }
    {
        Functions {
            alloc,
            list: Vec::new(alloc),
            places: IndexMap::new(alloc),
        }
    }

    /// The places of the functions of a name, in order.
    fn places(&self, name: &str) -> &[usize]
        ensures { result.now ≡ places_of self.now name.now }
    {
        match self.places.get(name) {
            None => &[],
            Some(places) => places.as_slice(),
        }
    }

    /// How many functions have the name.
    pub fn count(&self, name: &str) -> usize
        ensures { result ≡ length (named name.now self.now) }
    {
        self.places(name).len()
    }

    /// The function of a name that has this number among those of the name.
    pub fn nth(&self, name: &str, i: usize) -> &FnHead
        requires { i < length (named name.now self.now) }
        ensures { slice_get (named name.now self.now) i ≡ Some result.now }
    {
        let places = self.places(name);
        let place = places[i];
        &self.list[place]
    }

    /// The types of the parameters of each function of a name, in order.
    pub fn params(&self, name: &str) -> Result<Vec<&[Ty]>, AllocError>
        ensures { IfOk result (λ all. map (λ ps. ps.now) all.items ≡ map params_of (named name.now self.now)) }
    {
        let places = self.places(name);
        let mut all = Vec::with_capacity(self.alloc, places.len())?;
        for place in places {
            all.push(self.list[*place].params.as_slice())?;
        }
        Ok(all)
    }

    /// Declares a function, after all others.
    pub fn declare(&mut self, head: FnHead) -> Result<(), AllocError>
        ensures ok { OnOk result (self.new ≡ self.old ++ head ∷ []) }
        ensures err { OnErr result (self.new ≡ self.old) }
    {
        push_function(self.alloc, &mut self.list, &mut self.places, head)
    }
}
