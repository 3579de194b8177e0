//! What names are behind the items that stand before a place.

ghost use Rattle.std.specs.Prelude.{◌≡◌, ◌<◌, ◌+◌, [], length, take, option_map, OnOk, OnErr};
ghost use Rattle.mm_c.specs.View.{item_view};
ghost use Rattle.mm_c.specs.WellFormed.{entry_in, array_entry, array_of};
ghost use Rattle.mm_c_names.specs.Entries.{entry_view, entry_by, table_of};

use crate::entry::{Entry, Head, Params, prelude_entry};
use crate::names::{is_inline, item_name};
use indexmap::IndexMap;
use mm_base::text::Text;
use mm_c::tree::{CArray, CItem};
use std::alloc::{AllocError, Global};
use std::marker::Model;

/// The items before a place, with what each name is behind them. To a contract they are their list.
/// A look-up and one item more take about constant time.
#[derive(Drop)]
pub struct Declared<'a> {
    before: &'a [CItem],
    entries: IndexMap<&'a str, Entry<'a>>,
}

impl<'a> Model for Declared<'a> {
    ghost use Rattle.std.specs.Prelude.{List};
    ghost use Rattle.mm_c.specs.declared.tree.CItem.{CItem};

    ghost Value = { List CItem };

    ghost use Rattle.mm_c.specs.contracts.tree.CStmt as stmt;
    ghost use Rattle.std.specs.Coded.{codes};

    ghost coded = { Prim.hlevel (codes, stmt.the_row.coded) };

    ghost use Rattle.mm_c_names.specs.Tables.{AreEntries};

    ghost view = { λ d. d.before.now };

    ghost invariant = { λ d. AreEntries d.entries d.before.now };
}

// an array of the functions of a type, if it is one, and else of numbers
fn array_of(entry: Option<Entry<'_>>) -> Entry<'_>
    ensures { entry_view result ≡ array_of (option_map entry_view entry.entry) }
{
    match entry {
        None => Entry::NumbersArray,
        Some(Entry::FunctionsType(typedef)) => Entry::FunctionsArray(typedef),
        Some(Entry::NumbersArray) => Entry::NumbersArray,
        Some(Entry::FunctionsArray(_)) => Entry::NumbersArray,
        Some(Entry::Callable(_)) => Entry::NumbersArray,
    }
}

impl<'a> Declared<'a> {
    /// No items.
    pub fn new(alloc: Global) -> Declared<'a>
        ensures { result ≡ [] }
    {
        Declared {
            before: &[],
            entries: IndexMap::new(alloc),
        }
    }

    /// What a name is, where these items stand before.
    pub fn entry_of(&self, name: &Text) -> Option<Entry<'a>>
        ensures { option_map entry_view result ≡ entry_in (table_of self.now) name.now }
    {
        match self.entries.get(name.as_str()) {
            Some(entry) => Some(*entry),
            None => prelude_entry(name.as_bytes()),
        }
    }

    fn array_entry(&self, array: &CArray) -> Entry<'a>
        ensures { entry_view result ≡ array_entry (table_of self.now) array.now.functions }
    {
        match &array.functions {
            None => Entry::NumbersArray,
            Some(name) => array_of(self.entry_of(name)),
        }
    }

    // what the name of an item is behind it
    fn item_entry(&self, item: &'a CItem) -> Entry<'a>
        ensures { entry_view result ≡ entry_by (table_of self.now) (item_view item.now) }
    {
        match item {
            CItem::Typedef(typedef) => Entry::FunctionsType(typedef),
            CItem::Array(array) => self.array_entry(array),
            CItem::Proto(proto) => Entry::Callable(Head {
                is_inline: proto.is_inline,
                is_defined: false,
                result: proto.result,
                params: Params::Locals(proto.params.as_slice()),
            }),
            CItem::Function(function) => Entry::Callable(Head {
                is_inline: is_inline(function.linkage),
                is_defined: true,
                result: function.result,
                params: Params::Locals(function.params.as_slice()),
            }),
        }
    }

    /// The item of these that stands at the place, behind those before it.
    pub fn declare(&mut self, items: &'a [CItem], i: usize) -> Result<(), AllocError>
        requires within { i < length items.now }
        requires before { self.old ≡ take i items.now }
        ensures ok { OnOk result (self.new ≡ take (i + 1) items.now) }
        ensures err { OnErr result (self.new ≡ self.old) }
    {
        let item = &items[i];
        let entry = self.item_entry(item);
        self.entries.insert(item_name(item), entry)?;
        self.before = &items[..i + 1];
        Ok(())
    }
}
