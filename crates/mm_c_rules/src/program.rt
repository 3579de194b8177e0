// The program.

ghost use Rattle.std.specs.Prelude.{◌≡◌, map, OnOk, IfOk};
ghost use Rattle.std.specs.List.{list_any};
ghost use Rattle.mm_c.specs.Tree as tree;
ghost use Rattle.mm_c.specs.View.{item_view, function_view, program_view};
ghost use Rattle.mm_c.specs.WellFormed.{prelude, inner_breaks, items_break, is_main, has_main, breaks, well_formed};
ghost use Rattle.mm_c_names.specs.Entries.{table_of};
ghost use Rattle.mm_c_names.specs.Tables.{globals_in};
ghost use Rattle.mm_c_rules.specs.Keeps.{keeps, left_of, IsFirstBreak};

use crate::here::Place;
use crate::items::item_fits;
use crate::statements::{block_keeps, counted};
use mm_c::tree::{CFn, CItem, CProgram};
use mm_c_names::declared::Declared;
use mm_c_names::globals::Globals;
use mm_c_names::names::is_inline;
use mm_c_names::scope::Scope;
use std::alloc::{AllocError, Global};

fn body_keeps<'a>(
    alloc: Global,
    declared: &Declared<'a>,
    function: &'a CFn,
    left: &mut usize,
) -> Result<bool, AllocError>
    ensures keeps { IfOk result (λ b. b ≡ keeps (inner_breaks (table_of declared.now) (tree.function (function_view function.now)))) }
    ensures left { OnOk result (left.new ≡ left_of left.old (inner_breaks (table_of declared.now) (tree.function (function_view function.now)))) }
{
    let mut scope = Scope::new(alloc);
    scope.enter(function.params.as_slice())?;
    let place = Place {
        declared,
        result: function.result,
        inside_inline: is_inline(function.linkage),
        in_loop: false,
    };
    block_keeps(&function.body, &place, &mut scope, left)
}

// the statements in an item, which is the last of those declared
fn inside_keeps<'a>(
    alloc: Global,
    declared: &Declared<'a>,
    item: &'a CItem,
    left: &mut usize,
) -> Result<bool, AllocError>
    ensures keeps { IfOk result (λ b. b ≡ keeps (inner_breaks (table_of declared.now) (item_view item.now))) }
    ensures left { OnOk result (left.new ≡ left_of left.old (inner_breaks (table_of declared.now) (item_view item.now))) }
{
    match item {
        CItem::Typedef(_) => Ok(true),
        CItem::Array(_) => Ok(true),
        CItem::Proto(_) => Ok(true),
        CItem::Function(function) => body_keeps(alloc, declared, function, left),
    }
}

fn items_keep(alloc: Global, items: &[CItem], left: &mut usize) -> Result<bool, AllocError>
    ensures keeps { IfOk result (λ b. b ≡ keeps (items_break prelude (globals_in items.now) (map item_view items.now))) }
    ensures left { OnOk result (left.new ≡ left_of left.old (items_break prelude (globals_in items.now) (map item_view items.now))) }
{
    let names = Globals::of_items(alloc, items)?;
    let mut declared = Declared::new(alloc);
    for i in 0..items.len() {
        let item = &items[i];
        if !counted(item_fits(alloc, &declared, &names, item)?, left) {
            return Ok(false);
        }
        declared.declare(items, i)?;
        if !inside_keeps(alloc, &declared, item, left)? {
            return Ok(false);
        }
    }
    Ok(true)
}

fn is_main(item: &CItem) -> bool
    ensures { result ≡ is_main (item_view item.now) }
{
    match item {
        CItem::Typedef(_) => false,
        CItem::Array(_) => false,
        CItem::Proto(_) => false,
        CItem::Function(function) => function.name.as_bytes() == b"main".as_slice(),
    }
}

fn has_main(items: &[CItem]) -> bool
    ensures { result ≡ list_any is_main (map item_view items.now) }
{
    for item in items {
        if is_main(item) {
            return true;
        }
    }
    false
}

/// The first item or statement that breaks a rule, by its number among all items and statements in
/// the order of the text, counted from 0; none where all keep the rules beside the grammar. `count`
/// is how many there are: a greater number is answered as the count. Refused where memory runs out.
pub fn first_break(
    alloc: Global,
    program: &CProgram,
    count: usize,
) -> Result<Option<usize>, AllocError>
    ensures { IfOk result (λ first. IsFirstBreak (breaks (program_view program.now)) count first) }
{
    let mut left = count;
    if items_keep(alloc, program.items.as_slice(), &mut left)? {
        Ok(None)
    } else {
        Ok(Some(count - left))
    }
}

/// Whether a program defines a `main`.
pub fn defines_main(program: &CProgram) -> bool
    ensures { result ≡ has_main (program_view program.now) }
{
    has_main(program.items.as_slice())
}

/// Whether a program keeps the rules beside its grammar, and defines `main`. Refused where memory
/// runs out.
#[tactic(auto, using(crate::proofs::Sequence::well_formed_parts))]
pub fn well_formed(alloc: Global, program: &CProgram) -> Result<bool, AllocError>
    ensures { IfOk result (λ b. b ≡ well_formed (program_view program.now)) }
{
    let mut left = 0;
    let keeps = items_keep(alloc, program.items.as_slice(), &mut left)?;
    Ok(keeps && has_main(program.items.as_slice()))
}
