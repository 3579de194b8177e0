//! Functions, arrays, and the program.

ghost use Rattle.std.specs.Prelude.{◌≡◌, ◌++◌, map, OnOk, IfOk, IsTrue};
ghost use Rattle.mm_c.specs.View as c;
ghost use Rattle.mm_c.specs.WellFormed.{is_inline, kinds_of, well_formed};
ghost use Rattle.mm_c_placed.specs.View.{function_view, program_view};
ghost use Rattle.mm_c_placed.specs.Ready.{IsReady};
ghost use Rattle.mm_c_places.specs.Places.{function_names, array_names};
ghost use Rattle.mm_c_places.specs.Placed.{placed_function, placed_element, placed_functions, placed_arrays, placed};
ghost use Rattle.mm_c_places.specs.Laws.{SameRuns};
ghost use Rattle.mm_c_resolve.specs.Numbering.{texts};
ghost use Rattle.mm_c_resolve.specs.Named.{numbers_in, AreGlobal, elements_of, function_name_in, array_name_in, function_in, array_in};

use crate::code::place_block;
use crate::locals::declare;
use crate::names::{Globals, callee, opposite};
use crate::numbers::{find, number_names};
use mm_base::num::to_signed;
use mm_c::tree::{CArray, CElement, CFn, CItem, CKind, CLinkage, CLocal, CProgram};
use mm_c_placed::tree::{Element, PlacedArray, PlacedFunction, PlacedProgram};
use sqlite_items::Items;
use std::alloc::{AllocError, Global};

#[tactic(auto, using(crate::proofs::Programs::item_rules))]
fn push_function_name<'a>(names: &mut Vec<&'a str>, item: &'a CItem) -> Result<(), AllocError>
    ensures { OnOk result
        (texts names.new.items ≡ texts names.old.items ++ function_name_in (c.item_view item.now)) }
{
    match item {
        CItem::Typedef(_) => Ok(()),
        CItem::Array(_) => Ok(()),
        CItem::Proto(_) => Ok(()),
        CItem::Function(function) => Ok(names.push(function.name.as_str())?),
    }
}

#[tactic(auto, using(crate::proofs::Programs::item_rules))]
fn push_array_name<'a>(names: &mut Vec<&'a str>, item: &'a CItem) -> Result<(), AllocError>
    ensures { OnOk result
        (texts names.new.items ≡ texts names.old.items ++ array_name_in (c.item_view item.now)) }
{
    match item {
        CItem::Typedef(_) => Ok(()),
        CItem::Array(array) => Ok(names.push(array.name.as_str())?),
        CItem::Proto(_) => Ok(()),
        CItem::Function(_) => Ok(()),
    }
}

#[tactic(auto, using(crate::proofs::Programs::item_rules))]
fn function_names<'a>(alloc: Global, items: &'a [CItem]) -> Result<Vec<&'a str>, AllocError>
    ensures { IfOk result (λ v. texts v.items ≡ function_names (map c.item_view items.now)) }
{
    let mut names = Vec::new(alloc);
    for item in items {
        push_function_name(&mut names, item)?;
    }
    Ok(names)
}

#[tactic(auto, using(crate::proofs::Programs::item_rules))]
fn array_names<'a>(alloc: Global, items: &'a [CItem]) -> Result<Vec<&'a str>, AllocError>
    ensures { IfOk result (λ v. texts v.items ≡ array_names (map c.item_view items.now)) }
{
    let mut names = Vec::new(alloc);
    for item in items {
        push_array_name(&mut names, item)?;
    }
    Ok(names)
}

fn globals<'a>(alloc: Global, items: &'a [CItem]) -> Result<Globals<'a>, AllocError>
    ensures { IfOk result (λ g. AreGlobal g (map c.item_view items.now)) }
{
    let names = function_names(alloc, items)?;
    let functions = number_names(alloc, names.as_slice())?;
    let names = array_names(alloc, items)?;
    let arrays = number_names(alloc, names.as_slice())?;
    Ok(Globals { functions, arrays })
}

fn is_inline(linkage: CLinkage) -> bool
    ensures { result ≡ is_inline linkage }
{
    match linkage {
        CLinkage::Public => false,
        CLinkage::Static => false,
        CLinkage::StaticInline => true,
    }
}

fn param_kinds(alloc: Global, params: &[CLocal]) -> Result<Items<CKind>, AllocError>
    ensures { IfOk result (λ q. q ≡ kinds_of params.now) }
{
    let mut kinds = Items::new(alloc);
    for param in params {
        kinds.push(param.kind)?;
    }
    Ok(kinds)
}

fn place_function(
    alloc: Global,
    globals: &Globals<'_>,
    function: &CFn,
) -> Result<PlacedFunction, AllocError>
    ensures { IfOk result (λ q. function_view q
        ≡ placed_function (numbers_in globals.now) (c.function_view function.now)) }
{
    let locals = declare(alloc, function)?;
    let params = param_kinds(alloc, function.params.as_slice())?;
    let body = place_block(alloc, globals, &locals, &function.body)?;
    Ok(PlacedFunction {
        is_inline: is_inline(function.linkage),
        result: function.result,
        params,
        slots: locals.places.count,
        body,
    })
}

fn place_element(globals: &Globals<'_>, element: &CElement) -> Element
    ensures { result ≡ placed_element (numbers_in globals.now) element.now }
{
    match element {
        CElement::Name(name) => Element::Function(callee(globals, name)),
        CElement::Number(number) => Element::Number(to_signed(number.value)),
        CElement::Negative(number) => Element::Number(opposite(number.value)),
    }
}

fn place_array(
    alloc: Global,
    globals: &Globals<'_>,
    array: &CArray,
) -> Result<PlacedArray, AllocError>
    ensures { IfOk result (λ q. q.elements
        ≡ map (placed_element (numbers_in globals.now)) array.now.elements) }
{
    let mut elements = Items::new(alloc);
    for element in array.elements.as_slice() {
        elements.push(place_element(globals, element))?;
    }
    Ok(PlacedArray { elements })
}

#[tactic(auto, using(crate::proofs::Programs::item_rules))]
fn push_function(
    alloc: Global,
    globals: &Globals<'_>,
    all: &mut Items<PlacedFunction>,
    item: &CItem,
) -> Result<(), AllocError>
    ensures { OnOk result (map function_view all.new ≡ map function_view all.old
        ++ function_in (numbers_in globals.now) (c.item_view item.now)) }
{
    match item {
        CItem::Typedef(_) => Ok(()),
        CItem::Array(_) => Ok(()),
        CItem::Proto(_) => Ok(()),
        CItem::Function(function) => {
            let placed = place_function(alloc, globals, function)?;
            all.push(placed)
        }
    }
}

#[tactic(auto, using(crate::proofs::Programs::item_rules))]
fn push_array(
    alloc: Global,
    globals: &Globals<'_>,
    all: &mut Items<PlacedArray>,
    item: &CItem,
) -> Result<(), AllocError>
    ensures { OnOk result (map elements_of all.new ≡ map elements_of all.old
        ++ array_in (numbers_in globals.now) (c.item_view item.now)) }
{
    match item {
        CItem::Typedef(_) => Ok(()),
        CItem::Array(array) => {
            let placed = place_array(alloc, globals, array)?;
            all.push(placed)
        }
        CItem::Proto(_) => Ok(()),
        CItem::Function(_) => Ok(()),
    }
}

#[tactic(auto, using(crate::proofs::Programs::item_rules))]
fn place_functions(
    alloc: Global,
    globals: &Globals<'_>,
    items: &[CItem],
) -> Result<Items<PlacedFunction>, AllocError>
    ensures { IfOk result (λ q. map function_view q
        ≡ placed_functions (numbers_in globals.now) (map c.item_view items.now)) }
{
    let mut all = Items::new(alloc);
    for item in items {
        push_function(alloc, globals, &mut all, item)?;
    }
    Ok(all)
}

#[tactic(auto, using(crate::proofs::Programs::item_rules))]
fn place_arrays(
    alloc: Global,
    globals: &Globals<'_>,
    items: &[CItem],
) -> Result<Items<PlacedArray>, AllocError>
    ensures { IfOk result (λ q. map elements_of q
        ≡ placed_arrays (numbers_in globals.now) (map c.item_view items.now)) }
{
    let mut all = Items::new(alloc);
    for item in items {
        push_array(alloc, globals, &mut all, item)?;
    }
    Ok(all)
}

/// The program with places for the names of locals, and numbers for those of functions and arrays.
/// Names are looked up by hashing, so it takes time in the size of the program.
pub fn resolve(alloc: Global, program: &CProgram) -> Result<PlacedProgram, AllocError>
    requires { IsTrue (well_formed (c.program_view program.now)) }
    ensures placed { IfOk result (λ q. program_view q ≡ placed (c.program_view program.now)) }
    ensures runs { IfOk result (λ q. SameRuns (c.program_view program.now) (program_view q)) }
    ensures ready { IfOk result (λ q. IsReady (program_view q)) }
{
    let items = program.items.as_slice();
    let globals = globals(alloc, items)?;
    let functions = place_functions(alloc, &globals, items)?;
    let arrays = place_arrays(alloc, &globals, items)?;
    let main = find(&globals.functions, "main");
    Ok(PlacedProgram {
        functions,
        arrays,
        main,
    })
}
