// Where items and statements begin, in the order of the text.

ghost use Rattle.std.specs.Prelude.{◌≡◌, [], ◌∷◌, ◌++◌, IfOk, OnOk, length, slice_get};
ghost use Rattle.std.specs.Option.{option_map};
ghost use Rattle.mm_c_text.specs.Classes.{number_of};
ghost use Rattle.mm_c_text.specs.Places.{at};
ghost use Rattle.mm_c_parse_stmt.specs.Gathers.{Begins};

use mm_c_text::class::Class;
use mm_c_text::cursor::Cursor;
use mm_c_text::place::Place;
use sqlite_items::Items;
use std::alloc::{AllocError, Global};
use std::marker::Model;

/// Places, one after another.
#[derive(Drop)]
pub struct Places {
    list: Items<Place>,
}

impl Model for Places {
    ghost use Rattle.std.specs.Prelude.{List, map};
    ghost use Rattle.mm_c.specs.Tokens as tokens;
    ghost use Rattle.mm_c_text.specs.Places.{at};

    ghost Value = { List tokens.Place };

    ghost view = { λ c. map at c.list };
}

impl Places {
    /// No places.
    pub fn new(alloc: Global) -> Places
        ensures { result ≡ [] }
    {
        Places {
            list: Items::new(alloc),
        }
    }

    /// Adds a place behind the others.
    pub fn push(&mut self, place: Place) -> Result<(), AllocError>
        ensures { OnOk result (self.new ≡ self.old ++ at place ∷ []) }
    {
        self.list.push(place)?;
        Ok(())
    }

    /// How many there are.
    pub fn len(&self) -> usize
        ensures { result ≡ length self.now }
    {
        self.list.len()
    }

    /// The place of this number, from 0.
    pub fn get(&self, number: usize) -> Option<Place>
        ensures { option_map at result ≡ slice_get self.now number }
    {
        self.list.get(number).copied()
    }
}

/// Passes over the next token where it is of this class, and adds its place.
#[inline(never)]
pub fn begin(cursor: &mut Cursor<'_>, places: &mut Places, class: Class) -> Result<bool, AllocError>
    ensures { IfOk result (λ b. Begins (number_of class) cursor.old places.old b places.new cursor.new) }
{
    match cursor.eat(&[class]) {
        None => Ok(false),
        Some(word) => {
            places.push(word.place)?;
            Ok(true)
        }
    }
}
