ghost use Rattle.std.specs.Prelude.{◌≡◌, ◌++◌, [], ◌∷◌, not, position, IfOk, OnOk, OnErr, List, ℕ, length};
ghost use Rattle.std.specs.List.{list_any};
ghost use Rattle.soda_words.specs.Names.{is_word};

use crate::NoMemory;
use indexmap::IndexMap;
use std::alloc::Global;
use std::marker::Model;

/// Names in order, repeated ones too, and where each of them first stands. A look-up takes the same time
/// however many names there are.
#[derive(Drop)]
pub struct NameTable<'a> {
    names: Vec<&'a [u8]>,
    places: IndexMap<&'a [u8], usize>,
}

impl<'a> Model for NameTable<'a> {
    ghost use Rattle.std.specs.Prelude.{List, ℕ, map};
    ghost use Rattle.soda_words.specs.Table.{GivesFirstPlaces};

    ghost Value = { List (List ℕ) };

    ghost view = { λ t. map (λ name. name.now) t.names.items };

    ghost invariant = { λ t. GivesFirstPlaces t.places.entries (map (λ name. name.now) t.names.items) };
}

impl<'a> NameTable<'a> {
    /// No names.
    pub fn new(alloc: Global) -> Self
        ensures { result ≡ [] }
    {
        NameTable {
            names: Vec::new(alloc),
            places: IndexMap::new(alloc),
        }
    }

    /// How many names there are, repeated ones too.
    pub fn len(&self) -> usize
        ensures { result ≡ length self.now }
    {
        self.names.len()
    }

    /// Adds a name behind the others, and says whether it is new. Where there is no memory left, the table
    /// stays as it was.
    pub fn add(&mut self, name: &'a [u8]) -> Result<bool, NoMemory>
        ensures added { OnOk result (self.new ≡ self.old ++ name.now ∷ []) }
        ensures fresh { IfOk result (λ is_new. is_new ≡ not (list_any (is_word name.now) self.old)) }
        ensures kept { OnErr result (self.new ≡ self.old) }
    {
        if self.places.contains_key(name) {
            self.names.push(name)?;
            return Ok(false);
        }
        let place = self.names.len();
        self.names.push(name)?;
        match self.places.insert(name, place) {
            Ok(_) => Ok(true),
            Err(_) => {
                self.names.pop();
                Err(NoMemory)
            }
        }
    }

    /// Where the name first stands, counted from 0.
    pub fn place(&self, name: &[u8]) -> Option<usize>
        ensures { result ≡ position (is_word name.now) self.now }
    {
        self.places.get(name).copied()
    }
}
