// The number of the first item with a key, found by hash. A key is the number of a name, with the number of a file or
// without one.

ghost use Rattle.std.specs.Prelude.{◌≡◌, [], IfOk, OnOk};
ghost use Rattle.sc_program.specs.Places as spec;

use sc_base::{Keyed, OutOfMemory};
use std::alloc::Global;
use std::marker::Model;

/// The number of the first item with each key. Contracts see keys and numbers in the order in which they came.
#[derive(Drop)]
pub struct Firsts {
    places: Keyed<(u32, Option<u32>), u32>,
}

impl Model for Firsts {
    ghost use Rattle.sc_program.specs.Places.{Table};

    ghost Value = { Table };

    ghost view = { λ f. f.places };
}

impl Firsts {
    /// No item yet. It takes no memory.
    pub fn new(alloc: Global) -> Firsts
        ensures { result ≡ [] }
    {
        Firsts {
            places: Keyed::new(alloc),
        }
    }

    /// The number of the first item with that key.
    pub fn get(&self, name: u32, file: Option<u32>) -> Option<u32>
        ensures { result ≡ spec.place_of (name, file) self.now }
    {
        self.places.get(&(name, file)).copied()
    }

    /// Notes the number of an item with that key; an earlier item with it stays the first.
    pub fn note(&mut self, name: u32, file: Option<u32>, number: u32) -> Result<(), OutOfMemory>
        ensures { OnOk result (self.new ≡ spec.noted (name, file) number self.old) }
    {
        self.places.insert((name, file), number)?;
        Ok(())
    }
}

/// A number of an item. One of 2^32 and more is refused as too much for memory.
pub fn number(count: usize) -> Result<u32, OutOfMemory>
    ensures { IfOk result (λ number. number ≡ count) }
{
    if count > u32::MAX as usize {
        return Err(OutOfMemory);
    }
    Ok(count as u32)
}
