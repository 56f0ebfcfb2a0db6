// What is laid out of a function: locations, calls in their turns, and the bits that choose a run.

ghost use Rattle.std.specs.Prelude.{◌≡◌, length, map};
ghost use Rattle.sc_world.specs.Layout as spec;
ghost use Rattle.sc_gather.specs.Seen as gathered;
ghost use Rattle.layout_base.specs.Seen as seen;

use sc_gather::Site;
use sc_tree::ctype::CType;
use sc_world::Origin;
use std::alloc::Global;

/// What a location has.
#[derive(Clone, Copy)]
pub enum Kind<'p> {
    /// No type and no cell: a stub.
    Stub,
    /// The type `void`.
    Void,
    /// That type.
    Of(&'p CType),
}

/// A location. A stub has no type and no cell, and no access may reach it.
#[derive(Clone, Copy)]
pub struct Location<'p> {
    pub kind: Kind<'p>,
    pub origin: Origin,
    /// The object that it is a part of; itself where it is a whole one.
    pub root: u32,
    /// The first bit of its cell, where the choice gives that.
    pub bit: Option<u32>,
    /// The first bit of its state at entry, where it has one.
    pub state: Option<u32>,
    /// Of a pointer cell: the object or the stub of its own.
    pub target: Option<u32>,
}

/// A call in one turn of the loops round it.
#[derive(Clone, Copy, Debug, PartialEq, Eq)]
pub struct Occurrence {
    /// The number of the call in the text.
    pub site: u32,
    /// The object of a pointer that it gives.
    pub object: Option<u32>,
    /// The first bit of its choice.
    pub bit: u32,
    /// Its first spot.
    pub spot: u32,
}

/// What the choice says of one item or written path of a known call: its first bit, and an object that comes with it.
#[derive(Clone, Copy, Debug, PartialEq, Eq)]
pub struct Spot {
    pub bit: u32,
    pub object: Option<u32>,
}

/// What of an object the choice gives.
#[derive(Clone, Copy, Debug, PartialEq, Eq)]
pub enum Chosen {
    Nothing,
    /// Its cells.
    Cells,
    /// Its cells and the states of its locations.
    CellsAndStates,
}

/// What is laid out.
#[derive(Drop)]
pub struct Places<'p> {
    pub locations: Vec<Location<'p>>,
    /// The calls of the text, in order.
    pub sites: Vec<Site<'p>>,
    pub occurrences: Vec<Occurrence>,
    pub spots: Vec<Spot>,
    /// How many bits choose a run.
    pub bits: u32,
}

impl<'p> Places<'p> {
    /// Nothing is laid out yet but the calls of the text.
    #[tactic(auto, unfolding(crate::specs::Seen::layout_of))]
    pub fn begin(alloc: Global, sites: Vec<Site<'p>>) -> Places<'p>
        ensures { seen.layout_of result ≡ record spec.no_layout { sites = map gathered.call sites.entry.items } }
    {
        Places {
            locations: Vec::new(alloc),
            sites,
            occurrences: Vec::new(alloc),
            spots: Vec::new(alloc),
            bits: 0,
        }
    }

    /// The number of locations.
    #[tactic(auto, unfolding(crate::specs::Seen::layout_of))]
    pub fn count(&self) -> usize
        ensures { result ≡ length (seen.layout_of self.now).locations }
    {
        self.locations.len()
    }

    /// The number of bits that choose a run.
    #[tactic(auto, unfolding(crate::specs::Seen::layout_of))]
    pub fn choice_len(&self) -> usize
        ensures { result ≡ (seen.layout_of self.now).bits }
    {
        self.bits as usize
    }

    /// The location with that number; a stub where there is none.
    #[tactic(auto, unfolding(crate::specs::Seen::layout_of))]
    pub fn location(&self, at: u32) -> Location<'p>
        ensures { seen.location_of result ≡ spec.location (seen.layout_of self.now) at }
    {
        match self.locations.get(at as usize) {
            None => Location {
                kind: Kind::Stub,
                origin: Origin::Param(0),
                root: 0,
                bit: None,
                state: None,
                target: None,
            },
            Some(location) => *location,
        }
    }
}
