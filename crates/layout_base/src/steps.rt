// The steps that add to what is laid out.

ghost use Rattle.std.specs.Prelude.{◌≡◌, Ok, None, MatchResult};
ghost use Rattle.sc_world.specs.Tree.{Void};
ghost use Rattle.sc_world.specs.Objects as spec;
ghost use Rattle.sc_world.specs.Occurrences as occur;
ghost use Rattle.sc_world.specs.View.{type};
ghost use Rattle.sc_gather.specs.Made.{Makes, IsMemory};
ghost use Rattle.layout_base.specs.Seen as seen;

use crate::ground::Ground;
use crate::layout::{Chosen, Kind, Location, Occurrence, Places, Spot};
use sc_base::LimitKind;
use sc_gather::{Refused, is_integer, is_pointer};
use sc_tree::ctype::CType;
use sc_world::Origin;

/// No function has more locations.
const MOST_LOCATIONS: usize = 256;

// A length as a number of 32 bits.
fn number(n: usize) -> Result<u32, Refused>
    ensures { MatchResult result (λ k. k ≡ n) IsMemory }
{
    match u32::try_from(n) {
        Ok(k) => Ok(k),
        Err(_) => Err(Refused::Memory),
    }
}

/// Whether a type has a cell.
pub fn is_cell(t: &CType) -> bool
    ensures { result ≡ spec.is_cell (type t.now) }
{
    is_integer(t) || is_pointer(t)
}

fn gives_cells(chosen: Chosen) -> bool
    ensures { result ≡ spec.gives_cells (seen.chosen_of chosen) }
{
    match chosen {
        Chosen::Nothing => false,
        Chosen::Cells | Chosen::CellsAndStates => true,
    }
}

fn gives_states(chosen: Chosen) -> bool
    ensures { result ≡ spec.gives_states (seen.chosen_of chosen) }
{
    match chosen {
        Chosen::Nothing | Chosen::Cells => false,
        Chosen::CellsAndStates => true,
    }
}

/// The object of a part; the location itself where it is a whole one.
pub fn root_or(root: Option<u32>, at: u32) -> u32
    ensures { result ≡ spec.root_or root at }
{
    match root {
        None => at,
        Some(root) => root,
    }
}

impl<'p> Places<'p> {
    /// The number of the next location, if there may be one more.
    #[tactic(auto, unfolding(crate::specs::Seen::layout_of))]
    fn next(&self) -> Result<u32, Refused>
        ensures { Makes (spec.next (seen.layout_of self.now)) result (seen.layout_of self.now) }
    {
        let at = self.locations.len();
        if at < MOST_LOCATIONS {
            Ok(at as u32)
        } else {
            Err(Refused::Limit(LimitKind::Locations))
        }
    }

    /// How many locations there are.
    #[tactic(auto, unfolding(crate::specs::Seen::layout_of))]
    pub fn locations_now(&self) -> Result<u32, Refused>
        ensures { Makes (spec.count (seen.layout_of self.now)) result (seen.layout_of self.now) }
    {
        number(self.locations.len())
    }

    /// How many occurrences there are.
    #[tactic(auto, unfolding(crate::specs::Seen::layout_of))]
    pub fn occurrences_now(&self) -> Result<u32, Refused>
        ensures { Makes (occur.occurrences_now (seen.layout_of self.now)) result (seen.layout_of self.now) }
    {
        number(self.occurrences.len())
    }

    /// How many spots there are.
    #[tactic(auto, unfolding(crate::specs::Seen::layout_of))]
    pub fn spots_now(&self) -> Result<u32, Refused>
        ensures { Makes (occur.spots_now (seen.layout_of self.now)) result (seen.layout_of self.now) }
    {
        number(self.spots.len())
    }

    /// That many bits of the choice: the first of them.
    #[tactic(auto, unfolding(crate::specs::Seen::layout_of))]
    pub fn take_bits(&mut self, n: u32) -> Result<u32, Refused>
        ensures { Makes (spec.take_bits n (seen.layout_of self.old)) result (seen.layout_of self.new) }
    {
        let first = self.bits;
        match first.checked_add(n) {
            None => Err(Refused::Memory),
            Some(bits) => {
                self.bits = bits;
                Ok(first)
            }
        }
    }

    #[tactic(auto, unfolding(crate::specs::Seen::layout_of))]
    fn push(&mut self, location: Location<'p>) -> Result<(), Refused>
        ensures { Makes (spec.push (seen.location_of location.entry) (seen.layout_of self.old)) result (seen.layout_of self.new) }
    {
        if self.locations.push(location).is_err() {
            return Err(Refused::Memory);
        }
        Ok(())
    }

    /// Puts a location in the place of another one.
    #[tactic(auto, unfolding(crate::specs::Seen::layout_of), using(crate::proofs::Stores::location_put, crate::proofs::Stores::location_past))]
    pub fn put(&mut self, at: u32, location: Location<'p>)
        ensures { spec.put_at at (seen.location_of location.entry) (seen.layout_of self.old) ≡ Ok (tt, seen.layout_of self.new) }
    {
        if (at as usize) < self.locations.len() {
            self.locations[at as usize] = location;
        }
    }

    /// The pointer cell there has that object or stub of its own.
    pub fn set_target(&mut self, at: u32, to: u32)
        ensures { spec.set_target at to (seen.layout_of self.old) ≡ Ok (tt, seen.layout_of self.new) }
    {
        let mut here = self.location(at);
        here.target = Some(to);
        self.put(at, here);
    }

    // The bits of what the choice gives, if it gives that.
    fn bits_if(&mut self, given: bool, n: u32) -> Result<Option<u32>, Refused>
        ensures { Makes (spec.bits_if given n (seen.layout_of self.old)) result (seen.layout_of self.new) }
    {
        if given {
            let first = self.take_bits(n)?;
            Ok(Some(first))
        } else {
            Ok(None)
        }
    }

    /// A location of that type; it is a whole object where it has no root.
    pub fn add(
        &mut self,
        ground: &Ground<'p, '_, '_>,
        chosen: Chosen,
        root: Option<u32>,
        t: &'p CType,
        origin: Origin,
    ) -> Result<u32, Refused>
        ensures { Makes (spec.add (seen.ground_of ground.now).source (seen.chosen_of chosen) root (type t.now) origin (seen.layout_of self.old))
            result (seen.layout_of self.new) }
    {
        let at = self.next()?;
        let bit = self.bits_if(gives_cells(chosen) && is_cell(t), ground.cell_bits(t))?;
        let state = self.bits_if(gives_states(chosen), ground.state_bits())?;
        self.push(Location {
            kind: Kind::Of(t),
            origin,
            root: root_or(root, at),
            bit,
            state,
            target: None,
        })?;
        Ok(at)
    }

    /// A whole location of type `void`.
    pub fn add_void(
        &mut self,
        ground: &Ground,
        chosen: Chosen,
        origin: Origin,
    ) -> Result<u32, Refused>
        ensures { Makes (spec.add (seen.ground_of ground.now).source (seen.chosen_of chosen) None Void origin (seen.layout_of self.old))
            result (seen.layout_of self.new) }
    {
        let at = self.next()?;
        let first = self.bits_if(gives_states(chosen), ground.state_bits())?;
        self.push(Location {
            kind: Kind::Void,
            origin,
            root: at,
            bit: None,
            state: first,
            target: None,
        })?;
        Ok(at)
    }

    /// A stub.
    pub fn stub(&mut self, origin: Origin) -> Result<u32, Refused>
        ensures { Makes (spec.stub origin (seen.layout_of self.old)) result (seen.layout_of self.new) }
    {
        let at = self.next()?;
        self.push(Location {
            kind: Kind::Stub,
            origin,
            root: at,
            bit: None,
            state: None,
            target: None,
        })?;
        Ok(at)
    }

    /// An occurrence.
    #[tactic(auto, unfolding(crate::specs::Seen::layout_of))]
    pub fn push_occurrence(&mut self, occurrence: Occurrence) -> Result<(), Refused>
        ensures { Makes (occur.push_occurrence (seen.occurrence_of occurrence) (seen.layout_of self.old)) result (seen.layout_of self.new) }
    {
        if self.occurrences.push(occurrence).is_err() {
            return Err(Refused::Memory);
        }
        Ok(())
    }

    /// A spot.
    #[tactic(auto, unfolding(crate::specs::Seen::layout_of))]
    pub fn push_spot(&mut self, bit: u32, object: Option<u32>) -> Result<(), Refused>
        ensures { Makes (occur.push_spot bit object (seen.layout_of self.old)) result (seen.layout_of self.new) }
    {
        if self.spots.push(Spot { bit, object }).is_err() {
            return Err(Refused::Memory);
        }
        Ok(())
    }

    /// The occurrence with that number; one of no call where there is none.
    #[tactic(auto, unfolding(crate::specs::Seen::layout_of))]
    pub fn occurrence(&self, k: u32) -> Occurrence
        ensures { occur.occurrence_now k (seen.layout_of self.now) ≡ Ok (seen.occurrence_of result, seen.layout_of self.now) }
    {
        match self.occurrences.get(k as usize) {
            None => Occurrence {
                site: 0,
                object: None,
                bit: 0,
                spot: 0,
            },
            Some(occurrence) => *occurrence,
        }
    }

    /// Puts an occurrence in the place of another one.
    #[tactic(auto, unfolding(crate::specs::Seen::layout_of), using(crate::proofs::Stores::occurrence_put, crate::proofs::Stores::occurrence_past))]
    pub fn put_occurrence(&mut self, k: u32, occurrence: Occurrence)
        ensures { occur.put_occurrence k (seen.occurrence_of occurrence) (seen.layout_of self.old) ≡ Ok (tt, seen.layout_of self.new) }
    {
        if (k as usize) < self.occurrences.len() {
            self.occurrences[k as usize] = occurrence;
        }
    }
}
