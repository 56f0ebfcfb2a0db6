// Objects: their parts, and their cells.

use crate::walk::Walk;
use layout_base::{Kind, Places, is_cell};
use run_inits::blank;
use run_world::Value;
use sc_base::{List, NameId, OutOfMemory};
use sc_tree::ctype::CType;
use sc_typed::{InitStep, Program, TInitItem};
use sc_world::Origin;
use std::alloc::Global;
use sum_rows::Step;

/// No location is a part of another one through more steps.
const MOST_STEPS: u32 = 256;

// Whether a location is the one at `at` or a part of it.
fn is_within(places: &Places, at: u32, k: u32) -> bool {
    let mut up = k;
    for _step in 0..=MOST_STEPS {
        if up == at {
            return true;
        }
        match places.location(up).origin {
            Origin::Part(whole, _) => up = whole,
            _ => return false,
        }
    }
    false
}

// The type of what a location has.
fn type_at<'p>(places: &Places<'p>, k: u32) -> Option<&'p CType> {
    match places.location(k).kind {
        Kind::Stub | Kind::Void => None,
        Kind::Of(t) => Some(t),
    }
}

fn has_cell(places: &Places, k: u32) -> bool {
    match type_at(places, k) {
        None => false,
        Some(t) => is_cell(t),
    }
}

// How many locations there are.
fn count(places: &Places) -> u32 {
    u32::try_from(places.count()).unwrap_or(u32::MAX)
}

// The cells of the object at `at`, in order.
fn cells_of(alloc: Global, places: &Places, at: u32) -> Result<Vec<u32>, OutOfMemory> {
    let mut cells = Vec::new(alloc);
    for k in 0..count(places) {
        if has_cell(places, k) && is_within(places, at, k) {
            cells.push(k)?;
        }
    }
    Ok(cells)
}

// The part to which a step leads.
fn part(places: &Places, at: u32, step: Step) -> Option<u32> {
    for k in 0..count(places) {
        if places.location(k).origin == Origin::Part(at, step) {
            return Some(k);
        }
    }
    None
}

// The name of a member of a struct, by the numbers of both.
fn member(program: &Program, number: u32, member: u32) -> Option<NameId> {
    let definition = program.structs.as_slice().get(number as usize)?;
    match &definition.fields {
        None => None,
        Some(fields) => fields.as_slice().get(member as usize)?.name,
    }
}

// The part to which a step of an initialiser leads.
fn part_into(program: &Program, places: &Places, at: u32, step: InitStep) -> Option<u32> {
    match (step, type_at(places, at)) {
        (InitStep::Elem(n), _) => part(places, at, Step::Elem(n)),
        (InitStep::Field(n), Some(CType::Struct(number))) => {
            part(places, at, Step::Field(member(program, *number, n)?))
        }
        (InitStep::Field(_), _) => None,
    }
}

// The part to which the way of a value in braces leads.
fn part_at(
    program: &Program,
    places: &Places,
    at: u32,
    way: &Option<List<InitStep>>,
) -> Option<u32> {
    match way {
        None => None,
        Some(steps) => {
            let mut part = at;
            for step in steps.as_slice() {
                part = part_into(program, places, part, *step)?;
            }
            Some(part)
        }
    }
}

impl<'p> Walk<'p, '_, '_> {
    /// The values of the cells of an object.
    pub fn loaded(&self, at: u32) -> Result<Vec<Value>, OutOfMemory> {
        let mut values = Vec::new(self.alloc);
        for k in cells_of(self.alloc, self.here.places, at)?.as_slice() {
            values.push(self.world.load(*k as usize))?;
        }
        Ok(values)
    }

    /// The values are stored in the cells of an object, in order, as long as there are both.
    pub fn store_all(&mut self, at: u32, values: &[Value]) -> Result<(), OutOfMemory> {
        let cells = cells_of(self.alloc, self.here.places, at)?;
        for (k, value) in cells.iter().zip(values.iter()) {
            self.world.store(*k as usize, *value);
        }
        Ok(())
    }

    /// One object is copied to another.
    pub fn copy(&mut self, from: u32, to: u32) -> Result<(), OutOfMemory> {
        let values = self.loaded(from)?;
        self.store_all(to, values.as_slice())
    }

    // 0 or null, as the cell has it.
    fn blank_at(&self, k: u32) -> Value {
        match type_at(self.here.places, k) {
            None => Value::Nothing,
            Some(t) => blank(&self.here, t),
        }
    }

    /// All cells of an object are set to 0 or null.
    pub fn clear(&mut self, at: u32) -> Result<(), OutOfMemory> {
        let cells = cells_of(self.alloc, self.here.places, at)?;
        for k in cells.as_slice() {
            let value = self.blank_at(*k);
            self.world.store(*k as usize, value);
        }
        Ok(())
    }

    /// The part of an object that a value in braces sets is set to these values, where there is one.
    pub fn set_part(
        &mut self,
        at: u32,
        item: &TInitItem,
        values: &[Value],
    ) -> Result<(), OutOfMemory> {
        let here = self.here;
        match part_at(here.ground.here.program, here.places, at, &item.way) {
            None => Ok(()),
            Some(part) => self.store_all(part, values),
        }
    }
}
