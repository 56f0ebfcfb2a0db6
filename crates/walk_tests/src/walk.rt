// The walk over a graph.

ghost use Rattle.std.specs.Prelude.{⊤, ◌<◌, ◌^◌, length};

use crate::expressions::{is_scalar, type_of};
use layout_base::{Ground, Places};
use run_acts::Acts;
use run_entry::{enter, reserve};
use run_inits::blank;
use run_values::{Want, has_sign, location_of};
use run_world::{Ended, Here, Value, World};
use sc_base::{OutOfMemory, Pos};
use sc_flow::{Expression, Flow, Node, Numbers, Updating, Want as Kept};
use sc_tree::ctype::CType;
use sc_typed::TInitItem;
use sc_types::signed;
use sc_world::Origin;
use std::alloc::Global;
use sum_rows::What;

/// Why a walk stops before its function ends.
#[derive(Clone, Copy, Debug, PartialEq, Eq)]
pub enum Stop {
    /// As a run ends before.
    Ended(Ended),
    /// No graph is such: a number leads back or nowhere, a temp is read that no node has kept, the expression of a node has
    /// a call or a branch, or a call has no such turn.
    Wrong,
    Memory,
}

impl From<Ended> for Stop {
    ghost from_gives = { λ _ _. ⊤ };

    fn from(ended: Ended) -> Stop {
        Stop::Ended(ended)
    }
}

impl From<OutOfMemory> for Stop {
    ghost from_gives = { λ _ _. ⊤ };

    fn from(_refused: OutOfMemory) -> Stop {
        Stop::Memory
    }
}

/// Where the walk goes behind a node.
enum Behind {
    Node(u32),
    /// Out of the function, which gives that.
    Out(Value),
}

/// A walk: what it reads, the world, and what is kept.
#[derive(Drop)]
pub struct Walk<'p, 'm, 'f> {
    pub here: Here<'p, 'm, 'f>,
    pub world: World,
    pub acts: Acts<'p, 'm, 'f>,
    pub alloc: Global,
    temps: Vec<Option<Value>>,
    slots: Vec<Vec<Value>>,
    ghost few: { length here.places.now.locations.items < 2 ^ 32 },
}

// So many temps, of which none is kept.
fn no_temps(alloc: Global, count: u32) -> Result<Vec<Option<Value>>, OutOfMemory> {
    let mut temps = Vec::new(alloc);
    for _temp in 0..count {
        temps.push(None)?;
    }
    Ok(temps)
}

// So many slots without cells.
fn no_slots(alloc: Global, count: u32) -> Result<Vec<Vec<Value>>, OutOfMemory> {
    let mut slots = Vec::new(alloc);
    for _slot in 0..count {
        slots.push(Vec::new(alloc))?;
    }
    Ok(slots)
}

fn want_of(kept: Kept) -> Want {
    match kept {
        Kept::Value => Want::Value,
        Kept::Place => Want::Place,
    }
}

// The number of a `switch` as its event tells it, by the type of its value.
fn told(t: &CType, value: Value) -> i128 {
    match value {
        Value::Number(bits, n) => {
            if has_sign(t) && bits <= 64 {
                signed(bits, n)
            } else {
                i128::from(n)
            }
        }
        Value::Pointer(_) | Value::Nothing => 0,
    }
}

impl<'p, 'm, 'f> Walk<'p, 'm, 'f> {
    /// At the entry of a function, on a choice, with room for what the graph keeps.
    #[tactic(auto, unfolding(run_world::specs::Seen::env))]
    pub fn begin(
        alloc: Global,
        ground: Ground<'p, 'm, 'f>,
        places: &'f Places<'p>,
        choice: &'f [bool],
        flow: &Flow,
    ) -> Result<Walk<'p, 'm, 'f>, OutOfMemory> {
        if places.locations.len() > u32::MAX as usize {
            return Err(OutOfMemory);
        }
        let here = Here {
            ground,
            places,
            choice,
            turn: 0,
        };
        let mut world = reserve(alloc, places, 0)?;
        enter(&here, &mut world);
        Ok(Walk {
            here,
            world,
            acts: Acts::reserve(alloc, &here)?,
            alloc,
            temps: no_temps(alloc, flow.temps)?,
            slots: no_slots(alloc, flow.slots)?,
        })
    }

    /// What is kept in a temp.
    pub fn temp(&self, number: u32) -> Result<Value, Stop> {
        match self.temps.get(number as usize) {
            Some(Some(value)) => Ok(*value),
            _ => Err(Stop::Wrong),
        }
    }

    fn keep(&mut self, number: u32, value: Value) -> Result<(), Stop> {
        let at = number as usize;
        if at >= self.temps.len() {
            return Err(Stop::Wrong);
        }
        self.temps[at] = Some(value);
        Ok(())
    }

    // The cells of the value of an expression.
    fn cells(&mut self, expression: &Expression) -> Result<Vec<Value>, Stop> {
        let t = type_of(expression).ok_or(Stop::Wrong)?;
        if is_scalar(t) {
            let value = self.given(expression, Want::Value)?;
            let mut cells = Vec::new(self.alloc);
            cells.push(value).map_err(|_| Stop::Memory)?;
            Ok(cells)
        } else {
            let place = self.given(expression, Want::Place)?;
            Ok(self.loaded(place.place())?)
        }
    }

    fn keep_cells(&mut self, number: u32, expression: &Expression) -> Result<(), Stop> {
        let cells = self.cells(expression)?;
        let at = number as usize;
        if at >= self.slots.len() {
            return Err(Stop::Wrong);
        }
        self.slots[at] = cells;
        Ok(())
    }

    // A local is set to one value.
    fn set_local(&mut self, local: u32, expression: &Expression) -> Result<(), Stop> {
        let at = location_of(&self.here, Origin::Local(local));
        let t = type_of(expression).ok_or(Stop::Wrong)?;
        if is_scalar(t) {
            let value = self.given(expression, Want::Value)?;
            self.world.store(at as usize, value);
        } else {
            let place = self.given(expression, Want::Place)?;
            self.copy(place.place(), at)?;
        }
        Ok(())
    }

    // A value in braces: the part that it sets, from a slot.
    fn fill_part(&mut self, at: u32, item: &TInitItem, slot: u32) -> Result<(), Stop> {
        let number = slot as usize;
        if number >= self.slots.len() {
            return Err(Stop::Wrong);
        }
        let empty = Vec::new(self.alloc);
        let values = std::mem::replace(&mut self.slots[number], empty);
        self.set_part(at, item, values.as_slice())?;
        Ok(())
    }

    // A local is set to the cells in these slots, the rest of it to 0 or null.
    fn fill(&mut self, local: u32, items: &[TInitItem], slots: Numbers) -> Result<(), Stop> {
        let at = location_of(&self.here, Origin::Local(local));
        if items.len() != slots.count as usize {
            return Err(Stop::Wrong);
        }
        self.clear(at)?;
        let mut slot = slots.first;
        for item in items {
            self.fill_part(at, item, slot)?;
            slot = slot.checked_add(1).ok_or(Stop::Wrong)?;
        }
        Ok(())
    }

    // `+=` and its kin, on kept values.
    fn update(
        &mut self,
        updating: &Updating,
        want: Kept,
        place: u32,
        former: u32,
        right: u32,
    ) -> Result<Value, Stop> {
        let place = self.temp(place)?;
        let former = self.temp(former)?;
        let right = self.temp(right)?;
        self.combine(
            want_of(want),
            updating.op,
            updating.works,
            updating.ctype,
            place,
            former,
            right,
        )
    }

    // The event of a `switch`.
    fn chosen(&mut self, pos: Pos, t: &CType, from: u32) -> Result<(), Stop> {
        let value = self.temp(from)?;
        self.event(pos, What::Switch(told(t, value)))?;
        Ok(())
    }

    // What the function gives where it returns nothing.
    fn no_result(&self) -> Value {
        match self.here.ground.here.function() {
            None => Value::Nothing,
            Some(function) => blank(&self.here, &function.result),
        }
    }

    // What the function gives.
    fn result_of(&self, from: Option<u32>) -> Result<Value, Stop> {
        match from {
            None => Ok(self.no_result()),
            Some(temp) => match self.temp(temp)? {
                Value::Nothing => Ok(self.no_result()),
                value => Ok(value),
            },
        }
    }

    // What a node does.
    fn step(&mut self, node: &Node<'p>) -> Result<Behind, Stop> {
        match node {
            Node::Keep {
                want,
                temp,
                expression,
                next,
            } => {
                let value = self.given(expression, want_of(*want))?;
                self.keep(*temp, value)?;
                Ok(Behind::Node(*next))
            }
            Node::KeepCells {
                slot,
                expression,
                next,
            } => {
                self.keep_cells(*slot, expression)?;
                Ok(Behind::Node(*next))
            }
            Node::Call {
                calling,
                arguments,
                temp,
                next,
            } => {
                let value = self.call(calling, *arguments)?;
                self.keep(*temp, value)?;
                Ok(Behind::Node(*next))
            }
            Node::Update {
                updating,
                want,
                place,
                former,
                right,
                temp,
                next,
            } => {
                let value = self.update(updating, *want, *place, *former, *right)?;
                self.keep(*temp, value)?;
                Ok(Behind::Node(*next))
            }
            Node::Set {
                local,
                expression,
                next,
            } => {
                self.set_local(*local, expression)?;
                Ok(Behind::Node(*next))
            }
            Node::Fill {
                local,
                items,
                slots,
                next,
            } => {
                self.fill(*local, items, *slots)?;
                Ok(Behind::Node(*next))
            }
            Node::Branch { from, hit, miss } => {
                let holds = self.temp(*from)?.is_true();
                Ok(Behind::Node(if holds { *hit } else { *miss }))
            }
            Node::Choose {
                from,
                number,
                hit,
                miss,
            } => {
                let holds = self.temp(*from)?.number() == *number;
                Ok(Behind::Node(if holds { *hit } else { *miss }))
            }
            Node::Mark { pos, event, next } => {
                self.event(*pos, *event)?;
                Ok(Behind::Node(*next))
            }
            Node::MarkSwitch {
                pos,
                ctype,
                from,
                next,
            } => {
                self.chosen(*pos, ctype, *from)?;
                Ok(Behind::Node(*next))
            }
            Node::Exit { from } => Ok(Behind::Out(self.result_of(*from)?)),
            Node::SetAside { reason } => Err(Stop::Ended(Ended::Aside(*reason))),
        }
    }

    /// The walk from the first node to the end of the function: what that gives. Each node goes on at a greater number.
    pub fn walk(&mut self, flow: &Flow<'p>) -> Result<Value, Stop> {
        let nodes = flow.nodes.as_slice();
        let mut at = 0u32;
        for _node in 0..nodes.len() {
            let node = nodes.get(at as usize).ok_or(Stop::Wrong)?;
            match self.step(node)? {
                Behind::Out(value) => return Ok(value),
                Behind::Node(next) => {
                    if next <= at {
                        return Err(Stop::Wrong);
                    }
                    at = next;
                }
            }
        }
        Err(Stop::Wrong)
    }
}
