// Calls of a graph.

use crate::walk::{Stop, Walk};
use layout_base::{Occurrence, Places};
use run_exprs::Calls;
use run_world::Value;
use sc_base::{NameId, OutOfMemory, Pos};
use sc_flow::{Calling, Numbers};
use sc_gather::Effect;
use sc_typed::{TExpr, What};
use sum_rows::What as Happens;

/// A call in a turn: what it does, and its occurrence.
#[derive(Clone, Copy)]
struct CallInTurn {
    effect: Effect,
    occurrence: Occurrence,
}

// The call with that opening bracket in a turn of the loops round it; none where it has no such turn.
fn called(places: &Places, bracket: Pos, turn: u32) -> Option<CallInTurn> {
    let mut first = 0u64;
    for site in places.sites.as_slice() {
        if site.bracket == bracket {
            if turn >= site.turns {
                return None;
            }
            let number = usize::try_from(first.checked_add(u64::from(turn))?).ok()?;
            let occurrence = *places.occurrences.get(number)?;
            return Some(CallInTurn {
                effect: site.effect,
                occurrence,
            });
        }
        first = first.checked_add(u64::from(site.turns))?;
    }
    None
}

// The name of a function that is called by its name.
fn name_of(callee: &TExpr) -> Option<NameId> {
    match &callee.what {
        What::Function(name, _) => Some(*name),
        _ => None,
    }
}

impl Walk<'_, '_, '_> {
    /// What happens next.
    pub fn event(&mut self, pos: Pos, what: Happens) -> Result<(), OutOfMemory> {
        self.world.trace.push(sum_rows::Event {
            line: pos.line,
            col: pos.col,
            what,
        })?;
        Ok(())
    }

    // What is kept in these temps.
    fn arguments(&self, numbers: Numbers) -> Result<Vec<Value>, Stop> {
        let mut values = Vec::new(self.alloc);
        for k in 0..numbers.count {
            let temp = numbers.first.checked_add(k).ok_or(Stop::Wrong)?;
            values.push(self.temp(temp)?).map_err(|_| Stop::Memory)?;
        }
        Ok(values)
    }

    // What a call does in a turn, with room for one event more.
    fn act(
        &mut self,
        calling: &Calling,
        call: CallInTurn,
        arguments: &[Value],
    ) -> Result<Value, Stop> {
        self.world.trace.reserve(1).map_err(|_| Stop::Memory)?;
        let value = self.acts.act(
            calling.turn,
            &mut self.world,
            calling.place.first,
            calling.result,
            call.occurrence,
            arguments,
            call.effect,
        )?;
        Ok(value)
    }

    /// A call with the arguments in these temps.
    pub fn call(&mut self, calling: &Calling, numbers: Numbers) -> Result<Value, Stop> {
        let arguments = self.arguments(numbers)?;
        let call = called(self.here.places, calling.place.token, calling.turn);
        let call = call.ok_or(Stop::Wrong)?;
        self.event(calling.place.first, Happens::Call(name_of(calling.callee)))?;
        self.act(calling, call, arguments.as_slice())
    }
}
