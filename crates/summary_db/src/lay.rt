//! The numbers of the places: which slots of the table a function takes from and gives to.

ghost use Rattle.std.specs.Prelude.{◌≡◌, ℕ, ◌+◌, ◌<◌, ◌^◌, List, [], ◌∷◌, ◌++◌, length, map, slice_set};
ghost use Rattle.std.specs.Prelude.{vec_len, OnOk, IfOk, replicate, true};
ghost use lib.ListN.{get_elem?};
ghost use mathlib.Core.Option.{some};
ghost use Rattle.std.specs.List.{range_with_len};
ghost use Rattle.summary_db.specs.Views.{member};
ghost use Rattle.plan_core.specs.Graph.{callees};
ghost use Rattle.summary_db.specs.declared.place.Place.{Place};
ghost use Rattle.summary_db.specs.Places.{edge, edges_before, places_of, slots_of, takes_of, gives_of, IsLaidOut};
ghost use Rattle.summary_db.specs.Lays.{lists, list_of, IsLay};

use sc_base::{List, OutOfMemory};
use std::alloc::Global;

/// For each function and for the reader: the places from which it takes, in its callees' order, and
/// the places to which it gives. `count` is the number of places.
#[derive(Drop)]
pub(crate) struct Lay {
    pub(crate) takes: Vec<Vec<usize>>,
    pub(crate) gives: Vec<Vec<usize>>,
    pub(crate) count: usize,
}

/// Puts a number at the end of one of the lists.
fn note(rows: &mut Vec<Vec<usize>>, at: usize, number: usize) -> Result<(), OutOfMemory>
    requires { at < vec_len rows.old }
    ensures noted { OnOk result (lists rows.new ≡ slice_set (lists rows.old) at (list_of rows.old at ++ number ∷ [])) }
    ensures len { vec_len rows.new ≡ vec_len rows.old }
{
    rows[at].push(number)?;
    Ok(())
}

/// So many empty lists.
fn none(alloc: Global, count: usize) -> Result<Vec<Vec<usize>>, OutOfMemory>
    ensures { IfOk result (λ rows. lists rows ≡ replicate count []) }
{
    let mut rows = Vec::new(alloc);
    for _turn in 0..count {
        rows.push(Vec::new(alloc))?;
    }
    Ok(rows)
}

impl Lay {
    /// Numbers a place.
    fn push(&mut self, taker: u32, giver: u32) -> Result<(), OutOfMemory>
        requires { (taker < vec_len self.old.takes) × (giver < vec_len self.old.gives) }
        ensures lay { OnOk result ((n : ℕ) (places : List Place) → IsLay n places self.old → IsLay n (places ++ edge taker giver ∷ []) self.new) }
        ensures len { (vec_len self.new.takes ≡ vec_len self.old.takes) × (vec_len self.new.gives ≡ vec_len self.old.gives) }
    {
        if self.count == usize::MAX {
            return Err(OutOfMemory);
        }
        note(&mut self.takes, taker as usize, self.count)?;
        note(&mut self.gives, giver as usize, self.count)?;
        self.count += 1;
        Ok(())
    }

    /// Numbers the places of a function's kept edges.
    fn push_row(&mut self, taker: u32, givers: &[u32]) -> Result<(), OutOfMemory>
        requires { (taker < vec_len self.old.takes) × ((giver : ℕ) → member giver givers.now ≡ true → giver < vec_len self.old.gives) }
        ensures lay { OnOk result ((n : ℕ) (places : List Place) → IsLay n places self.old → IsLay n (places ++ map (edge taker) givers.now) self.new) }
        ensures len { (vec_len self.new.takes ≡ vec_len self.old.takes) × (vec_len self.new.gives ≡ vec_len self.old.gives) }
    {
        for giver in givers {
            self.push(taker, *giver)?;
        }
        Ok(())
    }

    /// Numbers the places of these rows of callees: first the edges, row by row, and then the
    /// results.
    pub(crate) fn new(alloc: Global, rows: &List<List<u32>>) -> Result<Lay, OutOfMemory>
        requires { IsLaidOut rows.now × (length rows.now < 2 ^ 32) }
        ensures { IfOk result (λ lay. IsLay (length rows.now) (places_of rows.now) lay) }
    {
        let count = rows.len();
        let mut lay = Lay {
            takes: none(alloc, count + 1)?,
            gives: none(alloc, count + 1)?,
            count: 0,
        };
        for taker in 0..count {
            lay.push_row(taker as u32, rows.as_slice()[taker].as_slice())?;
        }
        for giver in 0..count {
            lay.push(count as u32, giver as u32)?;
        }
        Ok(lay)
    }
}
