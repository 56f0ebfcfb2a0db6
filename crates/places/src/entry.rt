// What there is before any call: parameters, globals, locals, strings and functions, and what pointers point to at
// entry.

ghost use Rattle.std.specs.Prelude.{◌≡◌, ◌+◌, map, MatchResult};
ghost use Rattle.sc_world.specs.Objects as spec;
ghost use Rattle.sc_world.specs.Programs as programs;
ghost use Rattle.sc_world.specs.View.{type};
ghost use Rattle.sc_gather.specs.Made.{Makes, IsMemory};
ghost use Rattle.layout_base.specs.Seen as seen;

use crate::objects::{Behind, follow_range, whole};
use layout_base::{Chosen, Ground, Places};
use sc_gather::Refused;
use sc_tree::ctype::CType;
use sc_typed::{Global, Param};
use sc_world::Origin;

/// The next number.
pub fn following(k: u32) -> Result<u32, Refused>
    ensures { MatchResult result (λ n. n ≡ k + 1) IsMemory }
{
    match k.checked_add(1) {
        None => Err(Refused::Memory),
        Some(n) => Ok(n),
    }
}

/// Parameters: the choice gives their cells.
pub fn params<'p>(
    laid: &mut Places<'p>,
    ground: &Ground<'p, '_, '_>,
    params: &'p [Param],
) -> Result<(), Refused>
    ensures { Makes (spec.lay_params 0 (programs.types_of params.now) (seen.ground_of ground.now) (seen.layout_of laid.old))
        result (seen.layout_of laid.new) }
{
    let mut k = 0;
    for param in params {
        whole(laid, ground, Chosen::Cells, &param.ctype, Origin::Param(k))?;
        k = following(k)?;
    }
    Ok(())
}

// A global, if it is named.
fn global<'p>(
    laid: &mut Places<'p>,
    ground: &Ground<'p, '_, '_>,
    k: u32,
    t: &'p CType,
) -> Result<(), Refused>
    ensures { Makes (spec.lay_global (seen.ground_of ground.now) k (type t.now) (seen.layout_of laid.old)) result (seen.layout_of laid.new) }
{
    if ground.names_global(k) {
        whole(laid, ground, Chosen::CellsAndStates, t, Origin::Global(k))?;
        Ok(())
    } else {
        Ok(())
    }
}

/// Globals that are named: the choice gives their cells and states.
pub fn globals<'p>(
    laid: &mut Places<'p>,
    ground: &Ground<'p, '_, '_>,
    globals: &'p [Global],
) -> Result<(), Refused>
    ensures { Makes (spec.lay_globals 0 (map (λ g. type g.ctype) globals.now) (seen.ground_of ground.now) (seen.layout_of laid.old))
        result (seen.layout_of laid.new) }
{
    let mut k = 0;
    for g in globals {
        global(laid, ground, k, &g.ctype)?;
        k = following(k)?;
    }
    Ok(())
}

/// Locals: the choice gives nothing of them.
pub fn locals<'p>(
    laid: &mut Places<'p>,
    ground: &Ground<'p, '_, '_>,
    locals: &'p [Param],
) -> Result<(), Refused>
    ensures { Makes (spec.lay_locals 0 (programs.types_of locals.now) (seen.ground_of ground.now) (seen.layout_of laid.old))
        result (seen.layout_of laid.new) }
{
    let mut k = 0;
    for local in locals {
        whole(
            laid,
            ground,
            Chosen::Nothing,
            &local.ctype,
            Origin::Local(k),
        )?;
        k = following(k)?;
    }
    Ok(())
}

/// A stub for each string, and for each function that is used as a value.
pub fn literals(laid: &mut Places, literals: &[Origin]) -> Result<(), Refused>
    ensures { Makes (spec.lay_literals literals.now (seen.layout_of laid.old)) result (seen.layout_of laid.new) }
{
    for origin in literals {
        laid.stub(*origin)?;
    }
    Ok(())
}

/// What pointers point to at entry: an object behind each pointer cell of the range, then behind each of those, and so
/// on to the reach; then a stub behind each pointer cell of the last ones.
#[tactic(auto, using(crate::proofs::Steps::levels_more, crate::proofs::Steps::levels_last))]
pub fn levels<'p>(
    laid: &mut Places<'p>,
    ground: &Ground<'p, '_, '_>,
    reach: u32,
    first: u32,
    behind: u32,
) -> Result<(), Refused>
    ensures { Makes (spec.levels reach first behind (seen.ground_of ground.now) (seen.layout_of laid.old)) result (seen.layout_of laid.new) }
{
    let mut from = first;
    let mut to = behind;
    for _k in 0..reach {
        let start = laid.locations_now()?;
        follow_range(
            laid,
            ground,
            Behind::Object(Chosen::CellsAndStates),
            from,
            to,
        )?;
        let end = laid.locations_now()?;
        from = start;
        to = end;
    }
    follow_range(laid, ground, Behind::Stub, from, to)
}
