// The bits of the cells of a call's object, and of a call's result.

ghost use Rattle.std.specs.Prelude.{◌≡◌, ◌-◌};
ghost use Rattle.sc_world.specs.Occurrences as spec;
ghost use Rattle.sc_world.specs.Layout as layouts;
ghost use Rattle.sc_gather.specs.Made.{Makes};
ghost use Rattle.sc_gather.specs.Seen as gathered;
ghost use Rattle.layout_base.specs.Seen as seen;

use layout_base::{Ground, Kind, Location, Places, is_cell};
use sc_gather::{Refused, Site, is_integer, is_pointer};

// The bits of a cell.
fn cell_at<'p>(
    laid: &mut Places<'p>,
    ground: &Ground<'p, '_, '_>,
    at: u32,
    here: Location<'p>,
) -> Result<(), Refused>
    ensures { Makes (spec.cell_at (seen.ground_of ground.now).source at (seen.location_of here.entry) (seen.layout_of laid.old))
        result (seen.layout_of laid.new) }
{
    match here.kind {
        Kind::Stub | Kind::Void => Ok(()),
        Kind::Of(t) => {
            if is_cell(t) {
                let bit = laid.take_bits(ground.cell_bits(t))?;
                let mut cell = here;
                cell.bit = Some(bit);
                laid.put(at, cell);
                Ok(())
            } else {
                Ok(())
            }
        }
    }
}

// The same of a location that is a part of the object with that root.
fn cell_if<'p>(
    laid: &mut Places<'p>,
    ground: &Ground<'p, '_, '_>,
    root: u32,
    at: u32,
) -> Result<(), Refused>
    ensures { Makes (spec.cell_if (seen.ground_of ground.now).source root at (layouts.location (seen.layout_of laid.old) at) (seen.layout_of laid.old))
        result (seen.layout_of laid.new) }
{
    let here = laid.location(at);
    if here.root == root {
        cell_at(laid, ground, at, here)
    } else {
        Ok(())
    }
}

// The bits of the cells of an object, which stands from its own number on.
#[tactic(auto, using(crate::proofs::Steps::cells_more, crate::proofs::Steps::cells_last))]
fn cells_to<'p>(
    laid: &mut Places<'p>,
    ground: &Ground<'p, '_, '_>,
    root: u32,
    end: u32,
) -> Result<(), Refused>
    ensures { Makes (spec.cells_from (end - root) root root (seen.ground_of ground.now).source (seen.layout_of laid.old))
        result (seen.layout_of laid.new) }
{
    for at in root..end {
        cell_if(laid, ground, root, at)?;
    }
    Ok(())
}

/// The bits of the cells of an object, if there is one.
pub fn object_cells<'p>(
    laid: &mut Places<'p>,
    ground: &Ground<'p, '_, '_>,
    object: Option<u32>,
) -> Result<(), Refused>
    ensures { Makes (spec.object_cells (seen.ground_of ground.now).source object (seen.layout_of laid.old)) result (seen.layout_of laid.new) }
{
    match object {
        None => Ok(()),
        Some(at) => {
            let end = laid.locations_now()?;
            cells_to(laid, ground, at, end)
        }
    }
}

/// The bits of a result.
pub fn result_bits<'p>(
    laid: &mut Places<'p>,
    ground: &Ground<'p, '_, '_>,
    site: Site<'p>,
    pointer_bits: u32,
    object: Option<u32>,
) -> Result<(), Refused>
    ensures { Makes (spec.result_bits (seen.ground_of ground.now).source (gathered.call site.entry) pointer_bits object (seen.layout_of laid.old))
        result (seen.layout_of laid.new) }
{
    if is_integer(site.result) {
        laid.take_bits(ground.integer_bits(site.result))?;
        Ok(())
    } else if is_pointer(site.result) {
        laid.take_bits(pointer_bits)?;
        object_cells(laid, ground, object)
    } else {
        Ok(())
    }
}
