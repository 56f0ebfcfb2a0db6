// What the choice says of a known call: of each item of the callee's summary, and of each cell that it writes.

ghost use Rattle.std.specs.Prelude.{◌≡◌};
ghost use Rattle.std.specs.List.{list_any};
ghost use Rattle.sc_world.specs.Occurrences as spec;
ghost use Rattle.sc_world.specs.Objects as objects;
ghost use Rattle.sc_world.specs.Source as given;
ghost use Rattle.sc_world.specs.Tree as tree;
ghost use Rattle.sc_world.specs.Gather.{declared_object};
ghost use Rattle.sc_gather.specs.Made.{Makes};
ghost use Rattle.sc_gather.specs.Seen as gathered;
ghost use Rattle.layout_base.specs.Seen as seen;

use crate::objects::{Behind, follow_range, whole_or_void};
use layout_base::{Chosen, Ground, Places};
use sc_gather::{Refused, target};
use sc_tree::ctype::CType;
use sc_world::Origin;
use sum_rows::{Item, ItemRows, Path, Root, Step, Write};

// A spot of so many bits.
fn spot_of(laid: &mut Places, bits: u32) -> Result<(), Refused>
    ensures { Makes (spec.spot_of bits (seen.layout_of laid.old)) result (seen.layout_of laid.new) }
{
    let bit = laid.take_bits(bits)?;
    laid.push_spot(bit, None)
}

fn state_spot(laid: &mut Places, ground: &Ground, item: &Item) -> Result<(), Refused>
    ensures { Makes (spec.state_spot (seen.ground_of ground.now).source item.now (seen.layout_of laid.old)) result (seen.layout_of laid.new) }
{
    match item {
        Item::Lock(_) => spot_of(laid, 1 + ground.state_bits()),
        Item::Exit | Item::Param(_) | Item::Out(_) => Ok(()),
    }
}

// What the choice says of each location of a summary.
fn state_spots(laid: &mut Places, ground: &Ground, items: &[ItemRows]) -> Result<(), Refused>
    ensures { Makes (spec.state_spots (seen.ground_of ground.now).source items.now (seen.layout_of laid.old)) result (seen.layout_of laid.new) }
{
    for x in items {
        state_spot(laid, ground, &x.item)?;
    }
    Ok(())
}

fn param_spot(laid: &mut Places, item: &Item) -> Result<(), Refused>
    ensures { Makes (spec.param_spot item.now (seen.layout_of laid.old)) result (seen.layout_of laid.new) }
{
    match item {
        Item::Param(_) => spot_of(laid, 2),
        Item::Exit | Item::Lock(_) | Item::Out(_) => Ok(()),
    }
}

// What the choice says of each parameter of a summary.
fn param_spots(laid: &mut Places, items: &[ItemRows]) -> Result<(), Refused>
    ensures { Makes (spec.param_spots items.now (seen.layout_of laid.old)) result (seen.layout_of laid.new) }
{
    for x in items {
        param_spot(laid, &x.item)?;
    }
    Ok(())
}

// What a pointer to a pointer of that type points to; `None` of any other type.
fn target_of_target<'p>(t: Option<&'p CType>) -> Option<&'p CType>
    ensures { declared_object (gathered.type_if result) ≡ tree.target_or_void (tree.target_or_void (objects.type_or_void (gathered.type_if t.entry))) }
{
    match t {
        None => None,
        Some(t) => match target(t) {
            None => None,
            Some(u) => target(u),
        },
    }
}

// The object that a pointer to a pointer may be made to point to.
fn out_object<'p>(
    laid: &mut Places<'p>,
    ground: &Ground<'p, '_, '_>,
    place: usize,
    n: u32,
    k: u32,
) -> Result<u32, Refused>
    ensures { Makes (spec.out_object (seen.ground_of ground.now) (spec.known_callee (seen.ground_of ground.now).source place) n k (seen.layout_of laid.old))
        result (seen.layout_of laid.new) }
{
    let t = target_of_target(ground.callee_param(place, n));
    let at = whole_or_void(laid, ground, Chosen::Cells, t, Origin::Call(k))?;
    let end = laid.locations_now()?;
    follow_range(laid, ground, Behind::Stub, at, end)?;
    Ok(at)
}

fn out_spot<'p>(
    laid: &mut Places<'p>,
    ground: &Ground<'p, '_, '_>,
    place: usize,
    k: u32,
    item: &Item,
) -> Result<(), Refused>
    ensures { Makes (spec.out_spot (seen.ground_of ground.now) (spec.known_callee (seen.ground_of ground.now).source place) k item.now
        (seen.layout_of laid.old)) result (seen.layout_of laid.new) }
{
    match item {
        Item::Out(n) => {
            let bit = laid.take_bits(2)?;
            let at = out_object(laid, ground, place, *n, k)?;
            laid.push_spot(bit, Some(at))
        }
        Item::Exit | Item::Lock(_) | Item::Param(_) => Ok(()),
    }
}

// What the choice says of each pointer that a parameter points to, and the object that it may then point to.
fn out_spots<'p>(
    laid: &mut Places<'p>,
    ground: &Ground<'p, '_, '_>,
    place: usize,
    k: u32,
    items: &[ItemRows],
) -> Result<(), Refused>
    ensures { Makes (spec.out_spots (seen.ground_of ground.now) (spec.known_callee (seen.ground_of ground.now).source place) k items.now
        (seen.layout_of laid.old)) result (seen.layout_of laid.new) }
{
    for x in items {
        out_spot(laid, ground, place, k, &x.item)?;
    }
    Ok(())
}

fn is_out(n: u32, item: &Item) -> bool
    ensures { result ≡ spec.is_out n item.now }
{
    match item {
        Item::Out(m) => n == *m,
        Item::Exit | Item::Lock(_) | Item::Param(_) => false,
    }
}

fn has_out(items: &[ItemRows], n: u32) -> bool
    ensures { result ≡ list_any (λ x. spec.is_out n x.item) items.now }
{
    items.iter().any(|x| is_out(n, &x.item))
}

// Whether a path leads to what a parameter with such an item points to.
fn is_out_path(items: &[ItemRows], path: &Path) -> bool
    ensures { result ≡ spec.is_out_path items.now path.now }
{
    match path.root {
        Root::Global(_) => false,
        Root::Param(n) => match path.steps.as_slice() {
            [] => false,
            [step] => match step {
                Step::Deref => has_out(items, n),
                Step::Field(_) | Step::Elem(_) => false,
            },
            [_, _, ..] => false,
        },
    }
}

// The stub to which a written pointer may point.
fn pointer_spot(laid: &mut Places, k: u32) -> Result<(), Refused>
    ensures { Makes (spec.pointer_spot k (seen.layout_of laid.old)) result (seen.layout_of laid.new) }
{
    let at = laid.stub(Origin::Call(k))?;
    let bit = laid.take_bits(1)?;
    laid.push_spot(bit, Some(at))
}

fn write_spot(laid: &mut Places, items: &[ItemRows], k: u32, write: &Write) -> Result<(), Refused>
    ensures { Makes (spec.write_spot items.now k write.now (seen.layout_of laid.old)) result (seen.layout_of laid.new) }
{
    if is_out_path(items, &write.path) {
        Ok(())
    } else if write.width == 0 {
        pointer_spot(laid, k)
    } else {
        spot_of(laid, write.width)
    }
}

// What the choice says of each other written cell.
fn write_spots(
    laid: &mut Places,
    items: &[ItemRows],
    k: u32,
    writes: &[Write],
) -> Result<(), Refused>
    ensures { Makes (spec.write_spots items.now k writes.now (seen.layout_of laid.old)) result (seen.layout_of laid.new) }
{
    for x in writes {
        write_spot(laid, items, k, x)?;
    }
    Ok(())
}

/// What the choice says of a known call.
pub fn known_spots<'p>(
    laid: &mut Places<'p>,
    ground: &Ground<'p, '_, '_>,
    place: usize,
    k: u32,
) -> Result<(), Refused>
    ensures { Makes (spec.known_spots (seen.ground_of ground.now) k (spec.known_callee (seen.ground_of ground.now).source place)
        (given.sum_at (seen.ground_of ground.now).source place) (seen.layout_of laid.old)) result (seen.layout_of laid.new) }
{
    match ground.summary(place) {
        None => Ok(()),
        Some(summary) => {
            let items = summary.items.as_slice();
            state_spots(laid, ground, items)?;
            param_spots(laid, items)?;
            out_spots(laid, ground, place, k, items)?;
            write_spots(laid, items, k, summary.writes.as_slice())
        }
    }
}
