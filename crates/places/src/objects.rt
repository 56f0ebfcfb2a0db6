// Objects, and what stands behind their pointer cells.

ghost use Rattle.std.specs.Prelude.{◌≡◌};
ghost use Rattle.sc_world.specs.Objects as spec;
ghost use Rattle.sc_world.specs.Gather.{declared_object};
ghost use Rattle.sc_world.specs.View.{type};
ghost use Rattle.sc_gather.specs.Made.{Makes};
ghost use Rattle.sc_gather.specs.Seen.{type_if};
ghost use Rattle.layout_base.specs.Seen as seen;
ghost use Rattle.places.specs.Objects.{behind_of};

use layout_base::{Chosen, Ground, Kind, Location, Parts, Places, root_or};
use sc_base::LimitKind;
use sc_gather::Refused;
use sc_tree::ctype::CType;
use sc_world::Origin;
use sum_rows::Step;

/// Each level of an object has a location, so a type of more levels passes the limit of locations.
const MOST_LEVELS: u32 = 257;

/// What stands behind a pointer cell.
#[derive(Clone, Copy, Debug, PartialEq, Eq)]
pub enum Behind {
    /// An object of its own.
    Object(Chosen),
    /// A stub.
    Stub,
}

/// The object of a type: a location for itself, and behind it its parts. Answers the location of the whole.
#[tactic(auto, using(crate::proofs::Steps::object_steps))]
pub fn object<'p>(
    laid: &mut Places<'p>,
    ground: &Ground<'p, '_, '_>,
    deep: u32,
    chosen: Chosen,
    root: Option<u32>,
    t: &'p CType,
    origin: Origin,
) -> Result<u32, Refused>
    ensures { Makes (spec.object deep (seen.ground_of ground.now) (seen.chosen_of chosen) root (type t.now) origin (seen.layout_of laid.old))
        result (seen.layout_of laid.new) }
{
    if deep == 0 {
        return Err(Refused::Limit(LimitKind::Locations));
    }
    let at = laid.add(ground, chosen, root, t, origin)?;
    let whole = Some(root_or(root, at));
    match ground.parts(t) {
        Parts::NoParts => Ok(at),
        Parts::Elements(n, element) => {
            for k in 0..n {
                object(
                    laid,
                    ground,
                    deep - 1,
                    chosen,
                    whole,
                    element,
                    Origin::Part(at, Step::Elem(k)),
                )?;
            }
            Ok(at)
        }
        Parts::Members(fields) => {
            for field in fields {
                if let Some(name) = field.name {
                    if ground.is_named(name) {
                        object(
                            laid,
                            ground,
                            deep - 1,
                            chosen,
                            whole,
                            &field.ctype,
                            Origin::Part(at, Step::Field(name)),
                        )?;
                    }
                }
            }
            Ok(at)
        }
    }
}

/// A whole object of a type.
pub fn whole<'p>(
    laid: &mut Places<'p>,
    ground: &Ground<'p, '_, '_>,
    chosen: Chosen,
    t: &'p CType,
    origin: Origin,
) -> Result<u32, Refused>
    ensures { Makes (spec.whole (seen.ground_of ground.now) (seen.chosen_of chosen) (type t.now) origin (seen.layout_of laid.old))
        result (seen.layout_of laid.new) }
{
    object(laid, ground, MOST_LEVELS, chosen, None, t, origin)
}

/// A whole object of a type, or of `void` where there is none.
#[tactic(auto, using(crate::proofs::Steps::void_whole))]
pub fn whole_or_void<'p>(
    laid: &mut Places<'p>,
    ground: &Ground<'p, '_, '_>,
    chosen: Chosen,
    t: Option<&'p CType>,
    origin: Origin,
) -> Result<u32, Refused>
    ensures { Makes (spec.whole (seen.ground_of ground.now) (seen.chosen_of chosen) (declared_object (type_if t.entry)) origin (seen.layout_of laid.old))
        result (seen.layout_of laid.new) }
{
    match t {
        None => laid.add_void(ground, chosen, origin),
        Some(t) => whole(laid, ground, chosen, t, origin),
    }
}

// What stands behind the pointer cell there, which points to that type.
fn lay_behind<'p>(
    laid: &mut Places<'p>,
    ground: &Ground<'p, '_, '_>,
    f: Behind,
    at: u32,
    t: &'p CType,
) -> Result<u32, Refused>
    ensures { Makes (spec.behind (seen.ground_of ground.now) (behind_of f) at (type t.now) (seen.layout_of laid.old))
        result (seen.layout_of laid.new) }
{
    match f {
        Behind::Object(chosen) => whole(laid, ground, chosen, t, Origin::Target(at)),
        Behind::Stub => laid.stub(Origin::Target(at)),
    }
}

// The same of a location, if it is a pointer cell.
fn follow_cell<'p>(
    laid: &mut Places<'p>,
    ground: &Ground<'p, '_, '_>,
    f: Behind,
    at: u32,
    here: Location<'p>,
) -> Result<(), Refused>
    ensures { Makes (spec.follow_cell (seen.ground_of ground.now) (behind_of f) at (seen.location_of here.entry) (seen.layout_of laid.old))
        result (seen.layout_of laid.new) }
{
    match here.kind {
        Kind::Stub | Kind::Void => Ok(()),
        Kind::Of(t) => match t {
            CType::Ptr(target) => {
                let to = lay_behind(laid, ground, f, at, target.get())?;
                laid.set_target(at, to);
                Ok(())
            }
            CType::Void
            | CType::Bool
            | CType::Int(_)
            | CType::Array(_, _)
            | CType::Struct(_)
            | CType::Union(_)
            | CType::Func(_)
            | CType::Opaque(_) => Ok(()),
        },
    }
}

fn follow_at<'p>(
    laid: &mut Places<'p>,
    ground: &Ground<'p, '_, '_>,
    f: Behind,
    at: u32,
) -> Result<(), Refused>
    ensures { Makes (spec.follow_at (seen.ground_of ground.now) (behind_of f) at (seen.layout_of laid.old))
        result (seen.layout_of laid.new) }
{
    let here = laid.location(at);
    follow_cell(laid, ground, f, at, here)
}

/// What stands behind each pointer cell of a range of locations.
#[tactic(auto, using(crate::proofs::Steps::follow_more, crate::proofs::Steps::follow_last))]
pub fn follow_range<'p>(
    laid: &mut Places<'p>,
    ground: &Ground<'p, '_, '_>,
    f: Behind,
    from: u32,
    to: u32,
) -> Result<(), Refused>
    ensures { Makes (spec.follow_range from to (seen.ground_of ground.now) (behind_of f) (seen.layout_of laid.old))
        result (seen.layout_of laid.new) }
{
    for at in from..to {
        follow_at(laid, ground, f, at)?;
    }
    Ok(())
}
