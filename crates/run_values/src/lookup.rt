// The locations of parts, and of what names name.

ghost use Rattle.std.specs.Prelude.{◌≡◌, ◌<◌, ◌^◌, length};
ghost use Rattle.sc_world.specs.Layout as spec;
ghost use Rattle.sum_rows.specs.declared.path.Step.TheVariants as step;
ghost use Rattle.run_world.specs.Seen as seen;

use run_world::Here;
use sc_base::Pos;
use sc_world::Origin;
use sum_rows::Step;

fn same_step(a: Step, b: Step) -> bool
    ensures { result ≡ spec.same_step a b }
{
    match (a, b) {
        (Step::Deref, Step::Deref) => true,
        (Step::Field(m), Step::Field(n)) => m.at == n.at,
        (Step::Elem(m), Step::Elem(n)) => m == n,
        (Step::Deref, Step::Field(_) | Step::Elem(_)) => false,
        (Step::Field(_), Step::Deref | Step::Elem(_)) => false,
        (Step::Elem(_), Step::Deref | Step::Field(_)) => false,
    }
}

fn is_part_of(at: u32, step: Step, origin: Origin) -> bool
    ensures { result ≡ spec.is_part_of at step origin }
{
    match origin {
        Origin::Part(up, other) => at == up && same_step(step, other),
        Origin::Param(_)
        | Origin::Global(_)
        | Origin::Local(_)
        | Origin::Literal(_)
        | Origin::Function(_)
        | Origin::Target(_)
        | Origin::Call(_) => false,
    }
}

// Whether it is the origin of the element of a location with that number.
fn is_element_of(at: u32, number: u64, origin: Origin) -> bool
    ensures { result ≡ spec.is_part_of at (step.Elem number) origin }
{
    match origin {
        Origin::Part(up, other) => at == up && is_element(number, other),
        Origin::Param(_)
        | Origin::Global(_)
        | Origin::Local(_)
        | Origin::Literal(_)
        | Origin::Function(_)
        | Origin::Target(_)
        | Origin::Call(_) => false,
    }
}

fn is_element(number: u64, other: Step) -> bool
    ensures { result ≡ spec.same_step (step.Elem number) other }
{
    match other {
        Step::Elem(n) => number == u64::from(n),
        Step::Deref | Step::Field(_) => false,
    }
}

fn same_pos(p: Pos, q: Pos) -> bool
    ensures { result ≡ spec.same_pos p q }
{
    p.file == q.file && (p.line == q.line && p.col == q.col)
}

fn same_origin(a: Origin, b: Origin) -> bool
    ensures { result ≡ spec.same_origin a b }
{
    match (a, b) {
        (Origin::Param(m), Origin::Param(n)) => m == n,
        (Origin::Global(m), Origin::Global(n)) => m == n,
        (Origin::Local(m), Origin::Local(n)) => m == n,
        (Origin::Literal(p), Origin::Literal(q)) => same_pos(p, q),
        (Origin::Function(m), Origin::Function(n)) => m.at == n.at,
        (Origin::Target(m), Origin::Target(n)) => m == n,
        (Origin::Call(m), Origin::Call(n)) => m == n,
        (Origin::Part(m, s), Origin::Part(n, t)) => m == n && same_step(s, t),
        _ => false,
    }
}

/// The part of a location to which a step leads.
#[tactic(auto, unfolding(run_world::specs::Seen::env, layout_base::specs::Seen::layout_of))]
pub fn part(here: &Here, at: u32, step: Step) -> Option<u32>
    requires few { length here.now.places.now.locations.items < 2 ^ 32 }
    ensures { result ≡ spec.part (seen.env here.now).layout at step }
{
    let locations = here.places.locations.as_slice();
    for k in 0..locations.len() {
        if is_part_of(at, step, locations[k].origin) {
            return Some(k as u32);
        }
    }
    None
}

/// The element of a location with that number.
#[tactic(auto, unfolding(run_world::specs::Seen::env, layout_base::specs::Seen::layout_of))]
pub fn element_at(here: &Here, at: u32, number: u64) -> Option<u32>
    requires few { length here.now.places.now.locations.items < 2 ^ 32 }
    ensures { result ≡ spec.part (seen.env here.now).layout at (step.Elem number) }
{
    let locations = here.places.locations.as_slice();
    for k in 0..locations.len() {
        if is_element_of(at, number, locations[k].origin) {
            return Some(k as u32);
        }
    }
    None
}

/// The location that a parameter, a global, a local, a string or a function is; the first one where there is none.
#[tactic(auto, unfolding(run_world::specs::Seen::env, layout_base::specs::Seen::layout_of))]
pub fn location_of(here: &Here, origin: Origin) -> u32
    requires few { length here.now.places.now.locations.items < 2 ^ 32 }
    ensures { result ≡ spec.location_of (seen.env here.now).layout origin }
{
    let locations = here.places.locations.as_slice();
    for k in 0..locations.len() {
        if same_origin(origin, locations[k].origin) {
            return k as u32;
        }
    }
    0
}
