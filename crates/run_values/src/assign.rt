// What assignments and counting do (C11 6.5.2.4, 6.5.3.1, 6.5.16).

ghost use Rattle.std.specs.Prelude.{◌≡◌, Ok};
ghost use Rattle.sc_world.specs.Tree as tree;
ghost use Rattle.sc_world.specs.Eval as spec;
ghost use Rattle.sc_world.specs.View.{type};
ghost use Rattle.sc_world.specs.World.{goes_on};
ghost use Rattle.run_world.specs.Seen as seen;
ghost use Rattle.run_values.specs.Seen.{want_of};
ghost use Rattle.run_values.specs.Steps.{pre_counted, post_counted};

use crate::conversions::convert;
use crate::operators::operated;
use crate::want::{Want, wanted};
use run_entry::integer_bits;
use run_world::{Ended, Here, Value, World};
use sc_tree::ctype::{CType, IntKind};
use sc_tree::op::{BinaryOp, Step};
use sc_types::promoted;

// The operator by which `++` or `--` counts.
fn one_step(step: Step) -> BinaryOp
    ensures { result ≡ spec.one_step step }
{
    match step {
        Step::Up => BinaryOp::Add,
        Step::Down => BinaryOp::Sub,
    }
}

// The type in which `++` counts: the promoted one.
fn promoted_type(t: &CType) -> CType
    ensures { type result ≡ tree.promoted_type (type t.now) }
{
    match t {
        CType::Int(kind) => CType::Int(promoted(*kind)),
        CType::Void
        | CType::Bool
        | CType::Ptr(_)
        | CType::Array(_, _)
        | CType::Struct(_)
        | CType::Union(_)
        | CType::Func(_)
        | CType::Opaque(_) => CType::Int(IntKind::Int),
    }
}

/// What `++` or `--` makes of a value of that type. The world stays.
pub fn counted(
    here: &Here,
    world: &World,
    step: Step,
    t: &CType,
    old: Value,
) -> Result<Value, Ended>
    ensures { seen.Does seen.cell (spec.counted (seen.env here.now) step (type t.now) (seen.cell old) (seen.world world.now))
        result (seen.world world.now) }
{
    let works = promoted_type(t);
    let left = convert(here, t, &works, old);
    let one = Value::Number(integer_bits(here, &works), 1);
    let counted = operated(here, world, one_step(step), &works, &works, left, one)?;
    Ok(convert(here, &works, t, counted))
}

/// What `+=` and its kin make of the value on the left and that on the right, where the operator works in that type.
/// The world stays.
pub fn combined(
    here: &Here,
    world: &World,
    op: BinaryOp,
    works: &CType,
    t: &CType,
    old: Value,
    value: Value,
) -> Result<Value, Ended>
    ensures { seen.Does seen.cell (spec.combined (seen.env here.now) op (type works.now) (type t.now) (seen.cell old) (seen.cell value)
        (seen.world world.now)) result (seen.world world.now) }
{
    let left = convert(here, t, works, old);
    let made = operated(here, world, op, works, works, left, value)?;
    Ok(convert(here, works, t, made))
}

/// The value is stored at that place; what is wanted of the place then.
pub fn assign_value(
    here: &Here,
    world: &mut World,
    want: Want,
    t: &CType,
    place: Value,
    value: Value,
) -> Value
    ensures assigned { spec.assign_value (seen.env here.now) (want_of want) (type t.now) (seen.cell place) (seen.cell value) (seen.world world.old)
        ≡ (Ok (seen.cell result), seen.world world.new) }
    ensures trace { world.new.trace ≡ world.old.trace }
{
    world.store(place.place() as usize, value);
    wanted(world, want, t, place.place())
}

/// `++ a` and `-- a`: the new value.
pub fn counted_before(
    here: &Here,
    world: &mut World,
    step: Step,
    t: &CType,
    place: Value,
) -> Result<Value, Ended>
    ensures counted { seen.Does seen.cell (pre_counted (seen.env here.now) step (type t.now) (seen.cell place) (seen.world world.old))
        result (seen.world world.new) }
    ensures trace { world.new.trace ≡ world.old.trace }
{
    let at = place.place() as usize;
    let old = world.load(at);
    let new = counted(here, world, step, t, old)?;
    world.store(at, new);
    Ok(new)
}

/// `a ++` and `a --`: the old value.
pub fn counted_after(
    here: &Here,
    world: &mut World,
    step: Step,
    t: &CType,
    place: Value,
) -> Result<Value, Ended>
    ensures counted { seen.Does seen.cell (post_counted (seen.env here.now) step (type t.now) (seen.cell place) (seen.world world.old))
        result (seen.world world.new) }
    ensures trace { world.new.trace ≡ world.old.trace }
{
    let at = place.place() as usize;
    let old = world.load(at);
    let new = counted(here, world, step, t, old)?;
    world.store(at, new);
    Ok(old)
}

/// `a += b` and its kin, once both sides are evaluated; what is wanted of the left side then.
pub fn assign_combined(
    here: &Here,
    world: &mut World,
    want: Want,
    op: BinaryOp,
    works: &CType,
    t: &CType,
    place: Value,
    old: Value,
    value: Value,
) -> Result<Value, Ended>
    ensures assigned { seen.Does seen.cell (goes_on (spec.combined (seen.env here.now) op (type works.now) (type t.now) (seen.cell old) (seen.cell value) (seen.world world.old))
        (λ r. spec.assign_value (seen.env here.now) (want_of want) (type t.now) (seen.cell place) r)) result (seen.world world.new) }
    ensures trace { world.new.trace ≡ world.old.trace }
{
    let made = combined(here, world, op, works, t, old, value)?;
    Ok(assign_value(here, world, want, t, place, made))
}
