// Conversions of a value (C11 6.3).

ghost use Rattle.std.specs.Prelude.{◌≡◌};
ghost use Rattle.sc_world.specs.Tree as tree;
ghost use Rattle.sc_world.specs.Eval as spec;
ghost use Rattle.sc_world.specs.View.{type};
ghost use Rattle.run_world.specs.Seen as seen;

use run_entry::integer_bits;
use run_world::{Here, Value};
use sc_gather::{is_integer, is_pointer};
use sc_tree::ctype::CType;
use sc_types::{is_signed, resized, truth};

/// Whether it is an array.
pub fn is_array(t: &CType) -> bool
    ensures { result ≡ tree.is_array (type t.now) }
{
    matches!(t, CType::Array(_, _))
}

/// Whether it is `_Bool`.
fn is_bool(t: &CType) -> bool
    ensures { result ≡ tree.is_bool (type t.now) }
{
    matches!(t, CType::Bool)
}

/// Whether values of that type have a sign.
pub fn has_sign(t: &CType) -> bool
    ensures { result ≡ tree.has_sign (type t.now) }
{
    match t {
        CType::Int(kind) => is_signed(*kind),
        CType::Void
        | CType::Bool
        | CType::Ptr(_)
        | CType::Array(_, _)
        | CType::Struct(_)
        | CType::Union(_)
        | CType::Func(_)
        | CType::Opaque(_) => false,
    }
}

// A number of one type in another type; a number that becomes a pointer is null.
fn number_to(here: &Here, from: &CType, to: &CType, n: u64) -> Value
    ensures { seen.cell result ≡ spec.number_to (seen.env here.now) (type from.now) (type to.now) n }
{
    if is_bool(to) {
        Value::Number(1, truth(n != 0))
    } else if is_integer(to) {
        let bits = integer_bits(here, to);
        Value::Number(
            bits,
            resized(has_sign(from), integer_bits(here, from), bits, n),
        )
    } else if is_pointer(to) {
        Value::Pointer(None)
    } else {
        Value::Nothing
    }
}

// A pointer in another type: as a `_Bool` whether it is not null.
fn pointer_as(here: &Here, to: &CType, at: Option<u32>) -> Value
    ensures { seen.cell result ≡ spec.pointer_as (seen.env here.now) (type to.now) (seen.target at) }
{
    if is_bool(to) {
        Value::Number(1, truth(at.is_some()))
    } else if is_pointer(to) {
        Value::Pointer(at)
    } else {
        Value::Nothing
    }
}

/// A value of one type in another type.
pub fn convert(here: &Here, from: &CType, to: &CType, value: Value) -> Value
    ensures { seen.cell result ≡ spec.convert (seen.env here.now) (type from.now) (type to.now) (seen.cell value) }
{
    match value {
        Value::Number(_, n) => number_to(here, from, to, n),
        Value::Pointer(at) => pointer_as(here, to, at),
        Value::Nothing => Value::Nothing,
    }
}
