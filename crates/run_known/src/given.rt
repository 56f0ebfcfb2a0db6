// What the callee gives back, by the choice.

ghost use Rattle.std.specs.Prelude.{◌≡◌};
ghost use Rattle.sum_rows.specs.declared.row.Gives.TheVariants as gives;
ghost use Rattle.sc_world.specs.World.{target_or_null};
ghost use Rattle.sc_world.specs.Known as spec;
ghost use Rattle.sc_world.specs.View.{type};
ghost use Rattle.layout_base.specs.Seen as laid;
ghost use Rattle.run_world.specs.Seen as world;
ghost use Rattle.run_known.specs.Seen as seen;

use layout_base::Occurrence;
use run_entry::{integer_bits, number_at};
use run_world::{Here, Value};
use sc_gather::{is_integer, is_pointer};
use sc_tree::ctype::CType;
use sum_rows::{Gives, State};

/// What a known call gives.
#[derive(Clone, Copy, Debug, PartialEq, Eq)]
pub struct Given {
    pub value: Value,
    pub result: Gives,
    /// What a pointer is.
    pub kind: State,
    /// The object of a pointer that is not null.
    pub object: Option<u32>,
}

fn number_gives(n: u64) -> Gives
    ensures { result ≡ spec.number_gives n }
{
    if n == 0 { Gives::Zero } else { Gives::NotZero }
}

fn given_int(width: u32, n: u64) -> Given
    ensures { seen.given result ≡ spec.given_int width n }
{
    Given {
        value: Value::Number(width, n),
        result: number_gives(n),
        kind: State::Nil,
        object: None,
    }
}

// A pointer that is not null.
fn to_object(kind: State, object: Option<u32>) -> Given
    ensures { seen.given result ≡ record {
      value = target_or_null object;
      result = gives.NotZero;
      kind = kind;
      object = object;
    } }
{
    Given {
        value: Value::Pointer(object),
        result: Gives::NotZero,
        kind,
        object,
    }
}

#[tactic(auto, using(crate::proofs::Numbers::given_pointer_many))]
fn given_pointer(number: u64, object: Option<u32>) -> Option<Given>
    ensures { seen.given_if result ≡ spec.given_pointer number object }
{
    match number {
        0 => Some(Given {
            value: Value::Pointer(None),
            result: Gives::Zero,
            kind: State::Null,
            object: None,
        }),
        1 => Some(to_object(State::Fresh, object)),
        2 => Some(to_object(State::Other, object)),
        _ => None,
    }
}

fn given_nothing() -> Given
    ensures { seen.given result ≡ spec.given_nothing }
{
    Given {
        value: Value::Nothing,
        result: Gives::Nothing,
        kind: State::Nil,
        object: None,
    }
}

/// What the choice gives as the result of that type; none where it names nothing.
#[tactic(auto, unfolding(run_world::specs::Seen::env))]
pub fn given_by(here: &Here, occurrence: Occurrence, t: &CType) -> Option<Given>
    ensures { seen.given_if result ≡ spec.given_by (world.env here.now) (laid.occurrence_of occurrence) (type t.now) }
{
    if is_integer(t) {
        let bits = integer_bits(here, t);
        Some(given_int(bits, number_at(here.choice, occurrence.bit, bits)))
    } else if is_pointer(t) {
        given_pointer(number_at(here.choice, occurrence.bit, 2), occurrence.object)
    } else {
        Some(given_nothing())
    }
}
