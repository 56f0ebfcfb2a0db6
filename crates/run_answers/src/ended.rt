// How a run ended.

ghost use Rattle.std.specs.Prelude.{◌≡◌};
ghost use Rattle.sc_world.specs.Shows as spec;
ghost use Rattle.run_world.specs.Seen as world;
ghost use Rattle.run_answers.specs.Seen as seen;

use crate::over::{Over, object_of};
use run_world::{Ended, Value};

/// Whether the function gave something: it came to its end.
#[tactic(auto, unfolding(crate::specs::Seen::over))]
pub fn exits(over: &Over) -> bool
    ensures { result ≡ spec.exits (seen.over over.now) }
{
    match over.ended {
        Ok(_) => true,
        Err(_) => false,
    }
}

/// Whether it ended in an error at a location that the caller knows.
#[tactic(auto, unfolding(crate::specs::Seen::over))]
pub fn errs_at(over: &Over, at: u32) -> bool
    ensures { result ≡ spec.errs_at (seen.over over.now).ended at }
{
    match over.ended {
        Err(Ended::Error(n)) => n == at,
        Err(Ended::Inner(_)) | Err(Ended::Aside(_)) | Ok(_) => false,
    }
}

/// Whether it came to its end, or to an error that the caller knows.
#[tactic(auto, unfolding(crate::specs::Seen::over))]
pub fn is_rowed(over: &Over) -> bool
    ensures { result ≡ spec.is_rowed (seen.over over.now).ended }
{
    match over.ended {
        Ok(_) | Err(Ended::Error(_)) => true,
        Err(Ended::Inner(_)) | Err(Ended::Aside(_)) => false,
    }
}

/// The location of an error that the caller does not know.
#[tactic(auto, unfolding(crate::specs::Seen::over))]
pub fn ends_inner(over: &Over) -> Option<u32>
    ensures { result ≡ spec.ends_inner (seen.over over.now).ended }
{
    match over.ended {
        Err(Ended::Inner(at)) => Some(at),
        Err(Ended::Error(_)) | Err(Ended::Aside(_)) | Ok(_) => None,
    }
}

/// What the function gave; nothing where it did not come to its end.
#[tactic(auto, unfolding(crate::specs::Seen::over))]
pub fn result_value(over: &Over) -> Value
    ensures { world.cell result ≡ spec.result_cell (seen.over over.now).ended }
{
    match over.ended {
        Ok(value) => value,
        Err(_) => Value::Nothing,
    }
}

/// The object to which the result leads, where it is a pointer.
pub fn result_object(over: &Over) -> Option<u32>
    ensures { result ≡ spec.result_object (seen.over over.now) }
{
    object_of(over, result_value(over))
}
