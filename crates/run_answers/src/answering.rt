// What a run answers.

ghost use Rattle.std.specs.Prelude.{◌≡◌, IfOk};
ghost use Rattle.sc_world.specs.Shows as spec;
ghost use Rattle.location_texts.specs.Seen as spelled;
ghost use Rattle.run_questions.specs.Seen.{query};
ghost use Rattle.run_answers.specs.Seen as seen;

use crate::ended::{ends_inner, exits, is_rowed};
use crate::entry::param_object;
use crate::objects::loses;
use crate::over::{Over, has};
use crate::rows::{has_changed, has_exit_row, has_lock_row, has_out_row, has_param_row};
use location_texts::{Texts, text_at};
use run_questions::Query;
use run_store::Flag;
use sc_base::{OutOfMemory, Pos};
use std::alloc::Global;

// Whether the run ends in an error at that location, which the caller does not know.
fn ends_at(over: &Over, at: u32) -> bool
    ensures { result ≡ spec.is_it at (spec.ends_inner (seen.over over.now).ended) }
{
    match ends_inner(over) {
        None => false,
        Some(n) => at == n,
    }
}

// Whether it ends in such an error at a location of that text.
fn ends_at_text(alloc: Global, texts: &Texts, over: &Over, text: &[u8]) -> Result<bool, OutOfMemory>
    ensures { IfOk result (λ b. b ≡ spec.text_is (spelled.texts texts.now) text.now (spec.ends_inner (seen.over over.now).ended)) }
{
    match ends_inner(over) {
        None => Ok(false),
        Some(at) => {
            let found = text_at(alloc, texts, at)?;
            Ok(found.as_slice() == text)
        }
    }
}

// Whether the run comes to its end, and an object of a call at the place is lost.
fn leaks(alloc: Global, over: &Over, pos: Pos) -> Result<bool, OutOfMemory>
    requires { seen.HasFew over.now }
    ensures { IfOk result (λ b. b ≡ seen.leaks (seen.over over.now) pos) }
{
    if !exits(over) {
        return Ok(false);
    }
    loses(alloc, over, pos)
}

/// Whether a run that is over answers yes. No memory has room for 2^32 locations.
#[tactic(auto, unfolding(crate::specs::Seen::given, crate::specs::Seen::is_given, crate::specs::Seen::param_object, crate::specs::Seen::state_before, crate::specs::Seen::state_now, crate::specs::Seen::is_met, crate::specs::Seen::result_kind, crate::specs::Seen::fate, crate::specs::Seen::out_fate, crate::specs::Seen::loses))]
pub fn says(alloc: Global, texts: &Texts, over: &Over, asked: Query) -> Result<bool, OutOfMemory>
    ensures { IfOk result (λ b. b ≡ spec.says (spelled.texts texts.now) (seen.over over.now) (query asked.entry)) }
{
    if over.here.places.locations.len() > u32::MAX as usize {
        return Err(OutOfMemory);
    }
    match asked {
        Query::Exits(row) => has_exit_row(alloc, over, row),
        Query::Touches(at) => Ok(is_rowed(over) && has(over, Flag::Touched, at)),
        Query::Locks(at, row) => has_lock_row(over, at, row),
        Query::Changes(n) => has_changed(alloc, over, n),
        Query::Params(n, row) => has_param_row(alloc, over, n, row),
        Query::Sets(n) => Ok(exits(over) && has(over, Flag::Written, param_object(over, n))),
        Query::Outs(n, row) => has_out_row(alloc, over, n, row),
        Query::Writes(at) => Ok(exits(over) && has(over, Flag::Written, at)),
        Query::EndsAt(at) => Ok(ends_at(over, at)),
        Query::Errs(text) => ends_at_text(alloc, texts, over, text),
        Query::Leaks(pos) => leaks(alloc, over, pos),
    }
}
