// All that a search reads and changes, in one struct: the trail and the clauses, of which contracts
// speak, and beside them what steers the search.

use crate::resolvent::Resolvent;
use sat_clauses::{ClauseId, Clauses, Watches};
use sat_trail::{Activity, Trail};
use std::alloc::Global;

/// The state of a search. It stays from question to question.
#[derive(Debug, Drop)]
pub struct Search {
    pub alloc: Global,
    pub trail: Trail,
    pub clauses: Clauses,
    pub watches: Watches,
    pub activity: Activity,
    pub resolvent: Resolvent,
    /// The clause of the last conflict, where it had one.
    pub conflict: Option<ClauseId>,
}
