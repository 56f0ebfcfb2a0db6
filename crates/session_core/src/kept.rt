// What is kept of a function.

use sc_base::List;
use std::sync::Arc;
use sum_rows::Verdict;

/// All that the definitions read of a function but the verdicts of its callees, as a list of numbers: two functions
/// whose matters are equal are read alike.
#[derive(Debug, Drop)]
pub struct Matter {
    pub words: List<u64>,
}

/// What is kept of a function: its matter, the verdicts of its kept callees in their order, and the verdict that was made
/// of them.
#[derive(Drop)]
pub struct Kept {
    pub matter: Matter,
    pub used: Vec<Arc<Verdict>>,
    pub verdict: Arc<Verdict>,
}
