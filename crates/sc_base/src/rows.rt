// The list in which the results of callees are handed to the analysis of their caller.

use std::alloc::Global;
use std::sync::Arc;

/// Shared results, one for each kept callee of a function, in the callees' order.
#[derive(Drop)]
pub struct RowList<O> {
    pub list: Vec<Arc<O, Global>>,
}
