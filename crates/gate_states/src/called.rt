// What a known call has to do with.

use bit_net::Gate;
use gate_paths::{Found, Written};
use gl_store::Val;
use layout_base::Occurrence;
use sum_rows::Summary;

/// What a known call has to do with, as gates.
#[derive(Clone, Copy)]
pub struct Called<'p, 'a> {
    /// The summary of the callee.
    pub summary: &'p Summary,
    pub occurrence: Occurrence,
    pub args: &'a [Val],
    /// The entry bits.
    pub given: &'a [Gate],
    /// The items of locations.
    pub locks: &'a [Found<'p>],
    /// The pointers that parameters point to.
    pub outs: &'a [Found<'p>],
    /// The other written cells.
    pub writes: &'a [Written],
}
