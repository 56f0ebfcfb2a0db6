// All that a known call has to do with.

use layout_base::Occurrence;
use run_paths::{Found, Written};
use run_world::Value;
use sum_rows::Summary;

/// All that a known call has to do with.
#[derive(Clone, Copy)]
pub struct Acting<'p, 'a> {
    pub summary: &'p Summary,
    pub occurrence: Occurrence,
    pub arguments: &'a [Value],
    /// The entry bits.
    pub given: u8,
    /// The locations that are not missing.
    pub locks: &'a [Found<'p>],
    /// The pointers that parameters point to, which are not missing.
    pub outs: &'a [Found<'p>],
    /// The other written cells that are not missing.
    pub writes: &'a [Written],
    /// The first spot of the parameters.
    pub params: usize,
}
