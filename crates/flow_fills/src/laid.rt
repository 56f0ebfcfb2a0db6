//! What nodes read and never change.

use layout_lookup::Lookup;
use run_world::Here;

/// What a run reads, and the look-ups in its layout.
#[derive(Clone, Copy)]
pub struct Laid<'a, 'p, 'm, 'f> {
    pub here: &'a Here<'p, 'm, 'f>,
    pub layout: &'a Lookup<'p, 'f>,
}
