//! A call once its place in the text is found.

use layout_base::Occurrence;
use sc_gather::Effect;
use sc_tree::ctype::CType;

/// A call: what it does, in which turn of the loops round it, and the type of what it gives.
#[derive(Clone, Copy)]
pub struct Acting<'t> {
    pub effect: Effect,
    pub occurrence: Occurrence,
    pub t: &'t CType,
}
