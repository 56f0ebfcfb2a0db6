// What the JSON of a choice reads.

use json_places::Check;
use layout_base::Ground;
use location_texts::Texts;

/// What the JSON of a choice reads.
#[derive(Clone, Copy)]
pub(crate) struct Speech<'a, 'p, 'm> {
    /// The program, and the line marks of its files.
    pub(crate) check: &'a Check<'a>,
    /// The function with its kept callees.
    pub(crate) ground: Ground<'p, 'm, 'a>,
    /// Its layout, and the names of its locations.
    pub(crate) names: &'a Texts<'p, 'a>,
    /// Of each call of the text the number of its first occurrence.
    pub(crate) firsts: &'a [u32],
}
