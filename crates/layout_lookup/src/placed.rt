// A call that is found.

use sc_gather::Site;

/// A call of the text, and the number of its first occurrence. No site stands for a call without effect.
#[derive(Clone, Copy)]
pub struct Placed<'p> {
    pub site: Option<Site<'p>>,
    pub first: u32,
}
