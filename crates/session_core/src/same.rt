// Equality that is told as such: the derived `==` tells of an equivalence.

ghost use Rattle.std.specs.Prelude.{◌≡◌, ◌↔◌, IsTrue};

use sc_base::{List, NameId, Pos, Skip};

/// Values of which it can be told whether they are equal.
pub trait Same {
    ghost use Rattle.std.specs.Prelude.{◌≡◌, ◌↔◌, IsTrue};

    /// Whether the two are equal.
    fn is_same(&self, other: &Self) -> bool
        ensures { IsTrue result ↔ (self.now ≡ other.now) };
}

/// Whether two lists have as many items, and equal ones at each place.
pub fn same_items<T: Same>(one: &[T], other: &[T]) -> bool
    ensures { IsTrue result ↔ (one.now ≡ other.now) }
{
    if one.len() != other.len() {
        return false;
    }
    for k in 0..one.len() {
        if !one[k].is_same(&other[k]) {
            return false;
        }
    }
    true
}

impl<T: Same> Same for List<T> {
    fn is_same(&self, other: &Self) -> bool {
        same_items(self.as_slice(), other.as_slice())
    }
}

impl Same for bool {
    fn is_same(&self, other: &Self) -> bool {
        *self == *other
    }
}

impl Same for u8 {
    fn is_same(&self, other: &Self) -> bool {
        *self == *other
    }
}

impl Same for u64 {
    fn is_same(&self, other: &Self) -> bool {
        *self == *other
    }
}

impl Same for NameId {
    fn is_same(&self, other: &Self) -> bool {
        self == other
    }
}

impl Same for Pos {
    fn is_same(&self, other: &Self) -> bool {
        self == other
    }
}

impl Same for Skip {
    fn is_same(&self, other: &Self) -> bool {
        self == other
    }
}
