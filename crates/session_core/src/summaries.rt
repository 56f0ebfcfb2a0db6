// Equal paths, rows and summaries.

ghost use Rattle.std.specs.Prelude.{◌≡◌, ◌↔◌, IsTrue};

use crate::same::Same;
use sum_rows::{Gives, Item, ItemRows, Path, Root, Row, State, Step, Summary, Write};

impl Same for Root {
    fn is_same(&self, other: &Self) -> bool {
        self == other
    }
}

impl Same for Step {
    fn is_same(&self, other: &Self) -> bool {
        self == other
    }
}

impl Same for Path {
    fn is_same(&self, other: &Self) -> bool {
        self.root.is_same(&other.root) && self.steps.is_same(&other.steps)
    }
}

impl Same for State {
    fn is_same(&self, other: &Self) -> bool {
        self == other
    }
}

impl Same for Gives {
    fn is_same(&self, other: &Self) -> bool {
        self == other
    }
}

impl Same for Row {
    fn is_same(&self, other: &Self) -> bool {
        self.given == other.given
            && self.before.is_same(&other.before)
            && self.result.is_same(&other.result)
            && self.after.is_same(&other.after)
    }
}

impl Same for Item {
    fn is_same(&self, other: &Self) -> bool {
        match (self, other) {
            (Item::Exit, Item::Exit) => true,
            (Item::Lock(one), Item::Lock(two)) => one.is_same(two),
            (Item::Param(one), Item::Param(two)) => *one == *two,
            (Item::Out(one), Item::Out(two)) => *one == *two,
            (Item::Exit, Item::Lock(_) | Item::Param(_) | Item::Out(_)) => false,
            (Item::Lock(_), Item::Exit | Item::Param(_) | Item::Out(_)) => false,
            (Item::Param(_), Item::Exit | Item::Lock(_) | Item::Out(_)) => false,
            (Item::Out(_), Item::Exit | Item::Lock(_) | Item::Param(_)) => false,
        }
    }
}

impl Same for ItemRows {
    fn is_same(&self, other: &Self) -> bool {
        self.item.is_same(&other.item) && self.rows.is_same(&other.rows)
    }
}

impl Same for Write {
    fn is_same(&self, other: &Self) -> bool {
        self.path.is_same(&other.path) && self.width == other.width
    }
}

impl Same for Summary {
    fn is_same(&self, other: &Self) -> bool {
        self.bits == other.bits
            && self.items.is_same(&other.items)
            && self.writes.is_same(&other.writes)
    }
}
