// What a location, or a call, is looked up by.

ghost use Rattle.std.specs.Prelude.{◌≡◌};
ghost use Rattle.layout_lookup.specs.Keys as spec;

use sc_base::Pos;
use sc_world::Origin;
use sum_rows::Step;

/// A place of the text: the file, the line and the column.
#[derive(Clone, Copy, Debug, PartialEq, Eq, Hash)]
pub struct Place {
    pub file: u32,
    pub line: u32,
    pub col: u32,
}

/// Where a location comes from, as a key.
#[derive(Clone, Copy, Debug, PartialEq, Eq, Hash)]
pub enum Key {
    Param(u32),
    Global(u32),
    Local(u32),
    Literal(Place),
    Function(u32),
    Target(u32),
    Call(u32),
    /// The target of a pointer, as a part.
    Deref(u32),
    Field(u32, u32),
    Elem(u32, u32),
}

/// The key of a place.
pub fn place_of(pos: Pos) -> Place
    ensures { result ≡ spec.place_of pos }
{
    Place {
        file: pos.file,
        line: pos.line,
        col: pos.col,
    }
}

/// The key of the part to which a step leads.
pub fn part_key(up: u32, step: Step) -> Key
    ensures key { result ≡ spec.part_key up step }
    ensures few { spec.HasFew result }
{
    match step {
        Step::Deref => Key::Deref(up),
        Step::Field(name) => Key::Field(up, name.at),
        Step::Elem(k) => Key::Elem(up, k),
    }
}

/// The key of an origin.
pub fn key_of(origin: Origin) -> Key
    ensures key { result ≡ spec.key_of origin }
    ensures few { spec.HasFew result }
{
    match origin {
        Origin::Param(n) => Key::Param(n),
        Origin::Global(n) => Key::Global(n),
        Origin::Local(n) => Key::Local(n),
        Origin::Literal(pos) => Key::Literal(place_of(pos)),
        Origin::Function(name) => Key::Function(name.at),
        Origin::Target(at) => Key::Target(at),
        Origin::Call(k) => Key::Call(k),
        Origin::Part(up, step) => part_key(up, step),
    }
}
