// Shapes of functions that are generated.

ghost use Rattle.std.specs.Prelude.{◌≡◌, ◌+◌};
ghost use Rattle.bench_programs.specs.Programs as spec;

/// The shape of a function that is generated.
#[derive(Clone, Copy, Debug, PartialEq, Eq)]
pub enum Shape {
    /// It locks and unlocks.
    Paired,
    /// It may lock twice.
    Twice,
    /// It tries to lock, and says whether it did.
    Tries,
    /// It loses an object, if a number is 0.
    Loses,
    /// It locks.
    Locks,
    /// It calls the function before it, and unlocks.
    Unlocks,
    /// It gives a new object.
    Makes,
    /// It calls the function before it, and frees what that gives, if a number is not 0.
    Frees,
}

impl Shape {
    /// The shape of a function in its turn.
    fn of_turn(turn: u64) -> Shape
        ensures { result ≡ spec.shape_of_turn turn }
    {
        match turn % 8 {
            0 => Shape::Paired,
            1 => Shape::Twice,
            2 => Shape::Tries,
            3 => Shape::Loses,
            4 => Shape::Locks,
            5 => Shape::Unlocks,
            6 => Shape::Makes,
            _ => Shape::Frees,
        }
    }

    /// The shape of the first function in its place: no function stands before that one.
    fn without_callee(self) -> Shape
        ensures { result ≡ spec.without_callee self }
    {
        match self {
            Shape::Unlocks => Shape::Locks,
            Shape::Frees => Shape::Loses,
            Shape::Paired
            | Shape::Twice
            | Shape::Tries
            | Shape::Loses
            | Shape::Locks
            | Shape::Makes => self,
        }
    }

    /// The shape of the function with that number, where the shapes begin at `seed`.
    pub fn of(number: u32, seed: u32) -> Shape
        ensures { result ≡ spec.shape_of number seed }
    {
        let shape = Shape::of_turn(number as u64 + seed as u64);
        if number == 0 {
            shape.without_callee()
        } else {
            shape
        }
    }
}
