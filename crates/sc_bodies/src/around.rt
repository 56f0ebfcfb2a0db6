// What stands round a statement.

ghost use Rattle.std.specs.Prelude.{◌≡◌, None, false};
ghost use Rattle.std.specs.Option.{option_copied};
ghost use Rattle.sc_bodies.specs.Around.{inside_of};
ghost use Rattle.sc_bodies.specs.Bodies as spec;

use sc_tree::ctype::CType;
use sc_typed::TExpr;

/// What stands round a statement. The type of a `switch` lives as long as the walk over its items, the result of the
/// function longer.
#[derive(Clone, Copy)]
pub struct Around<'r, 's> {
    /// The result of the function, if it is known.
    pub result: Option<&'r CType>,
    /// A loop, to which `continue` belongs.
    pub repeats: bool,
    /// A loop or a `switch`, which `break` leaves.
    pub leaves: bool,
    /// The type of the `switch`, if it is known.
    pub switch: Option<&'s CType>,
}

impl<'r> Around<'r, 'r> {
    /// What stands round the body of a function with that result.
    #[tactic(auto, unfolding(crate::specs::Around::inside_of))]
    pub fn function(result_type: Option<&'r CType>) -> Around<'r, 'r>
        ensures { inside_of result ≡
            record { result = option_copied result_type.entry; loop = false; leaves = false; switch = None } }
    {
        Around {
            result: result_type,
            repeats: false,
            leaves: false,
            switch: None,
        }
    }
}

impl<'r, 's> Around<'r, 's> {
    /// What stands round the statement of a loop that stands there.
    #[tactic(auto, unfolding(crate::specs::Around::inside_of))]
    pub fn in_loop(&self) -> Around<'r, 's>
        ensures { inside_of result ≡ spec.in_loop (inside_of self.now) }
    {
        Around {
            result: self.result,
            repeats: true,
            leaves: true,
            switch: self.switch,
        }
    }

    /// What stands round the items of a `switch` that stands there, over that number; `None` where it has a fault.
    #[tactic(auto, unfolding(crate::specs::Around::inside_of))]
    pub fn in_switch<'n>(&self, number: &'n Option<TExpr>) -> Around<'r, 'n>
        ensures { inside_of result ≡ spec.in_switch number.entry.now (inside_of self.now) }
    {
        match number {
            None => Around {
                result: self.result,
                repeats: self.repeats,
                leaves: true,
                switch: None,
            },
            Some(e) => Around {
                result: self.result,
                repeats: self.repeats,
                leaves: true,
                switch: Some(&e.ctype),
            },
        }
    }
}
