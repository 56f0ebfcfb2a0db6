// A literal: a variable, or its negation.

ghost use Rattle.std.specs.Prelude.{◌≡◌};
ghost use Rattle.sat_base.specs.Logic.{negation};

/// A variable, or its negation where `neg` holds. Variables are numbered from 0.
#[derive(Clone, Copy, Debug, PartialEq, Eq)]
pub struct Lit {
    pub var: usize,
    pub neg: bool,
}

impl Lit {
    /// The literal that is true exactly where this one is false.
    pub fn negated(&self) -> Lit
        ensures { result ≡ negation self.now }
    {
        Lit {
            var: self.var,
            neg: !self.neg,
        }
    }
}
