//! Literals of a net: a gate or its opposite. They are what folding compares, so that it sees through `not`.
ghost use Rattle.std.specs.Prelude.{◌≡◌, ℕ, ◌<◌, Bool, true, not, ◌&&◌, length, IsTrue};
ghost use Rattle.bit_net.specs.Runs.{Always};
ghost use Rattle.bit_net.specs.Literals.{holds, leads};

use crate::nodes::{Gate, Net, Node};

/// A gate, or its opposite.
#[derive(Clone, Copy)]
pub struct Literal {
    pub gate: Gate,
    pub negated: bool,
}

/// Two literals that both hold where a third one holds, and only there.
#[derive(Clone, Copy)]
pub struct Parts {
    pub first: Literal,
    pub second: Literal,
}

impl Literal {
    /// The literal that holds where this one does not.
    pub(crate) fn opposite(self) -> Literal
        ensures gate { result.gate ≡ self.gate }
        ensures value { (v : ℕ → Bool) → holds v result ≡ not (holds v self) }
    {
        Literal {
            gate: self.gate,
            negated: !self.negated,
        }
    }

    /// Whether both are one literal.
    pub(crate) fn is(self, other: Literal) -> bool
        ensures { IsTrue result → (v : ℕ → Bool) → holds v self ≡ holds v other }
    {
        self.gate.at == other.gate.at && self.negated == other.negated
    }
}

impl Net {
    /// The literal that a gate is: the opposite of the gate that it inverts, else the gate itself. True is the opposite of false.
    pub(crate) fn literal(&self, gate: Gate) -> Literal
        requires { gate.at < length self.now }
        ensures below { result.gate.at < length self.now }
        ensures value { Always self.now (λ choice v. holds v result ≡ v gate.at) }
    {
        self.sound();
        match self.node(gate) {
            Node::Constant(true) => Literal {
                gate: self.constant(false),
                negated: true,
            },
            Node::Not(inner) => Literal {
                gate: inner,
                negated: true,
            },
            _ => Literal {
                gate,
                negated: false,
            },
        }
    }

    /// The two literals that a literal is made to need, or the literal itself twice.
    pub(crate) fn parts(&self, whole: Literal) -> Parts
        requires { whole.gate.at < length self.now }
        ensures { Always self.now (λ choice v. (holds v result.first && holds v result.second) ≡ holds v whole) }
    {
        self.sound();
        match self.node(whole.gate) {
            Node::And(a, b) if !whole.negated => Parts {
                first: self.literal(a),
                second: self.literal(b),
            },
            Node::Or(a, b) if whole.negated => Parts {
                first: self.literal(a).opposite(),
                second: self.literal(b).opposite(),
            },
            _ => Parts {
                first: whole,
                second: whole,
            },
        }
    }

    /// Whether the second literal is seen to hold where the first does: they are one, or it is a part of the first, or the opposite
    /// of the first is a part of its opposite, or the first never holds, or the second always does. The parts of a gate are earlier
    /// gates, so only the later gate is looked into.
    pub(crate) fn leads_to(&self, from: Literal, to: Literal) -> bool
        requires from { from.gate.at < length self.now }
        requires to { to.gate.at < length self.now }
        ensures { IsTrue result → Always self.now (λ choice v. leads (holds v from) (holds v to) ≡ true) }
    {
        let never = Literal {
            gate: self.constant(false),
            negated: false,
        };
        let missed = to.opposite();
        if from.is(to) || from.is(never) || missed.is(never) {
            return true;
        }
        if to.gate.at < from.gate.at {
            self.needs(from, to)
        } else {
            self.needs(missed, from.opposite())
        }
    }

    /// Whether the second literal is one of the two that the first is made to need.
    fn needs(&self, whole: Literal, part: Literal) -> bool
        requires { whole.gate.at < length self.now }
        ensures { IsTrue result → Always self.now (λ choice v. leads (holds v whole) (holds v part) ≡ true) }
    {
        let needed = self.parts(whole);
        needed.first.is(part) || needed.second.is(part)
    }

    /// Whether b is seen to hold where a does.
    pub(crate) fn implies(&self, a: Gate, b: Gate) -> bool
        requires a { a.at < length self.now }
        requires b { b.at < length self.now }
        ensures { IsTrue result → Always self.now (λ choice v. leads (v a.at) (v b.at) ≡ true) }
    {
        self.leads_to(self.literal(a), self.literal(b))
    }

    /// Whether b is seen not to hold where a does.
    pub(crate) fn excludes(&self, a: Gate, b: Gate) -> bool
        requires a { a.at < length self.now }
        requires b { b.at < length self.now }
        ensures { IsTrue result → Always self.now (λ choice v. leads (v a.at) (not (v b.at)) ≡ true) }
    {
        self.leads_to(self.literal(a), self.literal(b).opposite())
    }

    /// Whether b is seen to hold where a does not.
    pub(crate) fn covers(&self, a: Gate, b: Gate) -> bool
        requires a { a.at < length self.now }
        requires b { b.at < length self.now }
        ensures { IsTrue result → Always self.now (λ choice v. leads (not (v a.at)) (v b.at) ≡ true) }
    {
        self.leads_to(self.literal(a).opposite(), self.literal(b))
    }

    /// Whether b is seen to be the opposite of a.
    pub(crate) fn are_opposite(&self, a: Gate, b: Gate) -> bool
        requires a { a.at < length self.now }
        requires b { b.at < length self.now }
        ensures { IsTrue result → Always self.now (λ choice v. v a.at ≡ not (v b.at)) }
    {
        self.literal(a).is(self.literal(b).opposite())
    }
}
