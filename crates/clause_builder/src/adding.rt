//! Clauses of one, two and three literals, added to any solver.
ghost use Rattle.std.specs.Prelude.{◌≡◌, ◌<◌, ◌≤◌, ◌||◌, ℕ, OnOk};
ghost use Rattle.sat_base.specs.Logic.{lit_true};
ghost use Rattle.clause_builder.specs.Adding.{Adds, AddsFresh};

use sat_base::{Lit, OutOfMemory, Solver};

/// Adds a clause of one literal.
#[tactic(auto, using(crate::proofs::Clauses::below_one, crate::proofs::Clauses::adds_one, crate::proofs::Clauses::fresh_same, crate::proofs::Clauses::fresh_one))]
pub fn add_one<S: Solver>(s: &mut S, a: Lit) -> Result<(), OutOfMemory>
    requires { a.var < S.vars s.old }
    ensures vars { S.vars s.new ≡ S.vars s.old }
    ensures ok { OnOk result (Adds (S.clauses s.old) (S.clauses s.new) (λ f. lit_true f a)) }
    ensures fresh { (base : ℕ) → base ≤ a.var → AddsFresh base (S.clauses s.old) (S.clauses s.new) }
{
    s.add(&[a])
}

/// Adds a clause of two literals.
#[tactic(auto, using(crate::proofs::Clauses::below_two, crate::proofs::Clauses::adds_two, crate::proofs::Clauses::fresh_same, crate::proofs::Clauses::fresh_two))]
pub fn add_two<S: Solver>(s: &mut S, a: Lit, b: Lit) -> Result<(), OutOfMemory>
    requires a { a.var < S.vars s.old }
    requires b { b.var < S.vars s.old }
    ensures vars { S.vars s.new ≡ S.vars s.old }
    ensures ok { OnOk result (Adds (S.clauses s.old) (S.clauses s.new) (λ f. lit_true f a || lit_true f b)) }
    ensures fresh { (base : ℕ) → base ≤ a.var → base ≤ b.var → AddsFresh base (S.clauses s.old) (S.clauses s.new) }
{
    s.add(&[a, b])
}

/// Adds a clause of three literals.
#[tactic(auto, using(crate::proofs::Clauses::below_three, crate::proofs::Clauses::adds_three, crate::proofs::Clauses::fresh_same, crate::proofs::Clauses::fresh_three))]
pub fn add_three<S: Solver>(s: &mut S, a: Lit, b: Lit, c: Lit) -> Result<(), OutOfMemory>
    requires a { a.var < S.vars s.old }
    requires b { b.var < S.vars s.old }
    requires c { c.var < S.vars s.old }
    ensures vars { S.vars s.new ≡ S.vars s.old }
    ensures ok { OnOk result (Adds (S.clauses s.old) (S.clauses s.new) (λ f. lit_true f a || lit_true f b || lit_true f c)) }
    ensures fresh { (base : ℕ) → base ≤ a.var → base ≤ b.var → base ≤ c.var → AddsFresh base (S.clauses s.old) (S.clauses s.new) }
{
    s.add(&[a, b, c])
}
