// What a solver is. It is seen as a number of variables and a list of clauses, which its questions
// keep; after the answer `Model` also as the values that it found.

ghost use Rattle.std.specs.Prelude.{◌≡◌, ◌+◌, ◌++◌, [], ◌∷◌, OnOk, OnErr, IfOk};

use crate::{Lit, OutOfMemory};

/// The answer to a question: whether some assignment satisfies all clauses of the solver and
/// makes all assumed literals true.
#[derive(Clone, Copy, Debug, PartialEq, Eq)]
pub enum Answer {
    /// Some assignment does, and `model` gives one.
    Model,
    /// None does.
    NoModel,
}

/// A solver of clauses. Variables that are given to it exist: `fresh` made them. Where memory is
/// refused, the variables and the clauses are as before.
pub trait Solver {
    ghost use Rattle.std.specs.Prelude.{◌≡◌, ◌<◌, ◌+◌, ℕ, Bool, List, [], ◌∷◌, ◌++◌, length, OnOk, OnErr, IfOk};
    ghost use Rattle.sat_base.specs.declared.literal.Lit.{Lit};
    ghost use Rattle.sat_base.specs.Logic.{at, LitsBelow, ClausesBelow, Answers};

    /// The number of variables.
    ghost vars: { Self → ℕ };
    /// The clauses, in the order in which they were added.
    ghost clauses: { Self → List (List Lit) };
    /// The value of each variable in the model that was found last; it may be asked for until the
    /// next call that changes the solver.
    ghost found: { Self → List Bool };

    /// Makes a variable that no clause speaks of, and gives its number.
    fn fresh(&mut self) -> Result<usize, OutOfMemory>
        ensures unused { ClausesBelow (vars self.old) (clauses self.old) }
        ensures clauses { clauses self.new ≡ clauses self.old }
        ensures ok { IfOk result (λ var. (var ≡ vars self.old) × (vars self.new ≡ vars self.old + 1)) }
        ensures err { OnErr result (vars self.new ≡ vars self.old) };

    /// Adds a clause.
    fn add(&mut self, clause: &[Lit]) -> Result<(), OutOfMemory>
        requires { LitsBelow (vars self.old) clause.now }
        ensures vars { vars self.new ≡ vars self.old }
        ensures ok { OnOk result (clauses self.new ≡ clauses self.old ++ clause.now ∷ []) }
        ensures err { OnErr result (clauses self.new ≡ clauses self.old) };

    /// Asks whether some assignment satisfies all clauses and the assumed literals. The
    /// assumptions hold for this question alone.
    fn solve(&mut self, assumed: &[Lit]) -> Result<Answer, OutOfMemory>
        requires { LitsBelow (vars self.old) assumed.now }
        ensures vars { vars self.new ≡ vars self.old }
        ensures clauses { clauses self.new ≡ clauses self.old }
        ensures answer { IfOk result (λ answer. Answers answer (vars self.old) (clauses self.old) assumed.now (found self.new)) };

    /// A hint: these literals are to be decided first, in their order, as false, from now on and
    /// until the next hint; without literals it is taken back. It takes no memory. No answer and no
    /// model is less right if the solver does otherwise.
    fn prefer(&mut self, lits: Vec<Lit>)
        ensures vars { vars self.new ≡ vars self.old }
        ensures clauses { clauses self.new ≡ clauses self.old }
        ensures found { found self.new ≡ found self.old };

    /// The value of a variable in the model that was found. It takes no memory.
    fn model(&self, var: usize) -> bool
        requires { var < length (found self.now) }
        ensures { result ≡ at (found self.now) var };
}
