//! A formula with the steps that are to refute it.

ghost use Rattle.std.specs.Prelude.{◌≡◌};

use sat_base::{ClauseList, Step};
use std::marker::Model;

/// The number of variables, the clauses of a formula, and steps that are to show that no assignment satisfies
/// them. Contracts see these three.
#[derive(Debug, Drop)]
pub struct Certificate {
    vars: usize,
    clauses: ClauseList,
    steps: Vec<Step>,
}

impl Model for Certificate {
    ghost use Rattle.drat_text.specs.Certificate.{Contents};

    ghost Value = { Contents };

    ghost view = { λ c. record { vars = c.vars; clauses = c.clauses; steps = c.steps.items } };
}

impl Certificate {
    /// The certificate of these parts. It takes no memory.
    pub fn of(vars: usize, clauses: ClauseList, steps: Vec<Step>) -> Certificate
        ensures { result ≡ record { vars = vars; clauses = clauses; steps = steps.items } }
    {
        Certificate {
            vars,
            clauses,
            steps,
        }
    }

    /// The number of variables.
    pub fn vars(&self) -> usize
        ensures { result ≡ self.now.vars }
    {
        self.vars
    }

    /// The clauses of the formula.
    pub fn clauses(&self) -> &ClauseList
        ensures { result.now ≡ self.now.clauses }
    {
        &self.clauses
    }

    /// The steps.
    pub fn steps(&self) -> &Vec<Step>
        ensures { result.now.items ≡ self.now.steps }
    {
        &self.steps
    }
}
