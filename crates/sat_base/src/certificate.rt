// What a certificate speaks of: lists of clauses, and steps that add or take out a clause, as DRAT
// text has them. The definitions are in specs/Certificates.antt; the functions at the end state what a
// certificate shows.

ghost use Rattle.std.specs.Prelude.{◌≡◌, ◌++◌, ◌∷◌, [], ℕ, Bool, List, true, false, OnOk, OnErr};
ghost use Rattle.sat_base.specs.declared.literal.Lit.{Lit};

use crate::{Clause, OutOfMemory};
use std::alloc::Global;
use std::marker::Model;

/// A list of clauses. Contracts see it as the list of the lists of their literals.
#[derive(Debug, Drop)]
pub struct ClauseList {
    list: Vec<Clause>,
}

impl Model for ClauseList {
    ghost use Rattle.std.specs.Prelude.{List};
    ghost use Rattle.sat_base.specs.declared.literal.Lit.{Lit};

    ghost Value = { List (List Lit) };

    ghost view = { λ l. l.list.items };
}

impl ClauseList {
    /// No clause. It takes no memory.
    pub fn new(alloc: Global) -> ClauseList
        ensures { result ≡ [] }
    {
        ClauseList {
            list: Vec::new(alloc),
        }
    }

    /// Puts a clause at the end.
    pub fn push(&mut self, clause: Clause) -> Result<(), OutOfMemory>
        ensures ok { OnOk result (self.new ≡ self.old ++ clause ∷ []) }
        ensures err { OnErr result (self.new ≡ self.old) }
    {
        self.list.push(clause)?;
        Ok(())
    }

    /// The clauses, lent.
    pub fn clauses(&self) -> &[Clause]
        ensures { result.now ≡ self.now }
    {
        self.list.as_slice()
    }
}

/// A step of a certificate.
#[derive(Debug, Drop)]
pub enum Step {
    /// Adds this clause.
    Add(Clause),
    /// Takes out one clause with the literals of this one.
    Drop(Clause),
}

/// The steps of a certificate, in their order.
#[derive(Debug, Drop)]
pub struct Log {
    steps: Vec<Step>,
}

impl Model for Log {
    ghost use Rattle.std.specs.Prelude.{List};
    ghost use Rattle.sat_base.specs.declared.certificate.Step.{Step};

    ghost Value = { List Step };

    ghost view = { λ l. l.steps.items };
}

impl Log {
    /// No step. It takes no memory.
    pub fn new(alloc: Global) -> Log
        ensures { result ≡ [] }
    {
        Log {
            steps: Vec::new(alloc),
        }
    }

    /// Puts a step at the end.
    pub fn push(&mut self, step: Step) -> Result<(), OutOfMemory>
        ensures ok { OnOk result (self.new ≡ self.old ++ step ∷ []) }
        ensures err { OnErr result (self.new ≡ self.old) }
    {
        self.steps.push(step)?;
        Ok(())
    }

    /// The steps, lent.
    pub fn steps(&self) -> &[Step]
        ensures { result.now ≡ self.now }
    {
        self.steps.as_slice()
    }
}
