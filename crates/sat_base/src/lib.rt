// Boolean satisfiability: literals and clauses, what a solver is (`Solver`), and `Plain`, a small
// solver that splits on one variable after the other. The faster solver of this repository and
// the questions that are asked of either stand on the trait alone; `Plain` is what tests hold the
// faster one against. A certificate shows that no assignment satisfies some clauses: `certificate`
// has its form, and `laws` what it shows.
#![tactic(auto)]

pub mod certificate;
pub mod clause;
mod fault;
pub mod laws;
pub mod literal;
pub mod plain;
mod propagate;
pub mod solver;
mod split;

pub use certificate::{ClauseList, Log, Step};
pub use clause::Clause;
pub use fault::OutOfMemory;
pub use literal::Lit;
pub use plain::Plain;
pub use solver::{Answer, Solver};
