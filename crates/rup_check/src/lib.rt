//! A checker of certificates that no assignment satisfies some clauses: DRAT steps of which each added
//! clause follows by unit propagation (RUP). `check_proof` answers yes, or the first step that is not
//! allowed. It shares the definition of a certificate with the solver, and no code.
#![tactic(auto)]

mod check;
mod closing;
mod find;
mod index;
mod laws;
mod look;
mod marks;
mod propagate;
mod rup;
mod store;
mod visit;
mod watch;

pub use check::{Checked, check_proof};
pub use laws::{accepted_clauses_have_no_model, one_answer, refused_steps_are_no_certificate};
