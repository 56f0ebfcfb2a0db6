//! The answers to a formula in DIMACS CNF.
//!
//! `formula` reads its text. `deciding` finds a model or that there is none, and `certifying` gives a certificate with
//! the latter. `solver` puts the clauses into the learning solver and takes the model from it; `values` writes its
//! lines.
#![tactic(auto)]

mod certifying;
mod deciding;
mod formula;
mod solver;
mod values;

pub use certifying::{Certified, certify};
pub use deciding::{Decided, decide};
pub use formula::{FormulaError, read_formula};
