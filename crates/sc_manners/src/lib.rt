//! The manner in which an operator between two operands treats them (C11 6.5.5 to 6.5.14), and two questions on
//! such operands. `a op b` (in `sc_operators`) and `a op= b` (in `sc_assignments`) go by the same manner.
//!
//! Each function is proved to give exactly what its definition in `specs/` says.
#![tactic(auto)]

mod manners;

pub use manners::{Manner, both_integers, manner_of, some_pointer};
