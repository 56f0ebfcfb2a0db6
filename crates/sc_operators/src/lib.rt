//! The rules of operators between two or three operands (C11 6.5.5 to 6.5.15, 6.5.17), on operands that have their
//! types: what each makes of them, or which fault it finds. Assignment, `++` and `--` are in `sc_assignments`,
//! operators on one operand in `sc_unary`, calls in `sc_calls`; the walk over the trees is above all of them.
//!
//! Each function is proved to give exactly what its definition in `specs/` says.
#![tactic(auto)]

mod binary;
mod conditionals;

pub use binary::binary_operation;
pub use conditionals::{comma, conditional};
