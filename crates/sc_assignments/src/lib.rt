//! The rules of `++`, `--` (C11 6.5.2.4, 6.5.3.1) and of assignment (C11 6.5.16), on operands that have their types:
//! what each makes of them, or which fault it finds. The walk over the trees is above.
//!
//! Each function is proved to give exactly what its definition in `specs/` says.
#![tactic(auto)]

mod assignments;

pub use assignments::{assignment, post_increment, pre_increment};
