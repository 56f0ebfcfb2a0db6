//! The typing of expressions, types and declarators (C11 6.5, 6.7): the walk over the trees that hold one another.
//! Each part is typed, and then the rule of its kind (`sc_parts` and the crates below) is asked.
//!
//! `tables` has what stays the same on the way through a file, `calls` calls, `shapes` what a declarator makes of a
//! type, `names` the names of expressions and declarators, `typing` the walk.
#![tactic(auto)]

mod calls;
mod names;
mod shapes;
mod tables;
mod typing;

pub use shapes::{Own, Shape};
pub use tables::Tables;
pub use typing::{declarator, expression, head, specifiers, valued_expression};
