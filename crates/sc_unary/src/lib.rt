//! The rules of integer constants, operators on one operand, casts, `sizeof`, indexing and members (C11 6.4.4.1,
//! 6.5.2.1, 6.5.2.3, 6.5.3, 6.5.4), on operands that have their types: what each makes of them, or which fault it
//! finds.
//!
//! Each function is proved to give exactly what its definition in `specs/` says.
#![tactic(auto)]

mod members;
mod operators;

pub use members::{Meant, field, fields_of, find_member};
pub use operators::{
    cast, index, int_constant, size_of_expression, size_of_type, size_type, unary,
};
