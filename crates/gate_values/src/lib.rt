//! Values of expressions as gates (C11 6.3, 6.5): truth, conversions between integers, and operators in every width.
//!
//! `values` makes values and asks whether they are true, `words` has what is made of one number, `operators` what is
//! made of two, `pointers` compares pointers, and `binary` has an operator on two values, which may set the run aside.
//! For every choice each of them gives what the definition gives for the values of that choice.
#![tactic(auto)]

mod binary;
mod operators;
mod pointers;
mod values;
mod words;

pub use binary::operated;
pub use operators::{computed, taken};
pub use pointers::same_target;
pub use values::{null, number, of_truth, truth};
pub use words::{resized, signed_as};
