//! The rules of statements (C11 6.8) on expressions and statements that have their types.
//!
//! `forms` makes a statement of its parts, `statements` judges conditions, `case`, `break`, `continue` and `return`, and
//! `choices` finds what stands twice in a `switch`.
#![tactic(auto)]

mod choices;
mod forms;
mod statements;

pub use choices::{Choice, choices_differ};
pub use forms::{
    all_items, block_of, do_of, expression_of, for_of, if_else_of, if_of, label_of, optional,
    start_of, switch_of, while_of,
};
pub use statements::{case_number, case_of, jump, return_as, scalar, switched};
