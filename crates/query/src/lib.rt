//! Questions to a solver that ask for more than one answer: the least values that some literals have in a model (`least`), and all
//! values that they have in models (`occurring`). `occurring` asks under assumptions and leaves the clauses as they are; `least` adds
//! clauses over new variables alone. Both keep the values of the model found last, and ask nothing that it answers.
#![tactic(auto)]

mod fixing;
mod least_model;
mod lower;
mod occurrences;

pub use least_model::least;
pub use occurrences::occurring;
