//! What compound assignment, `++` and `--` make of values, as gates (C11 6.5.2.4, 6.5.3.1, 6.5.16.2).
#![tactic(auto)]

mod changes;

pub use changes::{combined, counted};
