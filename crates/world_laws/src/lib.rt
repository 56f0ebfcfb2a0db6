//! Laws on runs: what holds of the rows and the reports of every function. Each law is the clause of a function that
//! does nothing but cite others.
#![tactic(auto)]

mod laws;

pub use laws::{
    each_error_has_its_report, rows_are_in_order, rows_are_those_of_runs, set_aside_shows_nothing,
    shown_choices_are_least,
};
