//! Laws on the worlds of runs: what holds of the store at entry and after every step. Each law is the clause of a
//! function that does nothing.
#![tactic(auto)]

mod laws;

pub use laws::{
    a_function_fits, layouts_are_closed, results_are_of_their_types,
    rows_of_locations_are_those_of_runs, values_are_of_their_types, worlds_stay_proper,
};
