//! Errors of a known call, and what it does to the objects of its parameters, as gates, for every choice at once.
//!
//! `errors` has the errors of items one after the other, `failing` an error at what a set points to, `params` what becomes of the
//! objects of parameters, and `laws` why errors one after the other are the first error.
#![tactic(auto)]

mod errors;
mod failing;
mod laws;
mod params;

pub use errors::errs_each;
pub use laws::first_error_ends;
pub use params::params_act;
