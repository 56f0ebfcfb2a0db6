//! What a choice says, as JSON, thing by thing: of each location the value of its cell and its state at entry; of each call
//! in each turn of the loops round it what it gives, and what it does to what its callee's summary speaks of.
//!
//! `speech` has what is read. `words` puts what is said of one thing, `calls` which call it is of, and `says` all of it.
#![tactic(auto)]

mod calls;
mod says;
mod speech;
mod words;

pub use says::put_says;
