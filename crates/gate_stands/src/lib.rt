//! Whether the rows of a summary stand that a known call needs, as gates, for every choice at once.
//!
//! `locks` has the rows of locations, `params` those of parameters, `outs` those of the pointers that parameters point to, and
//! `exits` those of the end; each is sought by its parts, as `sought` puts them together. `standing` has all of them. Nothing of the store is changed.
#![tactic(auto)]

mod exits;
mod locks;
mod outs;
mod params;
mod sought;
mod standing;

pub use standing::rows_stand;
