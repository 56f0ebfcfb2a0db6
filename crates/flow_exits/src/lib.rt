//! What a function gives where it ends: a graph that gives nothing but what calls of type `void` and casts to `void` give has the walks of
//! one that ends without a value. `laws` has that, and `endings` makes that graph. `marks` marks temps.
#![tactic(auto)]

mod endings;
mod laws;
mod marks;

pub use endings::without_values;
pub use laws::{nodes_stay, walks_stay};
pub use marks::{mark, marked, unmarked};
