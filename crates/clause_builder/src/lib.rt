//! From gates to clauses. `load` gives each gate of a net a fresh variable of a solver, and adds clauses by which every choice of the
//! inputs leaves those variables just one assignment: the values of the gates for that choice. So a question about the net becomes
//! one about clauses. A `Loader` does the same for the cone of one gate after the other, while the net and the solver grow.
#![tactic(auto)]

mod adding;
mod cone;
mod gate_clauses;
mod loader;
mod loading;
mod marked;
mod node_lits;

pub use loader::{Loader, what_is_loaded_stays};
pub use loading::{Lits, load};
