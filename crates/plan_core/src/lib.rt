//! The order in which the functions of a program are analysed, and the core of the database that
//! holds their summaries. A call graph is made free of cycles by cutting edges (`plan`); a function
//! may then be claimed by a worker once all callees that it keeps are published, and is published
//! by the worker that claimed it (`state`). `laws` says what follows for every order of claims and
//! publications, by any number of workers. No thread stands here: the database of the running
//! workers takes the same steps, and cites the same definitions.
#![tactic(auto)]

pub mod laws;
pub mod mark;
mod order;
pub mod plan;
pub mod state;

pub use mark::Mark;
pub use plan::{Edge, Plan};
pub use state::CoreState;
