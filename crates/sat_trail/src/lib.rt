// The trail of a learning solver, and what puts steps on it: unit propagation over watched literals, and
// decisions, with the order in which variables are decided. Each implied literal follows from what stands
// before it; it is read from the clause itself, so that nothing rests on the lists or on the order.
#![tactic(auto)]

mod activity;
mod decisions;
mod propagate;
mod trail;

pub use activity::Activity;
pub use decisions::{Choice, decide};
pub use propagate::{open_beside, settle};
pub use trail::{Put, Step, Trail, differs};
