//! What becomes of objects in the runs of a function, as gates.
//!
//! `objects` has what is read of objects, `cells` where pointers lead, `holders` the pointers by which others hold objects, `roots` the objects
//! where walks begin, `leading` the steps of walks, `walking` the objects to which they lead, `fates` what became of objects and pointers, and
//! `losing` the objects that are lost.
#![tactic(auto)]

mod cells;
mod fates;
mod holders;
mod leading;
mod losing;
mod objects;
mod roots;
mod walking;

pub use fates::{escape_from, fate_is, is_escaped, kind_is};
pub use losing::{loses, loss_from};
pub use objects::root_at;
pub use roots::{Beside, From};
pub use walking::{Walk, reaches, walked};
