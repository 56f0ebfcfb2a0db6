//! Lists of choices, one after the other: the step from a list to the one behind it, and the law that from list to list
//! all are tried.
#![tactic(auto)]

mod behind;
mod laws;

pub use behind::step;
pub use laws::every_list_is_tried;
