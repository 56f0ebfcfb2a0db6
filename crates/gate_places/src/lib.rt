//! Pointers that are followed, and the places behind them, as gates (C11 6.5.2.1, 6.5.2.3, 6.5.3.2, 6.5.16).
//!
//! A pointer is a guarded set of targets. `checks` has what is asked of each target, and sets the run aside where the target
//! that the choice gives fails; `following` has the checks in the order in which their reasons count. `places` has what
//! stands at a place and what is stored there, and `members` the parts of objects.
#![tactic(auto)]

mod checks;
mod following;
mod members;
mod places;

pub use checks::{Check, check_target};
pub use following::{dereference, reach};
pub use members::{Way, first_element, member_behind, member_of, part};
pub use places::{assign, indirection, pointer_index, wanted};
