//! Nodes of a graph that set locals and keep the cells of values (C11 6.7.9), behind the evaluation of their expressions.
//!
//! `setting` has nodes that set a local to one value, a number, a pointer or an object; `giving` nodes that keep the cells of a value in a slot;
//! `filling` nodes that set the parts of a local to kept cells. `slots` has what is kept in slots, and `readings` what a slot has that several
//! nodes keep.
#![tactic(auto)]

mod filling;
mod giving;
mod laid;
mod readings;
mod setting;
mod slots;

pub use filling::{Filling, fill};
pub use giving::{Giving, keep_cells};
pub use laid::Laid;
pub use readings::merged;
pub use setting::{Setting, set};
pub use slots::{Given, settle};
