//! Values and places of a run: what expressions do that is no call and holds no other expression.
//!
//! `want` has what stands at a place, `conversions` the conversions, `operators` the operators, `assign` assignments and
//! counting, `parts` members and elements, `lvalues` what an lvalue gives, `objects` the cells of an object and how
//! objects are copied. Each function does what the definition of its name in `sc_world` does. None takes memory.
#![tactic(auto)]

mod assign;
mod conversions;
mod lookup;
mod lvalues;
mod objects;
mod operators;
mod parts;
mod want;

pub use assign::{assign_combined, assign_value, counted_after, counted_before};
pub use conversions::{convert, has_sign, is_array};
pub use lookup::location_of;
pub use lvalues::{array_index, indirection, member_behind, member_of, pointer_index};
pub use objects::{copy, keep};
pub use operators::{is_logical, needs_right, operated, signed_as, truth_cell};
pub use parts::first_element;
pub use want::{Want, kept_place, wanted};
