//! Which expressions of a graph have gates.
//!
//! `around` has what a walk over an expression reads, `operands` what is wanted of the operands of an operator, `fits` the
//! test whether an expression of the text has gates and `nodes` that of the expression of a node, with `kinds` for what temps
//! keep, `types` for the types of its parts and `places` for the locations that it names.
#![tactic(auto)]

mod around;
mod fits;
mod kinds;
mod nodes;
mod operands;
mod places;
mod types;

pub use around::{Around, member_name, type_of};
pub use fits::can_walk;
pub use kinds::Kind;
pub use nodes::{can_apply, can_walk_node};
pub use operands::{Arity, arity_of, first_wanted, second_wanted};
pub use places::{field_fits, indexed_fits, is_stub_there, is_typed_there};
pub use types::{
    assign_fits, binary_fits, conversion_fits, count_fits, is_read, number_fits, object_wanted,
    operand_wanted, right_wanted, unary_fits, unless_array,
};
