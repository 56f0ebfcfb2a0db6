//! What the walk over expressions, types and declarators makes of each part, once the parts of that part are typed
//! (C11 6.4.5, 6.5, 6.7): names, constants, strings, operators on operands in which a fault may stand, lengths,
//! bounds of types, parameters, members, enumerators. The walk itself stands above this crate.
#![tactic(auto)]

mod bounds;
mod declarators;
mod fields;
mod names;
mod operands;

pub use bounds::bounded;
pub use declarators::{
    adjusted, array_of, function_with, length_given, no_array, no_function, parameter_of,
    pointer_to, types_of,
};
pub use fields::{
    aggregate_kind, aggregate_type, enumerator, enumerator_value, member_object, new_member,
    width_given, with_field,
};
pub use names::{a_name, a_typedef, character, string, undeclared};
pub use operands::{
    accessed, assignment_to, binary_of, called, cast_of, comma_of, field_of, index_of, indexed,
    post_increment_of, pre_increment_of, sizeof_of, sizeof_type_of, unary_of, valued,
};
