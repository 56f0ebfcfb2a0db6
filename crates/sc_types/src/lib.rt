//! The tables of C's types in code: in which kind operands meet, how large a type is, when two types
//! agree, what an operator makes of two numbers, and which expressions are constants.
//!
//! Each function is proved to give exactly what its definition in `sc_typed` says. `kinds` has integer
//! kinds, `types` the sorts of types, `equality` and `copies` what they say, `agreement` compatible and
//! composite types, `extents` sizes and alignments, `arith` numbers of a fixed width, `constants`
//! constant expressions. Only copies and composite types take memory.
#![tactic(auto)]

mod agreement;
mod arith;
mod constants;
mod copies;
mod equality;
mod extents;
mod kinds;
mod types;

pub use agreement::{compatible, compatible_signature, composite, composite_signature};
pub use arith::{computed, converted, fits, number, of_one, resized, signed, takes, truth};
pub use constants::{
    constant, constant_bits, constant_kind, is_lvalue, is_null_constant, is_null_integer,
};
pub use copies::{copy_signature, copy_type, copy_types};
pub use equality::{same, same_flag, same_length, same_opaque, same_signature};
pub use extents::{extent, size, struct_extent};
pub use kinds::{common, is_signed, kind_bits, kind_bytes, promoted, rank, same_kind, word_bytes};
pub use types::{
    has_sign, is_aggregate, is_array, is_bool, is_function, is_integer, is_pointer, is_scalar,
    is_void, is_void_pointer, promoted_kind, target, value_bits,
};
