//! Laws of typing: the walk over expressions, types and declarators declares no variable with linkage, so it leaves
//! the globals of the walk as they are. So do functions, typedef names and locals that are declared, and initialisers.
//! A law is a function with an empty body whose clause says it.
#![tactic(auto)]

mod declarations;
mod laws;

pub use declarations::{
    braces_keep_globals, functions_keep_globals, lengthening_keeps_globals, lengths_keep_globals,
    locals_keep_globals, objects_keep_globals, one_value_keeps_globals, typedefs_keep_globals,
};
pub use laws::{
    declarators_keep_globals, expressions_keep_globals, heads_keep_globals,
    specifiers_keep_globals, values_keep_globals,
};
