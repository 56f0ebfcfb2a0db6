//! The rules of calls (C11 6.5.2.2) on a callee and arguments that have their types: how many arguments a
//! function takes, what becomes of each, and what the built-in functions give and take.
//!
//! Each function is proved to give exactly what its definition in `specs/` says.
#![tactic(auto)]

mod builtins;
mod calls;

pub use builtins::builtin;
pub use calls::{
    BuiltinName, builtin_call, call, called_signature, callee, prototype, unknown_function,
    with_result,
};
