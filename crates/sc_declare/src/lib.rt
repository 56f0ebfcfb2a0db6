//! Declarations (C11 6.7): what becomes of a function, a typedef name, a variable with linkage and a local where it
//! is declared.
//!
//! `functions` has functions that are declared (C11 6.7.6.3), `linkage` variables with linkage and `numbers` the
//! look-up of their globals by hash (C11 6.2.2), `locals` the variables of a body, `storage` the storage words
//! (C11 6.7.1). `declarators` puts them together for declarators without initialisers.
#![tactic(auto)]

mod declarators;
mod functions;
mod linkage;
mod locals;
mod numbers;
mod storage;

pub use declarators::{extern_declared, function_declared, typedef_declared};
pub use functions::{
    Parameter, declare_function, declare_function_if, local_function, no_opaque, signature_at,
    signature_of,
};
pub use linkage::{Linked, declare_global};
pub use locals::{add_local, declare_local, lengthen};
pub use numbers::GlobalNumbers;
pub use storage::{has_extern, has_local, has_static, has_typedef};
