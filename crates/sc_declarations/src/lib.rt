//! Declarations with their initialisers, at file scope and in a body (C11 6.7, 6.7.9).
//!
//! `initialisers` has the initialisers of locals, `locals` the variables of a body without linkage, `laws` that these
//! have no global, `declarations` declarations and their declarators.
#![tactic(auto)]

mod declarations;
mod initialisers;
mod laws;
mod locals;

pub use declarations::declaration;
