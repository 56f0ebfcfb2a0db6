//! Whether a function fits its layout, found out at run time: what each expression, each initialiser and each statement
//! of it names is among the locations, and has the type that stands there.
//!
//! `function` has the test of a whole function, `statements` that of statements, `declarations` that of declarations in
//! bodies, with `parts` for what an initialiser in braces leads to, and `expressions` that of expressions, with `calls`
//! for their calls. `laid` has what the test reads.
#![tactic(auto)]

mod calls;
mod declarations;
mod expressions;
mod function;
mod laid;
mod parts;
mod statements;

pub use function::function_fits;
