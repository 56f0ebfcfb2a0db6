//! Typed programs: what typing gives of the trees of all files, and the tables of C's types.
//!
//! `expr` and `stmt` have the typed trees, `program` the program that holds them. All of it is plain
//! data: contracts compare programs as they are. The definitions of `specs/` say which kind two
//! operands meet in, how large a type is, where its members lie, and which expressions are constants;
//! `sc_types` has the code that computes them.
#![tactic(auto)]

mod expr;
mod program;
mod stmt;

pub use expr::{TExpr, What};
pub use program::{Extent, FieldDef, Function, Global, Param, Program, StructDef, TBody};
pub use stmt::{Declared, InitStep, TDeclarator, TForStart, TInit, TInitItem, TStmt};
